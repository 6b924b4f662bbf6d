ghost use Rattle.print.specs.Printing.{Prints};
ghost use Rattle.audit.specs.Words.{outcome_line};

use fault::fault::Fault;
use print::print::Printer;
use std::alloc::AllocError;
use std::fmt;

// What a statement that was not refused did.
#[derive(Clone, Copy)]
pub enum Done {
    Accepted,
    Schema(i32),
    Version(i32),
    NotRun,
}

impl fmt::Display for Done {
    ghost use Rattle.std.specs.Prelude.{Some};
    ghost use Rattle.audit.specs.Words.{done_words};

    ghost output = { λ done. Some (done_words done) };

    fn fmt<W: fmt::Write>(&self, f: &mut fmt::Formatter<W>) -> fmt::Result {
        match self {
            Done::Accepted => write!(f, "accepted"),
            Done::Schema(id) => write!(f, "schema {id}"),
            Done::Version(id) => write!(f, "version {id}"),
            Done::NotRun => write!(f, "not run"),
        }
    }
}

// # line N: STATEMENT: what it did, or refused NUMBER LETTER POSITION
// Kept: the printer is handed to each function of this crate; a struct around it would hold nothing else. Fixed words go out as they
// are, since a line is printed for each statement, and `write!` writes its words twice, into a text and then out.
pub fn print_outcome(
    printer: &mut Printer<'_>,
    number: usize,
    statement: &str,
    outcome: Result<Done, Fault>,
) -> Result<(), AllocError>
    ensures { Prints printer.old result printer.new (outcome_line number statement.now outcome) }
{
    printer.words("# line ")?;
    write!(printer, "{number}")?;
    printer.words(": ")?;
    printer.words(statement)?;
    match outcome {
        Ok(Done::Accepted) => printer.words(": accepted\n"),
        Ok(Done::NotRun) => printer.words(": not run\n"),
        Ok(done) => writeln!(printer, ": {done}"),
        Err(fault) => writeln!(printer, ": refused {fault}"),
    }
}
