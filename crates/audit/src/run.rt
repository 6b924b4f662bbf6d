ghost use Rattle.std.specs.Prelude.{◌≡◌, ◌++◌};

use super::outcome::{Done, print_outcome};
use super::report::print_built;
use fault::fault::Fault;
use print::print::Printer;
use schema::sealed::SealedSchema;
use script::read::read_script;
use script::script::{Line, Lists, Script, Statement};
use std::alloc::{AllocError, Global};
use text::property::Property;
use text::text::Text;
use version::view_version::{ViewVersion, ViewVersionLog};
use view::begin::{
    Beginning, MAX_CHANGES, MAX_LOG_ENTRIES, MAX_PROPERTIES, MAX_SCHEMAS, MAX_VERSIONS, begin,
};
use view::view_metadata_builder::ViewMetadataBuilder;
use view::view_update::ViewUpdate;

// The builder of a script's view: its texts and lists are the script's.
type Builder<'s, 'a> = ViewMetadataBuilder<'s, 'a, 's, SealedSchema>;

// What a statement does to the builder.
fn run_edit<'s>(
    builder: &mut Builder<'s, '_>,
    statement: Statement,
    lists: &'s Lists,
) -> Result<Done, Fault> {
    let done = match statement {
        Statement::SetLocation { location } => {
            builder.set_location(location)?;
            Done::Accepted
        }
        Statement::AddSchema { schema } => Done::Schema(builder.add_schema(schema)?),
        Statement::AddVersion { version } => {
            let version = version.version(lists);
            Done::Version(builder.add_version(version)?)
        }
        Statement::SetCurrent { version_id, clock } => {
            builder.set_current_version_id(version_id, clock)?;
            Done::Accepted
        }
        Statement::SetCurrentVersion {
            schema,
            version,
            clock,
        } => {
            builder.set_current_version(schema, version.version(lists), clock)?;
            Done::Accepted
        }
        Statement::SetProperties { updates } => {
            builder.set_properties(updates.part(lists.properties.as_slice()))?;
            Done::Accepted
        }
        Statement::Begin { .. } | Statement::Build => Done::NotRun,
    };
    Ok(done)
}

// The lines before the first build, and those from it on.
fn split_at_build(lines: &[Line]) -> (&[Line], &[Line])
    ensures { result.0.now ++ result.1.now ≡ lines.now }
{
    let build = lines
        .iter()
        .position(|line| matches!(line.statement, Statement::Build));
    lines.split_at(build.unwrap_or(lines.len()))
}

// Runs the statements before the first build.
fn run_edits<'s>(
    builder: &mut Builder<'s, '_>,
    lines: &[Line],
    lists: &'s Lists,
    printer: &mut Printer<'_>,
) -> Result<(), AllocError> {
    for line in lines {
        let outcome = run_edit(builder, line.statement, lists);
        print_outcome(printer, line.number, line.statement.name(), outcome)?;
    }
    Ok(())
}

// Says of lines that they are not run.
fn skip_rest(lines: &[Line], printer: &mut Printer<'_>) -> Result<(), AllocError> {
    for line in lines {
        print_outcome(printer, line.number, "after the build", Ok(Done::NotRun))?;
    }
    Ok(())
}

// What the tables hold before they are lent.
// Kept: arrays and not Vecs, since the library takes tables of fixed sizes.
const NO_TEXT: Text = Text {
    place: 0,
    length: 0,
};

const NO_SCHEMA: SealedSchema = SealedSchema {
    schema_id: 0,
    text: NO_TEXT,
    highest_field_id: 0,
};

const NO_VERSION: ViewVersion<'static> = ViewVersion {
    version_id: 0,
    schema_id: 0,
    timestamp_ms: 0,
    summary: &[],
    representations: &[],
    default_catalog: None,
    default_namespace: &[],
};

const NO_ENTRY: ViewVersionLog = ViewVersionLog {
    version_id: 0,
    timestamp_ms: 0,
};

const NO_PROPERTY: Property = Property {
    key: NO_TEXT,
    value: NO_TEXT,
};

const NO_CHANGE: ViewUpdate<'static, SealedSchema> = ViewUpdate::SetCurrentViewVersion {
    view_version_id: 0,
};

// Lends the tables, runs the statements after `begin` up to the first build, and prints what is built.
fn run_begun<'s>(
    beginning: Beginning<'s>,
    lines: &[Line],
    lists: &'s Lists,
    printer: &mut Printer<'_>,
) -> Result<(), AllocError> {
    let mut schemas = [NO_SCHEMA; MAX_SCHEMAS];
    let mut versions = [NO_VERSION; MAX_VERSIONS];
    let mut version_log = [NO_ENTRY; MAX_LOG_ENTRIES];
    let mut properties = [NO_PROPERTY; MAX_PROPERTIES];
    let mut changes = [NO_CHANGE; MAX_CHANGES];
    let mut builder = beginning.lend(
        &mut schemas,
        &mut versions,
        &mut version_log,
        &mut properties,
        &mut changes,
    );
    let (edits, rest) = split_at_build(lines);
    run_edits(&mut builder, edits, lists, printer)?;
    let [build, after @ ..] = rest else {
        return Ok(());
    };
    match builder.build() {
        Ok(built) => {
            print_outcome(
                printer,
                build.number,
                build.statement.name(),
                Ok(Done::Accepted),
            )?;
            skip_rest(after, printer)?;
            print_built(printer, &built)
        }
        Err(refused) => {
            print_outcome(
                printer,
                build.number,
                build.statement.name(),
                Err(refused.fault),
            )?;
            skip_rest(after, printer)
        }
    }
}

// Runs a script that was read, whose first statement has to be `begin`.
fn run_script(script: &Script, printer: &mut Printer<'_>) -> Result<(), AllocError> {
    let [first, rest @ ..] = script.statements.as_slice() else {
        return Ok(());
    };
    let Statement::Begin { format, uuid } = first.statement else {
        return writeln!(printer, "# line {}: expected begin", first.number);
    };
    match begin(format, uuid, script.block.as_slice()) {
        Ok(beginning) => {
            print_outcome(
                printer,
                first.number,
                first.statement.name(),
                Ok(Done::Accepted),
            )?;
            run_begun(beginning, rest, &script.lists, printer)
        }
        Err(fault) => print_outcome(printer, first.number, first.statement.name(), Err(fault)),
    }
}

// Says which line could not be read, and what was expected there.
fn print_unread(script: &Script, printer: &mut Printer<'_>) -> Result<(), AllocError> {
    match script.unread {
        None => Ok(()),
        Some(unread) => writeln!(
            printer,
            "# line {}: expected {}",
            unread.line, unread.expected
        ),
    }
}

// Runs the script in the input; answers what is to be printed.
pub fn run(heap: Global, input: &[u8]) -> Result<Vec<u8>, AllocError> {
    let script = read_script(heap, input)?;
    let mut printer = Printer::new(heap, script.block.as_slice());
    run_script(&script, &mut printer)?;
    print_unread(&script, &mut printer)?;
    printer.bytes().to_vec(heap)
}
