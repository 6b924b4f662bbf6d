ghost use Rattle.std.specs.Prelude.{◌≡◌, ℕ, List, [], ◌++◌, is_ok, if◌then◌else◌, codes, OnOk, OnErr};
ghost use Rattle.std.specs.Fmt.{AppendsText};
ghost use Rattle.print.specs.Printing.{Prints};
ghost use Rattle.print.specs.Records.{shown_list, shown_lines, shown_log, shown_uuid, shown_text, shown_pair, shown_representation, shown_catalog, shown_schema, shown_lists, shown_version};
ghost use Rattle.quote.specs.Quotes.{quoted};
ghost use Rattle.text.specs.Meaning.{bytes_of};

use quote::hex::write_hex;
use quote::write::write_quoted;
use schema::sealed::SealedSchema;
use std::alloc::{AllocError, Global};
use std::fmt::Display;
use text::property::Property;
use text::text::Text;
use version::view_version::{SqlViewRepresentation, ViewVersion, ViewVersionLog};

// What has been printed, of records over a text block.
// `shown` is where `write!` writes before its bytes join `out`: it keeps its memory from call to call.
#[derive(Drop)]
pub struct Printer<'b> {
    block: &'b [u8],
    out: Vec<u8>,
    shown: String,
}

// What can stand in a list.
pub trait Printed: Copy {
    // How it is printed, with the texts of a block.
    ghost printed: { List ℕ → Self → List ℕ };

    fn print(&self, printer: &mut Printer<'_>) -> Result<(), AllocError>
        ensures { Prints printer.old result printer.new (printed printer.old.block.now self.now) };
}

impl<'b> Printer<'b> {
    pub fn new(heap: Global, block: &'b [u8]) -> Printer<'b>
        ensures out { result.out.items ≡ [] }
        ensures block { result.block.now ≡ block.now }
    {
        Printer {
            block,
            out: Vec::new(heap),
            shown: String::new(heap),
        }
    }

    pub fn bytes(&self) -> &[u8]
        ensures { result.now ≡ self.now.out.items }
    {
        self.out.as_slice()
    }

    // Words, as they are.
    pub fn words(&mut self, words: &str) -> Result<(), AllocError>
        ensures out { self.new.out.items ≡ (if is_ok result then self.old.out.items ++ words.now else self.old.out.items) }
        ensures block { self.new.block ≡ self.old.block }
    {
        self.out.extend_from_slice(words.as_bytes())
    }

    // What `write!` calls.
    pub fn write_fmt<D: Display + Drop>(&mut self, shown: D) -> Result<(), AllocError>
        ensures out { OnOk result (AppendsText self.old.out.items self.new.out.items (D.output shown)) }
        ensures same { OnErr result (self.new.out.items ≡ self.old.out.items) }
        ensures block { self.new.block ≡ self.old.block }
    {
        self.shown.clear();
        self.shown.write_fmt(shown)?;
        self.out.extend_from_slice(self.shown.as_bytes())
    }

    // A text, in quotes.
    pub fn text(&mut self, text: Text) -> Result<(), AllocError>
        ensures out { self.new.out.items ≡ (if is_ok result then self.old.out.items ++ quoted (bytes_of self.old.block.now text) else self.old.out.items) }
        ensures block { self.new.block ≡ self.old.block }
    {
        let bytes = text.bytes(self.block);
        write_quoted(&mut self.out, bytes)
    }

    pub fn uuid(&mut self, uuid: [u8; 16]) -> Result<(), AllocError>
        ensures { Prints self.old result self.new (shown_uuid uuid) }
    {
        for byte in &uuid {
            write_hex(&mut self.out, *byte)?;
        }
        Ok(())
    }

    // Two texts with words between them.
    fn two(&mut self, first: Text, between: &str, second: Text) -> Result<(), AllocError>
        ensures { Prints self.old result self.new (shown_text self.old.block.now first ++ between.now ++ shown_text self.old.block.now second) }
    {
        self.text(first)?;
        self.words(between)?;
        self.text(second)
    }

    pub fn list<T: Printed>(&mut self, items: &[T]) -> Result<(), AllocError>
        ensures { Prints self.old result self.new (shown_list (T.printed self.old.block.now) items.now) }
    {
        self.words("[")?;
        for item in items {
            self.words(" ")?;
            item.print(self)?;
        }
        self.words(" ]")
    }

    // Items, one to a line, each after the same words.
    pub fn lines<T: Printed>(&mut self, words: &str, items: &[T]) -> Result<(), AllocError>
        ensures { Prints self.old result self.new (shown_lines words.now (T.printed self.old.block.now) items.now) }
    {
        for item in items {
            self.words(words)?;
            item.print(self)?;
            self.words("\n")?;
        }
        Ok(())
    }

    // schema ID highest-field-id N text TEXT
    pub fn schema(&mut self, schema: &SealedSchema) -> Result<(), AllocError>
        ensures { Prints self.old result self.new (shown_schema self.old.block.now schema.now) }
    {
        write!(
            self,
            "schema {} highest-field-id {} text ",
            schema.schema_id, schema.highest_field_id
        )?;
        self.text(schema.text)
    }

    // A text, or the word none.
    fn catalog(&mut self, catalog: Option<Text>) -> Result<(), AllocError>
        ensures { Prints self.old result self.new (shown_catalog self.old.block.now catalog) }
    {
        match catalog {
            Some(catalog) => self.text(catalog),
            None => self.words("none"),
        }
    }

    // A list, after words.
    fn list_after<T: Printed>(&mut self, words: &str, items: &[T]) -> Result<(), AllocError>
        ensures { Prints self.old result self.new (words.now ++ shown_list (T.printed self.old.block.now) items.now) }
    {
        self.words(words)?;
        self.list(items)
    }

    // .. summary [ TEXT = TEXT .. ] sql [ TEXT dialect TEXT .. ] catalog TEXT namespace [ TEXT .. ]
    fn version_lists(&mut self, version: &ViewVersion<'_>) -> Result<(), AllocError>
        ensures { Prints self.old result self.new (shown_lists self.old.block.now version.now) }
    {
        self.list_after(" summary ", version.summary)?;
        self.list_after(" sql ", version.representations)?;
        self.words(" catalog ")?;
        self.catalog(version.default_catalog)?;
        self.list_after(" namespace ", version.default_namespace)
    }

    // version ID schema ID time MS ..
    pub fn version(&mut self, version: &ViewVersion<'_>) -> Result<(), AllocError>
        ensures { Prints self.old result self.new (shown_version self.old.block.now version.now) }
    {
        write!(
            self,
            "version {} schema {} time {}",
            version.version_id, version.schema_id, version.timestamp_ms
        )?;
        self.version_lists(version)
    }

    // log ID at MS
    pub fn log_entry(&mut self, entry: &ViewVersionLog) -> Result<(), AllocError>
        ensures { Prints self.old result self.new (shown_log entry.now) }
    {
        write!(self, "log {} at {}", entry.version_id, entry.timestamp_ms)
    }
}

impl Printed for Text {
    ghost printed = { shown_text };

    fn print(&self, printer: &mut Printer<'_>) -> Result<(), AllocError> {
        printer.text(*self)
    }
}

impl Printed for Property {
    ghost printed = { shown_pair };

    fn print(&self, printer: &mut Printer<'_>) -> Result<(), AllocError> {
        printer.two(self.key, " = ", self.value)
    }
}

impl Printed for SqlViewRepresentation {
    ghost printed = { shown_representation };

    fn print(&self, printer: &mut Printer<'_>) -> Result<(), AllocError> {
        printer.two(self.sql, " dialect ", self.dialect)
    }
}

impl Printed for SealedSchema {
    ghost printed = { shown_schema };

    fn print(&self, printer: &mut Printer<'_>) -> Result<(), AllocError> {
        printer.schema(self)
    }
}

impl Printed for ViewVersion<'_> {
    ghost printed = { shown_version };

    fn print(&self, printer: &mut Printer<'_>) -> Result<(), AllocError> {
        printer.version(self)
    }
}

impl Printed for ViewVersionLog {
    ghost printed = { λ _ entry. shown_log entry };

    fn print(&self, printer: &mut Printer<'_>) -> Result<(), AllocError> {
        printer.log_entry(self)
    }
}

#[cfg(test)]
mod tests {
    use super::*;
    use std::test::Fail;

    #[test]
    fn prints_numbers_and_lists(rt: HostRuntime) -> Result<(), Fail> {
        let mut printer = Printer::new(rt.alloc(), b"ab");
        write!(printer, "log {} at {} ", -1, 5)?;
        printer.list(&[Text {
            place: 1,
            length: 1,
        }])?;
        printer.lines(
            "; ",
            &[ViewVersionLog {
                version_id: 1,
                timestamp_ms: 2,
            }],
        )?;
        assert_eq!(rt;
            printer.bytes(),
            b"log -1 at 5 [ \"b\" ]; log 1 at 2\n".as_slice()
        );
        Ok(())
    }
}
