ghost use Rattle.std.specs.Prelude.{◌≡◌, ◌+◌, length, IfOk, vec_len};

use super::script::{Line, Lists, Script, Span, Statement, Unread, VersionParts};
use cursor::cursor::Cursor;
use cursor::fault::{Expected, ReadFault};
use quote::read::read_quoted;
use schema::sealed::SealedSchema;
use std::alloc::{AllocError, Global};
use text::property::Property;
use text::text::Text;
use version::view_version::SqlViewRepresentation;

// A line that is being read, and the block to whose end its texts go.
#[derive(Drop)]
struct Reader<'l, 'b> {
    cursor: Cursor<'l>,
    block: &'b mut Vec<u8>,
}

// What stands in a list of the script.
trait Element: Copy {
    fn read(reader: &mut Reader<'_, '_>) -> Result<Self, ReadFault>;
}

impl Element for Text {
    fn read(reader: &mut Reader<'_, '_>) -> Result<Text, ReadFault> {
        reader.text()
    }
}

impl Element for Property {
    fn read(reader: &mut Reader<'_, '_>) -> Result<Property, ReadFault> {
        let (key, value) = reader.two("=")?;
        Ok(Property { key, value })
    }
}

impl Element for SqlViewRepresentation {
    fn read(reader: &mut Reader<'_, '_>) -> Result<SqlViewRepresentation, ReadFault> {
        let (sql, dialect) = reader.two("dialect")?;
        Ok(SqlViewRepresentation { sql, dialect })
    }
}

impl<'l, 'b> Reader<'l, 'b> {
    // A text: its bytes go to the end of the block.
    fn text(&mut self) -> Result<Text, ReadFault>
        ensures { IfOk result (λ t. (t.place ≡ vec_len self.old.block.now) × (t.place + t.length ≡ vec_len self.new.block.now)) }
    {
        let block = &mut *self.block;
        let place = block.len();
        let taken = read_quoted(self.cursor.rest(), block)?;
        let taken = taken.ok_or(ReadFault::Expected(Expected::Text))?;
        let length = block.len() - place;
        self.cursor.advance(taken);
        Ok(Text { place, length })
    }

    // Two texts with a word between them.
    fn two(&mut self, between: &'static str) -> Result<(Text, Text), ReadFault> {
        let first = self.text()?;
        self.cursor.expect(between)?;
        let second = self.text()?;
        Ok((first, second))
    }

    // A list: its elements go to the end of `held`. It has fewer elements than the line has bytes.
    // Kept: the count ends the loop; with `while` each reader would have to promise that it takes a byte of the line.
    // The cursor is borrowed first, since a call on a field of a struct that holds a reference is not covered.
    fn list<T: Element>(&mut self, held: &mut Vec<T>) -> Result<Span, ReadFault>
        ensures { IfOk result (λ s. (s.from ≡ vec_len held.old) × (s.from + s.count ≡ vec_len held.new)) }
    {
        self.cursor.expect("[")?;
        let from = held.len();
        let cursor = &mut self.cursor;
        for count in 0..cursor.length() {
            if self.cursor.takes("]") {
                return Ok(Span { from, count });
            }
            held.push(T::read(self)?)?;
        }
        Err(ReadFault::Expected(Expected::ListEnd))
    }

    // schema ID highest-field-id N text TEXT
    fn schema(&mut self) -> Result<SealedSchema, ReadFault> {
        self.cursor.expect("schema")?;
        let schema_id = self.cursor.id()?;
        self.cursor.expect("highest-field-id")?;
        let highest_field_id = self.cursor.id()?;
        self.cursor.expect("text")?;
        let text = self.text()?;
        Ok(SealedSchema {
            schema_id,
            text,
            highest_field_id,
        })
    }

    // A text, or the word none.
    fn catalog(&mut self) -> Result<Option<Text>, ReadFault> {
        if self.cursor.takes("none") {
            return Ok(None);
        }
        self.text().map(Some).map_err(|fault| match fault {
            ReadFault::NoMemory => ReadFault::NoMemory,
            ReadFault::Expected(_) => ReadFault::Expected(Expected::TextOrNone),
        })
    }

    // version ID schema ID time MS summary [ TEXT = TEXT .. ] sql [ TEXT dialect TEXT .. ] catalog TEXT namespace [ TEXT .. ]
    fn version(&mut self, lists: &mut Lists) -> Result<VersionParts, ReadFault> {
        self.cursor.expect("version")?;
        let version_id = self.cursor.id()?;
        self.cursor.expect("schema")?;
        let schema_id = self.cursor.id()?;
        self.cursor.expect("time")?;
        let timestamp_ms = self.cursor.time()?;
        self.cursor.expect("summary")?;
        let summary = self.list(&mut lists.properties)?;
        self.cursor.expect("sql")?;
        let representations = self.list(&mut lists.representations)?;
        self.cursor.expect("catalog")?;
        let default_catalog = self.catalog()?;
        self.cursor.expect("namespace")?;
        let default_namespace = self.list(&mut lists.names)?;
        Ok(VersionParts {
            version_id,
            schema_id,
            timestamp_ms,
            summary,
            representations,
            default_catalog,
            default_namespace,
        })
    }

    // The word at, and the clock.
    fn clock(&mut self) -> Result<i64, ReadFault> {
        self.cursor.expect("at")?;
        self.cursor.time()
    }

    fn begin(&mut self) -> Result<Statement, ReadFault> {
        let format = self.cursor.number()?;
        self.cursor.expect("uuid")?;
        let uuid = self.cursor.uuid()?;
        Ok(Statement::Begin { format, uuid })
    }

    fn set_current(&mut self) -> Result<Statement, ReadFault> {
        let version_id = self.cursor.id()?;
        let clock = self.clock()?;
        Ok(Statement::SetCurrent { version_id, clock })
    }

    fn set_current_version(&mut self, lists: &mut Lists) -> Result<Statement, ReadFault> {
        let schema = self.schema()?;
        let version = self.version(lists)?;
        let clock = self.clock()?;
        Ok(Statement::SetCurrentVersion {
            schema,
            version,
            clock,
        })
    }

    // The statement that the line begins with.
    fn statement(&mut self, lists: &mut Lists) -> Result<Statement, ReadFault> {
        match self.cursor.keyword() {
            "begin" => self.begin(),
            "set-location" => {
                let location = self.text()?;
                Ok(Statement::SetLocation { location })
            }
            "add-schema" => {
                let schema = self.schema()?;
                Ok(Statement::AddSchema { schema })
            }
            "add-version" => {
                let version = self.version(lists)?;
                Ok(Statement::AddVersion { version })
            }
            "set-current" => self.set_current(),
            "set-current-version" => self.set_current_version(lists),
            "set-properties" => {
                let updates = self.list(&mut lists.properties)?;
                Ok(Statement::SetProperties { updates })
            }
            "build" => Ok(Statement::Build),
            _ => Err(ReadFault::Expected(Expected::Statement)),
        }
    }
}

// The statement of a line; none where the line is blank or a comment.
fn read_line(line: &[u8], script: &mut Script) -> Result<Option<Statement>, ReadFault> {
    let line = line.strip_suffix(b"\r").unwrap_or(line);
    let mut cursor = Cursor::new(line);
    if line.starts_with(b"#") || cursor.rest().is_empty() {
        return Ok(None);
    }
    let mut reader = Reader {
        cursor,
        block: &mut script.block,
    };
    let statement = reader.statement(&mut script.lists)?;
    reader.cursor.expect_end()?;
    Ok(Some(statement))
}

// Reads a script, up to the first line that cannot be read.
pub fn read_script(heap: Global, input: &[u8]) -> Result<Script, AllocError> {
    let mut script = Script::new(heap);
    for (number, line) in (1..).zip(input.split(|byte| *byte == b'\n')) {
        match read_line(line, &mut script) {
            Ok(None) => {}
            Ok(Some(statement)) => script.statements.push(Line { number, statement })?,
            Err(ReadFault::NoMemory) => return Err(AllocError),
            Err(ReadFault::Expected(expected)) => {
                script.unread = Some(Unread {
                    line: number,
                    expected,
                });
                break;
            }
        }
    }
    Ok(script)
}
