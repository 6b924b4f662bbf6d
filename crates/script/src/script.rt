ghost use Rattle.std.specs.Prelude.{◌≡◌, [], None};
ghost use Rattle.script.specs.Words.{first_word, part_of};

use cursor::fault::Expected;
use schema::sealed::SealedSchema;
use std::alloc::Global;
use text::property::Property;
use text::text::Text;
use version::view_version::{SqlViewRepresentation, ViewVersion};

// A part of one of the script's lists.
#[derive(Clone, Copy)]
pub struct Span {
    pub from: usize,
    pub count: usize,
}

// A version as the script has it: its lists are parts of the script's own.
#[derive(Clone, Copy)]
pub struct VersionParts {
    pub version_id: i32,
    pub schema_id: i32,
    pub timestamp_ms: i64,
    pub summary: Span,
    pub representations: Span,
    pub default_catalog: Option<Text>,
    pub default_namespace: Span,
}

#[derive(Clone, Copy)]
pub enum Statement {
    Begin {
        format: u32,
        uuid: [u8; 16],
    },
    SetLocation {
        location: Text,
    },
    AddSchema {
        schema: SealedSchema,
    },
    AddVersion {
        version: VersionParts,
    },
    SetCurrent {
        version_id: i32,
        clock: i64,
    },
    SetCurrentVersion {
        schema: SealedSchema,
        version: VersionParts,
        clock: i64,
    },
    SetProperties {
        updates: Span,
    },
    Build,
}

// A statement and the number of its line, counted from 1.
#[derive(Clone, Copy)]
pub struct Line {
    pub number: usize,
    pub statement: Statement,
}

// The line that could not be read, and what was expected there.
#[derive(Clone, Copy)]
pub struct Unread {
    pub line: usize,
    pub expected: Expected,
}

// The lists of the statements, end to end.
#[derive(Drop)]
pub struct Lists {
    pub properties: Vec<Property>,
    pub representations: Vec<SqlViewRepresentation>,
    pub names: Vec<Text>,
}

// A script that was read: its statements, up to the first line that could not be read, the lists that they name parts of, and the block of the texts.
// Kept: the texts share one block, since the library reads a text as a place in a block that is lent to it; and statements of a kind share a list, so that a statement is `Copy` and takes no memory of its own.
#[derive(Drop)]
pub struct Script {
    pub block: Vec<u8>,
    pub lists: Lists,
    pub statements: Vec<Line>,
    pub unread: Option<Unread>,
}

impl Lists {
    // Nothing listed yet.
    fn new(heap: Global) -> Lists
        ensures properties { result.properties.items ≡ [] }
        ensures representations { result.representations.items ≡ [] }
        ensures names { result.names.items ≡ [] }
    {
        Lists {
            properties: Vec::new(heap),
            representations: Vec::new(heap),
            names: Vec::new(heap),
        }
    }
}

impl Script {
    // Nothing read yet.
    pub fn new(heap: Global) -> Script
        ensures block { result.block.items ≡ [] }
        ensures statements { result.statements.items ≡ [] }
        ensures unread { result.unread ≡ None }
    {
        Script {
            block: Vec::new(heap),
            lists: Lists::new(heap),
            statements: Vec::new(heap),
            unread: None,
        }
    }
}

impl Span {
    // The part of a list; of one that reaches outside, what is inside.
    // Kept: beside the bytes of a text, which are a part of the block; this is a part of a list of any type.
    pub fn part<'s, T>(&self, items: &'s [T]) -> &'s [T]
        ensures { result.now ≡ part_of self.now items.now }
    {
        let rest = items.get(self.from..).unwrap_or(&[]);
        rest.get(..self.count).unwrap_or(rest)
    }
}

impl VersionParts {
    // The version over the script's lists.
    pub fn version<'s>(&self, lists: &'s Lists) -> ViewVersion<'s>
        ensures id { result.version_id ≡ self.now.version_id }
        ensures schema { result.schema_id ≡ self.now.schema_id }
        ensures time { result.timestamp_ms ≡ self.now.timestamp_ms }
        ensures summary { result.summary.now ≡ part_of self.now.summary lists.now.properties.items }
        ensures representations { result.representations.now ≡ part_of self.now.representations lists.now.representations.items }
        ensures catalog { result.default_catalog ≡ self.now.default_catalog }
        ensures namespace { result.default_namespace.now ≡ part_of self.now.default_namespace lists.now.names.items }
    {
        ViewVersion {
            version_id: self.version_id,
            schema_id: self.schema_id,
            timestamp_ms: self.timestamp_ms,
            summary: self.summary.part(lists.properties.as_slice()),
            representations: self.representations.part(lists.representations.as_slice()),
            default_catalog: self.default_catalog,
            default_namespace: self.default_namespace.part(lists.names.as_slice()),
        }
    }
}

impl Statement {
    // The word that the statement begins with.
    pub fn name(&self) -> &'static str
        ensures { result.now ≡ first_word self.now }
    {
        match self {
            Statement::Begin { .. } => "begin",
            Statement::SetLocation { .. } => "set-location",
            Statement::AddSchema { .. } => "add-schema",
            Statement::AddVersion { .. } => "add-version",
            Statement::SetCurrent { .. } => "set-current",
            Statement::SetCurrentVersion { .. } => "set-current-version",
            Statement::SetProperties { .. } => "set-properties",
            Statement::Build => "build",
        }
    }
}
