ghost use Rattle.std.specs.Prelude.{◌≡◌, pos, is_ok, refl};
ghost use Rattle.std.specs.Option.{option_map};
ghost use Rattle.model.specs.Bytes.{all, ascii};
ghost use Rattle.model.specs.Version.{Content, same_content, same_text};
ghost use Rattle.model.proofs.Sames.{same_law};
ghost use Rattle.text.specs.Meaning.{bytes_of};
ghost use Rattle.version.specs.Meaning.{content_of, version_verdict, renumbered, of_schema, sound_texts};

use super::piece::{Piece, check_pieces, same_pieces};
use register::fault::RecordFault;
use register::numbered::{Identified, Lawful, Numbered};
use text::bytes::is_ascii;
use text::property::{Property, out_of_order};
use text::text::{Text, TextFault};

// The most representations of a version.
pub const MAX_REPRESENTATIONS: usize = 8;

// The most pairs of its summary.
pub const MAX_SUMMARY_PAIRS: usize = 8;

// The most parts of its default namespace.
pub const MAX_NAMESPACE_PARTS: usize = 8;

// The SQL text that defines the view for one dialect.
#[derive(Clone, Copy)]
pub struct SqlViewRepresentation {
    pub sql: Text,
    pub dialect: Text,
}

// A version of the view: its definition at some point in time.
#[derive(Clone, Copy)]
pub struct ViewVersion<'v> {
    pub version_id: i32,
    pub schema_id: i32,
    pub timestamp_ms: i64,
    pub summary: &'v [Property],
    pub representations: &'v [SqlViewRepresentation],
    pub default_catalog: Option<Text>,
    pub default_namespace: &'v [Text],
}

// An entry of the version log: the id that became current, and when.
#[derive(Clone, Copy)]
pub struct ViewVersionLog {
    pub version_id: i32,
    pub timestamp_ms: i64,
}

impl<'v> ViewVersion<'v> {
    // The version under another schema id.
    pub fn with_schema_id(self, schema_id: i32) -> Self
        ensures { result ≡ of_schema schema_id self.entry }
    {
        ViewVersion { schema_id, ..self }
    }
}

// Both catalogs absent, or the same text.
fn same_catalog(left: Option<Text>, right: Option<Text>, block: &[u8]) -> bool
    ensures { result ≡ same_text (option_map (bytes_of block.now) left) (option_map (bytes_of block.now) right) }
{
    left.map(|text| text.bytes(block)) == right.map(|text| text.bytes(block))
}

// Refuses a version of which a text is bad.
fn check_texts(version: &ViewVersion, block: &[u8]) -> Result<(), TextFault>
    ensures { is_ok result ≡ sound_texts block.now version.now }
{
    check_pieces(version.summary, block)?;
    check_pieces(version.representations, block)?;
    if let Some(catalog) = version.default_catalog {
        catalog.check(block)?;
    }
    check_pieces(version.default_namespace, block)
}

// No dialect holds a byte above 127.
fn has_ascii_dialects(representations: &[SqlViewRepresentation], block: &[u8]) -> bool
    ensures { result ≡ all (λ q. ascii (bytes_of block.now q.dialect)) representations.now }
{
    representations
        .iter()
        .all(|r| is_ascii(r.dialect.bytes(block)))
}

impl Identified for ViewVersion<'_> {
    ghost named = { λ v. v.version_id };

    fn id(&self) -> i32 {
        self.version_id
    }
}

impl Numbered for ViewVersion<'_> {
    const FIRST_ID: i32 = 1;

    ghost initial = { pos 1 };

    ghost Content = { Content };

    ghost content = { content_of };

    ghost alike = { same_content };

    ghost verdict = { version_verdict };

    ghost copied = { renumbered };

    fn initial_id() -> i32
        ensures { result ≡ pos 1 }
    {
        Self::FIRST_ID
    }

    fn with_id(self, id: i32) -> Self {
        ViewVersion {
            version_id: id,
            ..self
        }
    }

    // Kept: by hand, as the pieces are.
    fn same(&self, other: &Self, block: &[u8]) -> bool {
        self.schema_id == other.schema_id
            && same_pieces(self.summary, other.summary, block)
            && same_pieces(self.representations, other.representations, block)
            && same_catalog(self.default_catalog, other.default_catalog, block)
            && same_pieces(self.default_namespace, other.default_namespace, block)
    }

    fn check(&self, block: &[u8]) -> Result<(), RecordFault> {
        if self.representations.len() > MAX_REPRESENTATIONS
            || self.summary.len() > MAX_SUMMARY_PAIRS
            || self.default_namespace.len() > MAX_NAMESPACE_PARTS
        {
            return Err(RecordFault::TooMany);
        }
        check_texts(self, block)?;
        if !has_ascii_dialects(self.representations, block) {
            return Err(RecordFault::NonAsciiDialect);
        }
        if out_of_order(self.summary, block).is_some() {
            return Err(RecordFault::Malformed);
        }
        Ok(())
    }
}

impl Lawful for ViewVersion<'_> {
    ghost decides = { same_law };

    ghost own = { λ x. refl };

    ghost again = { λ i j x. refl };

    ghost renamed = { λ i x. refl };

    ghost contents = { λ b i x. refl };

    ghost verdicts = { λ b i x. refl };
}
