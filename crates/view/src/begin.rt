ghost use Rattle.std.specs.Prelude.{◌≡◌, not, ℤ, Ok, nat_eq};
ghost use Rattle.model.specs.Refusals.{fault, refuse, unknown_format, builder_part};
ghost use Rattle.model.specs.State.{upgrade_format};
ghost use Rattle.model.specs.Start.{to_begin, begin_or_open, started, empty};
ghost use Rattle.model.specs.Texts.{block_fits};
ghost use Rattle.view.specs.Beginnings.{begun, over_text};
ghost use Rattle.view.specs.Meaning.{meant, model_of, Applied};

use super::view::View;
use super::view_metadata_builder::ViewMetadataBuilder;
use super::view_update::ViewUpdate;
use fault::fault::{Fault, Part, Refusal};
use property::property::Properties;
use register::register::Register;
use register::table::Table;
use schema::kind::SchemaKind;
use text::property::Property;
use text::text::{Text, check_block};
use version::view_version::{ViewVersion, ViewVersionLog};

// The one format version.
pub const FORMAT_VERSION: u32 = 1;

// The current version id while there is no version.
// Kept: a number, since the format writes -1 for it.
const NO_VERSION_ID: i32 = -1;

// The most of each list, which its table has room for.
pub const MAX_SCHEMAS: usize = 64;

pub const MAX_VERSIONS: usize = 64;

pub const MAX_LOG_ENTRIES: usize = 256;

pub const MAX_PROPERTIES: usize = 64;

pub const MAX_CHANGES: usize = 128;

// An accepted beginning, which waits for its tables.
#[derive(Clone, Copy)]
pub struct Beginning<'t> {
    text: &'t [u8],
    uuid: [u8; 16],
}

// Refuses any other format version.
fn check_format(format_version: u32) -> Result<(), Fault>
    ensures { meant result ≡ refuse (not (nat_eq format_version 1)) (fault unknown_format builder_part) (Ok tt) }
{
    if format_version == FORMAT_VERSION {
        return Ok(());
    }
    Err(Fault::new(Refusal::UnknownFormat, Part::Builder))
}

// Begins a view without a location, schemas or versions.
pub fn begin<'t>(
    format_version: u32,
    uuid: [u8; 16],
    text: &'t [u8],
) -> Result<Beginning<'t>, Fault>
    ensures answer { begun result ≡ begin_or_open {C = Unit {0}} (to_begin format_version uuid (not (block_fits text.now))) }
    ensures text { over_text text.now result }
{
    check_format(format_version)?;
    check_block(text)?;
    Ok(Beginning { text, uuid })
}

impl<'t> Beginning<'t> {
    // The builder, with nothing in the lent tables yet.
    // Kept: five arrays and not one struct of them; of an array of S behind a field it is not known that it fits in memory, and lend requires nothing.
    pub fn lend<'a, 'v, S: SchemaKind>(
        self,
        schemas: &'a mut [S; MAX_SCHEMAS],
        versions: &'a mut [ViewVersion<'v>; MAX_VERSIONS],
        version_log: &'a mut [ViewVersionLog; MAX_LOG_ENTRIES],
        properties: &'a mut [Property; MAX_PROPERTIES],
        changes: &'a mut [ViewUpdate<'v, S>; MAX_CHANGES],
    ) -> ViewMetadataBuilder<'t, 'a, 'v, S>
        ensures model { model_of S.SchemaKind result ≡ started (empty self.entry.uuid) }
        ensures text { result.view.text.now ≡ self.entry.text.now }
        ensures schemas { result.view.schemas.table.slots.now ≡ schemas.old }
        ensures versions { result.view.versions.table.slots.now ≡ versions.old }
        ensures log { result.view.version_log.slots.now ≡ version_log.old }
        ensures properties { result.view.properties.table.slots.now ≡ properties.old }
        ensures changes { result.view.changes.slots.now ≡ changes.old }
    {
        let schemas = Table::over(schemas);
        let versions = Table::over(versions);
        let version_log = Table::over(version_log);
        let properties = Properties::over(properties);
        let changes = Table::over(changes);
        ViewMetadataBuilder {
            view: View {
                text: self.text,
                uuid: self.uuid,
                location: Text {
                    place: 0,
                    length: 0,
                },
                current_version_id: NO_VERSION_ID,
                schemas: Register { table: schemas },
                versions: Register { table: versions },
                version_log,
                properties,
                changes,
            },
            opened_versions: 0,
            last_added_schema_id: None,
            last_added_version_id: None,
            history_entry: None,
            previous_view_version: None,
        }
    }
}

impl<'t, 'a, 'v, S: SchemaKind> ViewMetadataBuilder<'t, 'a, 'v, S> {
    // Accepts the one format version; there is nothing to change or record.
    pub fn upgrade_format_version(&mut self, format_version: u32) -> Result<(), Fault>
        ensures { (clock : ℤ) → Applied S.SchemaKind (upgrade_format format_version) clock self.old result self.new }
    {
        check_format(format_version)
    }
}
