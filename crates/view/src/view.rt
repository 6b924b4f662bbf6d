ghost use Rattle.std.specs.Prelude.{◌≡◌};
ghost use Rattle.register.specs.Tables.{held_in};
ghost use Rattle.view.specs.Finished.{Shows};

use super::view_metadata::ViewMetadata;
use super::view_update::ViewUpdate;
use property::property::Properties;
use register::register::Register;
use register::table::Table;
use schema::kind::SchemaKind;
use text::text::Text;
use version::view_version::{ViewVersion, ViewVersionLog};

// A view: its metadata and the recorded changes, in the tables that were lent.
#[derive(Drop)]
pub struct View<'t, 'a, 'v, S> {
    pub text: &'t [u8],
    pub uuid: [u8; 16],
    pub location: Text,
    pub current_version_id: i32,
    pub schemas: Register<'a, S>,
    pub versions: Register<'a, ViewVersion<'v>>,
    pub version_log: Table<'a, ViewVersionLog>,
    pub properties: Properties<'a>,
    pub changes: Table<'a, ViewUpdate<'v, S>>,
}

impl<'t, 'a, 'v, S: SchemaKind> View<'t, 'a, 'v, S> {
    // The metadata, its lists lent from the tables.
    pub fn metadata(&self) -> ViewMetadata<'_, 'v, S>
        ensures { Shows self.now result }
    {
        ViewMetadata {
            format_version: 1,
            uuid: self.uuid,
            location: self.location,
            current_version_id: self.current_version_id,
            schemas: self.schemas.table.items(),
            versions: self.versions.table.items(),
            version_log: self.version_log.items(),
            properties: self.properties.items(),
        }
    }

    // The recorded changes, in their order.
    pub fn changes(&self) -> &[ViewUpdate<'v, S>]
        ensures { result.now ≡ held_in self.now.changes }
    {
        self.changes.items()
    }
}
