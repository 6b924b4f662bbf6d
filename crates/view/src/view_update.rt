use text::property::Property;
use text::text::Text;
use version::view_version::ViewVersion;

// A recorded change, with what its edit was handed.
#[derive(Clone, Copy)]
pub enum ViewUpdate<'v, S> {
    AssignUuid {
        uuid: [u8; 16],
    },
    SetLocation {
        location: Text,
    },
    AddSchema {
        schema: S,
        last_column_id: Option<i32>,
    },
    AddViewVersion {
        view_version: ViewVersion<'v>,
    },
    SetCurrentViewVersion {
        view_version_id: i32,
    },
    SetProperties {
        updates: &'v [Property],
    },
    RemoveProperties {
        removals: &'v [Text],
    },
}
