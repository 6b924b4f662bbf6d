use text::property::Property;
use text::text::Text;
use version::view_version::{ViewVersion, ViewVersionLog};

// The metadata of a view: its own fields, and four lent lists.
#[derive(Clone, Copy)]
pub struct ViewMetadata<'m, 'v, S> {
    pub format_version: u32,
    pub uuid: [u8; 16],
    pub location: Text,
    pub current_version_id: i32,
    pub schemas: &'m [S],
    pub versions: &'m [ViewVersion<'v>],
    pub version_log: &'m [ViewVersionLog],
    pub properties: &'m [Property],
}
