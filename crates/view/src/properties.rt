ghost use Rattle.std.specs.Prelude.{◌≡◌, map, ℤ};
ghost use Rattle.model.specs.State.{assign_uuid, set_properties};
ghost use Rattle.text.specs.Properties.{property_in};
ghost use Rattle.view.specs.Meaning.{Applied};

use super::view_metadata_builder::ViewMetadataBuilder;
use super::view_update::ViewUpdate;
use fault::fault::Fault;
use schema::kind::SchemaKind;
use text::property::Property;

impl<'t, 'a, 'v, S: SchemaKind> ViewMetadataBuilder<'t, 'a, 'v, S> {
    // Gives the view another uuid.
    pub fn assign_uuid(&mut self, uuid: [u8; 16]) -> Result<(), Fault>
        ensures { (clock : ℤ) → Applied S.SchemaKind (assign_uuid uuid) clock self.old result self.new }
    {
        if uuid == self.view.uuid {
            return Ok(());
        }
        self.record(ViewUpdate::AssignUuid { uuid })?;
        self.view.uuid = uuid;
        Ok(())
    }

    // Sets properties, all or none; records them where one changes.
    pub fn set_properties(&mut self, updates: &'v [Property]) -> Result<(), Fault>
        ensures { (clock : ℤ) → Applied S.SchemaKind (set_properties (map (property_in self.old.view.text.now) updates.now)) clock self.old result self.new }
    {
        let text = self.view.text;
        if !self.view.properties.plan(updates, text)? {
            return Ok(());
        }
        self.record(ViewUpdate::SetProperties { updates })?;
        let _ = self.view.properties.set(updates, text);
        Ok(())
    }
}
