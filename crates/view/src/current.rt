ghost use Rattle.std.specs.Prelude.{◌≡◌};
ghost use Rattle.model.specs.State.{set_current_version_id, set_current_version, entered};
ghost use Rattle.model.specs.Edits.{log_entry};
ghost use Rattle.version.specs.Meaning.{version_in, entry_of};
ghost use Rattle.register.specs.Tables.{room};
ghost use Rattle.view.specs.Meaning.{meant, model_of, schema_in, Applied};
ghost use Rattle.view.specs.Plans.{counted, schema_choice, version_choice, plan};

use super::view_metadata_builder::{
    LAST_ADDED, ViewMetadataBuilder, as_recorded, held_same, is_last, next_id, resolved,
};
use super::view_update::ViewUpdate;
use fault::fault::{Fault, Part, Refusal};
use register::register::{find, holds_id};
use schema::kind::SchemaKind;
use version::view_version::{ViewVersion, ViewVersionLog};

impl<'t, 'a, 'v, S: SchemaKind> ViewMetadataBuilder<'t, 'a, 'v, S> {
    // The log entry for the id that becomes current.
    fn log_entry(&self, id: i32, clock: i64) -> ViewVersionLog
        ensures { entry_of result ≡ log_entry (entered (model_of S.SchemaKind self.now)) id clock }
    {
        let held = self.view.versions.table.items();
        let start = self.opened_versions.min(held.len());
        let timestamp_ms = find(&held[start..], id).map_or(clock, |version| version.timestamp_ms);
        ViewVersionLog {
            version_id: id,
            timestamp_ms,
        }
    }

    // Sets the id of the current version; -1 is the version last added.
    pub fn set_current_version_id(&mut self, version_id: i32, clock: i64) -> Result<(), Fault>
        ensures { Applied S.SchemaKind (set_current_version_id version_id) clock self.old result self.new }
    {
        let id = resolved(version_id, self.last_added_version_id).ok_or(Fault::new(
            Refusal::NoVersionAdded,
            Part::Builder,
        ))?;
        if id == self.view.current_version_id {
            return Ok(());
        }
        if !holds_id(self.view.versions.table.items(), id) {
            return Err(Fault::new(Refusal::VersionNotHeld, Part::Builder));
        }
        let entry = self.log_entry(id, clock);
        let view_version_id = as_recorded(id, self.last_added_version_id);
        self.record(ViewUpdate::SetCurrentViewVersion { view_version_id })?;
        self.view.current_version_id = id;
        self.history_entry = Some(entry);
        Ok(())
    }

    // The id that an add of the schema gives, and whether it is recorded.
    // Kept: a pair and no Option, since there is an id in both cases; the one caller takes it apart at once.
    fn schema_choice(&self, schema: &S) -> Result<(i32, bool), Fault>
        ensures { meant result ≡ schema_choice S.Numbered.alike (model_of S.SchemaKind self.now) (schema_in S.SchemaKind self.now.view.text.now schema.now) }
    {
        match held_same(&self.view.schemas, schema, self.view.text, Part::Schemas)? {
            Some(id) => Ok((id, !is_last(self.last_added_schema_id, id))),
            None => Ok((next_id(&self.view.schemas, Part::Schemas)?, true)),
        }
    }

    // The id that an add of the version gives where its schema is held, and whether it is recorded.
    // Kept: a pair, as above; and apart, since a new version has two tests more.
    fn version_choice(&self, version: &ViewVersion<'v>) -> Result<(i32, bool), Fault>
        ensures { meant result ≡ version_choice (model_of S.SchemaKind self.now) (version_in self.now.view.text.now version.now) }
    {
        if let Some(id) = held_same(&self.view.versions, version, self.view.text, Part::Versions)? {
            return Ok((id, !is_last(self.last_added_version_id, id)));
        }
        self.require_fresh(version)?;
        Ok((next_id(&self.view.versions, Part::Versions)?, true))
    }

    // How many changes there are with one more, if it is recorded.
    fn count_change(&self, changes: usize, recorded: bool) -> Result<usize, Fault>
        ensures { meant result ≡ counted (room self.now.view.changes) changes recorded }
    {
        if !recorded {
            return Ok(changes);
        }
        if changes >= self.view.changes.slots.len() {
            return Err(Fault::new(Refusal::LimitReached, Part::Changes));
        }
        Ok(changes + 1)
    }

    // How many changes there are after the three edits of set_current_version, or the first refusal.
    fn plan_current_version(&self, schema: &S, version: ViewVersion<'v>) -> Result<usize, Fault>
        ensures { meant result ≡ plan S.Numbered.alike (model_of S.SchemaKind self.now) (schema_in S.SchemaKind self.now.view.text.now schema.now) (version_in self.now.view.text.now version.entry) }
    {
        let (schema_id, recorded) = self.schema_choice(schema)?;
        let changes = self.count_change(self.view.changes.items().len(), recorded)?;
        let (version_id, recorded) = self.version_choice(&version.with_schema_id(schema_id))?;
        let changes = self.count_change(changes, recorded)?;
        self.count_change(changes, version_id != self.view.current_version_id)
    }

    // Adds the schema, adds the version under its id and makes it current: all three edits, or none.
    pub fn set_current_version(
        &mut self,
        schema: S,
        version: ViewVersion<'v>,
        clock: i64,
    ) -> Result<(), Fault>
        ensures { Applied S.SchemaKind (set_current_version (schema_in S.SchemaKind self.old.view.text.now schema) (version_in self.old.view.text.now version.entry)) clock self.old result self.new }
    {
        let _ = self.plan_current_version(&schema, version)?;
        let schema_id = self.add_schema(schema)?;
        let _ = self.add_version(version.with_schema_id(schema_id))?;
        self.set_current_version_id(LAST_ADDED, clock)
    }
}
