ghost use Rattle.std.specs.Prelude.{◌≡◌, ℤ, Some, None, Ok};
ghost use Rattle.model.specs.Bytes.{same_bytes, repeats};
ghost use Rattle.model.specs.Refusals.{fault, refuse, repeated_dialect, time_too_early, versions_part};
ghost use Rattle.model.specs.State.{add_version};
ghost use Rattle.model.specs.Version.{dialects};
ghost use Rattle.model.specs.Edits.{reuse_or_add_version, too_early_for};
ghost use Rattle.version.specs.Meaning.{version_in, content_of};
ghost use Rattle.view.specs.Meaning.{meant, model_of, Applied, Did, answers_last};
ghost use Rattle.view.specs.Versions.{admitted_under};

use super::view_metadata_builder::{
    ViewMetadataBuilder, as_recorded, held_same, is_last, next_id, resolved,
};
use super::view_update::ViewUpdate;
use dialect::dialects::require_unique_dialects;
use dialect::time::too_early;
use fault::fault::{Fault, Part, Refusal};
use register::numbered::{Identified, Numbered};
use register::register::holds_id;
use schema::kind::SchemaKind;
use version::view_version::ViewVersion;

impl<'t, 'a, 'v, S: SchemaKind> ViewMetadataBuilder<'t, 'a, 'v, S> {
    // Reuse of the held version with that id.
    // Kept: beside reuse_schema; each sets a field of its own, and one function for both would be handed all that differs.
    fn reuse_version(&mut self, version: ViewVersion<'v>, id: i32) -> Result<i32, Fault>
        ensures did { Did S.SchemaKind (reuse_or_add_version (model_of S.SchemaKind self.old) (version_in self.old.view.text.now version.entry) (Some id)) self.old result self.new }
        ensures answer { answers_last result self.new.last_added_version_id }
    {
        if is_last(self.last_added_version_id, id) {
            return Ok(id);
        }
        self.record(ViewUpdate::AddViewVersion {
            view_version: version.with_id(id),
        })?;
        self.last_added_version_id = Some(id);
        Ok(id)
    }

    // Refuses a new version that repeats a dialect or comes too early.
    pub(crate) fn require_fresh(&self, version: &ViewVersion<'v>) -> Result<(), Fault>
        ensures { meant result ≡ refuse (repeats same_bytes (dialects (content_of self.now.view.text.now version.now))) (fault repeated_dialect versions_part) (refuse (too_early_for version.now.timestamp_ms (model_of S.SchemaKind self.now).metadata.version_log) (fault time_too_early versions_part) (Ok tt)) }
    {
        require_unique_dialects(version, self.view.text).map_err(|_| Fault::new(
            Refusal::RepeatedDialect,
            Part::Versions,
        ))?;
        if too_early(version.timestamp_ms, self.view.version_log.items()) {
            return Err(Fault::new(Refusal::TimeTooEarly, Part::Versions));
        }
        Ok(())
    }

    // The schema id under which the version enters as new, if it may.
    fn require_new(&self, version: &ViewVersion<'v>) -> Result<i32, Fault>
        ensures { meant result ≡ admitted_under (model_of S.SchemaKind self.now) (version_in self.now.view.text.now version.now) }
    {
        let schema_id = resolved(version.schema_id, self.last_added_schema_id).ok_or(Fault::new(
            Refusal::NoSchemaAdded,
            Part::Versions,
        ))?;
        if !holds_id(self.view.schemas.table.items(), schema_id) {
            return Err(Fault::new(Refusal::SchemaNotHeld, Part::Versions));
        }
        self.require_fresh(version)?;
        Ok(schema_id)
    }

    // A new version, under the next id.
    // Kept: beside enter_schema, which asks for no schema and records the greatest field number.
    fn enter_version(&mut self, version: ViewVersion<'v>) -> Result<i32, Fault>
        ensures did { Did S.SchemaKind (reuse_or_add_version (model_of S.SchemaKind self.old) (version_in self.old.view.text.now version.entry) None) self.old result self.new }
        ensures answer { answers_last result self.new.last_added_version_id }
    {
        let schema_id = self.require_new(&version)?;
        let id = next_id(&self.view.versions, Part::Versions)?;
        let stored = version.with_schema_id(schema_id).with_id(id);
        let view_version = stored.with_schema_id(as_recorded(schema_id, self.last_added_schema_id));
        self.record(ViewUpdate::AddViewVersion { view_version })?;
        let _ = self.view.versions.push(stored);
        self.last_added_version_id = Some(id);
        Ok(id)
    }

    // Adds a version, or reuses the held one with the same content; answers its id.
    pub fn add_version(&mut self, version: ViewVersion<'v>) -> Result<i32, Fault>
        ensures did { (clock : ℤ) → Applied S.SchemaKind (add_version (version_in self.old.view.text.now version.entry)) clock self.old result self.new }
        ensures answer { answers_last result self.new.last_added_version_id }
    {
        match held_same(
            &self.view.versions,
            &version,
            self.view.text,
            Part::Versions,
        )? {
            Some(id) => self.reuse_version(version, id),
            None => self.enter_version(version),
        }
    }
}
