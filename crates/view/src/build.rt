ghost use Rattle.std.specs.Prelude.{◌≡◌, false, not, ◌&&◌, map, count_by};
ghost use Rattle.std.specs.Option.{option_map};
ghost use Rattle.model.specs.Refusals.{over};
ghost use Rattle.model.specs.Settings.{drop_key};
ghost use Rattle.model.specs.Build.{build, additions, look_up, drop_allowed, loses_dialect, with_entry};
ghost use Rattle.register.specs.Tables.{held_in, room};
ghost use Rattle.version.specs.Meaning.{version_of, content_of, entry_of};
ghost use Rattle.property.specs.Meaning.{properties_of};
ghost use Rattle.view.specs.Meaning.{changes_of, model_of};
ghost use Rattle.view.specs.Steps.{with_log};
ghost use Rattle.view.specs.Finished.{adds_version, logged, build_after, HoldsBuild, Builds};

use super::view::View;
use super::view_metadata_builder::ViewMetadataBuilder;
use super::view_update::ViewUpdate;
use dialect::dialects::loses_dialect;
use expiry::expire::expire_versions;
use expiry::log::update_version_log;
use fault::fault::{Fault, Part, Refusal};
use register::register::{find, holds_id};
use schema::kind::SchemaKind;
use version::view_version::ViewVersion;

// Why no view is built, and the builder as it was.
#[derive(Drop)]
pub struct Refused<'t, 'a, 'v, S> {
    pub fault: Fault,
    pub builder: ViewMetadataBuilder<'t, 'a, 'v, S>,
}

// How many of the changes add a version.
fn num_adding<S: SchemaKind>(changes: &[ViewUpdate<'_, S>]) -> usize
    ensures { result ≡ count_by adds_version changes.now }
{
    changes
        .iter()
        .filter(|change| matches!(change, ViewUpdate::AddViewVersion { .. }))
        .count()
}

impl<'t, 'a, 'v, S: SchemaKind> ViewMetadataBuilder<'t, 'a, 'v, S> {
    // How many recorded changes add a version.
    fn num_added_versions(&self) -> usize
        ensures { result ≡ additions (changes_of S.SchemaKind self.now.view) }
    {
        num_adding(self.view.changes.items())
    }

    // Whether this version as the current one would lose a dialect, and none may be lost.
    fn would_lose_dialect(&self, current: &ViewVersion) -> bool
        ensures { result ≡ (not (drop_allowed (look_up drop_key (properties_of self.now.view.text.now self.now.view.properties))) && loses_dialect (option_map (version_of self.now.view.text.now) self.now.previous_view_version) (content_of self.now.view.text.now current.now)) }
    {
        let previous = self.previous_view_version;
        !self.view.properties.drop_allowed(self.view.text)
            && previous.is_some_and(|previous| loses_dialect(&previous, current, self.view.text))
    }

    // Whether the log has no room for the pending entry.
    fn is_log_over(&self) -> bool
        ensures { result ≡ over (room self.now.view.version_log) (with_entry (map entry_of (held_in self.now.view.version_log)) (option_map entry_of self.now.history_entry)) }
    {
        self.history_entry.is_some() && self.view.version_log.is_full()
    }

    // Refuses a builder of which no view can be built.
    fn require_buildable(&self) -> Result<(), Fault>
        ensures { build_after S.SchemaKind self.now result ≡ build (model_of S.SchemaKind self.now) }
    {
        let view = &self.view;
        let current = find(view.versions.table.items(), view.current_version_id).ok_or(Fault::new(
            Refusal::NoCurrentVersion,
            Part::Builder,
        ))?;
        if !holds_id(view.schemas.table.items(), current.schema_id) {
            return Err(Fault::new(Refusal::SchemaNotHeld, Part::Versions));
        }
        if self.would_lose_dialect(&current) {
            return Err(Fault::new(Refusal::LostDialect, Part::Builder));
        }
        if self.is_log_over() {
            return Err(Fault::new(Refusal::LimitReached, Part::Log));
        }
        Ok(())
    }

    // Adds the pending entry to the log.
    fn add_history_entry(&mut self)
        ensures { self.new ≡ with_log (logged self.old.view.version_log self.old.history_entry) self.old }
    {
        if let Some(entry) = self.history_entry {
            let _ = self.view.version_log.push(entry);
        }
    }

    // Adds the pending entry to the log, expires versions, and cuts the log to those that stay.
    fn finish(&mut self)
        requires { over (room self.old.view.version_log) (with_entry (map entry_of (held_in self.old.view.version_log)) (option_map entry_of self.old.history_entry)) ≡ false }
        ensures { HoldsBuild S.SchemaKind self.old self.new }
    {
        self.add_history_entry();
        let size = self.view.properties.history_size(self.view.text);
        let added = self.num_added_versions();
        let current = self.view.current_version_id;
        expire_versions(&mut self.view.versions.table, current, size, added);
        let view = &self.view;
        let from = update_version_log(view.version_log.items(), view.versions.table.items());
        self.view.version_log.keep_from(from);
    }

    // Builds the view, or hands the builder back as it was.
    pub fn build(mut self) -> Result<View<'t, 'a, 'v, S>, Refused<'t, 'a, 'v, S>>
        ensures { Builds S.SchemaKind self.entry result }
    {
        if let Err(fault) = self.require_buildable() {
            return Err(Refused {
                fault,
                builder: self,
            });
        }
        self.finish();
        Ok(self.view)
    }
}
