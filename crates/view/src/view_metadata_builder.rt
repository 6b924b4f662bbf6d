ghost use Rattle.std.specs.Prelude.{◌≡◌, if◌then◌else◌, ℤ, Some, None, Ok};
ghost use Rattle.model.specs.State.{set_location, add_schema};
ghost use Rattle.model.specs.Edits.{reuse_or_add_schema};
ghost use Rattle.model.specs.Ids.{is_id, last_added, resolved_id};
ghost use Rattle.model.specs.Refusals.{refuse, refuse_with};
ghost use Rattle.fault.specs.Layers.{changes_fault};
ghost use Rattle.fault.specs.Meaning.{part_of};
ghost use Rattle.text.specs.Meaning.{text_in};
ghost use Rattle.register.specs.Tables.{held_in, is_full, after_push};
ghost use Rattle.register.specs.Registers.{same_id, new_id};
ghost use Rattle.view.specs.Meaning.{meant, given, model_of, schema_in, Applied, Did, answers_last};
ghost use Rattle.view.specs.Steps.{with_changes};

use super::view::View;
use super::view_update::ViewUpdate;
use fault::fault::{Fault, Part, Refusal};
use register::numbered::Numbered;
use register::register::Register;
use schema::kind::SchemaKind;
use text::text::Text;
use version::view_version::{ViewVersion, ViewVersionLog};

// Stands for the schema or version last added in this builder.
// Kept: a number, since the format writes -1 for it.
pub const LAST_ADDED: i32 = -1;

// Edits the metadata of a view in lent tables, and records the changes.
#[derive(Drop)]
pub struct ViewMetadataBuilder<'t, 'a, 'v, S> {
    pub view: View<'t, 'a, 'v, S>,
    pub opened_versions: usize,
    pub last_added_schema_id: Option<i32>,
    pub last_added_version_id: Option<i32>,
    pub history_entry: Option<ViewVersionLog>,
    pub previous_view_version: Option<ViewVersion<'v>>,
}

impl<'t, 'a, 'v, S: SchemaKind> ViewMetadataBuilder<'t, 'a, 'v, S> {
    // Records a change where there is room for it.
    pub(crate) fn record(&mut self, change: ViewUpdate<'v, S>) -> Result<(), Fault>
        ensures answer { meant result ≡ refuse (is_full self.old.view.changes) changes_fault (Ok tt) }
        ensures builder { self.new ≡ with_changes (after_push self.old.view.changes change.entry) self.old }
    {
        self.view
            .changes
            .push(change)
            .map_err(|_| Fault::new(Refusal::LimitReached, Part::Changes))
    }

    // Sets the location of the view, without its trailing slashes.
    pub fn set_location(&mut self, location: Text) -> Result<(), Fault>
        ensures { (clock : ℤ) → Applied S.SchemaKind (set_location (text_in self.old.view.text.now location)) clock self.old result self.new }
    {
        location.check(self.view.text)?;
        let location = location.without_trailing_slashes(self.view.text);
        if location.same(&self.view.location, self.view.text) {
            return Ok(());
        }
        self.record(ViewUpdate::SetLocation { location })?;
        self.view.location = location;
        Ok(())
    }

    // Reuse of the held schema with that id.
    fn reuse_schema(&mut self, schema: S, id: i32) -> Result<i32, Fault>
        ensures did { Did S.SchemaKind (reuse_or_add_schema (model_of S.SchemaKind self.old) (schema_in S.SchemaKind self.old.view.text.now schema) (Some id)) self.old result self.new }
        ensures answer { answers_last result self.new.last_added_schema_id }
    {
        if is_last(self.last_added_schema_id, id) {
            return Ok(id);
        }
        self.record(ViewUpdate::AddSchema {
            schema: schema.with_id(id),
            last_column_id: None,
        })?;
        self.last_added_schema_id = Some(id);
        Ok(id)
    }

    // A new schema, under the next id.
    fn enter_schema(&mut self, schema: S) -> Result<i32, Fault>
        ensures did { Did S.SchemaKind (reuse_or_add_schema (model_of S.SchemaKind self.old) (schema_in S.SchemaKind self.old.view.text.now schema) None) self.old result self.new }
        ensures answer { answers_last result self.new.last_added_schema_id }
    {
        let id = next_id(&self.view.schemas, Part::Schemas)?;
        let stored = schema.with_id(id);
        let last_column_id = Some(stored.highest_field_id(self.view.text));
        self.record(ViewUpdate::AddSchema {
            schema: stored,
            last_column_id,
        })?;
        let _ = self.view.schemas.push(stored);
        self.last_added_schema_id = Some(id);
        Ok(id)
    }

    // Adds a schema, or reuses the held one with the same content; answers its id.
    pub fn add_schema(&mut self, schema: S) -> Result<i32, Fault>
        ensures did { (clock : ℤ) → Applied S.SchemaKind (add_schema (schema_in S.SchemaKind self.old.view.text.now schema)) clock self.old result self.new }
        ensures answer { answers_last result self.new.last_added_schema_id }
    {
        match held_same(&self.view.schemas, &schema, self.view.text, Part::Schemas)? {
            Some(id) => self.reuse_schema(schema, id),
            None => self.enter_schema(schema),
        }
    }
}

// The lowest id held with the same content, where the thing passes its own tests.
pub(crate) fn held_same<T: Numbered>(
    register: &Register<'_, T>,
    thing: &T,
    block: &[u8],
    part: Part,
) -> Result<Option<i32>, Fault>
    ensures { meant result ≡ refuse_with (part_of part) (T.verdict block.now thing.now) (Ok (same_id T.Numbered block.now thing.now (held_in register.now.table))) }
{
    thing
        .check(block)
        .map_err(|fault| Fault::new(fault.into(), part))?;
    Ok(register.lowest_same(thing, block))
}

// The id that a new thing gets.
pub(crate) fn next_id<T: Numbered>(register: &Register<'_, T>, part: Part) -> Result<i32, Fault>
    ensures { meant result ≡ given (part_of part) (new_id T.Numbered register.now.table) }
{
    register
        .next_id()
        .map_err(|fault| Fault::new(fault.into(), part))
}

// The last added id where the id is -1, else the id itself.
pub(crate) fn resolved(id: i32, last: Option<i32>) -> Option<i32>
    ensures { result ≡ resolved_id id last }
{
    if id == LAST_ADDED { last } else { Some(id) }
}

// There is a last added id, and it is that one.
pub(crate) fn is_last(last: Option<i32>, id: i32) -> bool
    ensures { result ≡ is_id last id }
{
    last == Some(id)
}

// The id as it is recorded: -1 where it is the last added.
pub(crate) fn as_recorded(id: i32, last: Option<i32>) -> i32
    ensures { result ≡ (if is_id last id then last_added else id) }
{
    if is_last(last, id) { LAST_ADDED } else { id }
}
