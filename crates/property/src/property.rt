ghost use Rattle.std.specs.Prelude.{◌≡◌, ◌≤◌, true, not, ◌&&◌, map, length, is_ok, is_err, Some, None, Ok, Err};
ghost use Rattle.std.specs.List.{prefix_len, position, list_any, count_by};
ghost use Rattle.std.specs.Option.{MatchOption, option_map, is_none};
ghost use Rattle.model.specs.Bytes.{same_bytes, before};
ghost use Rattle.model.specs.Version.{same_text};
ghost use Rattle.model.specs.Refusals.{bad_text, properties_part, refuse_at};
ghost use Rattle.model.specs.Numbers.{signed_reading, below_zero};
ghost use Rattle.model.specs.Settings.{history_key, drop_key};
ghost use Rattle.model.specs.Edits.{read_all, out_of_order, negative_size, put_property};
ghost use Rattle.model.specs.Build.{look_up, history_size, drop_allowed};
ghost use Rattle.text.specs.Meaning.{bytes_of};
ghost use Rattle.text.specs.Properties.{property_of, property_in};
ghost use Rattle.register.specs.Tables.{held_in};
ghost use Rattle.property.specs.Meaning.{properties_of, room_of, KeepsRest};
ghost use Rattle.property.specs.Outcomes.{answered, after_updates, planned, FirstTests};

use register::table::Table;
use setting::number::signed_reading;
use setting::settings::{DROP_KEY, HISTORY_KEY, effective_size, is_history_key, is_truthy};
use text::bytes::{before, same_bytes};
use text::property::{Property, out_of_order};

// The most properties of one call.
pub const MAX_UPDATES: usize = 16;

// The properties of the view, ascending by key.
#[derive(Drop)]
pub struct Properties<'a> {
    pub table: Table<'a, Property>,
}

// Why properties are refused.
#[derive(Clone, Copy)]
pub enum PropertyRefusal {
    TooMany,
    BadText,
    Malformed,
    NegativeHistorySize,
}

// A refusal, and the position in the list handed in.
#[derive(Clone, Copy)]
pub struct PropertyFault {
    pub refusal: PropertyRefusal,
    pub position: usize,
}

// What updates would do: how many bring a new key, and whether one brings another value.
#[derive(Clone, Copy)]
struct Effect {
    new_keys: usize,
    changes: bool,
}

// More updates than one call may bring, or more properties than there is room for.
const TOO_MANY: PropertyFault = PropertyFault {
    refusal: PropertyRefusal::TooMany,
    position: 0,
};

// It sets the history size to a number below 0.
fn is_negative_size(property: &Property, block: &[u8]) -> bool
    ensures { result ≡ (same_bytes (bytes_of block.now property.now.key) history_key && below_zero (signed_reading (bytes_of block.now property.now.value))) }
{
    is_history_key(property.key.bytes(block))
        && signed_reading(property.value.bytes(block)).is_some_and(|n| n < 0)
}

// The position of the first property with a bad text.
fn bad_text(updates: &[Property], block: &[u8]) -> Option<usize>
    ensures { read_all 0 (map (property_in block.now) updates.now) ≡ refuse_at bad_text properties_part result (Ok (map (property_of block.now) updates.now)) }
{
    updates.iter().position(|p| p.check(block).is_err())
}

// The position of a history size below 0.
// Kept: beside bad_text, which says what a whole call is refused with.
fn negative_size(updates: &[Property], block: &[u8]) -> Option<usize>
    ensures { result ≡ negative_size 0 (map (property_of block.now) updates.now) }
{
    updates.iter().position(|p| is_negative_size(p, block))
}

// Refuses what was found at a position, if anything was.
fn refuse_at(refusal: PropertyRefusal, found: Option<usize>) -> Result<(), PropertyFault>
    ensures { MatchOption found (is_ok result ≡ true) (λ position. result ≡ Err (record { refusal = refusal; position = position })) }
{
    match found {
        Some(position) => Err(PropertyFault { refusal, position }),
        None => Ok(()),
    }
}

// The tests that need no table: the number of the updates, then their texts, then their order, then the history size.
#[tactic(auto, unfolding(model::specs::Edits::properties_after))]
fn check(updates: &[Property], block: &[u8]) -> Result<(), PropertyFault>
    ensures { FirstTests block.now updates.now result }
{
    if updates.len() > MAX_UPDATES {
        return Err(TOO_MANY);
    }
    refuse_at(PropertyRefusal::BadText, bad_text(updates, block))?;
    refuse_at(PropertyRefusal::Malformed, out_of_order(updates, block))?;
    refuse_at(
        PropertyRefusal::NegativeHistorySize,
        negative_size(updates, block),
    )
}

impl<'a> Properties<'a> {
    // An empty table over lent memory.
    pub fn over<const N: usize>(records: &'a mut [Property; N]) -> Properties<'a>
        ensures records { result.table.slots.now ≡ records.old }
        ensures held { result.table.held ≡ 0 }
    {
        Properties {
            table: Table::over(records),
        }
    }

    // The properties held.
    pub fn items(&self) -> &[Property]
        ensures { result.now ≡ held_in self.now.table }
    {
        self.table.items()
    }

    // The value of the first property with the key.
    fn look_up<'t>(&self, key: &[u8], block: &'t [u8]) -> Option<&'t [u8]>
        ensures { option_map (λ v. v.now) result ≡ look_up key.now (properties_of block.now self.now) }
    {
        self.items()
            .iter()
            .find(|q| same_bytes(q.key.bytes(block), key))
            .map(|q| q.value.bytes(block))
    }

    // What the updates would do, each key looked up once.
    // Kept: a loop; a chain for each of the two questions looks each key up twice.
    fn effect(&self, updates: &[Property], block: &[u8]) -> Effect
        ensures new_keys { result.new_keys ≡ count_by (λ p. is_none (look_up (bytes_of block.now p.key) (properties_of block.now self.now))) updates.now }
        ensures changes { result.changes ≡ list_any (λ p. not (same_text (look_up (bytes_of block.now p.key) (properties_of block.now self.now)) (Some (bytes_of block.now p.value)))) updates.now }
    {
        let mut effect = Effect {
            new_keys: 0,
            changes: false,
        };
        for p in updates {
            let held = self.look_up(p.key.bytes(block), block);
            if held.is_none() {
                effect.new_keys += 1;
            }
            if held != Some(p.value.bytes(block)) {
                effect.changes = true;
            }
        }
        effect
    }

    // The place of the first property with the key.
    // Kept: one by one, and no binary search: the contract holds for a table in any state, also one whose keys are out of order.
    fn find(&self, key: &[u8], block: &[u8]) -> Option<usize>
        ensures { result ≡ position (λ q. same_bytes key.now (bytes_of block.now q.key)) (held_in self.now.table) }
    {
        self.items()
            .iter()
            .position(|q| same_bytes(key, q.key.bytes(block)))
    }

    // The place of the first property whose key comes after this one; their count where there is none.
    // Kept: one by one, as find.
    fn place(&self, key: &[u8], block: &[u8]) -> usize
        ensures { result ≡ prefix_len (λ q. not (before key.now (bytes_of block.now q.key))) (held_in self.now.table) }
    {
        self.items()
            .iter()
            .take_while(|q| !before(key, q.key.bytes(block)))
            .count()
    }

    // A property whose key is held gets the new value in its own record; any other goes where its key belongs in the order.
    fn put(&mut self, property: &Property, block: &[u8])
        requires { length (put_property (property_of block.now property.now) (properties_of block.now self.old)) ≤ room_of self.old }
        ensures held { properties_of block.now self.new ≡ put_property (property_of block.now property.now) (properties_of block.now self.old) }
        ensures rest { KeepsRest self.old self.new }
    {
        let key = property.key.bytes(block);
        match self.find(key, block) {
            Some(i) => self.table.slots[i].value = property.value,
            None => {
                let at = self.place(key, block);
                self.table.insert(at, *property).unwrap();
            }
        }
    }

    // Whether the updates change a property, or why they are refused; writes nothing.
    pub fn plan(&self, updates: &[Property], block: &[u8]) -> Result<bool, PropertyFault>
        ensures { answered (λ changes. changes) result ≡ planned block.now updates.now self.now }
    {
        check(updates, block)?;
        let effect = self.effect(updates, block);
        if effect.new_keys > self.table.slots.len() - self.items().len() {
            return Err(TOO_MANY);
        }
        Ok(effect.changes)
    }

    // Sets the properties, one after another; a refusal writes nothing.
    pub fn set(&mut self, updates: &[Property], block: &[u8]) -> Result<(), PropertyFault>
        ensures answer { answered (λ _. properties_of block.now self.new) result ≡ after_updates block.now updates.now self.old }
        ensures refused { is_err result ≡ true → self.new ≡ self.old }
        ensures rest { KeepsRest self.old self.new }
    {
        self.plan(updates, block)?;
        for p in updates {
            self.put(p, block);
        }
        Ok(())
    }

    // The effective history size.
    #[tactic(auto, unfolding(model::specs::Build::history_size))]
    pub fn history_size(&self, block: &[u8]) -> u64
        ensures { result ≡ history_size (properties_of block.now self.now) }
    {
        effective_size(self.look_up(HISTORY_KEY, block))
    }

    // Dialects may be lost.
    pub fn drop_allowed(&self, block: &[u8]) -> bool
        ensures { result ≡ drop_allowed (look_up drop_key (properties_of block.now self.now)) }
    {
        self.look_up(DROP_KEY, block).is_some_and(is_truthy)
    }
}
