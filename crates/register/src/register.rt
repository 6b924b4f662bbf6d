ghost use Rattle.std.specs.Prelude.{◌≡◌, not, is_ok, map, if◌then◌else◌, Some, None};
ghost use Rattle.model.specs.Ids.{find, holds, highest, is_id, highest_id, after};
ghost use Rattle.register.specs.Tables.{held_in, is_full};
ghost use Rattle.register.specs.Registers.{same_id, new_id, pushed, entered};

use super::fault::RegisterFault;
use super::numbered::{Identified, Numbered};
use super::table::{Table, TableFull};

// The numbered things of one kind.
#[derive(Drop)]
pub struct Register<'a, T> {
    pub table: Table<'a, T>,
}

// The first that has the id.
pub fn find<T: Identified>(items: &[T], id: i32) -> Option<T>
    ensures { result ≡ find T.Identified.named id items.now }
{
    items.iter().find(|x| x.id() == id).copied()
}

// Whether one of them has the id.
pub fn holds_id<T: Identified>(items: &[T], id: i32) -> bool
    ensures { result ≡ holds id (map T.Identified.named items.now) }
{
    items.iter().any(|x| x.id() == id)
}

// The lowest id of those that are the same as `thing`.
fn lowest_like<T: Numbered>(items: &[T], thing: &T, block: &[u8]) -> Option<i32>
    ensures { result ≡ same_id T.Numbered block.now thing.now items.now }
{
    let ids = items
        .iter()
        .filter(|x| x.same(thing, block))
        .map(|x| x.id());
    ids.min()
}

// The highest id.
fn highest_of<T: Identified>(items: &[T]) -> Option<i32>
    ensures { result ≡ highest (map T.Identified.named items.now) }
{
    items.iter().map(|x| x.id()).max()
}

// One above the highest, or the first; none where the highest possible is in use.
fn id_after(first: i32, highest: Option<i32>) -> Option<i32>
    ensures { result ≡ (if is_id highest highest_id then None else Some (after first highest)) }
{
    highest.map_or(Some(first), |id| id.checked_add(1))
}

impl<'a, T: Numbered> Register<'a, T> {
    // The lowest id held with the same content as `thing`.
    pub fn lowest_same(&self, thing: &T, block: &[u8]) -> Option<i32>
        ensures { result ≡ same_id T.Numbered block.now thing.now (held_in self.now.table) }
    {
        lowest_like(self.table.items(), thing, block)
    }

    // The id that a new thing gets.
    pub fn next_id(&self) -> Result<i32, RegisterFault>
        ensures { result ≡ new_id T.Numbered self.now.table }
    {
        let highest = highest_of(self.table.items());
        let id = id_after(T::initial_id(), highest).ok_or(RegisterFault::NoIdLeft)?;
        if self.table.is_full() {
            return Err(RegisterFault::Full);
        }
        Ok(id)
    }

    // Puts the thing into the first free slot as it is, if there is one.
    pub fn push(&mut self, thing: T) -> Result<(), TableFull>
        ensures answer { is_ok result ≡ not (is_full self.old.table) }
        ensures register { self.new ≡ pushed thing self.old }
    {
        self.table.push(thing)
    }

    // The lowest id held with the same content, or else that of a copy under a new id, which it then holds.
    pub fn enter(&mut self, thing: T, block: &[u8]) -> Result<i32, RegisterFault>
        ensures { (result, self.new) ≡ entered T.Numbered block.now thing self.old }
    {
        if let Some(id) = self.lowest_same(&thing, block) {
            return Ok(id);
        }
        let id = self.next_id()?;
        let _ = self.push(thing.with_id(id));
        Ok(id)
    }
}
