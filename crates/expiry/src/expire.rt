ghost use Rattle.std.specs.Prelude.{◌≡◌, map, length, take};
ghost use Rattle.model.specs.Build.{how_many_to_keep};
ghost use Rattle.expiry.specs.Expiry.{higher_than, places_for, lowest_placed, KeepsWhatStays, at_least, keeps_id, kept_of, over_front, unexpired_by, holding};
ghost use Rattle.register.specs.Tables.{held_in};

use register::numbered::Identified;
use register::table::Table;

// Which versions stay: the current one, and each whose id is not below the lowest of the highest.
#[derive(Clone, Copy)]
pub struct Kept {
    current: i32,
    lowest: Option<i32>,
}

impl Kept {
    // Whether the version with the id stays.
    pub fn keeps(&self, id: i32) -> bool
        ensures { result ≡ keeps_id self.now id }
    {
        id == self.current || at_least(self.lowest, id)
    }
}

// Whether there is a lowest id, and this one is not below it.
fn at_least(lowest: Option<i32>, id: i32) -> bool
    ensures { result ≡ at_least lowest id }
{
    lowest.is_some_and(|lowest| lowest <= id)
}

// How many of the versions have a higher id.
// Kept: a loop over a slice is vectorised, and a chain that counts or sums is not; this runs once for each id that may have a place.
fn higher<T: Identified>(items: &[T], id: i32) -> usize
    ensures { result ≡ higher_than (map T.Identified.named items.now) id }
{
    let mut count = 0;
    for v in items {
        if v.id() > id {
            count += 1;
        }
    }
    count
}

// How many of the versions stay by their rank: the last place is left to a current version that has none.
fn places<T: Identified>(items: &[T], current: i32, size: u64, added: usize) -> u64
    ensures { result ≡ places_for (map T.Identified.named items.now) current (how_many_to_keep size added) added }
{
    let n = size.max(added as u64).max(1);
    if (higher(items, current) as u64) < n || n == added as u64 {
        n
    } else {
        n - 1
    }
}

// The lowest id that has a place; the best so far is asked first, since a place costs a count over all.
fn lowest_placed<T: Identified>(items: &[T], places: u64) -> Option<i32>
    ensures { result ≡ lowest_placed T.Identified.named items.now places }
{
    items.iter().map(|v| v.id()).fold(None, |best, id| {
        if !at_least(best, id) && (higher(items, id) as u64) < places {
            Some(id)
        } else {
            best
        }
    })
}

// The versions that do not expire.
// Kept: three numbers from three places of a builder; a struct of them would be made for one call and taken apart in the next.
pub fn versions_to_keep<T: Identified>(items: &[T], current: i32, size: u64, added: usize) -> Kept
    ensures { KeepsWhatStays T.Identified.named result items.now current (how_many_to_keep size added) added }
{
    let places = places(items, current, size, added);
    let lowest = lowest_placed(items, places);
    Kept { current, lowest }
}

// Moves what is kept of the first slots to the front, in its order; answers how many there are.
// Kept: an index, since it writes the slots that it reads; `retain` is of a Vec, and no call allocates.
fn keep_in_front<T: Identified>(slots: &mut [T], held: usize, kept: Kept) -> usize
    ensures count { result ≡ length (kept_of T.Identified.named kept (take held slots.old)) }
    ensures front { slots.new ≡ over_front (kept_of T.Identified.named kept (take held slots.old)) slots.old }
{
    let mut count = 0;
    for i in 0..held.min(slots.len()) {
        let v = slots[i];
        if kept.keeps(v.id()) {
            slots[count] = v;
            count += 1;
        }
    }
    count
}

// Expires versions: those that stay are held at the front, in their order.
pub fn expire_versions<T: Identified>(
    table: &mut Table<'_, T>,
    current: i32,
    size: u64,
    added: usize,
)
    ensures { table.new ≡ holding table.old (unexpired_by T.Identified.named (held_in table.old) current (how_many_to_keep size added) added) }
{
    let kept = versions_to_keep(table.items(), current, size, added);
    let held = table.held;
    table.held = keep_in_front(table.slots, held, kept);
}
