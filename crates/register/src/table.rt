ghost use Rattle.std.specs.Prelude.{◌≡◌, not, is_ok};
ghost use Rattle.register.specs.Tables.{held_in, room, is_full, after_push, after_insert, kept_from};

// No slot is free.
#[derive(Clone, Copy)]
pub struct TableFull;

// A bounded list: the first slots of a lent slice.
// Kept: no call allocates, so the slots are lent, and a count says how many are in use.
#[derive(Drop)]
pub struct Table<'a, T> {
    pub slots: &'a mut [T],
    pub held: usize,
}

impl<'a, T> Table<'a, T> {
    // An empty table over lent memory.
    pub fn over<const N: usize>(slots: &'a mut [T; N]) -> Table<'a, T>
        ensures none { result.held ≡ 0 }
        ensures slots { result.slots.now ≡ slots.old }
        ensures room { room result ≡ N }
    {
        Table { slots, held: 0 }
    }
}

impl<'a, T: Copy> Table<'a, T> {
    // Whether every slot is in use.
    pub fn is_full(&self) -> bool
        ensures { result ≡ is_full self.now }
    {
        self.held >= self.slots.len()
    }

    // What it holds, in order.
    pub fn items(&self) -> &[T]
        ensures { result.now ≡ held_in self.now }
    {
        let s = &*self.slots;
        s.get(..self.held).unwrap_or(s)
    }

    // Puts x into the first free slot, if there is one.
    pub fn push(&mut self, x: T) -> Result<(), TableFull>
        ensures answer { is_ok result ≡ not (is_full self.old) }
        ensures table { self.new ≡ after_push self.old x }
    {
        if self.is_full() {
            return Err(TableFull);
        }
        self.slots[self.held] = x;
        self.held += 1;
        Ok(())
    }

    // Puts x at that place, or last where it is past the end; those from there on move up by one.
    pub fn insert(&mut self, at: usize, x: T) -> Result<(), TableFull>
        ensures answer { is_ok result ≡ not (is_full self.old) }
        ensures table { self.new ≡ after_insert at x self.old }
    {
        self.push(x)?;
        let at = at.min(self.held - 1);
        self.slots[at..self.held].rotate_right(1);
        Ok(())
    }

    // Keeps what it holds from `start` on, moved to the front.
    pub fn keep_from(&mut self, start: usize)
        ensures { self.new ≡ kept_from start self.old }
    {
        let end = self.items().len();
        let start = start.min(end);
        self.slots.copy_within(start..end, 0);
        self.held = end - start;
    }
}
