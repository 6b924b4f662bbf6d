ghost use Rattle.std.specs.Prelude.{◌≡◌, ℕ, Bool, List, ℤ, Decides, Option};
ghost use Rattle.register.specs.Faults.{refused_with};

use super::fault::RecordFault;

// What has an id.
pub trait Identified: Copy {
    // the id that it has
    ghost named: { Self → ℤ };

    fn id(&self) -> i32
        ensures { result ≡ named self.now };
}

// A numbered thing: an id, a content over a text block, and the tests that it passes.
pub trait Numbered: Identified {
    // the id that the first one gets
    ghost initial: { ℤ };
    // the type of contents
    ghost Content: { Type 0 };
    // the content over a text block
    ghost content: { List ℕ → Self → Content };
    // the test of two contents
    ghost alike: { Content → Content → Bool };
    // the number that its own tests refuse it with, none where they pass
    ghost verdict: { List ℕ → Self → Option ℕ };
    // the copy under another id
    ghost copied: { ℤ → Self → Self };

    const FIRST_ID: i32;

    // Kept: FIRST_ID as a call. A ghost beside the constant gets no clauses in an impl with a lifetime, as ViewVersion's.
    fn initial_id() -> i32
        ensures { result ≡ initial };

    fn with_id(self, id: i32) -> Self
        ensures { result ≡ copied id self };

    fn same(&self, other: &Self, block: &[u8]) -> bool
        ensures { result ≡ alike (content block.now self.now) (content block.now other.now) };

    fn check(&self, block: &[u8]) -> Result<(), RecordFault>
        ensures { refused_with result ≡ verdict block.now self.now };
}

// The laws of numbered things.
// Kept: apart from `Numbered`, since a register asks them of none of its things.
pub trait Lawful: Numbered {
    // the test says yes exactly when the contents are equal
    ghost decides: { (m n : Self.Content) → Decides (Self.alike m n) (m ≡ n) };
    // a copy under its own id is the thing itself, and a copy of a copy is a copy
    ghost own: { (x : Self) → Self.copied (Self.named x) x ≡ x };

    ghost again: { (i j : ℤ) (x : Self) → Self.copied i (Self.copied j x) ≡ Self.copied i x };
    // a copy has the given id, an equal content, and passes the same tests
    ghost renamed: { (i : ℤ) (x : Self) → Self.named (Self.copied i x) ≡ i };

    ghost contents: { (b : List ℕ) (i : ℤ) (x : Self) → Self.content b (Self.copied i x) ≡ Self.content b x };

    ghost verdicts: { (b : List ℕ) (i : ℤ) (x : Self) → Self.verdict b (Self.copied i x) ≡ Self.verdict b x };
}
