ghost use Rattle.std.specs.Prelude.{◌≡◌, ℕ, List, ℤ, pos};

use register::numbered::Lawful;

// A kind of schema: a numbered thing that also tells its greatest field number, which is part of its content.
pub trait SchemaKind: Lawful {
    // the greatest field number over a text block
    ghost greatest: { List ℕ → Self → ℤ };

    fn highest_field_id(&self, block: &[u8]) -> i32
        ensures { result ≡ greatest block.now self.now };

    // the first schema has the id 0
    ghost first: { Self.initial ≡ pos 0 };

    // equal contents have equal greatest field numbers
    ghost part: { (b c : List ℕ) (x y : Self) → Self.content b x ≡ Self.content c y → greatest b x ≡ greatest c y };
}
