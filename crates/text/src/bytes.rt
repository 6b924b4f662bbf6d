ghost use Rattle.std.specs.Prelude.{◌≡◌};
ghost use Rattle.model.specs.Bytes.{same_bytes, before, ascii};

// The same bytes.
// Kept: `==` under the rules' word for it, so that the lemma that ties the two is cited here alone.
pub fn same_bytes(a: &[u8], b: &[u8]) -> bool
    ensures { result ≡ same_bytes a.now b.now }
{
    a == b
}

// Strictly before in the order of bytes, a prefix first.
// Kept: `<` under the rules' word for it, as above.
pub fn before(a: &[u8], b: &[u8]) -> bool
    ensures { result ≡ before a.now b.now }
{
    a < b
}

// No byte is above 127.
#[tactic(auto, using(crate::proofs::Compared::ascii_is))]
pub fn is_ascii(a: &[u8]) -> bool
    ensures { result ≡ ascii a.now }
{
    a.is_ascii()
}
