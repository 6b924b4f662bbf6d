ghost use Rattle.std.specs.Prelude.{◌≡◌};
ghost use Rattle.std.specs.Option.{option_map};
ghost use Rattle.model.specs.Bytes.{same_bytes};
ghost use Rattle.model.specs.Settings.{history_key, drop_key, effective_size, truthy};

use super::fold::same_folded;
use super::number::unsigned_reading;
use text::bytes::same_bytes;

// How many versions are kept where no number is set.
pub const DEFAULT_HISTORY_SIZE: u64 = 10;

// The keys of the two properties that steer build.
pub const HISTORY_KEY: &[u8] = b"version.history.num-entries";

pub const DROP_KEY: &[u8] = b"replace.drop-dialect.allowed";

// The key of the history size.
pub fn is_history_key(key: &[u8]) -> bool
    ensures { result ≡ same_bytes key.now history_key }
{
    same_bytes(key, HISTORY_KEY)
}

// The key of the leave to drop dialects.
// Kept: beside is_history_key, since each says its own key in its contract.
pub fn is_drop_key(key: &[u8]) -> bool
    ensures { result ≡ same_bytes key.now drop_key }
{
    same_bytes(key, DROP_KEY)
}

// How many versions the value of the history size asks to keep: at least one, or the default where it is no number.
pub fn effective_size(value: Option<&[u8]>) -> u64
    ensures { result ≡ effective_size (option_map (λ x. x.now) value.entry) }
{
    value
        .and_then(unsigned_reading)
        .map_or(DEFAULT_HISTORY_SIZE, |n| n.max(1))
}

// `true`, `t`, `1` or `on`, in any case.
pub fn is_truthy(value: &[u8]) -> bool
    ensures { result ≡ truthy value.now }
{
    same_folded(value, b"true")
        || same_folded(value, b"t")
        || same_folded(value, b"1")
        || same_folded(value, b"on")
}
