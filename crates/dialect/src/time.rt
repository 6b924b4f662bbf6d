ghost use Rattle.std.specs.Prelude.{◌≡◌, map};
ghost use Rattle.model.specs.Edits.{too_early_for};
ghost use Rattle.version.specs.Meaning.{entry_of};

use version::view_version::ViewVersionLog;

// How much earlier than the last log entry a version may be, in milliseconds.
const ALLOWED_LAG: i128 = 60_000;

// More than a minute before the last entry of the log.
pub fn too_early(timestamp_ms: i64, log: &[ViewVersionLog]) -> bool
    ensures { result ≡ too_early_for timestamp_ms (map entry_of log.now) }
{
    match log {
        [] => false,
        [.., last] => i128::from(timestamp_ms) + ALLOWED_LAG < i128::from(last.timestamp_ms),
    }
}
