ghost use Rattle.std.specs.Prelude.{◌≡◌, ◌≤◌, map, length, drop};
ghost use Rattle.model.specs.Build.{kept_log};
ghost use Rattle.version.specs.Meaning.{entry_of};

use register::numbered::Identified;
use register::register::holds_id;
use version::view_version::ViewVersionLog;

// The place from which the log is kept: an entry that names no kept version ends all before it.
pub fn update_version_log<T: Identified>(log: &[ViewVersionLog], kept: &[T]) -> usize
    ensures within { result ≤ length log.now }
    ensures entries { map entry_of (drop result log.now) ≡ kept_log (map T.Identified.named kept.now) (map entry_of log.now) }
{
    let from_the_end = log.iter().rev();
    let kept_entries = from_the_end.take_while(|entry| holds_id(kept, entry.version_id));
    log.len() - kept_entries.count()
}
