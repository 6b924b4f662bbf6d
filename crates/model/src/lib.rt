#![tactic(auto)]

ghost use Rattle.model.specs.Law.{KeepLaw, LogLaw, LogRoomLaw, ReplayLaw, SameLaw};
ghost use Rattle.model.specs.Cases.{CasesHold};

// The built metadata keeps exactly the versions of the first ranks, and has the current version id last chosen.
pub fn keeps_the_first<M>()
    ensures { KeepLaw M }
{}

// The built version log is the longest suffix of the log that names kept versions only.
pub fn log_is_longest_suffix<M>()
    ensures { LogLaw M }
{}

// After an accepted start the version log's table always has room for the entry that build adds.
pub fn log_has_room<M>()
    ensures { LogRoomLaw M }
{}

// Replay of the recorded changes is accepted, and gives equal metadata and equal changes.
pub fn replay_gives_the_same<M>()
    ensures { ReplayLaw M }
{}

// Worked cases of the rules.
pub fn marked_cases()
    ensures { CasesHold }
{}

// Versions are the same exactly when their contents are equal.
pub fn same_is_equality()
    ensures { SameLaw }
{}
