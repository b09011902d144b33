//! Theorems on the rules of the calls: each function stands for those that its contract names.

ghost use Rattle.calls.specs.Cases.{WorkedCalls};
ghost use Rattle.calls.specs.Laws.{RuleSound, RuleMeans, RuleNumbers, RuleEven, RunsStand};

/// Sound books stay sound; each rule means for the lists what the call of an ordered map does; it refuses for no breach; and entries come out even at each call.
pub fn rules_stand<K, V>()
    ensures sound { RuleSound K V }
    ensures means { RuleMeans K V }
    ensures numbers { RuleNumbers K V }
    ensures even { RuleEven K V }
{}

/// Over every run the books stay sound, no tree is too high, and the entries come out even.
pub fn runs_stand<K, V>()
    ensures { RunsStand K V }
{}

/// The worked calls.
pub fn cases_stand()
    ensures { WorkedCalls }
{}
