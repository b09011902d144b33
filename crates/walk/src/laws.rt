//! Theorems on steps: each function stands for those that its contract names.

ghost use Rattle.walk.specs.Cases.{WorkedWalk};
ghost use Rattle.walk.specs.Laws.{StepTakes, StepEnds, StepsPart, StepsForward, StepsBackward, ShownFrame, ShownWhole, WalkBeside};

/// A step hands out what stands at its end, or none where nothing is left.
/// In any order of the ends, each entry is handed out once; steps at one end hand out all in order.
pub fn steps_stand<E>()
    ensures takes { StepTakes E }
    ensures ends { StepEnds E }
    ensures part { StepsPart E }
    ensures forward { StepsForward E }
    ensures backward { StepsBackward E }
{}

/// A change elsewhere leaves a walk as it is.
pub fn frame_stands<K, V>()
    ensures shown { ShownFrame K V }
    ensures beside { WalkBeside K V }
{}

/// Between no edges a tree is shown just where the tables hold it whole.
pub fn whole_stands<K, V>()
    ensures { ShownWhole K V }
{}

/// A worked walk over three nodes.
pub fn walk_stands()
    ensures { WorkedWalk }
{}
