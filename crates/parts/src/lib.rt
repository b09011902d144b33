//! The rules of a cut on trees: each function stands for the theorems that its contract names.
#![tactic(auto)]

ghost use Rattle.parts.specs.Cases.{WorkedCuts};
ghost use Rattle.parts.specs.Laws.{CutFormed, CutFlat, CutParts, CutSorted, CutNumbers, CutBound};

/// A cut gives two formed trees: of the entries below the query and of the others, each in order. Their nodes are old ones, and at most
/// one fresh one for each height. It compares at most eleven keys for each level.
pub fn cut_stands<E>()
    ensures formed { CutFormed E }
    ensures ways { CutFlat E }
    ensures parts { CutParts E }
    ensures sorted { CutSorted E }
    ensures numbers { CutNumbers E }
    ensures bound { CutBound E }
{}

/// The worked cuts.
pub fn cases_stand()
    ensures { WorkedCuts }
{}
