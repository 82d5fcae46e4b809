//! Laws of a learning table's answers. Each function does nothing; its contract is a law about the
//! definitions, which the check proves.
#![tactic(auto, using(crate::proofs::TableLaws::table_laws))]

ghost use Rattle.vale_learn.specs.Laws.{FoundWhereHeld, NoneFoundAtFirst, LearningReplaces, RestoringUndoesLearning, ForgettingBringsNothingBack};

/// An address is found exactly where its entry holds it, and none is at first.
pub fn found_where_held()
    ensures held { FoundWhereHeld }
    ensures first { NoneFoundAtFirst }
{}

/// Learning an address makes it found, and every other address of its entry not found.
pub fn learning_replaces()
    ensures { LearningReplaces }
{}

/// A table is as it was before once what was learned is undone.
pub fn restoring_undoes_learning()
    ensures { RestoringUndoesLearning }
{}

/// Forgetting a port makes its addresses not found, and changes no other answer: nothing older
/// comes back.
pub fn forgetting_brings_nothing_back()
    ensures { ForgettingBringsNothingBack }
{}
