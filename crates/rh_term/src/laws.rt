//! Laws on terms, models and open partitions.
ghost use Rattle.rh_term.specs.Laws.{PartsDecide, ModelsAreOpen, GoalsHold};

/// What a term of a list stands for in a model is made of what its parts stand for.
pub fn denotations_by_parts()
    ensures { PartsDecide }
{}

/// A model in which every clause is true gives an open partition. So where no partition is open, the
/// goal of an obligation is true in every model of its hypotheses.
pub fn open_partitions()
    ensures models { ModelsAreOpen }
    ensures goals { GoalsHold }
{}
