//! A law of the search.
ghost use Rattle.rh_refuter.specs.Laws.{OneVerdict};

/// The log or the labels that the search finds are fixed by the terms and the clauses.
pub fn one_verdict()
    ensures { OneVerdict }
{}
