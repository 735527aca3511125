//! Laws of obligations. Each function does nothing: its contract is the law.
ghost use Rattle.rh_oblig.specs.Laws.{AdmittedAreSound, ShownAreValid, TermListsAreClosed};

/// An obligation of a rule of a rule file holds where its clauses have no open partition: its goal is
/// true in every model of its hypotheses.
pub fn shown_obligations_hold()
    ensures { ShownAreValid }
{}

/// So each obligation of a rule that is proved holds.
pub fn admitted_rules_are_sound()
    ensures { AdmittedAreSound }
{}

/// The terms of an obligation are a list of terms in which each leads to terms of the list alone.
pub fn term_lists_are_closed()
    ensures { TermListsAreClosed }
{}
