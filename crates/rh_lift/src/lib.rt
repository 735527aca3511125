//! What the soundness of rules says of steps and of whole runs.
//!
//! The laws on one step are the local soundness condition of S. Lerner, T. Millstein, E. Rice and
//! C. Chambers, Automated Soundness Proofs for Dataflow Analyses and Transformations via Local Rules,
//! 2005. The laws on whole runs follow by induction on the number of steps.
#![tactic(auto)]

ghost use Rattle.rh_lift.specs.Local.{CallsKeepFacts, EntriesHaveFacts, RewritingKeepsCalls, RewritingSteps, StepsKeepFacts};
ghost use Rattle.rh_lift.specs.Runs.{FactsHoldInRuns, ReturnsKept, StepsKept};

/// The facts on the edge by which a step leaves its statement hold after it, where those on the edge
/// that entered the statement held before it.
pub fn steps_keep_facts()
    ensures { StepsKeepFacts }
{}

/// The facts on the edge that enters a procedure hold where no cell points to its variables, and its
/// locals are 0.
pub fn entries_have_facts()
    ensures { EntriesHaveFacts }
{}

/// The facts on the edge that leaves a call hold once it has returned, where it left alone the
/// variables to which no cell pointed.
pub fn calls_keep_facts()
    ensures { CallsKeepFacts }
{}

/// The statement that takes the place of another makes the same step, wherever that one steps.
pub fn rewriting_steps()
    ensures { RewritingSteps }
{}

/// What takes the place of a call calls the same procedure, and sets the same variable.
pub fn rewriting_keeps_calls()
    ensures { RewritingKeepsCalls }
{}

/// Each known fact holds in every reached state of the program that reaches its edge.
pub fn facts_hold_in_runs()
    ensures { FactsHoldInRuns }
{}

/// From each reached state from which the program steps, the rewritten program makes the same step to
/// the same state, or returns the same value.
pub fn steps_kept()
    ensures { StepsKept }
{}

/// Where a program returns a value within so many steps, the rewritten program returns it within as
/// many.
pub fn returns_kept()
    ensures { ReturnsKept }
{}
