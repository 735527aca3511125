//! Laws of meanings. Each function does nothing: its contract is the law.
ghost use Rattle.rh_meaning.specs.Laws.{LiteralsSayWhatHolds};

/// The literals of a fact over a store of a list of terms are true in a model exactly where the fact
/// holds in the state whose cells are that store.
pub fn literals_say_what_holds()
    ensures { LiteralsSayWhatHolds }
{}
