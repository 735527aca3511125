//! The rule of the table, and what its steps tell.
use crate::view::View;
use atomic_table::{Join, Play, Split, TableRule};
use std::marker::{Brand, PhantomData};

/// A name for a system, by its full words and rows. Whoever makes a table picks it.
pub trait SystemName {
    ghost use Rattle.rh_edge_words.specs.Meaning.{Meaning};

    /// The full words and the rows.
    ghost meaning: { Meaning };
}

impl SystemName for Brand {
    ghost use Rattle.std.specs.Prelude.{[]};

    ghost meaning = { record { full = []; rows = [] } };
}

/// The words law, with stakes and loads in order.
pub struct WordsRule<N> {
    name: PhantomData<N>,
}

impl<N: SystemName> TableRule<(), View, ()> for WordsRule<N> {
    ghost use Rattle.rh_edge_words.specs.Views.{first_view};
    ghost use Rattle.rh_edge_words.specs.Rule.{KeepsTable};

    ghost holds = { λ _ s. KeepsTable N.meaning s };

    ghost first = { λ _. first_view N.meaning.full };
}

/// A word is looked at, which is no load.
pub(crate) struct Looking<N> {
    name: PhantomData<N>,
}

impl<N: SystemName> Play<(), View> for Looking<N> {
    ghost use Rattle.rh_edge_words.specs.Steps.{Looks};

    ghost then = { λ step me found after. Looks N.meaning step me found after };
}

/// A word is loaded.
pub(crate) struct Loading<N> {
    name: PhantomData<N>,
}

impl<N: SystemName> Play<(), View> for Loading<N> {
    ghost use Rattle.rh_edge_words.specs.Steps.{Loads};

    ghost then = { λ step me found after. Loads N.meaning step me found after };
}

/// Bits of a word are cleared.
pub(crate) struct Clearing<N> {
    name: PhantomData<N>,
}

impl<N: SystemName> Play<(), View> for Clearing<N> {
    ghost use Rattle.rh_edge_words.specs.Steps.{Clears};

    ghost then = { λ step me found after. Clears N.meaning step me found after };
}

/// Bits of a dirty word are set, or all of them are taken.
pub(crate) struct Marking;

impl Play<(), View> for Marking {
    ghost use Rattle.rh_edge_words.specs.Steps.{Stays};

    ghost then = { λ step me found after. Stays step me found after };
}

/// One of the stake goes to a new seat.
pub(crate) struct Halves;

impl Split<View> for Halves {
    ghost use Rattle.rh_edge_words.specs.Views.{poorer, new_view};

    ghost left = { poorer };

    ghost right = { new_view };
}

/// A seat takes in another.
pub(crate) struct Unites;

impl Join<View> for Unites {
    ghost use Rattle.rh_edge_words.specs.Views.{both_views, spent_view};

    ghost both = { both_views };

    ghost spent = { spent_view };
}
