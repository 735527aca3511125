//! The numbers of the arguments that a search tries for each parameter.
ghost use Rattle.std.specs.Prelude.{◌≡◌, ◌<◌, ◌≤◌, ◌++◌, ◌∷◌, [], Some, length, slice_get};
ghost use Rattle.rh_domain.specs.Count.{IsSmall};
ghost use Rattle.rh_ground.specs.Find.{AreToTry};

use crate::find::numbers_to_try;
use crate::wanted::Wanted;
use rh_domain::Domain;
use rh_rule::Param;
use std::marker::Model;

/// At most six ranges of numbers, each from the first number up to the second. Contracts see them as their list.
#[derive(Drop)]
pub(crate) struct Ranges {
    items: [(u32, u32); 6],
    count: usize,
}

impl Model for Ranges {
    ghost use Rattle.std.specs.Prelude.{ℕ, List, ◌≤◌, take};

    ghost Value = { List (ℕ × ℕ) };

    ghost view = { λ r. take r.count r.items };

    ghost invariant = { λ r. r.count ≤ 6 };
}

impl Ranges {
    /// No ranges.
    pub(crate) fn new() -> Ranges
        ensures { result ≡ [] }
    {
        Ranges {
            items: [(0, 0); 6],
            count: 0,
        }
    }

    /// The range at a place.
    pub(crate) fn at(&self, place: usize) -> (u32, u32)
        requires { place < length self.now }
        ensures { slice_get self.now place ≡ Some result }
    {
        self.items[..self.count][place]
    }

    /// Adds a range at the end.
    pub(crate) fn push(&mut self, range: (u32, u32))
        requires { length self.old < 6 }
        ensures { self.new ≡ self.old ++ range ∷ [] }
    {
        self.items[self.count] = range;
        self.count += 1;
    }
}

/// The numbers to be tried for each parameter.
pub(crate) fn ranges_to_try<W: Wanted>(domain: &Domain, params: &[Param], wanted: &W) -> Ranges
    requires small { IsSmall domain.now }
    requires few { length params.now ≤ 6 }
    ensures { AreToTry domain.now (W.accepts wanted.now) 0 params.now result }
{
    let mut ranges = Ranges::new();
    for (meta, param) in params.iter().enumerate() {
        let fixed = wanted.fixed(meta as u32);
        ranges.push(numbers_to_try(domain, param.kind, fixed));
    }
    ranges
}
