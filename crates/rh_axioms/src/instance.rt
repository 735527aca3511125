//! Instances: clauses of at most three literals.
ghost use Rattle.std.specs.Prelude.{◌≡◌};
ghost use Rattle.rh_axioms.specs.Instance.{equal, differ, clause_of};

use rh_term::{Clause, Lit, Lits};

/// The literals of an instance.
#[derive(Clone, Copy)]
pub enum Instance {
    One(Lit),
    Two(Lit, Lit),
    Three(Lit, Lit, Lit),
}

/// That two terms are equal.
pub fn equal(left: u32, right: u32) -> Lit
    ensures { result ≡ equal left right }
{
    Lit {
        left,
        right,
        equal: true,
    }
}

/// That two terms differ.
pub fn differ(left: u32, right: u32) -> Lit
    ensures { result ≡ differ left right }
{
    Lit {
        left,
        right,
        equal: false,
    }
}

/// The clause of these literals.
pub fn clause_of(instance: Instance) -> Clause
    ensures { result ≡ clause_of instance }
{
    Clause {
        lits: match instance {
            Instance::One(a) => Lits::one(a),
            Instance::Two(a, b) => Lits::two(a, b),
            Instance::Three(a, b, c) => Lits::three(a, b, c),
        },
    }
}
