//! Lists of literals. Nearly all clauses are instances of the schemas, which have up to three literals:
//! these take no memory of their own, since an obligation can have hundreds of thousands.
ghost use Rattle.std.specs.Prelude.{◌≡◌, [], ◌∷◌, IfOk, length};

use crate::clause::Lit;
use std::alloc::{AllocError, Global};
use std::marker::Model;

#[derive(Drop)]
enum Inside {
    One([Lit; 1]),
    Two([Lit; 2]),
    Three([Lit; 3]),
    Many(Vec<Lit>),
}

/// The literals of a clause.
#[derive(Drop)]
pub struct Lits {
    inside: Inside,
}

impl Model for Lits {
    ghost use Rattle.std.specs.Prelude.{List};
    ghost use Rattle.rh_term.specs.declared.clause.Lit.{Lit};

    ghost Value = { List Lit };

    ghost use Rattle.rh_term.specs.Lits.{lits_in};

    ghost view = { λ a. lits_in a.inside };
}

impl Lits {
    /// One literal.
    pub fn one(a: Lit) -> Self
        ensures { result ≡ a ∷ [] }
    {
        Lits {
            inside: Inside::One([a]),
        }
    }

    /// Two literals.
    pub fn two(a: Lit, b: Lit) -> Self
        ensures { result ≡ a ∷ b ∷ [] }
    {
        Lits {
            inside: Inside::Two([a, b]),
        }
    }

    /// Three literals.
    pub fn three(a: Lit, b: Lit, c: Lit) -> Self
        ensures { result ≡ a ∷ b ∷ c ∷ [] }
    {
        Lits {
            inside: Inside::Three([a, b, c]),
        }
    }

    /// The literals as a slice.
    pub fn as_slice(&self) -> &[Lit]
        ensures value { result.now ≡ self.now }
    {
        match &self.inside {
            Inside::One(lits) => lits.as_slice(),
            Inside::Two(lits) => lits.as_slice(),
            Inside::Three(lits) => lits.as_slice(),
            Inside::Many(lits) => lits.as_slice(),
        }
    }

    /// Equal literals.
    pub fn copy(&self, alloc: Global) -> Result<Lits, AllocError>
        ensures { IfOk result (λ copy. copy ≡ self.now) }
    {
        let inside = match &self.inside {
            Inside::One(lits) => Inside::One(*lits),
            Inside::Two(lits) => Inside::Two(*lits),
            Inside::Three(lits) => Inside::Three(*lits),
            Inside::Many(lits) => Inside::Many(Vec::from_slice(alloc, lits.as_slice())?),
        };
        Ok(Lits { inside })
    }

    /// How many literals there are.
    pub fn len(&self) -> usize
        ensures { result ≡ length self.now }
    {
        self.as_slice().len()
    }
}

impl From<Vec<Lit>> for Lits {
    ghost from_gives = { λ vec lits. lits ≡ vec.items };

    fn from(vec: Vec<Lit>) -> Lits {
        Lits {
            inside: Inside::Many(vec),
        }
    }
}
