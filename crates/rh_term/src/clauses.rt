//! Lists of clauses, of which some are made only where they are looked at. A contract sees such a list
//! as the list of all its clauses.
ghost use Rattle.std.specs.Prelude.{◌≡◌, ◌++◌, ◌∷◌, [], OnOk};
ghost use Rattle.rh_term.specs.Clauses.{all_clauses};
ghost use Rattle.rh_term.specs.Computed.{computed_clauses};

use crate::clause::Clause;
use crate::computed::Computed;
use std::alloc::{AllocError, Global};
use std::marker::Model;
use std::mem::replace;

/// A part of a list of clauses.
#[derive(Drop)]
pub struct Part {
    /// The clauses that are made,
    pub made: Vec<Clause>,
    /// and those that come after them.
    pub computed: Computed,
}

/// A list of clauses.
#[derive(Drop)]
pub struct Clauses {
    parts: Vec<Part>,
    last: Vec<Clause>,
}

impl Model for Clauses {
    ghost use Rattle.std.specs.Prelude.{List};
    ghost use Rattle.rh_term.specs.declared.clause.Clause.{Clause};
    ghost use Rattle.rh_term.specs.Clauses.{all_clauses};

    ghost Value = { List Clause };

    ghost view = { λ a. all_clauses a.parts.items a.last.items };
}

impl Clauses {
    /// The list of these clauses.
    pub fn of(alloc: Global, made: Vec<Clause>) -> Self
        ensures { result ≡ made.items }
    {
        Clauses {
            parts: Vec::new(alloc),
            last: made,
        }
    }

    /// Adds a clause at the end.
    pub fn push(&mut self, clause: Clause) -> Result<(), AllocError>
        ensures { OnOk result (self.new ≡ self.old ++ clause ∷ []) }
    {
        self.last.push(clause)?;
        Ok(())
    }

    /// Adds the clauses of computed operators at the end.
    pub fn push_computed(&mut self, alloc: Global, computed: Computed) -> Result<(), AllocError>
        ensures { OnOk result (self.new ≡ self.old ++ computed_clauses computed) }
    {
        let made = replace(&mut self.last, Vec::new(alloc));
        self.parts.push(Part { made, computed })?;
        Ok(())
    }

    /// The parts, and the clauses that are made and come after them.
    pub fn parts(&self) -> (&[Part], &[Clause])
        ensures { all_clauses result.0.now result.1.now ≡ self.now }
    {
        (self.parts.as_slice(), self.last.as_slice())
    }
}
