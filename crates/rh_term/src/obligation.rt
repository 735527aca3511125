//! Obligations.
ghost use Rattle.std.specs.Prelude.{◌≡◌, ◌↔◌, length, IsTrue, IsSome, IfSome};
ghost use Rattle.std.specs.List.{list_all};
ghost use Rattle.rh_term.specs.Clause.{is_within, are_within};

use crate::clause::Clause;
use crate::clauses::Clauses;
use crate::computed::{Operation, Triple, clause_with};
use crate::terms::Terms;
use crate::tests::ClauseTest;

/// What is to be refuted: a list of terms, and clauses over them.
#[derive(Drop)]
pub struct Obligation {
    /// The terms.
    pub terms: Terms,
    /// The clauses.
    pub clauses: Clauses,
    /// Each literal names two terms of the list.
    pub ghost within: { IsTrue (are_within (length terms) clauses) },
}

impl Obligation {
    /// The obligation of these terms and clauses, where each literal names two of the terms.
    pub fn of(terms: Terms, clauses: Clauses) -> Option<Self>
        ensures within { IsSome result ↔ IsTrue (are_within (length terms) clauses) }
        ensures terms { IfSome result (λ obligation. obligation.terms ≡ terms) }
        ensures clauses { IfSome result (λ obligation. obligation.clauses ≡ clauses) }
    {
        if clauses.all(&IsWithin(terms.len())) {
            Some(Obligation { terms, clauses })
        } else {
            None
        }
    }
}

/// That each literal of a clause names two of so many terms.
#[derive(Clone, Copy)]
struct IsWithin(u32);

impl ClauseTest for IsWithin {
    ghost passes = { λ test clause. list_all (is_within test.0) clause.lits };

    fn made(&self, clause: &Clause) -> bool {
        clause
            .lits
            .as_slice()
            .iter()
            .all(|lit| lit.left < self.0 && lit.right < self.0)
    }

    fn computed(&self, operation: Operation, triple: Triple) -> bool {
        self.made(&clause_with(operation, triple))
    }
}
