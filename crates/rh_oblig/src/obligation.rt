//! The obligations of a rule.
ghost use Rattle.std.specs.Prelude.{ℕ, ◌≡◌, ◌<◌, ◌≤◌, ◌^◌, Err, IfOk, None, OnOk, Some, length};
ghost use Rattle.rh_rule.specs.RuleFiles.{IsRuleOf, OfRule};
ghost use Rattle.rh_term.specs.Laws.{denial};
ghost use Rattle.std.specs.List.{All, AllByRecursion, flat_map};
ghost use Rattle.rh_meaning.specs.Placed.{clause_in, clauses_in, lit_in};
ghost use Rattle.rh_meaning.specs.Sorts.{IsIn, IsSorted};
ghost use Rattle.rh_meaning.specs.Literal.{clause_trees, literal_trees};
ghost use Rattle.rh_meaning.specs.View.{clauses_of, lit_of, lits_of};
ghost use Rattle.rh_oblig.specs.Obligation.{IsSmall, excess, obligation_clauses, obligations_of, parts_of};
ghost use Rattle.rh_goals.specs.Few.{AreFewClauses, trees_size};
ghost use Rattle.rh_oblig.specs.TermList.{first_trees, term_list};

use crate::term_list::term_list;
use rh_axioms::{add_instances, standard};
use rh_goals::{goals, hypotheses};
use rh_meaning::{TreeClause, TreeLit, tree_place};
use rh_rule::{Rule, RuleFile, Schema};
use rh_term::{Clause, Clauses, Lit, Obligation, Terms};
use std::alloc::{AllocError, AllocFailed, Global};
use thiserror::Error;

/// The most terms that an obligation may have.
pub const MOST_TERMS: u32 = 512;

/// Why the obligations of a rule were not made.
#[derive(Clone, Copy, Debug, PartialEq, Eq, Error)]
pub enum ObligFault {
    /// An obligation has more than `MOST_TERMS` terms: so many, in the first such.
    #[error("{0} terms")]
    TooManyTerms(u64),
    /// There was no memory for them.
    #[error("out of memory")]
    NoMemory,
}

impl From<AllocError> for ObligFault {
    ghost use Rattle.rh_oblig.specs.declared.obligation.ObligFault.TheVariants.{NoMemory};

    ghost from_gives = { λ _ fault. fault ≡ NoMemory };

    fn from(_error: AllocError) -> ObligFault {
        ObligFault::NoMemory
    }
}

impl<T: Drop> From<AllocFailed<T>> for ObligFault {
    ghost use Rattle.rh_oblig.specs.declared.obligation.ObligFault.TheVariants.{NoMemory};

    ghost from_gives = { λ _ fault. fault ≡ NoMemory };

    fn from(_error: AllocFailed<T>) -> ObligFault {
        ObligFault::NoMemory
    }
}

/// What has to be shown of a rule of a file: its obligations in their order.
pub fn obligations(alloc: Global, file: &RuleFile, rule: u32) -> Result<Vec<Obligation>, ObligFault>
    requires { rule < length file.now.rules }
    ensures made { IfOk result (λ made. OfRule file.now rule (λ schemas described. parts_of made.items ≡ obligations_of schemas described)) }
    ensures few { IfOk result (λ made. length made.items < 2 ^ 32) }
    ensures clauses { IfOk result (λ made. All IsSmall made.items) }
    ensures terms { OnOk result (OfRule file.now rule (λ schemas described. excess schemas described ≡ None)) }
    ensures too_many { (count : ℕ) → result ≡ Err (ObligFault.TooManyTerms count)
        → OfRule file.now rule (λ schemas described. excess schemas described ≡ Some count) }
{
    obligations_over(alloc, file.schemas(), &file.rules()[rule as usize])
}

/// The obligations of a rule over the schemas of its file.
fn obligations_over(
    alloc: Global,
    schemas: &[Schema],
    rule: &Rule,
) -> Result<Vec<Obligation>, ObligFault>
    requires { IsRuleOf schemas.now rule.now }
    ensures made { IfOk result (λ made. parts_of made.items ≡ obligations_of schemas.now rule.now) }
    ensures clauses { IfOk result (λ made. All IsSmall made.items) }
    ensures terms { OnOk result (excess schemas.now rule.now ≡ None) }
    ensures too_many { (count : ℕ) → result ≡ Err (ObligFault.TooManyTerms count) → excess schemas.now rule.now ≡ Some count }
{
    let taken = hypotheses(alloc, schemas, rule)?;
    let goals = goals(alloc, schemas, rule)?;
    let mut made = Vec::with_capacity(alloc, goals.len())?;
    for goal in goals.as_slice() {
        made.push(obligation(alloc, rule, taken.as_slice(), goal)?)?;
    }
    Ok(made)
}

/// The obligation of a goal under these hypotheses.
fn obligation(
    alloc: Global,
    rule: &Rule,
    taken: &[TreeClause],
    goal: &TreeLit,
) -> Result<Obligation, ObligFault>
    requires few { length rule.now.params < 2 ^ 32 }
    requires taken { AllByRecursion IsSorted (flat_map clause_trees (clauses_of taken.now)) }
    requires goal { AllByRecursion IsSorted (literal_trees (lit_of goal.now)) }
    requires hypotheses { AreFewClauses (clauses_of taken.now) }
    requires room { trees_size (first_trees rule.now.params rule.now.pattern (clauses_of taken.now) (lit_of goal.now)) < 2 ^ 29 }
    ensures terms { IfOk result (λ made. made.terms ≡ term_list rule.now.params rule.now.pattern (clauses_of taken.now) (lit_of goal.now)) }
    ensures clauses { IfOk result (λ made. made.clauses ≡ obligation_clauses made.terms (clauses_of taken.now) (lit_of goal.now)) }
    ensures short { IfOk result IsSmall }
    ensures small { OnOk result (length (term_list rule.now.params rule.now.pattern (clauses_of taken.now) (lit_of goal.now)) ≤ 512) }
    ensures too_many { (count : ℕ) → result ≡ Err (ObligFault.TooManyTerms count)
        → (512 < count) × (count ≡ length (term_list rule.now.params rule.now.pattern (clauses_of taken.now) (lit_of goal.now))) }
{
    let terms = term_list(alloc, rule.params.as_slice(), rule.pattern, taken, goal)?;
    let count = terms.len();
    if count > MOST_TERMS {
        return Err(ObligFault::TooManyTerms(u64::from(count)));
    }
    let clauses = clauses(alloc, &terms, taken, goal)?;
    Ok(Obligation { terms, clauses })
}

/// The clauses of the hypotheses, the instances of the clause schemas, and the denied goal.
fn clauses(
    alloc: Global,
    terms: &Terms,
    taken: &[TreeClause],
    goal: &TreeLit,
) -> Result<Clauses, AllocError>
    requires taken { AllByRecursion (IsIn terms.now) (flat_map clause_trees (clauses_of taken.now)) }
    requires goal { AllByRecursion (IsIn terms.now) (literal_trees (lit_of goal.now)) }
    ensures { IfOk result (λ clauses. clauses ≡ obligation_clauses terms.now (clauses_of taken.now) (lit_of goal.now)) }
{
    let mut clauses = Clauses::of(alloc, clauses_in(alloc, terms, taken)?);
    add_instances(alloc, &standard(), terms, &mut clauses)?;
    clauses.push(denial(alloc, lit_in(terms, goal))?)?;
    Ok(clauses)
}

/// The clause that says the opposite of a goal.
fn denial(alloc: Global, goal: Lit) -> Result<Clause, AllocError>
    ensures { IfOk result (λ clause. clause ≡ denial goal) }
{
    let opposite = Lit {
        equal: !goal.equal,
        ..goal
    };
    Ok(Clause {
        lits: vec![in alloc; opposite]?.into(),
    })
}

/// A literal with the places of its trees.
fn lit_in(terms: &Terms, lit: &TreeLit) -> Lit
    requires { AllByRecursion (IsIn terms.now) (literal_trees (lit_of lit.now)) }
    ensures { result ≡ lit_in terms.now (lit_of lit.now) }
{
    Lit {
        left: tree_place(terms, &lit.left),
        right: tree_place(terms, &lit.right),
        equal: lit.equal,
    }
}

fn clause_in(alloc: Global, terms: &Terms, lits: &[TreeLit]) -> Result<Clause, AllocError>
    requires { AllByRecursion (IsIn terms.now) (flat_map literal_trees (lits_of lits.now)) }
    ensures { IfOk result (λ clause. clause ≡ clause_in terms.now (lits_of lits.now)) }
{
    let mut placed = Vec::with_capacity(alloc, lits.len())?;
    for lit in lits {
        placed.push(lit_in(terms, lit))?;
    }
    Ok(Clause {
        lits: placed.into(),
    })
}

/// The clauses of the hypotheses, with the places of their trees.
pub(crate) fn clauses_in(
    alloc: Global,
    terms: &Terms,
    clauses: &[TreeClause],
) -> Result<Vec<Clause>, AllocError>
    requires { AllByRecursion (IsIn terms.now) (flat_map clause_trees (clauses_of clauses.now)) }
    ensures { IfOk result (λ placed. placed.items ≡ clauses_in terms.now (clauses_of clauses.now)) }
{
    let mut placed = Vec::with_capacity(alloc, clauses.len())?;
    for clause in clauses {
        placed.push(clause_in(alloc, terms, clause.lits.as_slice())?)?;
    }
    Ok(placed)
}
