//! An obligation made to be hard.
ghost use Rattle.std.specs.Prelude.{◌≤◌, ◌<◌, ◌^◌, IsTrue, length};
ghost use Rattle.rh_term.specs.Clauses.{all_clauses};
ghost use Rattle.rh_refuter.specs.Choice.{AreNarrow};

use rh_il::Op;
use rh_term::{Clause, Clauses, Lit, Obligation, Part, Term, Terms};
use std::alloc::{AllocError, Global};

/// The most terms that the obligations of a rule have.
const MOST_TERMS: u32 = 512;

/// An obligation over as many terms as there may be, whose branches triple with each split. At each
/// leaf the feet of two towers of terms meet, so that the towers are joined term by term.
///
/// The addresses are `x0 y0 x1 y1 ..`, and each split is the two clauses `x = next or x = y` and
/// `x = next or y = next`. The last `x` equals one address more, from which `x0` differs.
pub fn hard_obligation(alloc: Global, splits: u32) -> Result<Option<Obligation>, AllocError>
    requires { splits ≤ 100 }
{
    let last = 2 * splits + 1;
    let mut terms = Terms::new(alloc);
    for number in 0..=last {
        add_address(&mut terms, number)?;
    }
    let height = (MOST_TERMS - (last + 1)) / 2;
    add_tower(&mut terms, 0, height)?;
    add_tower(&mut terms, last, height)?;
    let clauses = Clauses::of(alloc, clauses(alloc, splits)?);
    Ok(Obligation::of(terms, clauses))
}

fn clauses(alloc: Global, splits: u32) -> Result<Vec<Clause>, AllocError>
    requires { splits ≤ 100 }
{
    let mut clauses = Vec::new(alloc);
    for split in 0..splits {
        let x = 2 * split;
        let (y, next) = (x + 1, x + 2);
        clauses.push(clause(alloc, &[equal(x, next), equal(x, y)])?)?;
        clauses.push(clause(alloc, &[equal(x, next), equal(y, next)])?)?;
    }
    let last = 2 * splits + 1;
    clauses.push(clause(alloc, &[equal(last - 1, last)])?)?;
    let differ = Lit {
        left: 0,
        right: last,
        equal: false,
    };
    clauses.push(clause(alloc, &[differ])?)?;
    Ok(clauses)
}

fn equal(left: u32, right: u32) -> Lit {
    Lit {
        left,
        right,
        equal: true,
    }
}

fn clause(alloc: Global, lits: &[Lit]) -> Result<Clause, AllocError> {
    Ok(Clause {
        lits: Vec::from_slice(alloc, lits)?.into(),
    })
}

/// The foot twice, that twice, and so on.
fn add_tower(terms: &mut Terms, foot: u32, height: u32) -> Result<(), AllocError> {
    let mut top = foot;
    for _ in 0..height {
        top = add_double(terms, top)?;
    }
    Ok(())
}

/// The place of the double of an address or of a sum, where there is room.
fn add_double(terms: &mut Terms, part: u32) -> Result<u32, AllocError> {
    if terms.len() >= MOST_TERMS {
        return Ok(part);
    }
    match terms.get(part) {
        Some(Term::Addr(_)) => terms.add(Term::Op(Op::Add, part, part)),
        Some(Term::Op(_, _, _)) => terms.add(Term::Op(Op::Add, part, part)),
        _ => Ok(part),
    }
}

fn add_address(terms: &mut Terms, number: u32) -> Result<(), AllocError> {
    if terms.len() < MOST_TERMS {
        let _place = terms.add(Term::Addr(number))?;
    }
    Ok(())
}

/// Whether the obligation is as small as the search asks. Its clauses are all made.
pub fn is_small(obligation: &Obligation) -> bool
    ensures few { IsTrue result → length obligation.now.clauses < 2 ^ 32 }
    ensures narrow { IsTrue result → AreNarrow obligation.now.clauses }
{
    let (parts, last) = obligation.clauses.parts();
    are_small(parts, last)
}

fn are_small(parts: &[Part], last: &[Clause]) -> bool
    ensures few { IsTrue result → length (all_clauses parts.now last.now) < 2 ^ 32 }
    ensures narrow { IsTrue result → AreNarrow (all_clauses parts.now last.now) }
{
    match parts {
        [] => last.len() <= u32::MAX as usize && are_narrow(last),
        _ => false,
    }
}

fn are_narrow(clauses: &[Clause]) -> bool
    ensures { IsTrue result → AreNarrow clauses.now }
{
    for clause in clauses {
        if clause.lits.len() > u32::MAX as usize {
            return false;
        }
    }
    true
}
