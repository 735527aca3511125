//! The instances of a table over a list of terms.
ghost use Rattle.std.specs.Prelude.{◌≡◌, ℕ, ◌++◌, ◌≤◌, List, length, IfOk, IsTrue};
ghost use Rattle.rh_term.specs.declared.clause.Clause.{Clause};
ghost use Rattle.rh_term.specs.declared.term.Term.{Term};
ghost use Rattle.rh_term.specs.Clause.{are_within};
ghost use Rattle.rh_axioms.specs.Instance.{clauses_of};
ghost use Rattle.rh_axioms.specs.Parts.{as_sel};
ghost use Rattle.rh_axioms.specs.Rows.{computations, each, instances_of, number_pairs, numbers_differ, of_some, reads_of_unheld, row, single, unheld_unread};

use crate::computed::computed;
use crate::instance::{Instance, clause_of};
use crate::kinds::{kind_of_address, kind_of_constant, kind_of_number, kind_of_operation};
use crate::parts::{as_num, as_op, as_sel, as_una};
use crate::rows::*;
use crate::table::{Axiom, Table};
use rh_il::Op;
use rh_term::{Clauses, Term, Terms};
use std::alloc::{AllocError, Global};

/// Puts the instances of each schema of the table over the list at the end of the clauses: schema by
/// schema, and of one schema by the places of the terms that it names, from the first.
pub fn add_instances<const N: usize>(
    alloc: Global,
    table: &Table<N>,
    terms: &Terms,
    clauses: &mut Clauses,
) -> Result<(), AllocError>
    requires { N ≤ 64 }
    ensures instances { IfOk result (λ _. clauses.new ≡ clauses.old ++ instances_of table.now.rows terms.now) }
    ensures within { IfOk result (λ _. IsTrue (are_within (length terms.now) (instances_of table.now.rows terms.now))) }
{
    let _list = terms.len();
    for schema in table.rows.iter() {
        add_row(alloc, *schema, terms, clauses)?;
    }
    Ok(())
}

// the arms of the schemas that name one term
macro_rules! single {
    ($schema:ident, $terms:ident, $place:ident, $term:ident; $($name:ident => $row:ident($($given:expr),*),)*) => {
        match $schema {
            $(Axiom::$name => $row($($given,)* $terms, $place, $term),)*
            _ => None,
        }
    };
}

/// What a schema that names one term gives for a term.
fn single(schema: Axiom, terms: &Terms, place: u32, term: Term) -> Option<Instance>
    ensures { result ≡ single schema terms.now place term }
{
    single! {
        schema, terms, place, term;
        A1 => read_back(),
        A2 => read_before(),
        A3 => write_nothing_new(),
        A4 => kind_of_number(),
        A5 => kind_of_constant(),
        A6 => kind_of_address(),
        A7 => kind_of_operation(),
        A11 => unit_on_the_right(Op::Add, 0),
        A12 => unit_on_the_left(Op::Add, 0),
        A13 => unit_on_the_right(Op::Sub, 0),
        A14 => same_operands(Op::Sub, 0),
        A15 => unit_on_the_right(Op::Mul, 1),
        A16 => unit_on_the_left(Op::Mul, 1),
        A17 => zero_on_the_right(),
        A18 => zero_on_the_left(),
        A19 => same_operands(Op::Equal, 1),
        A20 => different_operands(),
        A21 => same_operands(Op::Less, 0),
        A22 => other_order(),
        A24 => unheld_after(),
    }
}

/// Puts the clause at the end, where there is an instance.
fn put(instance: Option<Instance>, clauses: &mut Clauses) -> Result<(), AllocError>
    ensures { IfOk result (λ _. clauses.new ≡ clauses.old ++ clauses_of instance) }
{
    if let Some(instance) = instance {
        clauses.push(clause_of(instance))?;
    }
    Ok(())
}

fn add_row(
    alloc: Global,
    schema: Axiom,
    terms: &Terms,
    clauses: &mut Clauses,
) -> Result<(), AllocError>
    ensures { IfOk result (λ _. clauses.new ≡ clauses.old ++ row terms.now schema) }
{
    match schema {
        Axiom::A8 => put(kinds_differ(terms), clauses),
        Axiom::A9 => add_each(&NumberPairs, terms, clauses),
        Axiom::A10 => add_computations(alloc, terms, clauses),
        Axiom::A23 => add_each(&UnheldReads, terms, clauses),
        _ => add_each(&OneTerm(schema), terms, clauses),
    }
}

/// The clauses that are given for one term of a list.
trait PerTerm {
    // the clauses for a term of the list, with its place
    ghost clauses_for: { Self → List Term → ℕ → Term → List Clause };

    /// Puts the clauses at the end.
    fn add(
        &self,
        terms: &Terms,
        place: u32,
        term: Term,
        clauses: &mut Clauses,
    ) -> Result<(), AllocError>
        ensures { IfOk result (λ _. clauses.new ≡ clauses.old ++ clauses_for self.now terms.now place term) };
}

/// Puts the clauses for each term of the list at the end.
fn add_each<P: PerTerm>(given: &P, terms: &Terms, clauses: &mut Clauses) -> Result<(), AllocError>
    ensures { IfOk result (λ _. clauses.new ≡ clauses.old ++ each terms.now (P.clauses_for given.now terms.now)) }
{
    for (place, term) in terms.as_slice().iter().enumerate() {
        given.add(terms, place as u32, *term, clauses)?;
    }
    Ok(())
}

/// A schema that names one term.
#[derive(Clone, Copy)]
struct OneTerm(Axiom);

impl PerTerm for OneTerm {
    ghost clauses_for = { λ given terms place term. clauses_of (single given.0 terms place term) };

    fn add(
        &self,
        terms: &Terms,
        place: u32,
        term: Term,
        clauses: &mut Clauses,
    ) -> Result<(), AllocError> {
        put(single(self.0, terms, place, term), clauses)
    }
}

/// The numbers that differ from one of the list.
#[derive(Clone, Copy)]
struct NumberPairs;

impl PerTerm for NumberPairs {
    ghost clauses_for = { λ _ terms place term. number_pairs terms place term };

    fn add(
        &self,
        terms: &Terms,
        place: u32,
        term: Term,
        clauses: &mut Clauses,
    ) -> Result<(), AllocError> {
        let Some(_number) = as_num(term) else {
            return Ok(());
        };
        add_each(&OtherNumbers(place), terms, clauses)
    }
}

/// The later numbers, which differ from the number at a place.
#[derive(Clone, Copy)]
struct OtherNumbers(u32);

impl PerTerm for OtherNumbers {
    ghost clauses_for = { λ given terms later other. clauses_of (numbers_differ given.0 later other) };

    fn add(
        &self,
        _terms: &Terms,
        later: u32,
        other: Term,
        clauses: &mut Clauses,
    ) -> Result<(), AllocError> {
        put(numbers_differ(self.0, later, other), clauses)
    }
}

fn add_computations(alloc: Global, terms: &Terms, clauses: &mut Clauses) -> Result<(), AllocError>
    ensures { IfOk result (λ _. clauses.new ≡ clauses.old ++ each terms.now (computations terms.now)) }
{
    clauses.push_computed(alloc, computed(alloc, terms)?)
}

/// What no cell holds, and the reads.
#[derive(Clone, Copy)]
struct UnheldReads;

impl PerTerm for UnheldReads {
    ghost clauses_for = { λ _ terms place term. reads_of_unheld terms place term };

    fn add(
        &self,
        terms: &Terms,
        place: u32,
        term: Term,
        clauses: &mut Clauses,
    ) -> Result<(), AllocError> {
        let Some(unheld) = as_una(term) else {
            return Ok(());
        };
        add_each(&ReadsOf { place, unheld }, terms, clauses)
    }
}

/// The reads of a store of which no cell holds a value.
#[derive(Clone, Copy)]
struct ReadsOf {
    place: u32,
    unheld: (u32, u32),
}

impl PerTerm for ReadsOf {
    ghost clauses_for = { λ given terms at other. of_some (as_sel other) (λ read. clauses_of (unheld_unread terms given.place given.unheld at read)) };

    fn add(
        &self,
        terms: &Terms,
        at: u32,
        other: Term,
        clauses: &mut Clauses,
    ) -> Result<(), AllocError> {
        let Some(read) = as_sel(other) else {
            return Ok(());
        };
        put(
            unheld_unread(terms, self.place, self.unheld, at, read),
            clauses,
        )
    }
}
