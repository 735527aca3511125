//! Facts as literals over a list of terms.
ghost use Rattle.std.specs.Prelude.{◌≡◌, ◌+◌, ◌*◌, ◌<◌, ◌≤◌, ◌^◌, [], IfOk, IsTrue, OnOk, Some, length, map, slice_get};
ghost use Rattle.std.specs.List.{list_all};
ghost use Rattle.rh_meaning.specs.Atoms.{ArePut, ForStore, ForTree, IsFactPut, IsLitPut, IsPut, arg_tree};
ghost use Rattle.rh_meaning.specs.Literal.{equals, pair_lit, unheld_tree};
ghost use Rattle.rh_meaning.specs.Meaning.{atom_literal, meaning_operand, meaning_tree};
ghost use Rattle.rh_meaning.specs.Tree.{Compute, Extends, KindOf, Leaf, Select};
ghost use Rattle.rh_rule.specs.Numbers.{atom_is_below, base_is_below, term_is_below};
ghost use Rattle.rh_rule.specs.RuleFiles.{SchemaPassed};
ghost use Rattle.rh_term.specs.Term.{HasParts, is_store_at, is_value_at};

use crate::list::is_term_list;
use crate::literal::kind_of;
use crate::meaning::{arg_at, meta_at};
use rh_il::Op;
use rh_rule::{Kind, MeaningAtom, MeaningBase, MeaningTerm, Param, RuleBase, Schema};
use rh_term::{Lit, Term, Terms};
use std::alloc::{AllocError, Global};

/// The literals of the atoms of a fact, in their order, over the store at a place of the list. Those of
/// their terms that are not in the list are added at its end: atom after atom, and in an atom from left
/// to right, each term after its parts. An argument is of the kind of the parameter in whose place it
/// stands.
///
/// After out of memory the list may have grown. The terms that stood in it keep their places.
pub fn atoms_at(
    alloc: Global,
    schema: &Schema,
    args: &[RuleBase],
    store: u32,
    terms: &mut Terms,
) -> Result<Vec<Lit>, AllocError>
    requires schema { SchemaPassed schema.now }
    requires store { IsTrue (is_store_at terms.old store) }
    requires room { length terms.old < 4294967000 }
    ensures grown { Extends terms.old terms.new }
    ensures put { IfOk result (λ lits. IsFactPut schema.now args.now store terms.old terms.new lits.items) }
{
    is_term_list(terms);
    atoms_in(
        alloc,
        schema.params.as_slice(),
        args,
        store,
        terms,
        schema.meaning.as_slice(),
    )
}

fn atoms_in(
    alloc: Global,
    places: &[Param],
    args: &[RuleBase],
    store: u32,
    terms: &mut Terms,
    atoms: &[MeaningAtom],
) -> Result<Vec<Lit>, AllocError>
    requires below { IsTrue (list_all (atom_is_below (length places.now)) atoms.now) }
    requires store { IsTrue (is_store_at terms.old store) }
    requires room { length terms.old + 10 * length atoms.now < 2 ^ 32 }
    ensures grown { Extends terms.old terms.new }
    ensures put { IfOk result (λ lits. ForStore places.now args.now terms.old store (λ params tree.
        ArePut terms.old terms.new (map (atom_literal params args.now tree) atoms.now) lits.items)) }
{
    let mut lits = Vec::with_capacity(alloc, atoms.len())?;
    for atom in atoms {
        lits.push(atom_at(places, args, store, terms, *atom)?)?;
    }
    Ok(lits)
}

fn atom_at(
    places: &[Param],
    args: &[RuleBase],
    store: u32,
    terms: &mut Terms,
    atom: MeaningAtom,
) -> Result<Lit, AllocError>
    requires below { IsTrue (atom_is_below (length places.now) atom) }
    requires store { IsTrue (is_store_at terms.old store) }
    requires room { length terms.old + 10 < 2 ^ 32 }
    ensures grown { Extends terms.old terms.new }
    ensures few { OnOk result (length terms.new ≤ length terms.old + 10) }
    ensures put { IfOk result (λ lit. ForStore places.now args.now terms.old store (λ params tree. IsLitPut terms.old terms.new (atom_literal params args.now tree atom) lit)) }
{
    match atom {
        MeaningAtom::Same(left, right) => pair_at(places, args, store, terms, left, right, true),
        MeaningAtom::Differ(left, right) => pair_at(places, args, store, terms, left, right, false),
        MeaningAtom::IsNumber(term) => kind_at(places, args, store, terms, term, Term::IsNum),
        MeaningAtom::IsPointer(term) => kind_at(places, args, store, terms, term, Term::IsPtr),
        MeaningAtom::Unaliased(param) => unheld_at(store, terms, meta_at(args, param)),
    }
}

/// That two values are equal, or that they differ.
fn pair_at(
    places: &[Param],
    args: &[RuleBase],
    store: u32,
    terms: &mut Terms,
    left: MeaningTerm,
    right: MeaningTerm,
    equal: bool,
) -> Result<Lit, AllocError>
    requires left { IsTrue (term_is_below (length places.now) left) }
    requires right { IsTrue (term_is_below (length places.now) right) }
    requires store { IsTrue (is_store_at terms.old store) }
    requires room { length terms.old + 10 < 2 ^ 32 }
    ensures grown { Extends terms.old terms.new }
    ensures few { OnOk result (length terms.new ≤ length terms.old + 10) }
    ensures put { IfOk result (λ lit. ForStore places.now args.now terms.old store (λ params tree.
        IsLitPut terms.old terms.new (pair_lit (meaning_tree params args.now tree left) (meaning_tree params args.now tree right) equal) lit)) }
{
    let left = term_at(places, args, store, terms, left)?;
    let right = term_at(places, args, store, terms, right)?;
    Ok(Lit { left, right, equal })
}

/// That a value is of a kind.
fn kind_at(
    places: &[Param],
    args: &[RuleBase],
    store: u32,
    terms: &mut Terms,
    term: MeaningTerm,
    kind: Term,
) -> Result<Lit, AllocError>
    requires below { IsTrue (term_is_below (length places.now) term) }
    requires kind { HasParts [] kind }
    requires store { IsTrue (is_store_at terms.old store) }
    requires room { length terms.old + 10 < 2 ^ 32 }
    ensures grown { Extends terms.old terms.new }
    ensures few { OnOk result (length terms.new ≤ length terms.old + 10) }
    ensures put { IfOk result (λ lit. ForStore places.now args.now terms.old store (λ params tree.
        IsLitPut terms.old terms.new (equals (KindOf (meaning_tree params args.now tree term)) (Leaf kind)) lit)) }
{
    let value = term_at(places, args, store, terms, term)?;
    let left = put(terms, Term::Kind(value))?;
    let right = put(terms, kind)?;
    Ok(Lit {
        left,
        right,
        equal: true,
    })
}

/// That no cell of the store holds the pointer to a variable.
fn unheld_at(store: u32, terms: &mut Terms, meta: u32) -> Result<Lit, AllocError>
    requires store { IsTrue (is_store_at terms.old store) }
    requires room { length terms.old + 10 < 2 ^ 32 }
    ensures grown { Extends terms.old terms.new }
    ensures few { OnOk result (length terms.new ≤ length terms.old + 10) }
    ensures put { IfOk result (λ lit. ForTree terms.old store (λ tree. IsLitPut terms.old terms.new (unheld_tree tree (Leaf (Term.Addr meta))) lit)) }
{
    let address = put(terms, Term::Addr(meta))?;
    let left = put(terms, Term::Una(store, address))?;
    let right = put(terms, Term::Yes)?;
    Ok(Lit {
        left,
        right,
        equal: true,
    })
}

/// The place of a value that a meaning speaks of.
fn term_at(
    places: &[Param],
    args: &[RuleBase],
    store: u32,
    terms: &mut Terms,
    term: MeaningTerm,
) -> Result<u32, AllocError>
    requires below { IsTrue (term_is_below (length places.now) term) }
    requires store { IsTrue (is_store_at terms.old store) }
    requires room { length terms.old + 5 < 2 ^ 32 }
    ensures grown { Extends terms.old terms.new }
    ensures few { OnOk result (length terms.new ≤ length terms.old + 5) }
    ensures value { IfOk result (λ place. IsTrue (is_value_at terms.new place)) }
    ensures put { IfOk result (λ place. ForStore places.now args.now terms.old store (λ params tree. IsPut terms.old terms.new (meaning_tree params args.now tree term) place)) }
{
    match term {
        MeaningTerm::Plain(base) => operand_at(places, args, store, terms, base),
        MeaningTerm::Address(param) => put(terms, Term::Addr(meta_at(args, param))),
        MeaningTerm::Deref(param) => pointee_at(store, terms, meta_at(args, param)),
        MeaningTerm::Compute(op, left, right) => {
            computed_at(places, args, store, terms, op, left, right)
        }
    }
}

fn computed_at(
    places: &[Param],
    args: &[RuleBase],
    store: u32,
    terms: &mut Terms,
    op: Op,
    left: MeaningBase,
    right: MeaningBase,
) -> Result<u32, AllocError>
    requires left { IsTrue (base_is_below (length places.now) left) }
    requires right { IsTrue (base_is_below (length places.now) right) }
    requires store { IsTrue (is_store_at terms.old store) }
    requires room { length terms.old + 5 < 2 ^ 32 }
    ensures grown { Extends terms.old terms.new }
    ensures few { OnOk result (length terms.new ≤ length terms.old + 5) }
    ensures value { IfOk result (λ place. IsTrue (is_value_at terms.new place)) }
    ensures put { IfOk result (λ place. ForStore places.now args.now terms.old store (λ params tree.
        IsPut terms.old terms.new (Compute op (meaning_operand params args.now tree left) (meaning_operand params args.now tree right)) place)) }
{
    let left = operand_at(places, args, store, terms, left)?;
    let right = operand_at(places, args, store, terms, right)?;
    put(terms, Term::Op(op, left, right))
}

fn operand_at(
    places: &[Param],
    args: &[RuleBase],
    store: u32,
    terms: &mut Terms,
    base: MeaningBase,
) -> Result<u32, AllocError>
    requires below { IsTrue (base_is_below (length places.now) base) }
    requires store { IsTrue (is_store_at terms.old store) }
    requires room { length terms.old + 2 < 2 ^ 32 }
    ensures grown { Extends terms.old terms.new }
    ensures few { OnOk result (length terms.new ≤ length terms.old + 2) }
    ensures value { IfOk result (λ place. IsTrue (is_value_at terms.new place)) }
    ensures put { IfOk result (λ place. ForStore places.now args.now terms.old store (λ params tree. IsPut terms.old terms.new (meaning_operand params args.now tree base) place)) }
{
    match base {
        MeaningBase::Param(param) => arg_place(
            kind_of(places, param),
            store,
            terms,
            arg_at(args, param),
        ),
        MeaningBase::Num(number) => put(terms, Term::Num(number)),
    }
}

/// The value of an argument for a parameter of a kind.
fn arg_place(kind: Kind, store: u32, terms: &mut Terms, arg: RuleBase) -> Result<u32, AllocError>
    requires store { IsTrue (is_store_at terms.old store) }
    requires room { length terms.old + 2 < 2 ^ 32 }
    ensures grown { Extends terms.old terms.new }
    ensures few { OnOk result (length terms.new ≤ length terms.old + 2) }
    ensures value { IfOk result (λ place. IsTrue (is_value_at terms.new place)) }
    ensures put { IfOk result (λ place. ForTree terms.old store (λ tree. IsPut terms.old terms.new (arg_tree kind tree arg) place)) }
{
    match (arg, kind) {
        (RuleBase::Meta(meta), Kind::Var) => variable_at(store, terms, meta),
        (RuleBase::Meta(meta), Kind::Const) => put(terms, Term::Cst(meta)),
        (RuleBase::Num(number), _) => put(terms, Term::Num(number)),
        (RuleBase::Wild, _) => put(terms, Term::Any),
    }
}

/// What the store holds at a variable.
fn variable_at(store: u32, terms: &mut Terms, meta: u32) -> Result<u32, AllocError>
    requires store { IsTrue (is_store_at terms.old store) }
    requires room { length terms.old + 2 < 2 ^ 32 }
    ensures grown { Extends terms.old terms.new }
    ensures few { OnOk result (length terms.new ≤ length terms.old + 2) }
    ensures value { IfOk result (λ place. IsTrue (is_value_at terms.new place)) }
    ensures put { IfOk result (λ place. ForTree terms.old store (λ tree. IsPut terms.old terms.new (Select tree (Leaf (Term.Addr meta))) place)) }
{
    let address = put(terms, Term::Addr(meta))?;
    put(terms, Term::Sel(store, address))
}

/// What the store holds at the address that a variable has.
fn pointee_at(store: u32, terms: &mut Terms, meta: u32) -> Result<u32, AllocError>
    requires store { IsTrue (is_store_at terms.old store) }
    requires room { length terms.old + 3 < 2 ^ 32 }
    ensures grown { Extends terms.old terms.new }
    ensures few { OnOk result (length terms.new ≤ length terms.old + 3) }
    ensures value { IfOk result (λ place. IsTrue (is_value_at terms.new place)) }
    ensures put { IfOk result (λ place. ForTree terms.old store (λ tree. IsPut terms.old terms.new (Select tree (Select tree (Leaf (Term.Addr meta)))) place)) }
{
    let address = variable_at(store, terms, meta)?;
    put(terms, Term::Sel(store, address))
}

/// The place of a term, which is added at the end of the list where it is not in it.
fn put(terms: &mut Terms, term: Term) -> Result<u32, AllocError>
    requires parts { HasParts terms.old term }
    requires room { length terms.old + 1 < 2 ^ 32 }
    ensures grown { Extends terms.old terms.new }
    ensures few { OnOk result (length terms.new ≤ length terms.old + 1) }
    ensures stands { IfOk result (λ place. slice_get terms.new place ≡ Some term) }
    ensures put { IfOk result (λ place. IsPut terms.old terms.new (Leaf term) place) }
{
    let place = terms.add(term)?;
    is_term_list(terms);
    Ok(place)
}
