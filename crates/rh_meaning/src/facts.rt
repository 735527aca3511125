//! When a fact holds in a state.
ghost use Rattle.std.specs.Prelude.{◌≡◌, not, slice_get, length};
ghost use Rattle.std.specs.List.{All, list_all};
ghost use Rattle.rh_il.specs.Value.{value_eq};
ghost use Rattle.rh_term.specs.Model.{is_number};
ghost use Rattle.rh_term.specs.Store.{is_unheld, read, select};
ghost use Rattle.rh_meaning.specs.Holds.{HasCell, HaveCells, arg_pointer, arg_value, atom_holds, base_meant, ground_arg, holds, holds_over, term_meant};

use rh_il::Value;
use rh_il_step::{Frame, State};
use rh_rule::{Arg, MeaningAtom, MeaningBase, MeaningTerm, Schema};

/// Whether a fact holds in a state: each atom of its schema's meaning is true over the variables of
/// the running procedure. It takes no memory.
pub fn holds(schema: &Schema, args: &[Arg], state: &State) -> bool
    requires { HaveCells state.now.frames (length state.now.cells) args.now }
    ensures { result ≡ holds schema.now args.now state.now }
{
    match top_of(state) {
        Some(top) => holds_over(top.base, state.cells(), schema, args),
        None => false,
    }
}

fn top_of(state: &State) -> Option<Frame>
    ensures { result ≡ slice_get state.now.frames 0 }
{
    state.frames().last().copied()
}

fn holds_over(base: u64, cells: &[Value], schema: &Schema, args: &[Arg]) -> bool
    requires { All (HasCell base (length cells.now)) args.now }
    ensures { result ≡ holds_over base cells.now schema.now args.now }
{
    schema
        .meaning
        .as_slice()
        .iter()
        .all(|atom| atom_holds(base, cells, args, *atom))
}

fn atom_holds(base: u64, cells: &[Value], args: &[Arg], atom: MeaningAtom) -> bool
    requires { All (HasCell base (length cells.now)) args.now }
    ensures { result ≡ atom_holds base cells.now args.now atom }
{
    match atom {
        MeaningAtom::Same(left, right) => same_value(
            term_meant(base, cells, args, left),
            term_meant(base, cells, args, right),
        ),
        MeaningAtom::Differ(left, right) => !same_value(
            term_meant(base, cells, args, left),
            term_meant(base, cells, args, right),
        ),
        MeaningAtom::IsNumber(term) => is_number(term_meant(base, cells, args, term)),
        MeaningAtom::IsPointer(term) => !is_number(term_meant(base, cells, args, term)),
        MeaningAtom::Unaliased(param) => is_unheld(cells, pointer_at(base, cells, args, param)),
    }
}

/// What a meaning speaks of.
fn term_meant(base: u64, cells: &[Value], args: &[Arg], term: MeaningTerm) -> Value
    requires { All (HasCell base (length cells.now)) args.now }
    ensures { result ≡ term_meant base cells.now args.now term }
{
    match term {
        MeaningTerm::Plain(operand) => base_meant(base, cells, args, operand),
        MeaningTerm::Address(param) => pointer_at(base, cells, args, param),
        MeaningTerm::Deref(param) => select(
            cells,
            select(cells, pointer_at(base, cells, args, param)),
        ),
        MeaningTerm::Compute(op, left, right) => op.total(
            base_meant(base, cells, args, left),
            base_meant(base, cells, args, right),
        ),
    }
}

fn base_meant(base: u64, cells: &[Value], args: &[Arg], operand: MeaningBase) -> Value
    requires { All (HasCell base (length cells.now)) args.now }
    ensures { result ≡ base_meant base cells.now args.now operand }
{
    match operand {
        MeaningBase::Param(param) => arg_value(base, cells, ground_arg(base, cells, args, param)),
        MeaningBase::Num(number) => Value::Num(number),
    }
}

/// The argument in the place of a parameter.
fn ground_arg(base: u64, cells: &[Value], args: &[Arg], param: u32) -> Arg
    requires { All (HasCell base (length cells.now)) args.now }
    ensures value { result ≡ ground_arg args.now param }
    ensures place { HasCell base (length cells.now) result }
{
    match args.get(param as usize) {
        Some(arg) => *arg,
        None => Arg::Const(0),
    }
}

/// The pointer to the variable that an argument is.
fn pointer_at(base: u64, cells: &[Value], args: &[Arg], param: u32) -> Value
    requires { All (HasCell base (length cells.now)) args.now }
    ensures { result ≡ arg_pointer base (ground_arg args.now param) }
{
    match ground_arg(base, cells, args, param) {
        Arg::Var(number) => Value::Ptr(base + u64::from(number)),
        Arg::Const(_) => Value::Ptr(base),
    }
}

/// What the cell of a variable holds, or the number.
fn arg_value(base: u64, cells: &[Value], arg: Arg) -> Value
    requires { HasCell base (length cells.now) arg }
    ensures { result ≡ arg_value base cells.now arg }
{
    match arg {
        Arg::Var(number) => read(cells, base + u64::from(number)),
        Arg::Const(number) => Value::Num(number),
    }
}

fn read(cells: &[Value], location: u64) -> Value
    ensures { result ≡ read cells.now location }
{
    match cells.get(location as usize) {
        Some(value) => *value,
        None => Value::Num(0),
    }
}

/// What the cell that a value names holds, and 0 where it is a number.
fn select(cells: &[Value], address: Value) -> Value
    ensures { result ≡ select cells.now address }
{
    match address {
        Value::Num(_) => Value::Num(0),
        Value::Ptr(location) => read(cells, location),
    }
}

/// No cell holds the value. A cell past the store holds 0.
#[tactic(auto, using(crate::proofs::NotHeld::unheld_all))]
fn is_unheld(cells: &[Value], value: Value) -> bool
    ensures { result ≡ is_unheld cells.now value }
{
    all_differ(cells, value) && !same_value(Value::Num(0), value)
}

fn all_differ(cells: &[Value], value: Value) -> bool
    ensures { result ≡ list_all (λ held. not (value_eq held value)) cells.now }
{
    cells.iter().all(|held| !same_value(*held, value))
}

fn is_number(value: Value) -> bool
    ensures { result ≡ is_number value }
{
    matches!(value, Value::Num(_))
}

/// The two values are one.
fn same_value(left: Value, right: Value) -> bool
    ensures { result ≡ value_eq left right }
{
    left == right
}
