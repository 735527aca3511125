//! Terms.
use rh_il::Op;

/// A term over values and stores. A part of a term is named by its place in the list of terms, and
/// a metavariable by its number in the rule.
#[derive(Clone, Copy, Debug, PartialEq, Eq, Hash)]
pub enum Term {
    /// A number.
    Num(i64),
    /// The number that a `const` metavariable is bound to.
    Cst(u32),
    /// The address of the variable that a `var` metavariable is bound to.
    Addr(u32),
    /// The value that `_` matched.
    Any,
    /// The pointer to the cell of `new`.
    Fresh,
    /// The value that a call returns.
    Answer,
    /// The store before the step.
    Before,
    /// The store as a call returns, before its result is written.
    After,
    /// The store at a procedure's entry.
    Start,
    /// `Sel(store, address)`: what the store holds there.
    Sel(u32, u32),
    /// `Upd(store, address, value)`: the store with the value written there.
    Upd(u32, u32, u32),
    /// An operator on two values.
    Op(Op, u32, u32),
    /// Whether a value is a number or a pointer.
    Kind(u32),
    /// The kind of a number.
    IsNum,
    /// The kind of a pointer.
    IsPtr,
    /// `Una(store, value)`: `Yes` where no cell of the store holds the value.
    Una(u32, u32),
    /// That no cell holds a value.
    Yes,
}
