//! The schemas and their tables.

/// A clause schema.
#[derive(Clone, Copy, Debug, PartialEq, Eq)]
pub enum Axiom {
    /// What was written is read at the address.
    A1,
    /// Another address reads as before.
    A2,
    /// To write what stands there changes nothing.
    A3,
    /// A number is of the kind of numbers.
    A4,
    /// So is a constant.
    A5,
    /// An address is of the kind of pointers.
    A6,
    /// An operator gives a number.
    A7,
    /// The two kinds differ.
    A8,
    /// Two numbers differ.
    A9,
    /// An operator on two numbers.
    A10,
    /// Nothing is added.
    A11,
    /// It is added to nothing.
    A12,
    /// Nothing is taken away.
    A13,
    /// It is taken from itself.
    A14,
    /// It is multiplied by one.
    A15,
    /// One is multiplied by it.
    A16,
    /// It is multiplied by nothing.
    A17,
    /// Nothing is multiplied by it.
    A18,
    /// It equals itself.
    A19,
    /// It does not equal another.
    A20,
    /// It is not less than itself.
    A21,
    /// The order of the operands does not matter.
    A22,
    /// What no cell holds is not read.
    A23,
    /// A write of another value leaves it so that no cell holds it.
    A24,
}

/// Schemas in order.
#[derive(Drop)]
pub struct Table<const N: usize> {
    /// The schemas.
    pub rows: [Axiom; N],
}
