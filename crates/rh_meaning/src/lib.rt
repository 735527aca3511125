//! Meanings of facts: terms as trees, literals over them, and where trees stand in a list of terms.
//!
//! `holds` tells whether a fact holds in a state. `fact_literals` gives the literals that it stands for
//! over a store as trees, and `atoms_at` over a list of terms.
#![tactic(auto)]

mod atoms;
mod facts;
mod laws;
mod list;
mod literal;
mod meaning;
mod tree;

pub use atoms::atoms_at;
pub use facts::holds;
pub use laws::literals_say_what_holds;
pub use list::{add, add_tree, tree_place};
pub use literal::{
    TreeClause, TreeLit, binding_tree, differs, equals, is_number, is_pointer, is_unheld, kind_of,
    operand,
};
pub use meaning::fact_literals;
pub use tree::{Tree, compute, select, unheld, update};
