//! The clause schemas: what every model makes true of stores, operators, kinds and cells.
#![tactic(auto)]

mod computed;
mod instance;
mod kinds;
mod laws;
mod listing;
mod parts;
mod rows;
mod standard_table;
mod table;

pub use laws::schemas_hold;
pub use listing::add_instances;
pub use standard_table::standard;
pub use table::{Axiom, Table};
