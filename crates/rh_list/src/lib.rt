//! What public types keep on the heap: `Items` is a vector that contracts see as the list of its
//! items, and `Text` a string that they see as the list of its bytes.
//!
//! Two values with the same items are equal in a clause, whatever capacity their vectors have.
#![tactic(auto)]

mod items;
mod text;

pub use items::Items;
pub use text::Text;
