//! Systems of rows over bits, and the greatest set of bits that supports itself, by one thread.
#![tactic(auto)]

mod bit_test;
mod bits;
mod example;
mod hinted_list;
mod hints;
mod listed;
mod rounds;
mod system;

pub use bit_test::{BitTest, InWords};
pub use bits::{has, has_all, is_set, next_set, with_bit};
pub use example::branch_in_a_loop;
pub use hinted_list::HintedList;
pub use hints::Hints;
pub use listed::ListedSystem;
pub use rounds::{full_words, greatest, one_greatest, supported_part};
pub use system::{Row, System};
