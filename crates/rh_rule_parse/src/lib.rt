//! The source that the words of a rule file spell, by the alternatives that the parser takes. Begin with `source_of`.
#![tactic(auto)]

mod build;
mod cursor;
mod syntax;

pub use syntax::source_of;
