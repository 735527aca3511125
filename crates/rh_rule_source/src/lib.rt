//! The syntax of rule files: what their tokens say, the grammar, and the sources that words spell. In a source names
//! stand as they are spelled.
#![tactic(auto)]

pub mod grammar;
mod source;
mod word;

pub use source::{
    Relation, SourceAtom, SourceBase, SourceConclusion, SourceCond, SourceFact, SourceFile,
    SourceForm, SourceItem, SourceOperand, SourceOperation, SourceParam, SourcePattern,
    SourceRight, SourceRule, SourceSide, SourceTerm, SourceUse,
};
pub use word::{Spelled, Word, classes_of, words_of};
