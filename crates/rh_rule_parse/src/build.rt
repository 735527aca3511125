//! Builds the tree of a rule file from its words.

mod facts;
mod files;
mod lists;
mod parts;
mod rules;
