//! What the readers of tokens, words, programs and rule files answer: the rows that describe the
//! language, and one case for each kind of fault. The tests stand here, since a crate with tests is
//! proved a second time for them.
#![tactic(auto)]

#[cfg(test)]
mod command_words;
#[cfg(test)]
mod programs;
#[cfg(test)]
mod rule_files;
#[cfg(test)]
mod standard_rules;
#[cfg(test)]
mod tokens;
