//! What the crates of rules and of their proofs answer. Their tests stand here, since a crate with tests
//! is proved a second time for them.
#![tactic(auto)]

#[cfg(test)]
mod log_texts;
#[cfg(test)]
mod rule_files;
#[cfg(test)]
mod rulings;
