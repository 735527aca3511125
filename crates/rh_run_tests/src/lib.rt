//! How runs of programs end: small programs, single statements, deep runs and long ones. Each end was
//! worked out by hand from what the language says of each statement, and not taken from a run. The
//! tests stand here, since a crate with tests is proved a second time for them.
#![tactic(auto)]

#[cfg(test)]
mod ending;
#[cfg(test)]
mod lengths;
#[cfg(test)]
mod programs;
#[cfg(test)]
mod statements;
