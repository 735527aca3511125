//! Random programs beside their facts: in each state of a run, every fact that is known on the edge taken last holds.
//! That is proved of whole runs. The tests look at it from outside, and show that facts are known at all. Beside them a
//! fact as literals, over terms that were worked out by hand, what workers find in random programs, and which words the
//! hints of these name.
#![tactic(auto)]

#[cfg(test)]
mod facts;
#[cfg(test)]
mod hints;
#[cfg(test)]
mod literals;
#[cfg(test)]
mod programs;
#[cfg(test)]
mod random;
#[cfg(test)]
mod rules;
#[cfg(test)]
mod solvers;
