//! What no clause of the solver and of the outside world says: that workers meet, what a gate is asked, how many turns one
//! worker takes and how many hints save, that a load reads the word anew, and the worked example; in which pieces files are
//! read, and that the system gives what it took. The tests stand here, since a crate with tests is proved a second time.
#![tactic(auto)]

#[cfg(test)]
mod agreeing;
#[cfg(test)]
mod example;
#[cfg(test)]
mod hints;
#[cfg(test)]
mod meeting;
#[cfg(test)]
mod outside;
#[cfg(test)]
mod seats;
#[cfg(test)]
mod turns;
