//! The top call over files in memory: what is read and written, failing reads and writes, gates, and the bits that have
//! rows. Its tests stand here, since a crate with tests is proved a second time for them.
#![tactic(auto)]

#[cfg(test)]
mod calls;
#[cfg(test)]
mod gates;
#[cfg(test)]
mod reads;
#[cfg(test)]
mod sparse;
#[cfg(test)]
mod writes;
