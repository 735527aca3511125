//! Programs and threads.
use crate::procedures::Program;

fn share<T: Sync>(_value: &T) {}

fn send<T: Send>(_value: &T) {}

/// A law: threads may share programs and hand them to one another.
pub fn programs_cross_threads(program: &Program) {
    share(program);
    send(program);
}
