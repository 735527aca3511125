//! What crosses from thread to thread.
use crate::log::Admission;

fn share<T: Sync>(_value: &T) {}

fn send<T: Send>(_value: &T) {}

/// A law: what came of the search for a rule may be shared and handed from thread to thread.
pub fn cross(admission: &Admission) {
    share(admission);
    send(admission);
}
