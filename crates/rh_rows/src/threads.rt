//! The facts of a program and threads.
use crate::ground::Ground;

fn share<T: Sync>(_value: &T) {}

fn send<T: Send>(_value: &T) {}

/// A law: threads may share a `Ground` and hand it to one another.
pub fn grounds_cross_threads(ground: &Ground) {
    share(ground);
    send(ground);
}
