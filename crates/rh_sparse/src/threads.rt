//! The sparse system and threads.
use crate::sparse::Sparse;

fn share<T: Sync>(_value: &T) {}

fn send<T: Send>(_value: &T) {}

/// A law: threads may share a `Sparse` and hand it to one another.
pub fn sparse_crosses_threads(sparse: &Sparse) {
    share(sparse);
    send(sparse);
}
