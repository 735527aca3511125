//! What crosses from thread to thread.
use crate::rule::SystemName;
use crate::seat::WordSeat;
use crate::words::EdgeWords;
use rh_system::System;

fn share<T: Sync>(_value: &T) {}

fn send<T: Send>(_value: &T) {}

/// A law: threads share the words, and are given and hand back seats.
pub fn cross<S: System + Sync, N: SystemName + Send + Sync>(
    words: &EdgeWords<S, N>,
    seat: &WordSeat<N>,
) {
    share(words);
    send(seat);
}
