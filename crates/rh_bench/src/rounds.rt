//! How many rounds `greatest` makes.
ghost use Rattle.std.specs.Prelude.{◌≡◌, ◌*◌, length};

use crate::layers::Layers;
use rh_system::{System, full_words, supported_part};
use std::alloc::{AllocError, Global};

/// The rounds of one thread: each that clears a bit, and the last, that clears none. In a system in
/// layers there is at most one more than there are words.
pub fn rounds(alloc: Global, system: &Layers) -> Result<u64, AllocError> {
    let mut words = full_words(alloc, system)?;
    for round in 0..system.words() {
        if !clears(system, words.as_mut_slice()) {
            return Ok(u64::from(round) + 1);
        }
    }
    Ok(u64::from(system.words()) + 1)
}

/// One round, word by word as `greatest` makes it: whether it cleared a bit.
fn clears(system: &Layers, words: &mut [u64]) -> bool
    requires { length words.old ≡ system.now.width * system.now.depth }
    ensures { length words.new ≡ length words.old }
{
    let mut cleared = false;
    for word in 0..system.words() {
        let part = supported_part(system, words, word);
        cleared = cleared || part != words[word as usize];
        words[word as usize] = part;
    }
    cleared
}
