//! The union of two sets of bits.
ghost use Rattle.std.specs.Prelude.{ℕ, ◌≡◌, ◌||◌, IfOk, length, vec_len};
ghost use Rattle.rh_system.specs.Bits.{bits_in};
ghost use Rattle.rh_rank.specs.Union.{united};

use std::alloc::{AllocError, Global};

/// The words with the bits of both.
fn union_of(alloc: Global, ones: &[u64], others: &[u64]) -> Result<Vec<u64>, AllocError>
    ensures { IfOk result (λ words. words.items ≡ united ones.now others.now) }
{
    let mut words = Vec::with_capacity(alloc, ones.len())?;
    let mut left = others;
    for one in ones {
        let Some((other, more)) = left.split_first() else {
            return Ok(words);
        };
        words.push(*one | *other)?;
        left = more;
    }
    Ok(words)
}

/// The words with the bits of both.
pub fn united(alloc: Global, ones: &[u64], others: &[u64]) -> Result<Vec<u64>, AllocError>
    requires { length ones.now ≡ length others.now }
    ensures length { IfOk result (λ words. vec_len words ≡ length ones.now) }
    ensures bits { IfOk result (λ words. (bit : ℕ) → bits_in words.items bit ≡ (bits_in ones.now bit || bits_in others.now bit)) }
{
    union_of(alloc, ones, others)
}
