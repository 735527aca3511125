//! Systems in layers.
ghost use Rattle.std.specs.Prelude.{◌≡◌, ◌↔◌, ◌+◌, ◌*◌, ◌<◌, ◌≤◌, ◌^◌, IsSome, IfOk, IfSome, length};
ghost use Rattle.std.specs.List.{All};
ghost use Rattle.std.proofs.Props.{props};
ghost use Rattle.rh_bench.specs.LayerRows.{begins, needed};

use rh_list::Items;
use rh_system::{Hints, System, has};
use std::alloc::{AllocError, Global};

/// Which way bits are lost, layer after layer. A worker goes through the words forward.
#[derive(Clone, Copy)]
pub enum Direction {
    /// From the first layer to the last.
    Forward,
    /// From the last layer to the first.
    Backward,
}

impl Direction {
    /// Its name in what is printed.
    pub fn name(self) -> &'static str {
        match self {
            Direction::Forward => "forward",
            Direction::Backward => "backward",
        }
    }
}

/// Bits in layers of whole words. A bit needs the bit at its place one layer back, or one layer on
/// where bits are lost backward. In the layer where the loss begins the bits from place 16 of each
/// word on begin by themselves, and the others need bits that there are not, so that a quarter of all
/// bits goes, layer after layer.
#[derive(Drop)]
pub struct Layers {
    width: u32,
    depth: u32,
    direction: Direction,
    layer_numbers: Items<u32>,
    word_numbers: Items<u32>,
    ghost few: { width * depth < 2 ^ 32 },
    ghost layers: { (length layer_numbers ≡ depth) × All (λ layer. layer < depth) layer_numbers } by { Prim.hlevel props },
    ghost words: { (length word_numbers ≡ width * depth) × All (λ word. word < width * depth) word_numbers } by { Prim.hlevel props },
}

/// The numbers below a count.
fn numbers(alloc: Global, count: u32) -> Result<Items<u32>, AllocError>
    ensures length { IfOk result (λ numbers. length numbers ≡ count) }
    ensures below { IfOk result (λ numbers. All (λ number. number < count) numbers) }
{
    let mut numbers = Items::new(alloc);
    for number in 0..count {
        numbers.push(number)?;
    }
    Ok(numbers)
}

impl Layers {
    /// So many layers of so many words. None where there are 2^32 words or more.
    pub fn new(
        alloc: Global,
        width: u32,
        depth: u32,
        direction: Direction,
    ) -> Result<Option<Layers>, AllocError>
        ensures accepted { IfOk result (λ made. IsSome made ↔ (width * depth < 2 ^ 32)) }
        ensures value { IfOk result (λ made. IfSome made (λ s. (s.width ≡ width) × (s.depth ≡ depth) × (s.direction ≡ direction))) }
    {
        if u64::from(width) * u64::from(depth) >= 1 << 32 {
            return Ok(None);
        }
        let layer_numbers = numbers(alloc, depth)?;
        let word_numbers = numbers(alloc, width * depth)?;
        Ok(Some(Layers {
            width,
            depth,
            direction,
            layer_numbers,
            word_numbers,
        }))
    }

    fn bits(&self) -> u64
        ensures { result ≡ 64 * (self.now.width * self.now.depth) }
    {
        64 * (u64::from(self.width) * u64::from(self.depth))
    }

    /// The bit that a bit needs, past the last one in the layer that needs no other.
    #[tactic(auto, unfolding(crate::specs::LayerRows::needed))]
    fn needed(&self, bit: u64) -> u64
        requires { bit < 64 * (self.now.width * self.now.depth) }
        ensures { result ≡ needed self.now.direction (64 * self.now.width) (64 * (self.now.width * self.now.depth)) bit }
    {
        let span = 64 * u64::from(self.width);
        match self.direction {
            Direction::Forward => {
                if bit < span {
                    self.bits() + bit
                } else {
                    bit - span
                }
            }
            Direction::Backward => bit + span,
        }
    }

    /// Whether the bit begins by itself.
    #[tactic(auto, unfolding(crate::specs::LayerRows::begins))]
    fn begins(&self, bit: u64) -> bool
        requires { bit < 64 * (self.now.width * self.now.depth) }
        ensures { result ≡ begins self.now.direction (64 * self.now.width) (64 * (self.now.width * self.now.depth)) bit }
    {
        self.bits() <= self.needed(bit) && 16 <= bit % 64
    }

    fn layer_before(&self, layer: u32) -> Option<u32>
        requires { layer < self.now.depth }
        ensures { IfSome result (λ before. before < self.now.depth) }
    {
        layer.checked_sub(1)
    }

    fn layer_after(&self, layer: u32) -> Option<u32>
        requires { layer < self.now.depth }
        ensures { IfSome result (λ after. after < self.now.depth) }
    {
        if layer < self.depth - 1 {
            Some(layer + 1)
        } else {
            None
        }
    }

    /// The layer whose bits those of a layer need.
    fn layer_needed(&self, layer: u32) -> Option<u32>
        requires { layer < self.now.depth }
        ensures { IfSome result (λ needed. needed < self.now.depth) }
    {
        match self.direction {
            Direction::Forward => self.layer_before(layer),
            Direction::Backward => self.layer_after(layer),
        }
    }

    /// The layer whose bits need those of a layer.
    fn layer_needing(&self, layer: u32) -> Option<u32>
        requires { layer < self.now.depth }
        ensures { IfSome result (λ needing. needing < self.now.depth) }
    {
        match self.direction {
            Direction::Forward => self.layer_after(layer),
            Direction::Backward => self.layer_before(layer),
        }
    }

    /// The words of a layer, from the first number up to the second.
    fn range(&self, layer: u32) -> (u32, u32)
        requires { layer < self.now.depth }
        ensures rising { result.0 ≤ result.1 }
        ensures in_range { result.1 ≤ self.now.width * self.now.depth }
    {
        let from = layer * self.width;
        (from, from + self.width)
    }
}

impl System for Layers {
    ghost use Rattle.std.specs.Prelude.{◌*◌, ◌^◌, ◌-◌, replicate};
    ghost use Rattle.rh_bench.specs.LayerRows.{layer_rows};
    ghost use Rattle.rh_bench.specs.Covered.{covered_layers};

    ghost full_words = { λ s. replicate (s.width * s.depth) (2 ^ 64 - 1) };

    ghost rows = { λ s. layer_rows s.direction s.width s.depth };

    fn words(&self) -> u32 {
        self.width * self.depth
    }

    fn full(&self, _word: u32) -> u64 {
        u64::MAX
    }

    fn supported(&self, words: &[u64], bit: u64) -> bool {
        self.begins(bit) || has(words, self.needed(bit))
    }

    ghost covered = { λ s. covered_layers s.direction s.width s.depth };
}

/// Each layer is a node.
impl Hints for Layers {
    ghost node_count = { λ s. s.depth };

    fn nodes(&self) -> u32 {
        self.depth
    }

    fn readers(&self, word: u32) -> &[u32] {
        match self.layer_needing(word / self.width) {
            Some(layer) => {
                let layer = layer as usize;
                &self.layer_numbers.as_slice()[layer..layer + 1]
            }
            None => &[],
        }
    }

    fn entering(&self, node: u32) -> &[u32] {
        match self.layer_needed(node) {
            Some(layer) => {
                let (from, to) = self.range(layer);
                &self.word_numbers.as_slice()[from as usize..to as usize]
            }
            None => &[],
        }
    }

    fn leaving(&self, node: u32) -> (u32, u32) {
        self.range(node)
    }
}
