//! Two seats on the words of a system.
ghost use Rattle.std.specs.Prelude.{◌≡◌, ◌<◌, length};

use crate::example::example;
use rh_edge_words::{EdgeWords, SystemName};
use rh_system::{ListedSystem, System, supported_part};
use std::alloc::Global;
use std::marker::Brand;
use std::test::Fail;

/// One seat is split. The first clears word 0, which the second sees as it loads it, and takes in
/// the second. Answers what the first seat's clear found, what the second had seen and then loaded,
/// and the count and the stake in the end.
fn two_seats<N: SystemName + Send + Sync>(
    alloc: Global,
    system: &ListedSystem,
) -> Result<[u64; 5], Fail>
    requires full { N.meaning.full ≡ system.now.full }
    requires rows { N.meaning.rows ≡ system.now.rows }
    requires some { 0 < length system.now.full }
{
    let (words, mut first) = EdgeWords::<ListedSystem, N>::new(alloc, system)?;
    let mut second = words.split(alloc, &mut first)?;
    let mask = supported_part(words.system(), first.seen(), 0);
    let found = words.clear(&mut first, 0, mask);
    let before = second.seen()[0];
    let loaded = words.load(&mut second, 0);
    words.join(&mut first, second);
    Ok([
        found,
        before,
        loaded,
        first.cleared(),
        u64::from(first.stake()),
    ])
}

#[test]
fn load_fresh(rt: HostRuntime) -> Result<(), Fail> {
    let system = example(rt.alloc())?;
    assert!(rt; system.words() > 0);
    let seen = two_seats::<Brand>(rt.alloc(), &system)?;
    assert!(rt; seen == [63, 63, 0, 6, 16]);
    Ok(())
}
