//! The worked example, a branch in a loop.
use rh_core::{Core, Event};
use rh_system::{ListedSystem, branch_in_a_loop, greatest};
use std::alloc::Global;
use std::test::Fail;

pub(crate) fn example(alloc: Global) -> Result<ListedSystem, Fail> {
    Ok(branch_in_a_loop(alloc)?.ok_or("a row outside the full words")?)
}

/// Its greatest supported set.
pub(crate) const FOUND: [u64; 6] = [0, 32, 32, 32, 32, 32];

fn is_found(alloc: Global, system: &ListedSystem) -> Result<bool, Fail> {
    let words = greatest(alloc, system)?;
    Ok(words.as_slice() == FOUND.as_slice())
}

const CLEAR_WORD_0: Event = Event::And {
    worker: 0,
    word: 0,
    mask: 0,
};

const CLEAR_WORD_1: Event = Event::And {
    worker: 0,
    word: 1,
    mask: 0,
};

/// Whether word 1 may not be cleared, since a fact of it has a row without premises, and word 0 may; what is credited then.
fn is_credited(alloc: Global, system: &ListedSystem) -> Result<bool, Fail> {
    let mut core = Core::new(alloc, system, 2)?;
    if core.lawful(CLEAR_WORD_1) {
        return Ok(false);
    }
    if !core.lawful(CLEAR_WORD_0) {
        return Ok(false);
    }
    core.apply(CLEAR_WORD_0);
    Ok(core.word(0) == 0 && core.credit(0, 0) == 63 && core.seen(1, 0) == 63)
}

#[test]
fn the_worked_example(rt: HostRuntime) -> Result<(), Fail> {
    let system = example(rt.alloc())?;
    let is_found = is_found(rt.alloc(), &system)?;
    let is_credited = is_credited(rt.alloc(), &system)?;
    assert!(rt; is_found && is_credited);
    Ok(())
}
