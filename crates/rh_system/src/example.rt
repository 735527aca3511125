//! A system to look at and to test with.
use crate::listed::ListedSystem;
use crate::system::Row;
use rh_list::Items;
use std::alloc::{AllocError, Global};

/// The bits of word `to`, of which each needs the bits at its place in the words `from`.
fn flow(alloc: Global, rows: &mut Items<Row>, to: u32, from: &[u32]) -> Result<(), AllocError> {
    for place in 0..6 {
        let mut premises = Items::new(alloc);
        for word in from {
            premises.push(64 * u64::from(*word) + place)?;
        }
        rows.push(Row {
            bit: 64 * u64::from(to) + place,
            premises,
        })?;
    }
    Ok(())
}

/// Six facts on each edge of a loop with a branch, one word an edge: `0: y := 3; 1: if a goto 2
/// else 4; 2: skip; 3: goto 1; 4: return y`. The words are the edges into 0, out of 0, the two out
/// of 1, out of 2 and out of 3. At 0 the fact at place 5 begins, and from then on all facts flow
/// on, past 1 those that came on both edges into it. So Greatest is place 5 of all words but the
/// first. The answer is a system, and none is no answer of this call.
pub fn branch_in_a_loop(alloc: Global) -> Result<Option<ListedSystem>, AllocError> {
    let mut rows = Items::new(alloc);
    rows.push(Row {
        bit: 69,
        premises: Items::new(alloc),
    })?;
    flow(alloc, &mut rows, 2, &[1, 5])?;
    flow(alloc, &mut rows, 3, &[1, 5])?;
    flow(alloc, &mut rows, 4, &[2])?;
    flow(alloc, &mut rows, 5, &[4])?;
    let full = vec![in alloc; 63; 6]?;
    Ok(ListedSystem::new(Items::from(full), rows))
}
