//! The files whose reading is timed.
ghost use Rattle.std.specs.Prelude.{◌≤◌, length};

use rh_outside::{FileShelf, read_whole};
use rh_text::TEXT_LIMIT;

/// The bytes of a file, and none where it is missing or too long.
pub fn text_of(rt: &HostRuntime, path: Option<&str>) -> Vec<u8>
    ensures { length result.items ≤ 1048576 }
{
    let mut shelf = FileShelf::new(rt);
    match read_whole(rt.alloc(), &mut shelf, path.unwrap_or(""), TEXT_LIMIT) {
        Ok(bytes) => bytes,
        Err(_) => Vec::new(rt.alloc()),
    }
}
