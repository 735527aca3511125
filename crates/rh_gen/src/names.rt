//! Names that end in a number.
ghost use Rattle.std.specs.Prelude.{◌≡◌, true, IfOk};
ghost use Rattle.std.specs.Char.{is_ascii_alphabetic};
ghost use Rattle.rh_gen.specs.Generated.{numbered, variables};

use rh_il::Name;
use rh_list::Items;
use rh_print::push_count;
use std::alloc::{AllocError, Global};

/// How many variables each procedure has.
pub(crate) const VARIABLES: u32 = 8;

/// A letter, and a number after it.
pub(crate) fn numbered(alloc: Global, letter: u8, number: u32) -> Result<Name, AllocError>
    requires { is_ascii_alphabetic letter ≡ true }
    ensures { IfOk result (λ name. name ≡ numbered letter number) }
{
    let mut bytes = Vec::new(alloc);
    bytes.push(letter)?;
    push_count(alloc, &mut bytes, u64::from(number))?;
    match Name::of(bytes.as_slice()) {
        Some(name) => Ok(name),
        None => unreachable!(),
    }
}

/// The variables of each procedure.
pub(crate) fn variables(alloc: Global) -> Result<Items<Name>, AllocError>
    ensures { IfOk result (λ vars. vars ≡ variables) }
{
    let mut vars = Items::new(alloc);
    for number in 0..VARIABLES {
        vars.push(numbered(alloc, b'v', number)?)?;
    }
    Ok(vars)
}
