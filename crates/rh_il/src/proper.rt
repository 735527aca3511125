//! Which names a program may have.

ghost use Rattle.std.specs.Prelude.{◌≡◌};
ghost use Rattle.std.specs.List.{list_all};
ghost use Rattle.rh_il.specs.Name.{is_lower_name};
ghost use Rattle.rh_il.specs.Checks.{is_proper, has_proper_names};

use crate::keyword::keyword_of;
use crate::name::Name;
use crate::program::Proc;

fn is_lower_name(name: &Name) -> bool
    ensures { result ≡ is_lower_name name.now }
{
    match name.bytes().first() {
        Some(first) => first.is_ascii_lowercase(),
        None => false,
    }
}

/// Whether a procedure or a variable may have the name: it begins with a small letter and is no
/// reserved word.
pub fn is_proper(name: &Name) -> bool
    ensures { result ≡ is_proper name.now }
{
    is_lower_name(name) && keyword_of(name.bytes()).is_none()
}

fn names_are_proper(names: &[Name]) -> bool
    ensures { result ≡ list_all is_proper names.now }
{
    names.iter().all(|name| is_proper(name))
}

fn proc_is_proper(proc: &Proc) -> bool
    ensures { result ≡ has_proper_names proc.now }
{
    is_proper(&proc.name) && names_are_proper(proc.vars.as_slice())
}

/// Whether all names in procedures are such.
pub fn are_proper(procs: &[Proc]) -> bool
    ensures { result ≡ list_all has_proper_names procs.now }
{
    procs.iter().all(|proc| proc_is_proper(proc))
}
