//! Names with their numbers.

ghost use Rattle.std.specs.Prelude.{◌≡◌, IfOk};
ghost use Rattle.std.specs.List.{position, list_any};
ghost use Rattle.std.specs.Str.{bytes_eq};
ghost use Rattle.rh_names.specs.Index.{IsIndex};

use indexmap::IndexMap;
use rh_il::Name;
use std::alloc::{AllocError, Global};
use std::marker::Model;
use std::str;

/// A list of names in which the place of a name is looked up in a map that keeps the order in which
/// they were first seen. A name may stand in the list more than once. Contracts see the list.
#[derive(Drop)]
pub struct Names {
    names: Vec<Name>,
    places: IndexMap<String, usize>,
}

impl Model for Names {
    ghost use Rattle.std.specs.Prelude.{ℕ, List};
    ghost use Rattle.rh_names.specs.Index.{IsIndex};

    ghost Value = { List (List ℕ) };

    ghost view = { λ a. a.names.items };

    ghost invariant = { λ a. IsIndex a.places a.names.items };
}

/// A name as text.
fn text_of(name: &Name) -> &str
    ensures { result.now ≡ name.now }
{
    match str::from_utf8(name.bytes()) {
        Ok(text) => text,
        Err(_) => unreachable!(),
    }
}

/// The first place of each name.
fn index_of(alloc: Global, names: &[Name]) -> Result<IndexMap<String, usize>, AllocError>
    ensures { IfOk result (λ places. IsIndex places names.now) }
{
    let mut places = IndexMap::new(alloc);
    for (place, name) in names.iter().enumerate() {
        let text = text_of(name);
        if !places.contains_key(text) {
            places.insert(String::from_str(alloc, text)?, place)?;
        }
    }
    Ok(places)
}

impl Names {
    /// The names of a list.
    pub fn of(alloc: Global, names: &[Name]) -> Result<Names, AllocError>
        ensures { IfOk result (λ all. all ≡ names.now) }
    {
        let places = index_of(alloc, names)?;
        let names = Vec::from_slice(alloc, names)?;
        Ok(Names { names, places })
    }

    /// The first place of a name.
    pub fn position(&self, name: &Name) -> Option<usize>
        ensures { result ≡ position (bytes_eq name.now) self.now }
    {
        self.places.get(text_of(name)).copied()
    }

    /// Whether a name is one of them.
    pub fn contains(&self, name: &Name) -> bool
        ensures { result ≡ list_any (bytes_eq name.now) self.now }
    {
        self.position(name).is_some()
    }
}
