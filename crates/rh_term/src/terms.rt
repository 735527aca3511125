//! Lists of terms.
ghost use Rattle.std.specs.Prelude.{◌≡◌, ◌≢◌, ℕ, ◌<◌, ◌^◌, ◌-◌, [], length, IfOk, OnErr, IfSome, IfNone, slice_get};
ghost use Rattle.rh_il.specs.Value.{IsNumber};
ghost use Rattle.rh_term.specs.Place.{place_in};
ghost use Rattle.rh_term.specs.Term.{HasParts, HasNumber, IsAdded, IsTermList};

use crate::term::Term;
use indexmap::IndexSet;
use std::alloc::{AllocError, Global};
use std::marker::Model;

/// A list of different terms, in which the parts of each term stand before it.
#[derive(Drop)]
pub struct Terms {
    items: IndexSet<Term>,
}

impl Model for Terms {
    ghost use Rattle.std.specs.Prelude.{List, length, ◌<◌, ◌^◌};
    ghost use Rattle.rh_term.specs.declared.term.Term.{Term};

    ghost Value = { List Term };

    ghost use Rattle.rh_term.specs.Term.{IsTermList};

    ghost view = { λ a. a.items.keys };

    ghost invariant = { λ a. IsTermList a.items.keys × (length a.items.keys < 2 ^ 32) };
}

impl Terms {
    /// No terms. It takes no memory.
    pub fn new(alloc: Global) -> Self
        ensures { result ≡ [] }
    {
        Terms {
            items: IndexSet::new(alloc),
        }
    }

    /// The place of a term, which is put at the end where it was not in the list.
    pub fn add(&mut self, term: Term) -> Result<u32, AllocError>
        requires parts { HasParts self.old term }
        requires room { length self.old < 2 ^ 32 - 1 }
        ensures ok { IfOk result (IsAdded self.old self.new term) }
        ensures err { OnErr result (self.new ≡ self.old) }
    {
        if let Some(place) = self.find(term) {
            return Ok(place);
        }
        keeps_range(term);
        let place = self.items.len() as u32;
        let _new = self.items.insert(term)?;
        Ok(place)
    }

    /// The place of a term.
    pub fn find(&self, term: Term) -> Option<u32>
        ensures found { IfSome result (λ place. slice_get self.now place ≡ Some term) }
        ensures missing { IfNone result ((place : ℕ) → slice_get self.now place ≢ Some term) }
        ensures place { result ≡ place_in self.now term }
    {
        let place = self.items.get_index_of(&term)?;
        Some(place as u32)
    }

    /// The term at a place.
    pub fn get(&self, place: u32) -> Option<Term>
        ensures { result ≡ slice_get self.now place }
    {
        self.items.get_index(place as usize).copied()
    }

    /// How many terms there are.
    pub fn len(&self) -> u32
        ensures len { result ≡ length self.now }
        ensures list { IsTermList self.now }
    {
        self.items.len() as u32
    }

    /// The terms in their order.
    pub fn as_slice(&self) -> &[Term]
        ensures value { result.now ≡ self.now }
        ensures few { length self.now < 2 ^ 32 }
        ensures list { IsTermList self.now }
    {
        self.items.as_slice()
    }
}

// the type of a number bounds it
fn keeps_range(term: Term)
    ensures { HasNumber term }
{
    match term {
        Term::Num(number) => is_in_range(number),
        _ => {}
    }
}

fn is_in_range(number: i64)
    ensures { IsNumber number }
{}
