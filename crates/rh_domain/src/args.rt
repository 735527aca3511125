//! Arguments, few enough to be kept in place.
ghost use Rattle.std.specs.Prelude.{◌≡◌, ◌<◌, ◌≤◌, ◌++◌, ◌∷◌, [], length, take};

use rh_rule::Arg;
use std::marker::Model;

/// At most six arguments. Contracts see them as their list.
#[derive(Drop)]
pub struct Args {
    items: [Arg; 6],
    count: usize,
}

impl Model for Args {
    ghost use Rattle.std.specs.Prelude.{List, ◌≤◌, take};
    ghost use Rattle.rh_rule.specs.declared.rule.Arg.{Arg};

    ghost Value = { List Arg };

    ghost view = { λ a. take a.count a.items };

    ghost invariant = { λ a. a.count ≤ 6 };
}

impl Args {
    /// No arguments.
    pub fn new() -> Args
        ensures { result ≡ [] }
    {
        Args {
            items: [Arg::Const(0); 6],
            count: 0,
        }
    }

    /// The arguments as a slice.
    pub fn as_slice(&self) -> &[Arg]
        ensures value { result.now ≡ self.now }
        ensures few { length result.now ≤ 6 }
    {
        &self.items[..self.count]
    }

    /// How many arguments there are.
    pub fn len(&self) -> usize
        ensures { result ≡ length self.now }
    {
        self.as_slice().len()
    }

    /// Adds an argument at the end.
    pub fn push(&mut self, arg: Arg)
        requires { length self.old < 6 }
        ensures { self.new ≡ self.old ++ arg ∷ [] }
    {
        self.items[self.count] = arg;
        self.count += 1;
    }

    /// Keeps the first arguments, as many as the number says.
    pub fn truncate(&mut self, count: usize)
        ensures { self.new ≡ take count self.old }
    {
        self.count = self.count.min(count);
    }
}
