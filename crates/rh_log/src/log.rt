//! Logs.
ghost use Rattle.std.specs.Prelude.{◌≡◌};
ghost use Rattle.rh_log.specs.Admission.{ruling_of};

use rh_list::Items;
use rh_rule::Ruling;

/// A node of a tree.
#[derive(Clone, Copy, Debug, PartialEq, Eq)]
pub struct LogNode {
    /// The number of its clause.
    pub clause: u32,
    /// How many children it has.
    pub children: u32,
}

/// The nodes of a tree, each with all below it before the next.
#[derive(Drop)]
pub struct Log {
    /// The nodes.
    pub nodes: Items<LogNode>,
}

/// What came of the search for a rule.
#[derive(Drop)]
pub enum Admission {
    /// The rule is proved: a log of a closed tree for each of its obligations, in order.
    Admitted(Items<Log>),
    /// It is not: the first obligation that has an open partition, and the labels of one.
    Refused {
        obligation: u32,
        classes: Items<u32>,
    },
}

impl Admission {
    /// The ruling alone.
    pub fn ruling(&self) -> Ruling
        ensures { result ≡ ruling_of self.now }
    {
        match self {
            Admission::Admitted(_) => Ruling::Admitted,
            Admission::Refused { obligation, .. } => Ruling::Refused(*obligation),
        }
    }
}
