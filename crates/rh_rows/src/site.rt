//! A node of a procedure of a program.
ghost use Rattle.rh_rows.specs.Site.{IsSite};
ghost use Rattle.std.proofs.Props.{props};

use rh_domain::Domain;
use rh_il::{Node, Proc, Program};
use rh_layout::Layout;
use rh_rule::Schema;

/// A node of a procedure of a program, with what is known of the procedure.
#[derive(Clone, Copy)]
pub(crate) struct Site<'a> {
    /// The schemas and the program that the layout is for.
    pub schemas: &'a [Schema],
    pub program: &'a Program,
    pub layout: &'a Layout,
    /// The procedure, and its variables and constants.
    pub proc: &'a Proc,
    pub domain: &'a Domain,
    /// The numbers of the edges that enter the node.
    pub entering: &'a [u32],
    /// The number of the procedure.
    pub place: u32,
    pub node: Node,
    ghost is: { IsSite schemas.now program.now layout.now proc.now domain.now entering.now place node } by { Prim.hlevel props },
}
