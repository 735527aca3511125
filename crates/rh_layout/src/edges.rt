//! The edges of a procedure.
ghost use Rattle.std.specs.Prelude.{◌≡◌, ◌<◌, ◌^◌, ◌++◌, ◌∷◌, length, OnOk, IfOk};
ghost use Rattle.rh_il.specs.declared.program.Node.TheVariants.{Entry};
ghost use Rattle.rh_il.specs.declared.program.Slot.TheVariants.{Out};
ghost use Rattle.rh_il.specs.Flow.{edges_behind, edges_from};

use rh_il::{Edge, Node, Slot, Stmt};
use std::alloc::{AllocError, Global};

/// Adds the edges of a statement.
fn push_edges(edges: &mut Vec<Edge>, stmt: Stmt, number: u32) -> Result<(), AllocError>
    ensures { OnOk result (edges.new.items ≡ edges.old.items ++ edges_from stmt number) }
{
    let node = Node::At(number);
    match stmt {
        Stmt::Return { .. } => {}
        Stmt::If { .. } => {
            let slot = Slot::Then;
            edges.push(Edge { node, slot })?;
            let slot = Slot::Else;
            edges.push(Edge { node, slot })?;
        }
        _ => {
            let slot = Slot::Out;
            edges.push(Edge { node, slot })?;
        }
    }
    Ok(())
}

/// The edges of a procedure with this body, in their order.
pub(crate) fn edges_of(alloc: Global, body: &[Stmt]) -> Result<Vec<Edge>, AllocError>
    requires { length body.now < 2 ^ 32 }
    ensures { IfOk result (λ edges. edges.items ≡ record { node = Entry; slot = Out } ∷ edges_behind body.now 0) }
{
    let mut edges = Vec::new(alloc);
    let entry = Edge {
        node: Node::Entry,
        slot: Slot::Out,
    };
    edges.push(entry)?;
    for (number, stmt) in body.iter().enumerate() {
        push_edges(&mut edges, *stmt, number as u32)?;
    }
    Ok(edges)
}
