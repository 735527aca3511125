//! The edges of a procedure.

ghost use Rattle.std.specs.Prelude.{◌≡◌, ◌+◌, ◌<◌, ◌^◌, ◌++◌, ◌∷◌, [], length, OnOk, IfOk};
ghost use Rattle.rh_il.specs.Flow.{slot_target, target_in, edges_from, edges_behind};
ghost use Rattle.rh_il.specs.Entering.{enters, entering};
ghost use Rattle.rh_il.specs.declared.program.Node.TheVariants.{Entry};
ghost use Rattle.rh_il.specs.declared.program.Slot.TheVariants.{Out};

use crate::program::{Edge, Node, Slot, Stmt};
use std::alloc::{AllocError, Global};

/// The target of a slot of a statement with this number.
fn slot_target(stmt: Stmt, number: u32, slot: Slot) -> Option<u32>
    requires { number + 1 < 2 ^ 32 }
    ensures { result ≡ slot_target stmt number slot }
{
    match (stmt, slot) {
        (Stmt::Goto { to }, Slot::Out) => Some(to),
        (Stmt::If { yes, .. }, Slot::Then) => Some(yes),
        (Stmt::If { no, .. }, Slot::Else) => Some(no),
        (Stmt::If { .. } | Stmt::Return { .. }, _) => None,
        (_, Slot::Out) => Some(number + 1),
        _ => None,
    }
}

/// The statement that an edge enters, where there is such an edge.
pub(crate) fn target_in(body: &[Stmt], edge: Edge) -> Option<u32>
    requires { length body.now < 2 ^ 32 }
    ensures { result ≡ target_in body.now edge.node edge.slot }
{
    match (edge.node, edge.slot) {
        (Node::Entry, Slot::Out) => Some(0),
        (Node::Entry, _) => None,
        (Node::At(number), slot) => {
            let stmt = body.get(number as usize)?;
            slot_target(*stmt, number, slot)
        }
    }
}

fn enters(body: &[Stmt], node: u32, edge: Edge) -> bool
    requires { length body.now < 2 ^ 32 }
    ensures { result ≡ enters body.now node edge }
{
    match target_in(body, edge) {
        Some(target) => target == node,
        None => false,
    }
}

/// Adds an edge, if it enters the statement.
fn push_entering(
    edges: &mut Vec<Edge>,
    body: &[Stmt],
    node: u32,
    edge: Edge,
) -> Result<(), AllocError>
    requires { length body.now < 2 ^ 32 }
    ensures { OnOk result (edges.new.items ≡ edges.old.items ++ entering body.now node (edge ∷ [])) }
{
    if enters(body, node, edge) {
        edges.push(edge)?;
    }
    Ok(())
}

/// Adds those of the edges of a statement that enter another.
fn push_from(
    edges: &mut Vec<Edge>,
    body: &[Stmt],
    node: u32,
    stmt: Stmt,
    number: u32,
) -> Result<(), AllocError>
    requires { length body.now < 2 ^ 32 }
    ensures { OnOk result (edges.new.items ≡ edges.old.items ++ entering body.now node (edges_from stmt number)) }
{
    let from = Node::At(number);
    match stmt {
        Stmt::Return { .. } => {}
        Stmt::If { .. } => {
            let slot = Slot::Then;
            push_entering(edges, body, node, Edge { node: from, slot })?;
            let slot = Slot::Else;
            push_entering(edges, body, node, Edge { node: from, slot })?;
        }
        _ => {
            let slot = Slot::Out;
            push_entering(edges, body, node, Edge { node: from, slot })?;
        }
    }
    Ok(())
}

/// The edges of a body that enter a statement, in their order.
pub(crate) fn edges_into(alloc: Global, body: &[Stmt], node: u32) -> Result<Vec<Edge>, AllocError>
    requires { length body.now < 2 ^ 32 }
    ensures { IfOk result (λ edges. edges.items ≡ entering body.now node (record { node = Entry; slot = Out } ∷ edges_behind body.now 0)) }
{
    let mut edges = Vec::new(alloc);
    let entry = Edge {
        node: Node::Entry,
        slot: Slot::Out,
    };
    push_entering(&mut edges, body, node, entry)?;
    for (number, stmt) in body.iter().enumerate() {
        push_from(&mut edges, body, node, *stmt, number as u32)?;
    }
    Ok(edges)
}
