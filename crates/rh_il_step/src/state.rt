//! States of a program at work.
ghost use Rattle.std.specs.Prelude.{◌≡◌, ◌≤◌, ◌+◌, ◌++◌, ◌∷◌, [], pos, length, replicate, reverse, drop, slice_get, slice_set, IfOk, OnOk, OnErr, vec_len, vec_capacity};
ghost use Rattle.rh_il.specs.declared.value.Value.TheVariants.{Num};
ghost use Rattle.rh_il_step.specs.State.{IsPlace, cell};
ghost use Rattle.rh_il_step.specs.Step.{base_value, entered, gone};

use crate::frame::Frame;
use rh_il::{Base, Edge, Node, Slot, Value};
use std::alloc::{AllocError, Global};
use std::marker::Model;

/// A state of a program: the procedures at work, and the store. Contracts see the frames with the
/// running procedure first.
#[derive(Drop)]
pub struct State {
    frames: Vec<Frame>,
    cells: Vec<Value>,
}

impl Model for State {
    ghost use Rattle.std.specs.Prelude.{reverse};
    ghost use Rattle.rh_il_step.specs.State.{State as Snapshot};

    ghost Value = { Snapshot };

    ghost view = { λ s. record { frames = reverse s.frames.items; cells = s.cells.items } };
}

/// The place in the store of a variable of the procedure whose variables lie at the base.
fn place_of(base: u64, number: u32) -> Option<usize>
    ensures { IsPlace (base + number) result }
{
    base.checked_add(u64::from(number)).map(|at| at as usize)
}

impl State {
    /// No procedure at work, and no cells.
    pub(crate) fn empty(alloc: Global) -> State
        ensures { result ≡ record { frames = []; cells = [] } }
    {
        State {
            frames: Vec::new(alloc),
            cells: Vec::new(alloc),
        }
    }

    /// The procedures at work, the running one last.
    pub fn frames(&self) -> &[Frame]
        ensures { result.now ≡ reverse self.now.frames }
    {
        self.frames.as_slice()
    }

    /// The store.
    pub fn cells(&self) -> &[Value]
        ensures { result.now ≡ self.now.cells }
    {
        self.cells.as_slice()
    }

    /// The frame of the running procedure.
    pub(crate) fn top(&self) -> Option<Frame>
        ensures { result ≡ slice_get self.now.frames 0 }
    {
        self.frames.as_slice().last().copied()
    }

    /// The frame of the procedure that called the running one.
    pub(crate) fn caller(&self) -> Option<Frame>
        ensures { result ≡ slice_get self.now.frames 1 }
    {
        let count = self.frames.len();
        if count < 2 {
            return None;
        }
        Some(self.frames[count - 2])
    }

    /// What a variable holds.
    pub(crate) fn variable(&self, base: u64, number: u32) -> Value
        ensures { result ≡ cell self.now.cells (base + number) }
    {
        match place_of(base, number) {
            Some(at) => self
                .cells
                .as_slice()
                .get(at)
                .copied()
                .unwrap_or(Value::Num(0)),
            None => Value::Num(0),
        }
    }

    /// What a cell holds.
    pub(crate) fn cell(&self, location: u64) -> Value
        ensures { result ≡ cell self.now.cells location }
    {
        self.variable(location, 0)
    }

    /// The value of an operand.
    pub(crate) fn operand(&self, base: u64, operand: Base) -> Value
        ensures { result ≡ base_value self.now.cells base operand }
    {
        match operand {
            Base::Var(number) => self.variable(base, number),
            Base::Num(number) => Value::Num(number),
        }
    }

    /// Sets a variable.
    pub(crate) fn set(&mut self, base: u64, number: u32, value: Value)
        ensures { self.new ≡ record self.old { cells = slice_set self.old.cells (base + number) value } }
    {
        if let Some(at) = place_of(base, number) {
            if at < self.cells.len() {
                self.cells[at] = value;
            }
        }
    }

    /// The running procedure leaves a statement.
    pub(crate) fn leave(&mut self, number: u32, slot: Slot)
        ensures { self.new ≡ record self.old { frames = gone self.old.frames number slot } }
    {
        let count = self.frames.len();
        if count > 0 {
            let top = &mut self.frames[count - 1];
            top.edge = Edge {
                node: Node::At(number),
                slot,
            };
        }
    }

    /// A new cell with 0, and its location.
    pub(crate) fn grow(&mut self) -> Result<u64, AllocError>
        ensures ok { IfOk result (λ location. (location ≡ length self.old.cells) × (self.new ≡ record self.old { cells = self.old.cells ++ Num (pos 0) ∷ [] })) }
        ensures err { OnErr result (self.new ≡ self.old) }
    {
        let location = self.cells.len() as u64;
        self.cells.push(Value::Num(0))?;
        Ok(location)
    }

    /// A procedure begins: its argument, and so many locals with 0.
    pub(crate) fn enter(&mut self, proc: u32, arg: Value, locals: usize) -> Result<(), AllocError>
        ensures ok { OnOk result (self.new ≡ record { frames = entered proc (length self.old.cells) ∷ self.old.frames; cells = self.old.cells ++ (arg ∷ replicate locals (Num (pos 0))) }) }
        ensures err { OnErr result (self.new ≡ self.old) }
    {
        let base = self.cells.len() as u64;
        let room = locals.checked_add(1).ok_or(AllocError)?;
        self.frames.reserve(1)?;
        self.cells.reserve(room)?;
        self.cells.push_reserved(arg);
        push_zeros(&mut self.cells, locals);
        self.frames.push_reserved(Frame {
            proc,
            base,
            edge: Edge {
                node: Node::Entry,
                slot: Slot::Out,
            },
        });
        Ok(())
    }

    /// The running procedure is over.
    pub(crate) fn exit(&mut self)
        ensures { self.new ≡ record self.old { frames = drop 1 self.old.frames } }
    {
        let _over = self.frames.pop();
    }
}

/// So many cells with 0 more, for which there is room.
fn push_zeros(cells: &mut Vec<Value>, count: usize)
    requires { vec_len cells.old + count ≤ vec_capacity cells.old }
    ensures { cells.new.items ≡ cells.old.items ++ replicate count (Num (pos 0)) }
{
    for _done in 0..count {
        cells.push_reserved(Value::Num(0));
    }
}
