//! The line of a run.
ghost use Rattle.std.specs.Prelude.{◌≡◌, ◌++◌, IfOk, OnOk};
ghost use Rattle.rh_report.specs.RunLine.{run_line, steps_text, value_text};

use crate::fact_text::push_proc_name;
use rh_il::{Program, Value};
use rh_il_step::RunEnd;
use rh_print::{push, push_count, push_number};
use std::alloc::{AllocError, Global};

fn push_value(alloc: Global, out: &mut Vec<u8>, value: Value) -> Result<(), AllocError>
    ensures { OnOk result (out.new.items ≡ out.old.items ++ value_text value) }
{
    match value {
        Value::Num(number) => push_number(alloc, out, number),
        Value::Ptr(location) => {
            push(out, b"&")?;
            push_count(alloc, out, location)
        }
    }
}

fn push_steps(alloc: Global, out: &mut Vec<u8>, steps: u32) -> Result<(), AllocError>
    ensures { OnOk result (out.new.items ≡ out.old.items ++ steps_text steps) }
{
    push(out, b" after ")?;
    push_count(alloc, out, u64::from(steps))?;
    push(out, b"\n")
}

/// The line that tells how a run of at most `most` steps ended.
pub fn run_line(
    alloc: Global,
    program: &Program,
    most: u32,
    end: RunEnd,
) -> Result<Vec<u8>, AllocError>
    ensures { IfOk result (λ text. text.items ≡ run_line program.now most end) }
{
    let mut line = Vec::new(alloc);
    match end {
        RunEnd::Returned { value, steps } => {
            push(&mut line, b"returned ")?;
            push_value(alloc, &mut line, value)?;
            push_steps(alloc, &mut line, steps)?;
        }
        RunEnd::Stuck { proc, node, steps } => {
            push(&mut line, b"stuck at ")?;
            push_proc_name(&mut line, program, proc)?;
            push(&mut line, b" ")?;
            push_count(alloc, &mut line, u64::from(node))?;
            push_steps(alloc, &mut line, steps)?;
        }
        RunEnd::Running => {
            push(&mut line, b"running")?;
            push_steps(alloc, &mut line, most)?;
        }
    }
    Ok(line)
}
