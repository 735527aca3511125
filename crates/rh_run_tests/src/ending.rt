//! The end of a run, from the text of its program.
use rh_il::Value;
use rh_il_step::{MOST_STEPS, RunEnd, run};
use rh_il_text::read_program;
use rh_text::TEXT_LIMIT;
use std::alloc::Global;

/// How the program of a text ends. None if the bytes are not a program, or the steps are too many.
pub fn ending(alloc: Global, text: &[u8], arg: i64, most: u32) -> Option<RunEnd> {
    if text.len() > TEXT_LIMIT || most > MOST_STEPS {
        return None;
    }
    let Ok(program) = read_program(alloc, text) else {
        return None;
    };
    run(alloc, &program, arg, most).ok()
}

pub fn number(value: i64, steps: u32) -> RunEnd {
    let value = Value::Num(value);
    RunEnd::Returned { value, steps }
}

pub fn pointer(location: u64, steps: u32) -> RunEnd {
    let value = Value::Ptr(location);
    RunEnd::Returned { value, steps }
}

pub fn stuck(proc: u32, node: u32, steps: u32) -> RunEnd {
    RunEnd::Stuck { proc, node, steps }
}
