//! The forms of patterns and templates.

ghost use Rattle.std.specs.Prelude.{◌≡◌, ◌++◌, OnOk};
ghost use Rattle.rh_rule_print.specs.Text.{operand_text, compute_text, to_text, form_text};

use crate::parts::push_param_name;
use rh_il::Op;
use rh_print::{op_text, push, push_number};
use rh_rule::{Form, Param, RuleBase};
use std::alloc::{AllocError, Global};

pub(crate) fn push_operand(
    alloc: Global,
    out: &mut Vec<u8>,
    params: &[Param],
    base: RuleBase,
) -> Result<(), AllocError>
    ensures { OnOk result (out.new.items ≡ out.old.items ++ operand_text params.now base) }
{
    match base {
        RuleBase::Meta(meta) => push_param_name(out, params, meta),
        RuleBase::Num(number) => push_number(alloc, out, number),
        RuleBase::Wild => push(out, b"_"),
    }
}

pub(crate) fn push_compute(
    alloc: Global,
    out: &mut Vec<u8>,
    params: &[Param],
    op: Op,
    operands: (RuleBase, RuleBase),
) -> Result<(), AllocError>
    ensures { OnOk result (out.new.items ≡ out.old.items ++ compute_text params.now op operands.0 operands.1) }
{
    push_operand(alloc, out, params, operands.0)?;
    push(out, b" ")?;
    push(out, op_text(op))?;
    push(out, b" ")?;
    push_operand(alloc, out, params, operands.1)
}

/// The variable to the left of `:=`.
fn push_to(out: &mut Vec<u8>, params: &[Param], to: u32) -> Result<(), AllocError>
    ensures { OnOk result (out.new.items ≡ out.old.items ++ to_text params.now to) }
{
    push_param_name(out, params, to)?;
    push(out, b" := ")
}

pub(crate) fn push_form(
    alloc: Global,
    out: &mut Vec<u8>,
    params: &[Param],
    form: Form,
) -> Result<(), AllocError>
    ensures { OnOk result (out.new.items ≡ out.old.items ++ form_text params.now form) }
{
    match form {
        Form::Entry(param) => {
            push(out, b"entry(")?;
            push_param_name(out, params, param)?;
            push(out, b")")
        }
        Form::Goto => push(out, b"goto"),
        Form::Skip => push(out, b"skip"),
        Form::AnyAssign { to } => {
            push_to(out, params, to)?;
            push(out, b"_")
        }
        Form::Assign { to, from } => {
            push_to(out, params, to)?;
            push_operand(alloc, out, params, from)
        }
        Form::Address { to, of } => {
            push_to(out, params, to)?;
            push(out, b"&")?;
            push_param_name(out, params, of)
        }
        Form::Load { to, from } => {
            push_to(out, params, to)?;
            push(out, b"*")?;
            push_param_name(out, params, from)
        }
        Form::Compute {
            to,
            op,
            left,
            right,
        } => {
            push_to(out, params, to)?;
            push_compute(alloc, out, params, op, (left, right))
        }
        Form::Write { to, from } => {
            push(out, b"*")?;
            push_to(out, params, to)?;
            push_operand(alloc, out, params, from)
        }
        Form::New { to } => {
            push_to(out, params, to)?;
            push(out, b"new")
        }
        Form::Call { to, arg } => {
            push_to(out, params, to)?;
            push(out, b"call(")?;
            push_operand(alloc, out, params, arg)?;
            push(out, b")")
        }
        Form::If(cond) => {
            push(out, b"if ")?;
            push_operand(alloc, out, params, cond)
        }
        Form::Return(value) => {
            push(out, b"return ")?;
            push_operand(alloc, out, params, value)
        }
    }
}
