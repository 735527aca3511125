//! Parameters, metavariables and what stands for them.

ghost use Rattle.std.specs.Prelude.{◌≡◌, ◌++◌, codes, OnOk};
ghost use Rattle.std.specs.List.{flat_map};
ghost use Rattle.rh_rule_print.specs.Text.{joined, kind_text, param_text, params_text, param_name, base_text};

use rh_print::{push, push_number};
use rh_rule::{Kind, MeaningBase, Param};
use std::alloc::{AllocError, Global};

fn kind_text(kind: Kind) -> &'static [u8]
    ensures { result.now ≡ kind_text kind }
{
    match kind {
        Kind::Var => b"var ",
        Kind::Const => b"const ",
    }
}

fn push_param(out: &mut Vec<u8>, param: &Param) -> Result<(), AllocError>
    ensures { OnOk result (out.new.items ≡ out.old.items ++ param_text param.now) }
{
    push(out, kind_text(param.kind))?;
    push(out, param.name.bytes())
}

/// Parameters, each after a comma but the first.
fn push_param_list(out: &mut Vec<u8>, params: &[Param]) -> Result<(), AllocError>
    ensures { OnOk result (out.new.items ≡ out.old.items ++ joined (codes ", ") param_text params.now) }
{
    let Some((first, others)) = params.split_first() else {
        return Ok(());
    };
    push_param(out, first)?;
    push_more_params(out, others)
}

fn push_more_params(out: &mut Vec<u8>, params: &[Param]) -> Result<(), AllocError>
    ensures { OnOk result (out.new.items ≡ out.old.items ++ flat_map (λ param. codes ", " ++ param_text param) params.now) }
{
    for param in params {
        push(out, b", ")?;
        push_param(out, param)?;
    }
    Ok(())
}

pub(crate) fn push_params(out: &mut Vec<u8>, params: &[Param]) -> Result<(), AllocError>
    ensures { OnOk result (out.new.items ≡ out.old.items ++ params_text params.now) }
{
    push(out, b"(")?;
    push_param_list(out, params)?;
    push(out, b")")
}

/// The name of a parameter or a metavariable.
pub(crate) fn push_param_name(
    out: &mut Vec<u8>,
    params: &[Param],
    number: u32,
) -> Result<(), AllocError>
    ensures { OnOk result (out.new.items ≡ out.old.items ++ param_name params.now number) }
{
    match params.get(number as usize) {
        Some(param) => push(out, param.name.bytes()),
        None => Ok(()),
    }
}

pub(crate) fn push_base(
    alloc: Global,
    out: &mut Vec<u8>,
    params: &[Param],
    base: MeaningBase,
) -> Result<(), AllocError>
    ensures { OnOk result (out.new.items ≡ out.old.items ++ base_text params.now base) }
{
    match base {
        MeaningBase::Param(param) => push_param_name(out, params, param),
        MeaningBase::Num(number) => push_number(alloc, out, number),
    }
}
