//! Which statements a pattern is under some binding, as far as its form and its numbers tell.
ghost use Rattle.std.specs.Prelude.{◌≡◌};
ghost use Rattle.rh_ground.specs.Forms.{is_assignment, is_form_of, may_be};

use rh_il::{Base, Stmt};
use rh_rule::{Form, RuleBase};

/// Whether an operand of a rule is no other number than an operand of a statement.
fn may_be(operand: RuleBase, base: Base) -> bool
    ensures { result ≡ may_be operand base }
{
    match operand {
        RuleBase::Num(number) => Base::Num(number) == base,
        RuleBase::Meta(_) | RuleBase::Wild => true,
    }
}

/// Whether a statement is an assignment, but no call.
fn is_assignment(stmt: Stmt) -> bool
    ensures { result ≡ is_assignment stmt }
{
    match stmt {
        Stmt::Copy { .. }
        | Stmt::Address { .. }
        | Stmt::Load { .. }
        | Stmt::Compute { .. }
        | Stmt::New { .. } => true,
        _ => false,
    }
}

/// Whether a pattern is of the form of a statement, with its numbers and its operator.
pub(crate) fn is_form_of(pattern: Form, stmt: Stmt) -> bool
    ensures { result ≡ is_form_of pattern stmt }
{
    match (pattern, stmt) {
        (Form::Skip, Stmt::Skip)
        | (Form::Goto, Stmt::Goto { .. })
        | (Form::Address { .. }, Stmt::Address { .. })
        | (Form::Load { .. }, Stmt::Load { .. })
        | (Form::New { .. }, Stmt::New { .. }) => true,
        (Form::AnyAssign { .. }, _) => is_assignment(stmt),
        (Form::Assign { from, .. }, Stmt::Copy { from: a, .. })
        | (Form::Write { from, .. }, Stmt::Write { from: a, .. })
        | (Form::Call { arg: from, .. }, Stmt::Call { arg: a, .. })
        | (Form::If(from), Stmt::If { cond: a, .. })
        | (Form::Return(from), Stmt::Return { value: a }) => may_be(from, a),
        (
            Form::Compute {
                op,
                left,
                right,
                ..
            },
            Stmt::Compute {
                op: sign,
                left: a,
                right: b,
                ..
            },
        ) => op == sign && may_be(left, a) && may_be(right, b),
        _ => false,
    }
}
