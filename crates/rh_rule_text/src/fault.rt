//! Why bytes are not a text of a rule file.

ghost use Rattle.rh_rule_text.specs.declared.fault.RulesFault.TheVariants.{NoMemory};
ghost use Rattle.std.specs.Prelude.{◌≡◌};

use rh_rule::RuleFault;
use rh_text::LexFault;
use std::alloc::AllocError;

/// Why bytes are not a text of a rule file: the first fault, in the order of the variants. The number is
/// its offset.
#[derive(Clone, Copy, Debug, PartialEq, Eq)]
pub enum RulesFault {
    /// No token stands there.
    Lex(LexFault),
    /// The first token that cannot continue a rule file; at the length of the text it ends too early.
    Syntax(u32),
    /// A metavariable that its fact or rule does not declare, or a fact that the file does not
    /// have.
    Unknown(u32),
    /// A check of the rule file fails.
    Rules(RuleFault),
    /// Memory ran out, here or in a call below.
    NoMemory,
}

impl From<AllocError> for RulesFault {
    ghost from_gives = { λ _ fault. fault ≡ NoMemory };

    fn from(_failed: AllocError) -> RulesFault {
        RulesFault::NoMemory
    }
}
