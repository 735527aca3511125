//! The reserved words of rule files.

ghost use Rattle.std.specs.Prelude.{◌≡◌};
ghost use Rattle.rh_rule.specs.Keywords.{fact_keyword, rule_keyword, form_keyword, keyword_of};

/// A reserved word, which no fact and no rule has for a name.
#[derive(Clone, Copy, Debug, PartialEq, Eq)]
pub enum RuleKeyword {
    Rhodium,
    Fact,
    Var,
    Const,
    Means,
    And,
    Number,
    Pointer,
    Unaliased,
    Rule,
    When,
    In,
    Out,
    Then,
    Else,
    Transform,
    Entry,
    Goto,
    Skip,
    If,
    Return,
    New,
    Call,
}

/// A reserved word of facts.
fn fact_keyword(bytes: &[u8]) -> Option<RuleKeyword>
    ensures { result ≡ fact_keyword bytes.now }
{
    if bytes == b"rhodium".as_slice() {
        Some(RuleKeyword::Rhodium)
    } else if bytes == b"fact".as_slice() {
        Some(RuleKeyword::Fact)
    } else if bytes == b"var".as_slice() {
        Some(RuleKeyword::Var)
    } else if bytes == b"const".as_slice() {
        Some(RuleKeyword::Const)
    } else if bytes == b"means".as_slice() {
        Some(RuleKeyword::Means)
    } else if bytes == b"and".as_slice() {
        Some(RuleKeyword::And)
    } else if bytes == b"number".as_slice() {
        Some(RuleKeyword::Number)
    } else if bytes == b"pointer".as_slice() {
        Some(RuleKeyword::Pointer)
    } else if bytes == b"unaliased".as_slice() {
        Some(RuleKeyword::Unaliased)
    } else {
        None
    }
}

/// A reserved word around the statements of rules.
fn rule_keyword(bytes: &[u8]) -> Option<RuleKeyword>
    ensures { result ≡ rule_keyword bytes.now }
{
    if bytes == b"rule".as_slice() {
        Some(RuleKeyword::Rule)
    } else if bytes == b"when".as_slice() {
        Some(RuleKeyword::When)
    } else if bytes == b"in".as_slice() {
        Some(RuleKeyword::In)
    } else if bytes == b"out".as_slice() {
        Some(RuleKeyword::Out)
    } else if bytes == b"then".as_slice() {
        Some(RuleKeyword::Then)
    } else if bytes == b"else".as_slice() {
        Some(RuleKeyword::Else)
    } else if bytes == b"transform".as_slice() {
        Some(RuleKeyword::Transform)
    } else {
        None
    }
}

/// A reserved word of statements.
fn form_keyword(bytes: &[u8]) -> Option<RuleKeyword>
    ensures { result ≡ form_keyword bytes.now }
{
    if bytes == b"entry".as_slice() {
        Some(RuleKeyword::Entry)
    } else if bytes == b"goto".as_slice() {
        Some(RuleKeyword::Goto)
    } else if bytes == b"skip".as_slice() {
        Some(RuleKeyword::Skip)
    } else if bytes == b"if".as_slice() {
        Some(RuleKeyword::If)
    } else if bytes == b"return".as_slice() {
        Some(RuleKeyword::Return)
    } else if bytes == b"new".as_slice() {
        Some(RuleKeyword::New)
    } else if bytes == b"call".as_slice() {
        Some(RuleKeyword::Call)
    } else {
        None
    }
}

/// The reserved word that the bytes spell.
pub fn keyword_of(bytes: &[u8]) -> Option<RuleKeyword>
    ensures { result ≡ keyword_of bytes.now }
{
    fact_keyword(bytes).or(rule_keyword(bytes).or(form_keyword(bytes)))
}
