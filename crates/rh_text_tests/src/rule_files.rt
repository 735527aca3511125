//! Texts of rule files, and the fault of each that is not a text of one.
use rh_rule::{Item, Many, RuleFault, RuleFile, RuleWrong};
use rh_rule_text::{RulesFault, read_rules};
use rh_text::{LexFault, TEXT_LIMIT};
use std::alloc::{AllocError, Global};
use std::test::Fail;

const CON: &[u8] = b"fact con(var X,const C)means X==C;";

fn read(alloc: Global, text: &[u8]) -> Result<RuleFile, RulesFault> {
    if text.len() > TEXT_LIMIT {
        return Err(RulesFault::NoMemory);
    }
    read_rules(alloc, text)
}

fn wrong(kind: RuleWrong, item: Item) -> RulesFault {
    RulesFault::Rules(RuleFault::Wrong { kind, item })
}

#[test]
fn texts_with_a_fault(rt: HostRuntime) {
    let cases: [(&[u8], RulesFault); 19] = [
        // bytes that are not tokens
        (b"fact ?", RulesFault::Lex(LexFault::BadByte(5))),
        (
            b"fact f(var ABCDEFGHIJKLMNOPQRSTUVWXYZ0123456) means 1 == 1;",
            RulesFault::Lex(LexFault::LongName(11)),
        ),
        (
            b"rule q() { return -9223372036854775809 => transform return 0 }",
            RulesFault::Lex(LexFault::NumberRange(19)),
        ),
        // tokens that are not the text of a rule file
        (b"rhodium 2;", RulesFault::Syntax(8)),
        (b"rhodium 1; rhodium 1;", RulesFault::Syntax(11)),
        (b"fact con(var X", RulesFault::Syntax(14)),
        (b"fact fact(var X) means X == X;", RulesFault::Syntax(5)),
        (
            b"rule q() { skip when f(1) @ out => transform skip }",
            RulesFault::Syntax(28),
        ),
        (
            b"rule q() { return 9223372036854775808 => transform skip }",
            RulesFault::Syntax(18),
        ),
        (
            b"rule q(var X) { X := _ + 1 => transform skip }",
            RulesFault::Syntax(23),
        ),
        (
            b"rule q(var X) { skip => transform entry(X) }",
            RulesFault::Syntax(34),
        ),
        (b"rule q() { skip => f(1) @ in }", RulesFault::Syntax(26)),
        // unknown names
        (b"fact f(var X) means X == Y;", RulesFault::Unknown(25)),
        (
            b"rule q(var X) { goto when f(Y) @ in => g(X) @ out }",
            RulesFault::Unknown(26),
        ),
        (
            b"rule q(var X, var X) { skip => transform X := Y }",
            RulesFault::Unknown(46),
        ),
        // checks of facts
        (
            b"fact f(var X) means X == 1; fact f(const C) means &C == 1;",
            wrong(RuleWrong::DuplicateName, Item::Fact(1)),
        ),
        (
            b"fact f(var X, const X) means X == 1;",
            wrong(RuleWrong::DuplicateName, Item::Fact(0)),
        ),
        (
            b"fact f(const C) means &C == 1;",
            wrong(RuleWrong::KindMismatch, Item::Fact(0)),
        ),
        (
            b"rule q(var X) { skip => transform skip } fact f(const C) means &C == 1;",
            wrong(RuleWrong::KindMismatch, Item::Fact(0)),
        ),
    ];
    for (text, want) in cases {
        assert_eq!(rt; read(rt.alloc(), text).err(), Some(want), "at {text:?}");
    }
}

/// A rule file of two facts and a rule.
fn with_facts(alloc: Global, rule: &[u8]) -> Result<Vec<u8>, AllocError> {
    let mut text = Vec::from_slice(alloc, b"fact f(var X) means X == X; ")?;
    text.extend_from_slice(CON)?;
    text.extend_from_slice(rule)?;
    Ok(text)
}

#[test]
fn rules_that_fail_a_check(rt: HostRuntime) -> Result<(), Fail> {
    let cases: [(&[u8], RuleWrong); 13] = [
        (
            b"rule q(var X, const X) { skip => transform skip }",
            RuleWrong::DuplicateName,
        ),
        (
            b"rule q(var X) { skip when con(X) @ in => f(X) @ out }",
            RuleWrong::Arity,
        ),
        (
            b"rule q(var X, const C) { X := C => f(C) @ out }",
            RuleWrong::KindMismatch,
        ),
        (
            b"rule q(var X, const C) { skip when X != C => f(X) @ out }",
            RuleWrong::KindMismatch,
        ),
        (
            b"rule q(var X) { X := _ => transform X := 1 }",
            RuleWrong::BadShape,
        ),
        (
            b"rule q(var X) { X := 1 => transform X := new }",
            RuleWrong::BadShape,
        ),
        (
            b"rule q(var X) { skip => transform return X }",
            RuleWrong::BadShape,
        ),
        (
            b"rule q(var X) { if _ => transform if X }",
            RuleWrong::BadShape,
        ),
        (
            b"rule q(var A, var X) { entry(A) when f(X) @ in => f(X) @ out }",
            RuleWrong::BadSlot,
        ),
        (b"rule q(var X) { if X => f(X) @ out }", RuleWrong::BadSlot),
        (
            b"rule q(var X) { return X => f(X) @ out }",
            RuleWrong::BadSlot,
        ),
        (
            b"rule q(var X) { skip => transform skip }",
            RuleWrong::UnusedMeta,
        ),
        // the first of two
        (
            b"rule q(var X, var Y) { skip => f(X, 1) @ then }",
            RuleWrong::Arity,
        ),
    ];
    for (rule, kind) in cases {
        let text = with_facts(rt.alloc(), rule)?;
        let want = wrong(kind, Item::Rule(0));
        assert_eq!(rt; read(rt.alloc(), &text).err(), Some(want), "at {rule:?}");
    }
    Ok(())
}

/// A text, another one so many times, and a last one.
fn repeated(
    alloc: Global,
    before: &[u8],
    part: &[u8],
    times: u32,
    after: &[u8],
) -> Result<Vec<u8>, AllocError> {
    let mut text = Vec::from_slice(alloc, before)?;
    for _ in 0..times {
        text.extend_from_slice(part)?;
    }
    text.extend_from_slice(after)?;
    Ok(text)
}

#[test]
fn limits(rt: HostRuntime) -> Result<(), Fail> {
    let cases: [(&[u8], &[u8], u32, &[u8], Many, Item); 7] = [
        (
            b"",
            b"fact f(var X) means X == X;",
            64,
            b"",
            Many::Facts,
            Item::File,
        ),
        (
            b"",
            b"rule q() { skip => transform skip }",
            256,
            b"",
            Many::Rules,
            Item::File,
        ),
        (
            b"fact f(var X",
            b", var X",
            5,
            b") means X == X;",
            Many::Params,
            Item::Fact(0),
        ),
        (
            b"rule q(var X",
            b", var X",
            5,
            b") { skip => transform skip }",
            Many::Params,
            Item::Rule(0),
        ),
        (
            b"fact f(var X) means X == X",
            b" and X == X",
            3,
            b";",
            Many::Atoms,
            Item::Fact(0),
        ),
        (
            b"fact f(var X) means X == X; rule q(var X) { skip when f(X) @ in",
            b", f(X) @ in",
            7,
            b" => f(X) @ out }",
            Many::Premises,
            Item::Rule(0),
        ),
        (
            b"rule q(var X) { skip when X != X",
            b", X != X",
            7,
            b" => transform skip }",
            Many::Sides,
            Item::Rule(0),
        ),
    ];
    for (before, part, most, after, many, item) in cases {
        let want = Some(wrong(RuleWrong::Limit(many), item));
        let text = repeated(rt.alloc(), before, part, most, after)?;
        assert_ne!(rt; read(rt.alloc(), &text).err(), want);
        let text = repeated(rt.alloc(), before, part, most + 1, after)?;
        assert_eq!(rt; read(rt.alloc(), &text).err(), want);
    }
    Ok(())
}

#[test]
fn accepted(rt: HostRuntime) -> Result<(), Fail> {
    let cases: [(&[u8], usize, usize); 5] = [
        (b"", 0, 0),
        (b"rhodium 01; # nothing", 0, 0),
        (CON, 1, 0),
        (
            b"rule con_zero(var X) { if X => con(X, 0) @ else } fact con(var X, const C) means X == C;",
            1,
            1,
        ),
        (
            b"rule q(var Z) { Z := call(Z) => transform Z := call(-9223372036854775808) }",
            0,
            1,
        ),
    ];
    for (text, schemas, rules) in cases {
        let file = read(rt.alloc(), text)?.copy(rt.alloc())?;
        assert_eq!(rt; file.schemas().len(), schemas, "at {text:?}");
        assert_eq!(rt; file.rules().len(), rules, "at {text:?}");
    }
    Ok(())
}
