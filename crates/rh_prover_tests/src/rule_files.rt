//! Rule files made of values: faults that no text can have, the order of the first checks, and copies.
use rh_il::{Name, Op, Slot};
use rh_list::Items;
use rh_rule::{
    Conclusion, FactUse, Form, Item, Kind, Many, MeaningAtom, MeaningBase, MeaningTerm, Param,
    Rule, RuleBase, RuleFault, RuleFile, RuleWrong, Schema, Side, SideTerm, are_proper,
};
use std::alloc::Global;
use std::process::Abort;
use std::test::Fail;

const X: RuleBase = RuleBase::Meta(0);

const C: RuleBase = RuleBase::Meta(1);

const WILD: RuleBase = RuleBase::Wild;

/// `X := C`
const GIVEN: Form = Form::Assign { to: 0, from: C };

/// What differs in a rule over `var X` and `const C`: its pattern, its premise, one side of its side
/// condition, and its template where it is a transformation.
#[derive(Clone, Copy)]
struct Draft {
    pattern: Form,
    premise: (u32, [RuleBase; 2]),
    side: SideTerm,
    template: Option<Form>,
}

/// `X := C when con(X, C) @ in, C == C => con(X, C) @ out`
const GEN: Draft = Draft {
    pattern: GIVEN,
    premise: (0, [X, C]),
    side: SideTerm::Plain(C),
    template: None,
};

fn name(rt: &impl Abort, bytes: &[u8]) -> Name {
    Name::of(bytes).expect(rt, "a name")
}

fn items<T: Copy>(alloc: Global, items: &[T]) -> Result<Items<T>, Fail> {
    Ok(Items::from(Vec::from_slice(alloc, items)?))
}

/// `var X, const C`
fn params(rt: &(impl Alloc<A = Global> + Abort)) -> Result<Items<Param>, Fail> {
    let var = Param {
        name: name(rt, b"X"),
        kind: Kind::Var,
    };
    let constant = Param {
        name: name(rt, b"C"),
        kind: Kind::Const,
    };
    items(rt.alloc(), &[var, constant])
}

fn schema(rt: &(impl Alloc<A = Global> + Abort), atom: MeaningAtom) -> Result<Schema, Fail> {
    Ok(Schema {
        name: name(rt, b"con"),
        params: params(rt)?,
        meaning: items(rt.alloc(), &[atom])?,
    })
}

/// `fact con(var X, const C) means X == C;`
fn con(rt: &(impl Alloc<A = Global> + Abort)) -> Result<Schema, Fail> {
    let x = MeaningTerm::Plain(MeaningBase::Param(0));
    let c = MeaningTerm::Plain(MeaningBase::Param(1));
    schema(rt, MeaningAtom::Same(x, c))
}

fn fact(alloc: Global, used: (u32, [RuleBase; 2])) -> Result<FactUse, Fail> {
    let (schema, args) = used;
    let args = items(alloc, &args)?;
    Ok(FactUse { schema, args })
}

fn premises(alloc: Global, draft: Draft) -> Result<Items<FactUse>, Fail> {
    let used = fact(alloc, draft.premise)?;
    Ok(Items::from(vec![in alloc; used]?))
}

fn conclusion(alloc: Global, draft: Draft) -> Result<Conclusion, Fail> {
    match draft.template {
        Some(template) => Ok(Conclusion::Transform(template)),
        None => Ok(Conclusion::Fact {
            fact: fact(alloc, (0, [X, C]))?,
            slot: Slot::Out,
        }),
    }
}

fn rule(rt: &(impl Alloc<A = Global> + Abort), draft: Draft) -> Result<Rule, Fail> {
    let name = name(rt, b"q");
    Ok(Rule {
        name,
        params: params(rt)?,
        pattern: draft.pattern,
        premises: premises(rt.alloc(), draft)?,
        sides: items(rt.alloc(), &[Side::Same(draft.side, SideTerm::Plain(C))])?,
        conclusion: conclusion(rt.alloc(), draft)?,
    })
}

fn file(rt: &impl Abort, schemas: Vec<Schema>, rules: Vec<Rule>) -> Result<RuleFile, RuleFault> {
    assert!(rt; are_proper(schemas.as_slice(), rules.as_slice()));
    RuleFile::new(schemas, rules)
}

fn wrong(kind: RuleWrong, item: Item) -> Option<RuleFault> {
    Some(RuleFault::Wrong { kind, item })
}

/// The fault of a file of one fact and one rule.
fn fault_of(
    rt: &(impl Alloc<A = Global> + Abort),
    draft: Draft,
) -> Result<Option<RuleFault>, Fail> {
    let schemas = vec![in rt.alloc(); con(rt)?]?;
    let rules = vec![in rt.alloc(); rule(rt, draft)?]?;
    Ok(file(rt, schemas, rules).err())
}

#[test]
fn rules_that_no_text_spells(rt: HostRuntime) -> Result<(), Fail> {
    let sum = Form::Compute {
        to: 0,
        op: Op::Add,
        left: C,
        right: WILD,
    };
    let cases = [
        (GEN, None),
        (
            Draft {
                pattern: Form::Return(RuleBase::Meta(2)),
                ..GEN
            },
            Some(RuleWrong::BadNumber),
        ),
        (
            Draft {
                premise: (1, [X, C]),
                ..GEN
            },
            Some(RuleWrong::BadNumber),
        ),
        (
            Draft {
                premise: (0, [WILD, C]),
                ..GEN
            },
            Some(RuleWrong::KindMismatch),
        ),
        (
            Draft {
                side: SideTerm::Plain(WILD),
                ..GEN
            },
            Some(RuleWrong::KindMismatch),
        ),
        (
            Draft {
                premise: (0, [X, WILD]),
                ..GEN
            },
            Some(RuleWrong::BadShape),
        ),
        (
            Draft {
                pattern: sum,
                ..GEN
            },
            Some(RuleWrong::BadShape),
        ),
        (
            Draft {
                template: Some(Form::Goto),
                ..GEN
            },
            Some(RuleWrong::BadShape),
        ),
        (
            Draft {
                template: Some(Form::Entry(0)),
                ..GEN
            },
            Some(RuleWrong::BadShape),
        ),
    ];
    for (draft, want) in cases {
        let fault = fault_of(&rt, draft)?;
        assert!(rt; fault == want.and_then(|kind| wrong(kind, Item::Rule(0))));
    }
    Ok(())
}

/// As many schemas of one name, whose meaning names a parameter that is not there, and as many rules
/// of one name.
fn equal_items(
    rt: &(impl Alloc<A = Global> + Abort),
    schemas: usize,
    rules: usize,
) -> Result<Option<RuleFault>, Fail> {
    let mut facts = Vec::new(rt.alloc());
    for _ in 0..schemas {
        facts.push(schema(rt, MeaningAtom::Unaliased(2))?)?;
    }
    let mut copies = Vec::new(rt.alloc());
    for _ in 0..rules {
        copies.push(rule(rt, GEN)?)?;
    }
    Ok(file(rt, facts, copies).err())
}

#[test]
fn of_two_faults_the_first(rt: HostRuntime) -> Result<(), Fail> {
    let cases = [
        (65, 257, wrong(RuleWrong::Limit(Many::Facts), Item::File)),
        (64, 257, wrong(RuleWrong::Limit(Many::Rules), Item::File)),
        (64, 256, wrong(RuleWrong::DuplicateName, Item::Fact(1))),
        (1, 2, wrong(RuleWrong::DuplicateName, Item::Rule(1))),
        (1, 1, wrong(RuleWrong::BadNumber, Item::Fact(0))),
        (0, 1, wrong(RuleWrong::BadNumber, Item::Rule(0))),
        (0, 0, None),
    ];
    for (schemas, rules, want) in cases {
        assert!(rt; equal_items(&rt, schemas, rules)? == want);
    }
    Ok(())
}

fn shared<T: Send + Sync>(_value: &T) {}

#[test]
fn a_copy(rt: HostRuntime) -> Result<(), Fail> {
    let rules = vec![in rt.alloc(); rule(&rt, GEN)?]?;
    let made = file(&rt, vec![in rt.alloc(); con(&rt)?]?, rules);
    let copied = made.ok().expect(&rt, "a rule file").copy(rt.alloc())?;
    shared(&copied);
    assert_eq!(rt; copied.schemas().len(), 1);
    assert_eq!(rt; copied.rules().len(), 1);
    Ok(())
}
