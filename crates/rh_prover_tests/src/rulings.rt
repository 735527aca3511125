//! Rulings: an obligation worked by hand, a rule that is admitted with its log, and one that is refused
//! with open labels.
use rh_admit::admit;
use rh_il::{Name, Op};
use rh_list::Items;
use rh_log::{Admission, LogNode, is_open};
use rh_oblig::obligations;
use rh_rule::{Conclusion, Form, Kind, Param, Rule, RuleBase, RuleFile, Schema, are_proper};
use rh_term::{Clause, Clauses, Obligation, Term};
use std::alloc::Global;
use std::process::Abort;
use std::test::Fail;

fn name(bytes: &[u8]) -> Result<Name, Fail> {
    Ok(Name::of(bytes).ok_or("no name")?)
}

fn param(spelled: &[u8]) -> Result<Param, Fail> {
    Ok(Param {
        name: name(spelled)?,
        kind: Kind::Var,
    })
}

/// `var X, var A`
fn params(alloc: Global) -> Result<Items<Param>, Fail> {
    let (x, a) = (param(b"X")?, param(b"A")?);
    Ok(Items::from(vec![in alloc; x, a]?))
}

// X := A + 0 becomes another statement
fn add_zero(alloc: Global, spelled: &[u8], template: Form) -> Result<Rule, Fail> {
    let name = name(spelled)?;
    Ok(Rule {
        name,
        params: params(alloc)?,
        pattern: Form::Compute {
            to: 0,
            op: Op::Add,
            left: RuleBase::Meta(1),
            right: RuleBase::Num(0),
        },
        premises: Items::new(alloc),
        sides: Items::new(alloc),
        conclusion: Conclusion::Transform(template),
    })
}

fn keeps_value(alloc: Global) -> Result<Rule, Fail> {
    add_zero(
        alloc,
        b"add_zero",
        Form::Assign {
            to: 0,
            from: RuleBase::Meta(1),
        },
    )
}

// the value is taken for 0
fn drops_value(alloc: Global) -> Result<Rule, Fail> {
    add_zero(
        alloc,
        b"drop",
        Form::Assign {
            to: 0,
            from: RuleBase::Num(0),
        },
    )
}

fn clause_text(alloc: Global, clause: &Clause) -> Result<String, Fail> {
    let mut text = String::new(alloc);
    for lit in clause.lits.as_slice() {
        if !text.is_empty() {
            text.push_str(", ")?;
        }
        let sign = if lit.equal { "==" } else { "!=" };
        let lit = format!(in alloc; "{} {} {}", lit.left, sign, lit.right)?;
        text.push_str(lit.as_str())?;
    }
    Ok(text)
}

/// A rule file of the rule that drops the value, and the rule that keeps it.
fn file(rt: &(impl Alloc<A = Global> + Abort)) -> Result<RuleFile, Fail> {
    let rules = vec![in rt.alloc(); drops_value(rt.alloc())?, keeps_value(rt.alloc())?]?;
    let schemas: Vec<Schema> = Vec::new(rt.alloc());
    assert!(rt; are_proper(schemas.as_slice(), rules.as_slice()));
    Ok(RuleFile::new(schemas, rules).ok().ok_or("no rule file")?)
}

/// The obligations of a rule of the file.
fn obligations_of(
    rt: &(impl Alloc<A = Global> + Abort),
    file: &RuleFile,
    rule: u32,
) -> Result<Vec<Obligation>, Fail> {
    assert!(rt; (rule as usize) < file.rules().len());
    Ok(obligations(rt.alloc(), file, rule)?)
}

const TERMS: [Term; 20] = [
    Term::Num(0),
    Term::Num(1),
    Term::IsNum,
    Term::IsPtr,
    Term::Yes,
    Term::Addr(0),
    Term::Addr(1),
    Term::Before,
    Term::Sel(7, 6),
    Term::Kind(8),
    Term::Kind(0),
    Term::Op(Op::Add, 8, 0),
    Term::Upd(7, 5, 11),
    Term::Upd(7, 5, 8),
    Term::Kind(1),
    Term::Kind(5),
    Term::Kind(6),
    Term::Kind(11),
    Term::Sel(7, 5),
    Term::Kind(18),
];

const CLAUSES: [&str; 17] = [
    "9 == 2",
    "10 == 2",
    "11 != 18, 12 == 7",
    "8 != 18, 13 == 7",
    "10 == 2",
    "14 == 2",
    "15 == 3",
    "16 == 3",
    "17 == 2",
    "2 != 3",
    "0 != 1",
    "8 != 0, 0 != 0, 11 == 0",
    "8 != 0, 0 != 1, 11 == 1",
    "8 != 1, 0 != 0, 11 == 1",
    "0 != 0, 9 != 2, 11 == 8",
    "8 != 0, 10 != 2, 11 == 0",
    "12 != 13",
];

/// The log of that obligation: its clauses, each with the number of children.
const NODES: [(u32, u32); 8] = [
    (0, 1),
    (1, 1),
    (5, 1),
    (6, 1),
    (7, 1),
    (8, 1),
    (14, 1),
    (16, 0),
];

fn are_as_worked(alloc: Global, clauses: &Clauses) -> Result<bool, Fail> {
    for (number, want) in CLAUSES.iter().enumerate() {
        let Some(clause) = clauses.copy_at(alloc, number)? else {
            return Ok(false);
        };
        let text = clause_text(alloc, &clause)?;
        if text.as_str() != *want {
            return Ok(false);
        }
    }
    Ok(clauses.copy_at(alloc, CLAUSES.len())?.is_none())
}

#[test]
fn an_obligation_is_as_worked_by_hand(rt: HostRuntime) -> Result<(), Fail> {
    let made = obligations_of(&rt, &file(&rt)?, 1)?;
    let [obligation] = made.as_slice() else {
        return Err("not one obligation".into());
    };
    assert!(rt; obligation.terms.as_slice() == TERMS.as_slice());
    assert!(rt; are_as_worked(rt.alloc(), &obligation.clauses)?);
    Ok(())
}

/// Whether the labels are open in the first obligation of the first rule.
fn are_open(
    rt: &(impl Alloc<A = Global> + Abort),
    file: &RuleFile,
    labels: &[u32],
) -> Result<bool, Fail> {
    let made = obligations_of(rt, file, 0)?;
    match made.first() {
        Some(first) => Ok(is_open(first, labels)),
        None => Ok(false),
    }
}

/// Whether the first rule is refused at its first obligation, with open labels.
fn is_refused(
    rt: &(impl Alloc<A = Global> + Abort),
    file: &RuleFile,
    admission: &Admission,
) -> Result<bool, Fail> {
    match admission {
        Admission::Refused {
            obligation: 0,
            classes,
        } => are_open(rt, file, classes.as_slice()),
        _ => Ok(false),
    }
}

fn are_worked_nodes(nodes: &[LogNode]) -> bool {
    for (node, (clause, children)) in nodes.iter().zip(NODES) {
        if node.clause != clause || node.children != children {
            return false;
        }
    }
    nodes.len() == NODES.len()
}

/// Whether a rule is admitted with the one log.
fn is_admitted(admission: &Admission) -> bool {
    let Admission::Admitted(logs) = admission else {
        return false;
    };
    match logs.as_slice() {
        [log] => are_worked_nodes(log.nodes.as_slice()),
        _ => false,
    }
}

#[test]
fn one_rule_is_refused_and_one_admitted(rt: HostRuntime) -> Result<(), Fail> {
    let file = file(&rt)?;
    let made = admit(&rt, rt.alloc(), &file)?;
    let [first, second] = made.as_slice() else {
        return Err("not two rulings".into());
    };
    assert!(rt; is_refused(&rt, &file, first)?);
    assert!(rt; is_admitted(second));
    Ok(())
}
