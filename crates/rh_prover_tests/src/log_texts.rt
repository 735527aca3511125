//! Texts of logs.
use rh_list::Items;
use rh_log::LogNode;
use rh_log_text::{LogFault, RuleLogs, print_logs, read_logs};
use std::alloc::Global;
use std::test::Fail;

// the texts of the table are short
fn read(alloc: Global, text: &[u8]) -> Result<Items<RuleLogs>, LogFault> {
    if text.len() > 10000 {
        return Err(LogFault::NoMemory);
    }
    read_logs(alloc, text)
}

/// The line at which a text of logs has a fault, and 0 where it has none.
fn fault_line(alloc: Global, text: &[u8]) -> u64 {
    match read(alloc, text) {
        Ok(_) => 0,
        Err(LogFault::Syntax(line)) => line,
        Err(LogFault::NoMemory) => u64::MAX,
    }
}

const TEXT: &[u8] = b"# two rules
rule add_zero
log 0
0 1
# a comment within a tree
16 0
rule Upper
log 7
2 2
3 0
4 0
log 4294967295
1 0
rule none";

/// The nodes of the log that branches.
const NODES: [LogNode; 3] = [
    LogNode {
        clause: 2,
        children: 2,
    },
    LogNode {
        clause: 3,
        children: 0,
    },
    LogNode {
        clause: 4,
        children: 0,
    },
];

fn is_section(section: &RuleLogs, name: &[u8], line: u64, end: u64) -> bool {
    section.name.bytes() == name && section.line == line && section.end == end
}

fn has_two_logs(section: &RuleLogs) -> bool {
    let [branching, leaf] = section.logs.as_slice() else {
        return false;
    };
    branching.line == 8
        && branching.number == 7
        && leaf.line == 12
        && leaf.number == 4294967295
        && branching.log.nodes.as_slice() == NODES.as_slice()
}

fn are_as_written(sections: &[RuleLogs]) -> bool {
    let [first, second, third] = sections else {
        return false;
    };
    is_section(first, b"add_zero", 2, 7)
        && second.line == 7
        && second.end == 14
        && has_two_logs(second)
        && third.line == 14
        && third.end == 15
        && third.logs.is_empty()
}

#[test]
fn sections_are_read(rt: HostRuntime) -> Result<(), Fail> {
    let sections = read(rt.alloc(), TEXT).ok().ok_or("no text of logs")?;
    assert!(rt; are_as_written(sections.as_slice()));
    Ok(())
}

const PRINTED: &[u8] = b"rule add_zero
log 0
0 1
16 0
rule Upper
log 7
2 2
3 0
4 0
log 4294967295
1 0
rule none
";

/// What is printed of what a text is read as.
fn printed(alloc: Global, text: &[u8]) -> Result<Vec<u8>, Fail> {
    let sections = read(alloc, text).ok().ok_or("no text of logs")?;
    Ok(print_logs(alloc, sections.as_slice())?)
}

#[test]
fn what_is_printed_is_read_again(rt: HostRuntime) -> Result<(), Fail> {
    let once = printed(rt.alloc(), TEXT)?;
    let again = printed(rt.alloc(), once.as_slice())?;
    assert!(rt; once.as_slice() == PRINTED && again.as_slice() == PRINTED);
    Ok(())
}

#[test]
fn refusals_name_the_line(rt: HostRuntime) -> Result<(), Fail> {
    let table: [(&[u8], u64); 24] = [
        (b"", 0),
        (b"# nothing\n", 0),
        (b"rule q", 0),
        (b"rule q\nrule q\n", 0),
        (b"log 0\n0 0\n", 1),
        (b"0 0\n", 1),
        (b"\nrule q\n", 1),
        (b"rule q\n\n", 2),
        (b"rule  q\n", 1),
        (b"rule q \n", 1),
        (b"rule 5q\n", 1),
        (b"rule q\r\n", 1),
        (b"rule abcdefghijklmnopqrstuvwxyz012345\n", 0),
        (b"rule abcdefghijklmnopqrstuvwxyz0123456\n", 1),
        (b"rule q\nlog 00\n0 0\n", 2),
        (b"rule q\nlog 4294967296\n0 0\n", 2),
        (b"rule q\nlog +1\n0 0\n", 2),
        (b"rule q\nlog 0\n", 3),
        (b"rule q\nlog 0\n# open\n", 4),
        (b"rule q\nlog 0\n0 1\nrule r\n", 4),
        (b"rule q\nlog 0\n0 2\n0 0\nlog 1\n", 5),
        (b"rule q\nlog 0\n0 0\n0 0\n", 4),
        (b"rule q\nlog 0\n0 0 \n", 3),
        (b"rule q\nlog 0\n0\n", 3),
    ];
    for (text, line) in table {
        assert!(rt; fault_line(rt.alloc(), text) == line, "at {text:?}");
    }
    Ok(())
}

/// The fault of a tree of so many nodes, one below the other.
fn fault_of_chain(alloc: Global, nodes: usize) -> Result<u64, Fail> {
    let mut text = Vec::from_slice(alloc, b"rule q\nlog 0\n")?;
    for _ in 1..nodes {
        text.extend_from_slice(b"0 1\n")?;
    }
    text.extend_from_slice(b"0 0\n")?;
    Ok(fault_line(alloc, text.as_slice()))
}

#[test]
fn trees_are_not_deeper_than_512_nodes(rt: HostRuntime) -> Result<(), Fail> {
    assert!(rt; fault_of_chain(rt.alloc(), 512)? == 0);
    assert!(rt; fault_of_chain(rt.alloc(), 513)? == 515);
    Ok(())
}
