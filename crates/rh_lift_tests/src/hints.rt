//! The hints of the sparse systems of random programs. That their numbers are in range is proved. That they name the words
//! of the candidates on the edges into a node, and no others, and that the words of those on the edges out of it are within
//! its range, is looked at here.
use crate::programs::random_program;
use crate::random::Random;
use crate::rules::{grounded, rule_file};
use rh_domain::FactAt;
use rh_il::{Node, Program};
use rh_rows::Ground;
use rh_rule::{RuleFile, Ruling};
use rh_sparse::Sparse;
use rh_system::{Hints, System};
use std::alloc::Global;
use std::process::Abort;
use std::test::Fail;

const PROGRAMS: u32 = 20;

const SEED: u64 = 9;

/// A node that an edge enters, and a word with a candidate on the edge.
type Read = (u32, u32);

/// The nodes that the edge of a candidate leaves and enters, and the candidate's word.
#[derive(Clone, Copy)]
struct Place {
    source: u32,
    node: u32,
    word: u32,
}

/// A ruling on each rule, by which it is proved.
fn all_admitted(alloc: Global, file: &RuleFile) -> Result<Vec<Ruling>, Fail> {
    let mut rulings = Vec::new(alloc);
    for _ in file.rules() {
        rulings.push(Ruling::Admitted)?;
    }
    Ok(rulings)
}

/// How many nodes the procedures before one of them have.
fn nodes_before(program: &Program, proc: u32) -> u32 {
    let mut count = 0u32;
    for number in 0..proc {
        if let Some(earlier) = program.proc(number) {
            let statements = earlier.body.len() as u32;
            count = count.wrapping_add(1).wrapping_add(statements);
        }
    }
    count
}

/// The node that the edge of a fact leaves.
fn node_left(program: &Program, at: &FactAt) -> u32 {
    let entry = nodes_before(program, at.proc);
    match at.edge.node {
        Node::Entry => entry,
        Node::At(number) => entry.wrapping_add(1).wrapping_add(number),
    }
}

/// The node that it enters.
fn node_entered(program: &Program, at: &FactAt) -> Result<u32, Fail> {
    let target = program
        .target(at.proc, at.edge)
        .ok_or("an edge without a target")?;
    let entry = nodes_before(program, at.proc);
    Ok(entry.wrapping_add(1).wrapping_add(target))
}

fn is_rising(numbers: &[u32]) -> bool {
    let mut least = 0u64;
    for number in numbers {
        if u64::from(*number) < least {
            return false;
        }
        least = u64::from(*number).wrapping_add(1);
    }
    true
}

/// The place of the candidate with a number.
fn place_of(program: &Program, sparse: &Sparse, number: u64) -> Result<Place, Fail> {
    let bit = sparse.bit_at(number).ok_or("a number without a candidate")?;
    let word = u32::try_from(number / 64).ok().ok_or("too many words")?;
    let at = sparse.facts().fact_of(bit).ok_or("a bit without a fact")?;
    Ok(Place {
        source: node_left(program, &at),
        node: node_entered(program, &at)?,
        word,
    })
}

/// Whether the hints name the word at the nodes.
fn is_named(sparse: &Sparse, place: Place) -> bool {
    let Place { source, node, word } = place;
    if source >= sparse.nodes() || node >= sparse.nodes() || word >= sparse.words() {
        return false;
    }
    let left = sparse.leaving(source);
    left.0 <= word
        && word < left.1
        && sparse.entering(node).contains(&word)
        && sparse.readers(word).contains(&node)
}

fn add(reads: &mut Vec<Read>, read: Read) -> Result<(), Fail> {
    if !reads.contains(&read) {
        reads.push(read)?;
    }
    Ok(())
}

/// How many pairs there are of a node and a word that it reads, each of which the hints name.
fn count_reads(alloc: Global, program: &Program, sparse: &Sparse) -> Result<usize, Fail> {
    let mut reads: Vec<Read> = Vec::new(alloc);
    for number in 0..sparse.count() {
        let place = place_of(program, sparse, number)?;
        if !is_named(sparse, place) {
            return Err("the hints do not name a word".into());
        }
        add(&mut reads, (place.node, place.word))?;
    }
    Ok(reads.len())
}

/// How many words all nodes read. None if the words of a node do not rise.
fn all_entering(sparse: &Sparse) -> Option<usize> {
    let mut count = 0usize;
    for node in 0..sparse.nodes() {
        let words = sparse.entering(node);
        if !is_rising(words) {
            return None;
        }
        count = count.wrapping_add(words.len());
    }
    Some(count)
}

/// How many readers all words have. None if those of a word do not rise.
fn all_readers(sparse: &Sparse) -> Option<usize> {
    let mut count = 0usize;
    for word in 0..sparse.words() {
        let nodes = sparse.readers(word);
        if !is_rising(nodes) {
            return None;
        }
        count = count.wrapping_add(nodes.len());
    }
    Some(count)
}

/// Whether the hints name the words of the candidates, and no others.
fn are_exact(alloc: Global, program: &Program, sparse: &Sparse) -> Result<bool, Fail> {
    let reads = count_reads(alloc, program, sparse)?;
    Ok(
        sparse.nodes() == nodes_before(program, program.count())
            && all_entering(sparse) == Some(reads)
            && all_readers(sparse) == Some(reads),
    )
}

/// The same of the hints of a program's facts.
fn look(alloc: Global, program: &Program, ground: &Ground) -> Result<bool, Fail> {
    let sparse = Sparse::new(alloc, ground)?;
    are_exact(alloc, program, &sparse)
}

/// The same of a random program, under these rulings.
fn look_at_one(
    rt: &(impl Alloc<A = Global> + Abort),
    file: &RuleFile,
    rulings: &[Ruling],
    random: &mut Random,
) -> Result<bool, Fail> {
    let program = random_program(rt, random)?;
    let ground = grounded(rt, file, rulings, &program)?;
    look(rt.alloc(), &program, &ground)
}

#[test]
fn hints_name_the_words_of_candidates(rt: HostRuntime) -> Result<(), Fail> {
    let file = rule_file(rt.alloc())?;
    let rulings = all_admitted(rt.alloc(), &file)?;
    let mut random = Random::new(SEED);
    for _ in 0..PROGRAMS {
        let is_exact = look_at_one(&rt, &file, rulings.as_slice(), &mut random)?;
        assert!(rt; is_exact);
    }
    Ok(())
}
