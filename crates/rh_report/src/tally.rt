//! How many procedures, proved rules, refused rules, known facts and rewritten statements there are.
ghost use Rattle.std.specs.Prelude.{List, ◌≡◌, ◌≤◌, ◌++◌, Some, IfOk, OnOk, bit_and, count_ones, filter, length, slice_get, slice_index};
ghost use Rattle.rh_il.specs.declared.program.Proc.{Proc as AProc};
ghost use Rattle.rh_il.specs.declared.program.Stmt.{Stmt as AStmt};
ghost use Rattle.rh_rule.specs.declared.schema.Schema.{Schema as ASchema};
ghost use Rattle.rh_layout.specs.Bits.{full_words};
ghost use Rattle.rh_layout.specs.Layout.{IsLayoutOf};
ghost use Rattle.rh_rows.specs.Known.{known_in};
ghost use Rattle.rh_report.specs.Counts.{count_line, counts_text, facts_known, is_admitted, is_refused, is_rewritten, rewrites_from, rewrites_in};

use rh_il::Proc;
use rh_layout::Layout;
use rh_print::{push, push_count};
use rh_rows::Ground;
use rh_rule::Ruling;
use rh_transform::first_rewrite;
use std::alloc::{AllocError, Global};

fn is_admitted(ruling: Ruling) -> bool
    ensures { result ≡ is_admitted ruling }
{
    match ruling {
        Ruling::Admitted => true,
        Ruling::Refused(_) => false,
    }
}

/// How many rules are proved.
fn admitted(rulings: &[Ruling]) -> usize
    ensures { result ≡ length (filter is_admitted rulings.now) }
{
    rulings
        .iter()
        .filter(|ruling| is_admitted(**ruling))
        .count()
}

/// How many rules are refused.
fn refused(rulings: &[Ruling]) -> usize
    ensures { result ≡ length (filter is_refused rulings.now) }
{
    rulings
        .iter()
        .filter(|ruling| !is_admitted(**ruling))
        .count()
}

/// How many facts have their bits in a word. Bits that stand for no fact do not count.
fn facts_in_word(layout: &Layout, words: &[u64], word: u32) -> u32
    requires { (schemas : List ASchema) × (procs : List AProc) × IsLayoutOf schemas procs layout.now }
    ensures { (schemas : List ASchema) (procs : List AProc) → IsLayoutOf schemas procs layout.now → result ≡ count_ones (bit_and (slice_index words.now word) (slice_index (full_words schemas procs) word)) }
{
    let known = words.get(word as usize).copied().unwrap_or(0);
    (known & layout.full(word)).count_ones()
}

/// How many facts have their bits in the words.
fn facts(ground: &Ground, words: &[u64]) -> u64
    ensures { result ≡ facts_known ground.now.file.schemas (known_in ground.now.file.schemas ground.now.program words.now) ground.now.program }
{
    let layout = ground.layout();
    let mut count: u64 = 0;
    for word in 0..layout.words() {
        count += u64::from(facts_in_word(layout, words, word));
    }
    count
}

/// Whether a rule applies to a statement.
fn is_rewritten(ground: &Ground, words: &[u64], place: u32, number: u32) -> bool
    ensures { (proc : AProc) (stmt : AStmt) → slice_get ground.now.program place ≡ Some proc → slice_get proc.body number ≡ Some stmt
        → result ≡ is_rewritten ground.now.file ground.now.rulings (known_in ground.now.file.schemas ground.now.program words.now) place proc number }
{
    first_rewrite(ground, words, place, number).is_some()
}

/// To how many statements of a procedure a rule applies.
fn rewrites_in(ground: &Ground, words: &[u64], place: u32, proc: &Proc) -> u32
    requires stands { slice_get ground.now.program place ≡ Some proc.now }
    requires few { length proc.now.body ≤ 1024 }
    ensures { result ≡ rewrites_in ground.now.file ground.now.rulings (known_in ground.now.file.schemas ground.now.program words.now) place proc.now }
{
    let mut count = 0;
    for number in 0..proc.body.len() as u32 {
        if is_rewritten(ground, words, place, number) {
            count += 1;
        }
    }
    count
}

/// To how many statements a rule applies.
fn rewrites(ground: &Ground, words: &[u64]) -> u64
    ensures { result ≡ rewrites_from ground.now.file ground.now.rulings (known_in ground.now.file.schemas ground.now.program words.now) 0 ground.now.program }
{
    let program = ground.program();
    let mut count: u64 = 0;
    for place in 0..program.count() {
        if let Some(proc) = program.proc(place) {
            count += u64::from(rewrites_in(ground, words, place, proc));
        }
    }
    count
}

fn push_line(alloc: Global, out: &mut Vec<u8>, title: &[u8], count: u64) -> Result<(), AllocError>
    ensures { OnOk result (out.new.items ≡ out.old.items ++ count_line title.now count) }
{
    push(out, title)?;
    push(out, b" ")?;
    push_count(alloc, out, count)?;
    push(out, b"\n")
}

/// What `gen` writes: how many procedures, proved rules, refused rules, known facts and rewritten
/// statements there are.
pub fn counts(alloc: Global, ground: &Ground, words: &[u64]) -> Result<Vec<u8>, AllocError>
    ensures { IfOk result (λ text. text.items ≡ counts_text ground.now.file ground.now.rulings (known_in ground.now.file.schemas ground.now.program words.now) ground.now.program) }
{
    let procs = u64::from(ground.program().count());
    let rulings = ground.rulings();
    let mut out = Vec::new(alloc);
    push_line(alloc, &mut out, b"procedures", procs)?;
    push_line(alloc, &mut out, b"admitted", admitted(rulings) as u64)?;
    push_line(alloc, &mut out, b"refused", refused(rulings) as u64)?;
    push_line(alloc, &mut out, b"facts", facts(ground, words))?;
    push_line(alloc, &mut out, b"rewrites", rewrites(ground, words))?;
    Ok(out)
}
