//! Texts of programs: what they are printed as, and the fault of each that is not a text of one.
use rh_il::{Edge, Limited, Node, ProgFault, ProgWrong, Program, Slot};
use rh_il_print::print_program;
use rh_il_text::{ReadFault, read_program};
use rh_text::{LexFault, TEXT_LIMIT};
use std::alloc::{AllocError, Global};
use std::process::Abort;
use std::test::Fail;

fn read(alloc: Global, text: &[u8]) -> Result<Program, ReadFault> {
    if text.len() > TEXT_LIMIT {
        return Err(ReadFault::NoMemory);
    }
    read_program(alloc, text)
}

fn wrong(kind: ProgWrong, proc: u32, item: u32) -> Option<ReadFault> {
    Some(ReadFault::Program(ProgFault::Wrong { kind, proc, item }))
}

#[test]
fn canonical_texts(rt: HostRuntime) -> Result<(), Fail> {
    let cases: [(&[u8], &[u8]); 3] = [
        (
            b"main ( a ) { # c\nreturn -0 ; }",
            b"main(a) {\n  return 0;\n}\n",
        ),
        (
            b"main(a) var y { y := a - -1; y := a--1; y := a-1; y := -9223372036854775808; return y; }",
            b"main(a) var y {\n  y := a - -1;\n  y := a - -1;\n  y := a - 1;\n  y := -9223372036854775808;\n  return y;\n}\n",
        ),
        (
            b"f(x) { if 5goto 1else 0; return 007; } main(f) var g, p { p := new; *p := f; g := *p; p := &g; g := f(g); g := f == 1; g := f < p; skip; goto 0; }",
            b"f(x) {\n  if 5 goto 1 else 0;\n  return 7;\n}\nmain(f) var g, p {\n  p := new;\n  *p := f;\n  g := *p;\n  p := &g;\n  g := f(g);\n  g := f == 1;\n  g := f < p;\n  skip;\n  goto 0;\n}\n",
        ),
    ];
    for (text, want) in cases {
        let program = read(rt.alloc(), text).ok().expect(&rt, "a program");
        let found = print_program(rt.alloc(), &program)?;
        assert_eq!(rt; found.as_slice(), want, "at {text:?}");
    }
    Ok(())
}

#[test]
fn faults(rt: HostRuntime) {
    let cases: [(&[u8], Option<ReadFault>); 24] = [
        // bytes that are not tokens
        (
            b"main(a) { x := 1; ? }",
            Some(ReadFault::Lex(LexFault::BadByte(18))),
        ),
        (
            b"main(a) { a := 9223372036854775809; }",
            Some(ReadFault::Lex(LexFault::NumberRange(15))),
        ),
        (
            b"main(abcdefghijklmnopqrstuvwxyz0123456) { }",
            Some(ReadFault::Lex(LexFault::LongName(5))),
        ),
        // tokens that are not the text of a program
        (
            b"main(a) { y := 9223372036854775808; }",
            Some(ReadFault::Syntax(15)),
        ),
        (
            b"main(a) { a := a - 9223372036854775808; }",
            Some(ReadFault::Syntax(19)),
        ),
        (b"main(a) { goto 4294967296; }", Some(ReadFault::Syntax(15))),
        (b"main(a) { x := 1; return }", Some(ReadFault::Syntax(25))),
        (b"main(a) { return a; ", Some(ReadFault::Syntax(20))),
        (b"main(A) { return 0; }", Some(ReadFault::Syntax(5))),
        (b"var(a) { return 0; }", Some(ReadFault::Syntax(0))),
        // unknown names
        (
            b"main(a) { x := 1; return a; }",
            Some(ReadFault::Unknown(10)),
        ),
        (
            b"main(a) { a := f(x); return a; }",
            Some(ReadFault::Unknown(15)),
        ),
        (
            b"main(a) { a := a(a); return a; }",
            Some(ReadFault::Unknown(15)),
        ),
        (
            b"f(p) { return p; } main(a) { return p; }",
            Some(ReadFault::Unknown(36)),
        ),
        (
            b"f(a) { goto 9; } f(a) { return p; }",
            Some(ReadFault::Unknown(31)),
        ),
        // checks
        (b"", wrong(ProgWrong::NoMain, 0, 0)),
        (b"main(a) { goto 1; }", wrong(ProgWrong::BadTarget, 0, 0)),
        (b"main(a) { skip; }", wrong(ProgWrong::FallsOff, 0, 1)),
        (b"main(a) { }", wrong(ProgWrong::FallsOff, 0, 0)),
        (
            b"main(a) var a { return a; }",
            wrong(ProgWrong::DuplicateName, 0, 1),
        ),
        (
            b"main(a) { return a; } f(a) { return a; } f(b) { return b; }",
            wrong(ProgWrong::DuplicateName, 2, 0),
        ),
        // the first of several checks
        (b"f(a) { }", wrong(ProgWrong::FallsOff, 0, 0)),
        (
            b"f(a) var a { goto 9; } f(b) { }",
            wrong(ProgWrong::DuplicateName, 1, 0),
        ),
        (b"f(a) { goto 9; skip; }", wrong(ProgWrong::BadTarget, 0, 0)),
    ];
    for (text, want) in cases {
        assert_eq!(rt; read(rt.alloc(), text).err(), want, "at {text:?}");
    }
}

fn want_of_cut(len: usize) -> Option<ReadFault> {
    match len {
        0 => wrong(ProgWrong::NoMain, 0, 0),
        9 | 10 => Some(ReadFault::Syntax(8)),
        19 => Some(ReadFault::Lex(LexFault::BadByte(18))),
        _ if len < 39 => Some(ReadFault::Syntax(len as u32)),
        _ => None,
    }
}

#[test]
fn cut_texts(rt: HostRuntime) {
    let text = b"main(a) var y { y := a + 0; return y; }".as_slice();
    for len in 0..=text.len() {
        let found = read(rt.alloc(), &text[..len]).err();
        assert_eq!(rt; found, want_of_cut(len), "at {len}");
    }
}

/// A text, another one so many times with a number in it, and a last one.
fn repeated(
    alloc: Global,
    before: &[u8],
    part: (&[u8], &[u8]),
    times: u32,
    after: &[u8],
) -> Result<Vec<u8>, AllocError> {
    let mut text = Vec::from_slice(alloc, before)?;
    for number in 0..times {
        text.extend_from_slice(part.0)?;
        let number = format!(in alloc; "{number}")?;
        text.extend_from_slice(number.as_bytes())?;
        text.extend_from_slice(part.1)?;
    }
    text.extend_from_slice(after)?;
    Ok(text)
}

#[test]
fn limits(rt: HostRuntime) -> Result<(), Fail> {
    let cases: [(&[u8], &[u8], &[u8], u32, &[u8], Limited); 3] = [
        (
            b"main(a) var b",
            b", a",
            b"",
            62,
            b" { return a; }",
            Limited::Vars,
        ),
        (
            b"main(a) { return a; }",
            b" f",
            b"(a) { return a; }",
            255,
            b"",
            Limited::Procs,
        ),
        (
            b"main(a) {",
            b" goto ",
            b";",
            1023,
            b" return a; }",
            Limited::Stmts,
        ),
    ];
    for (before, first, second, most, after, limited) in cases {
        let text = repeated(rt.alloc(), before, (first, second), most, after)?;
        assert_eq!(rt; read(rt.alloc(), &text).err(), None);
        let text = repeated(rt.alloc(), before, (first, second), most + 1, after)?;
        let want = wrong(ProgWrong::Limit(limited), 0, 0);
        assert_eq!(rt; read(rt.alloc(), &text).err(), want);
    }
    Ok(())
}

/// A text of nearly as many bytes as a text may have, which ends before its `}`.
#[test]
fn longest_text(rt: HostRuntime) -> Result<(), Fail> {
    let mut text = Vec::from_slice(rt.alloc(), b"main(a) {")?;
    for _ in 0..209_713 {
        text.extend_from_slice(b"skip;")?;
    }
    let want = Some(ReadFault::Syntax(1_048_574));
    assert_eq!(rt; read(rt.alloc(), &text).err(), want);
    Ok(())
}

#[test]
fn edges_of_a_copy(rt: HostRuntime) -> Result<(), Fail> {
    let text = b"main(a) { skip; if 0 goto 0 else 1; return a; }";
    let program = read(rt.alloc(), text).ok().expect(&rt, "a program");
    let copy = program.copy(rt.alloc())?;
    let found = copy.in_edges(rt.alloc(), 0, 0)?;
    let want = [
        Edge {
            node: Node::Entry,
            slot: Slot::Out,
        },
        Edge {
            node: Node::At(1),
            slot: Slot::Then,
        },
    ];
    assert_eq!(rt; found.as_slice(), want.as_slice());
    Ok(())
}
