//! Words of the command line.
use rh_args::{Command, UsageAt, read_words};
use std::alloc::{AllocError, Global};
use std::test::Fail;

fn words_of(alloc: Global, line: &str) -> Result<Vec<String>, AllocError> {
    let mut words = Vec::new(alloc);
    for word in line.split(' ') {
        words.push(String::from_str(alloc, word)?)?;
    }
    Ok(words)
}

fn opt(workers: u32) -> Command<'static> {
    Command::Opt {
        workers,
        rules: "r",
        program: "p",
    }
}

fn run(steps: u32, arg: i64) -> Command<'static> {
    Command::Run {
        steps,
        program: "p",
        arg,
    }
}

#[test]
fn accepted(rt: HostRuntime) -> Result<(), Fail> {
    let (rules, log) = ("r", "l");
    let cases = [
        ("opt r p", opt(4)),
        ("opt --workers=16 r p", opt(16)),
        ("opt --workers=0000004 r p", opt(4)),
        ("check r", Command::Check { rules }),
        ("prove r", Command::Prove { rules }),
        ("audit r l", Command::Audit { rules, log }),
        ("run p -0", run(1_000_000, 0)),
        ("run --steps=0 p 7", run(0, 7)),
        ("run p -9223372036854775808", run(1_000_000, i64::MIN)),
        ("run p 0000000000000000001", run(1_000_000, 1)),
        ("gen 255", Command::Gen { workers: 4, n: 255 }),
        ("gen --workers=1 0", Command::Gen { workers: 1, n: 0 }),
    ];
    for (line, want) in cases {
        let words = words_of(rt.alloc(), line)?;
        assert!(rt; read_words(&words) == Ok(want), "at {line}");
    }
    Ok(())
}

#[test]
fn usage(rt: HostRuntime) -> Result<(), Fail> {
    let none = Vec::new(rt.alloc());
    assert!(rt; read_words(&none) == Err(UsageAt(0)));
    let cases = [
        ("", 0),
        ("--help", 0),
        ("opt", 1),
        ("opt --workers=17 r p", 1),
        ("opt --workers=00000004 r p", 1),
        ("opt --workers=2 --workers=2 r p", 2),
        ("opt --workers=2 r", 3),
        ("opt r p x", 3),
        ("check -r", 1),
        ("run p +1", 2),
        ("run p 9223372036854775808", 2),
        ("run p 00000000000000000001", 2),
        ("run --steps=1000001 p 1", 1),
        ("gen 256", 1),
    ];
    for (line, want) in cases {
        let words = words_of(rt.alloc(), line)?;
        assert!(rt; read_words(&words) == Err(UsageAt(want)), "at {line}");
    }
    Ok(())
}
