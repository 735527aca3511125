//! Tokens of texts, and texts without tokens.
use rh_text::{LexFault, Sign, TEXT_LIMIT, Token, TokenKind, tokens};
use std::alloc::Global;
use std::test::Fail;

fn read(alloc: Global, text: &[u8]) -> Result<Vec<Token>, LexFault> {
    if text.len() > TEXT_LIMIT {
        return Err(LexFault::NoMemory);
    }
    tokens(alloc, text)
}

fn token(kind: TokenKind, start: u32, end: u32) -> Token {
    Token { kind, start, end }
}

#[test]
fn cuts_a_text(rt: HostRuntime) -> Result<(), Fail> {
    let found = read(rt.alloc(), b"if 5goto\t# no X\r\n0:=X_ - -1=>5_")?;
    let want = [
        token(TokenKind::Lower, 0, 2),
        token(TokenKind::Number, 3, 4),
        token(TokenKind::Lower, 4, 8),
        token(TokenKind::Number, 17, 18),
        token(TokenKind::Sign(Sign::Becomes), 18, 20),
        token(TokenKind::Upper, 20, 22),
        token(TokenKind::Sign(Sign::Minus), 23, 24),
        token(TokenKind::Sign(Sign::Minus), 25, 26),
        token(TokenKind::Number, 26, 27),
        token(TokenKind::Sign(Sign::Arrow), 27, 29),
        token(TokenKind::Number, 29, 30),
        token(TokenKind::Sign(Sign::Underscore), 30, 31),
    ];
    assert_eq!(rt; found.as_slice(), want.as_slice());
    Ok(())
}

#[test]
fn first_faults(rt: HostRuntime) {
    let cases: [(&[u8], Option<LexFault>); 13] = [
        (b"", None),
        (b"# ?", None),
        (b"9223372036854775808", None),
        (b"a 9223372036854775809", Some(LexFault::NumberRange(2))),
        (b"00000000000000000000000000000001", None),
        (b"abcdefghijklmnopqrstuvwxyz_12345", None),
        (
            b"abcdefghijklmnopqrstuvwxyz_123456",
            Some(LexFault::LongName(0)),
        ),
        (b"a : b ?", Some(LexFault::BadByte(2))),
        (b"a ! =", Some(LexFault::BadByte(2))),
        (b"a ==> b", Some(LexFault::BadByte(4))),
        (b"\x0c", Some(LexFault::BadByte(0))),
        (b"a \xc3\xa9", Some(LexFault::BadByte(2))),
        (b"? 9223372036854775809", Some(LexFault::BadByte(0))),
    ];
    for (text, want) in cases {
        assert_eq!(rt; read(rt.alloc(), text).err(), want, "at {text:?}");
    }
}
