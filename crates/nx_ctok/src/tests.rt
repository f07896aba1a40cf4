use super::*;
use nx_base::Bytes;
use std::alloc::{AllocError, Global};
use std::test::Fail;

/// The letter by which the tests write a kind.
fn letter(kind: TokenKind) -> u8 {
    match kind {
        TokenKind::Name => b'n',
        TokenKind::Keyword => b'k',
        TokenKind::Number => b'#',
        TokenKind::Char => b'c',
        TokenKind::Text => b't',
        TokenKind::Mark => b'm',
        TokenKind::End => b'.',
    }
}

/// One token: its kind, its bytes, `@` and its line, which is below 10, and a blank.
fn write_token(into: &mut Bytes, token: &Token<'_>) -> Result<(), AllocError> {
    into.push(letter(token.kind))?;
    into.append(token.text.bytes())?;
    into.push(b'@')?;
    into.push(b'0' + (token.line % 10) as u8)?;
    into.push(b' ')
}

fn write_tokens(alloc: Global, found: &[Token<'_>]) -> Result<Bytes, AllocError> {
    let mut written = Bytes::new(alloc);
    for token in found {
        write_token(&mut written, token)?;
    }
    Ok(written)
}

/// Whether a text gives these tokens.
fn gives(alloc: Global, text: &str, want: &str) -> bool {
    if text.len() > 1048576 {
        return false;
    }
    let Ok(found) = tokens(alloc, text.as_bytes()) else {
        return false;
    };
    match write_tokens(alloc, found.as_slice()) {
        Ok(written) => written.as_slice() == want.as_bytes(),
        Err(_) => false,
    }
}

fn fault_of(alloc: Global, bytes: &[u8]) -> Option<CFault> {
    if bytes.len() > 1048576 {
        return None;
    }
    match tokens(alloc, bytes) {
        Ok(_) => None,
        Err(fault) => Some(fault),
    }
}

#[test]
fn spellings(rt: HostRuntime) {
    for (text, want) in [
        ("", ".@1 "),
        ("\n\n", ".@3 "),
        ("int switch;\r\n", "kint@1 nswitch@1 m;@1 .@2 "),
        ("_a1 9", "n_a1@1 #9@1 .@1 "),
        ("012", "#0@1 #12@1 .@1 "),
        ("12ab", "#12@1 nab@1 .@1 "),
        ("0x", "#0@1 nx@1 .@1 "),
        ("0X1", "#0@1 nX1@1 .@1 "),
        ("0x1Fg", "#0x1F@1 ng@1 .@1 "),
        ("4294967295 0xFFFFFFFF", "#4294967295@1 #0xFFFFFFFF@1 .@1 "),
        ("a+++b", "na@1 m++@1 m+@1 nb@1 .@1 "),
        (
            "<<= >>= &= <= =",
            "m<<@1 m=@1 m>>@1 m=@1 m&@1 m=@1 m<=@1 m=@1 .@1 ",
        ),
        ("'a' '\\'' '\\0'", "c'a'@1 c'\\''@1 c'\\0'@1 .@1 "),
        ("'\t' \"a\tb\\\"//\"", "c'\t'@1 t\"a\tb\\\"//\"@1 .@1 "),
    ] {
        assert!(rt; gives(rt.alloc(), text, want), "{text}");
    }
}

#[test]
fn comments_and_lines(rt: HostRuntime) {
    for (text, want) in [
        ("a//b\nc", "na@1 nc@2 .@2 "),
        ("a/**/b", "na@1 nb@1 .@1 "),
        ("/*/ * /\n*/a/=b", "na@2 m/=@2 nb@2 .@2 "),
        ("/***/a\n//", "na@1 .@2 "),
        ("#include <it's \"x>\na", "na@2 .@2 "),
        (" /**/\t#includefoo // b\na", "na@2 .@2 "),
        ("#include /*\n*/ a", "na@2 .@2 "),
    ] {
        assert!(rt; gives(rt.alloc(), text, want), "{text}");
    }
}

#[test]
fn definitions(rt: HostRuntime) {
    for (text, want) in [
        ("int ENOENT;", "kint@1 #2@1 m;@1 .@1 "),
        ("O_NONBLOCK ETIMEDOUT EPIPES", "#64@1 #110@1 nEPIPES@1 .@1 "),
        ("#define X -5\n3 -X", "#3@2 m-@2 m-@2 #5@2 .@2 "),
        ("#define X -'a'\nX\n\nX", "m-@2 c'a'@2 m-@4 c'a'@4 .@4 "),
        ("X\n#define X 1\nX\n#define X 2\nX", "nX@1 #1@3 #2@5 .@5 "),
        ("#define X 1 /*\n*/ #define Y 2\nX Y", "#1@3 #2@3 .@3 "),
        ("#define X 1 /*\n*/ X", "#1@2 .@2 "),
        ("/*\n*/ #define/**/X\t'/'//\nX", "c'/'@3 .@3 "),
        ("#define ENOENT 7\r\nENOENT", "#7@2 .@2 "),
    ] {
        assert!(rt; gives(rt.alloc(), text, want), "{text}");
    }
}

#[test]
fn bad_tokens(rt: HostRuntime) {
    for (text, line) in [
        ("int a;\n/* b\n", 2),
        ("\n'' ", 2),
        ("'ab'", 1),
        ("'\\q'", 1),
        ("\"abc\n\"", 1),
        ("\"abc", 1),
        ("'a", 1),
        ("@", 1),
        ("a\n\n`", 3),
        ("a # b", 1),
        ("\n#", 2),
        ("#pragma", 1),
        ("# define X 1", 1),
        ("#/**/define X 1", 1),
        ("#defined X 1", 1),
        ("#define X - 5", 1),
        ("#define X", 1),
        ("#define X Y", 1),
        ("#define X \"s\"", 1),
        ("#define int 1", 1),
        ("#define X 012", 1),
        ("#define X 1 2 99999999999", 1),
        ("#define X 1 /* a\n", 1),
        ("#include <a/*b>\n\n", 1),
        ("@ 4294967296", 1),
    ] {
        let want = Some(CFault::Text {
            line,
            kind: CKind::BadToken,
        });
        assert_eq!(rt; fault_of(rt.alloc(), text.as_bytes()), want, "{text}");
    }
}

#[test]
fn wide_numbers(rt: HostRuntime) {
    for (text, line) in [
        ("int x = 4294967296;", 1),
        ("\n0x100000000", 2),
        ("#define X 4294967296", 1),
        ("99999999999999999999999 @", 1),
    ] {
        let want = Some(CFault::Text {
            line,
            kind: CKind::TooWide,
        });
        assert_eq!(rt; fault_of(rt.alloc(), text.as_bytes()), want, "{text}");
    }
}

#[test]
fn bytes_outside_ascii(rt: HostRuntime) {
    let bad = Some(CFault::Text {
        line: 1,
        kind: CKind::BadToken,
    });
    assert_eq!(rt; fault_of(rt.alloc(), b"/* \xff */ a // \x80\x0c"), None);
    assert_eq!(rt; fault_of(rt.alloc(), b"#include \xff"), bad);
    assert_eq!(rt; fault_of(rt.alloc(), b"\"\xff\""), bad);
    assert_eq!(rt; fault_of(rt.alloc(), b"a \x0c"), bad);
    assert_eq!(rt; fault_of(rt.alloc(), b"a \x7f"), bad);
}

#[test]
fn what_tokens_stand_for(rt: HostRuntime) -> Result<(), Fail> {
    assert_eq!(rt; Spelling::new(b"4294967295").number(), 4294967295);
    assert_eq!(rt; Spelling::new(b"0xfF").number(), 255);
    assert_eq!(rt; Spelling::new(b"0").number(), 0);
    assert_eq!(rt; Spelling::new(b"4294967297").number(), 1);
    assert_eq!(rt; Spelling::new(b"'a'").character(), 97);
    assert_eq!(rt; Spelling::new(b"'\\0'").character(), 0);
    assert_eq!(rt; Spelling::new(b"'\\n'").character(), 10);
    assert_eq!(rt; Spelling::new(b"'\\''").character(), 39);
    let text = Spelling::new(b"\"a\\n\\0\\\"z\"").text(rt.alloc())?;
    assert!(rt; text.as_slice() == b"a\n\0\"z".as_slice());
    let empty = Spelling::new(b"\"\"").text(rt.alloc())?;
    assert!(rt; empty.as_slice().is_empty());
    Ok(())
}

#[test]
fn words_for_faults(rt: HostRuntime) {
    for (kind, text) in [
        (CKind::BadToken, "bad token"),
        (CKind::TooWide, "number too wide"),
        (CKind::Syntax, "syntax"),
        (CKind::UnknownName, "unknown name"),
        (CKind::NameTwice, "name twice"),
        (CKind::TypeMismatch, "type mismatch"),
        (CKind::Limit, "limit"),
        (CKind::NoMain, "no main"),
        (CKind::BadHex, "bad hex"),
    ] {
        assert_eq!(rt; kind.text(), text);
    }
    assert_eq!(rt; Keyword::named(b"sizeof"), Some(Keyword::Sizeof));
    assert_eq!(rt; Keyword::named(b"goto"), None);
    assert_eq!(rt; Predefined::named(b"O_RDWR"), Some(Predefined::ReadWrite));
}
