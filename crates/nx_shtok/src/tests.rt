use super::*;
use nx_base::Bytes;
use std::alloc::{AllocError, Global};

/// One part: a byte as it is, the status as `<?>`, a name as `<NAME>`.
fn write_part(into: &mut Bytes, part: &Part) -> Result<(), AllocError> {
    match part {
        Part::Byte(byte) => into.push(*byte),
        Part::Status => into.append(b"<?>"),
        Part::Name(name) => {
            into.push(b'<')?;
            into.append(name.as_slice())?;
            into.push(b'>')
        }
    }
}

/// A word: `w` or, where some of it is quoted, `q`, and its parts.
fn write_word(into: &mut Bytes, word: &Word) -> Result<(), AllocError> {
    into.push(if word.quoted { b'q' } else { b'w' })?;
    for part in word.parts.as_slice() {
        write_part(into, part)?;
    }
    Ok(())
}

/// One token, `@` and its line, which is below 10, and a blank.
fn write_token(into: &mut Bytes, token: &Token) -> Result<(), AllocError> {
    match &token.kind {
        TokenKind::Word(word) => write_word(into, word)?,
        TokenKind::Newline => into.push(b'N')?,
        TokenKind::Semi => into.push(b';')?,
        TokenKind::And => into.push(b'&')?,
        TokenKind::Into => into.push(b'>')?,
        TokenKind::Append => into.append(b">>")?,
        TokenKind::End => into.push(b'.')?,
    }
    into.push(b'@')?;
    into.push(b'0' + (token.line % 10) as u8)?;
    into.push(b' ')
}

fn write_tokens(alloc: Global, found: &[Token]) -> Result<Bytes, AllocError> {
    let mut written = Bytes::new(alloc);
    for token in found {
        write_token(&mut written, token)?;
    }
    Ok(written)
}

/// Whether a text gives these tokens.
fn gives(alloc: Global, text: &str, want: &str) -> bool {
    if text.len() > 1048576 {
        return false;
    }
    let Ok(found) = tokens(alloc, text.as_bytes()) else {
        return false;
    };
    match write_tokens(alloc, found.as_slice()) {
        Ok(written) => written.as_slice() == want.as_bytes(),
        Err(_) => false,
    }
}

fn fault_of(alloc: Global, bytes: &[u8]) -> Option<ShFault> {
    if bytes.len() > 1048576 {
        return None;
    }
    match tokens(alloc, bytes) {
        Ok(_) => None,
        Err(fault) => Some(fault),
    }
}

#[test]
fn words_and_marks(rt: HostRuntime) {
    for (text, want) in [
        ("", "N@1 .@1 "),
        ("a b\n", "wa@1 wb@1 N@1 N@2 .@2 "),
        ("a;b&c", "wa@1 ;@1 wb@1 &@1 wc@1 N@1 .@1 "),
        (
            "a>b>>c> >d",
            "wa@1 >@1 wb@1 >>@1 wc@1 >@1 >@1 wd@1 N@1 .@1 ",
        ),
        ("a>>>b", "wa@1 >>@1 >@1 wb@1 N@1 .@1 "),
        ("a 2>f", "wa@1 w2@1 >@1 wf@1 N@1 .@1 "),
        ("a#b #c\t'\nd", "wa#b@1 N@1 wd@2 N@2 .@2 "),
        ("a;#b", "wa@1 ;@1 N@1 .@1 "),
        ("a\r\tb\r\n", "wa@1 wb@1 N@1 N@2 .@2 "),
    ] {
        assert!(rt; gives(rt.alloc(), text, want), "{text}");
    }
}

#[test]
fn quotes(rt: HostRuntime) {
    for (text, want) in [
        ("''", "q@1 N@1 .@1 "),
        ("a'b c'd", "qab cd@1 N@1 .@1 "),
        ("'$A\"\\' x", "q$A\"\\@1 wx@1 N@1 .@1 "),
        ("\"a'b\" \"\\n\\\"\"", "qa'b@1 qn\"@1 N@1 .@1 "),
        ("\\a\\ b\\'", "qa b'@1 N@1 .@1 "),
        ("p a\\\nb c", "wp@1 qa\nb@1 wc@2 N@2 .@2 "),
        ("\"a\rb\"", "qa\rb@1 N@1 .@1 "),
        ("\\#a", "q#a@1 N@1 .@1 "),
    ] {
        assert!(rt; gives(rt.alloc(), text, want), "{text}");
    }
}

#[test]
fn expansions(rt: HostRuntime) {
    for (text, want) in [
        ("$A", "w<A>@1 N@1 .@1 "),
        ("x$_a1-${B}y$?$", "wx<_a1>-<B>y<?>$@1 N@1 .@1 "),
        ("\"$A b${C}$?\"", "q<A> b<C><?>@1 N@1 .@1 "),
        ("$1 $$ ${1} ${A", "w$1@1 w$$@1 w${1}@1 w${A@1 N@1 .@1 "),
        ("${A\\}", "q${A}@1 N@1 .@1 "),
        ("$'A' \"${}\"", "q$A@1 q${}@1 N@1 .@1 "),
        ("\\$A", "q$A@1 N@1 .@1 "),
    ] {
        assert!(rt; gives(rt.alloc(), text, want), "{text}");
    }
}

#[test]
fn open_quotes(rt: HostRuntime) {
    for (text, line) in [
        ("a\n'b\n'", 2),
        ("\"a", 1),
        ("\"a\\\nb\"", 1),
        ("a\\\n\nb \"", 3),
        ("a\\\n'b", 2),
        ("a\n\\", 2),
    ] {
        let want = Some(ShFault::Text {
            line,
            kind: ShKind::OpenQuote,
        });
        assert_eq!(rt; fault_of(rt.alloc(), text.as_bytes()), want, "{text}");
    }
}

#[test]
fn bad_bytes(rt: HostRuntime) {
    for (text, line) in [
        ("\u{1}", 1),
        ("a\n\u{7f}", 2),
        ("# a\u{c}", 1),
        ("'\u{0}", 1),
        ("a\\\n\"$A\u{1}\"", 2),
        ("\n\\\u{b}", 2),
        ("$\u{1b}", 1),
        ("a>\u{1f}", 1),
    ] {
        let want = Some(ShFault::Text {
            line,
            kind: ShKind::BadByte,
        });
        assert_eq!(rt; fault_of(rt.alloc(), text.as_bytes()), want, "{text}");
    }
    assert_eq!(rt; fault_of(rt.alloc(), b"\x80\xff~ \t#\xfe"), None);
}

#[test]
fn words_for_faults(rt: HostRuntime) {
    for (kind, text) in [
        (ShKind::BadByte, "bad byte"),
        (ShKind::OpenQuote, "open quote"),
        (ShKind::Syntax, "syntax"),
        (ShKind::Limit, "limit"),
    ] {
        assert_eq!(rt; kind.text(), text);
    }
}
