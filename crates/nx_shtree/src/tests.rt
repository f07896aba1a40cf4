use super::*;
use nx_base::Bytes;
use nx_shtok::{Part, ShFault, ShKind, Word};
use sqlite_items::Items;
use std::alloc::{AllocError, Global};

/// A line, which is below 10, as its digit.
fn write_line(into: &mut Bytes, line: u32) -> Result<(), AllocError> {
    into.push(b'0' + (line % 10) as u8)
}

/// A word's bytes; the status as `?`, a name as `$`.
fn write_word(into: &mut Bytes, word: &Word) -> Result<(), AllocError> {
    for part in word.parts.as_slice() {
        match part {
            Part::Byte(byte) => into.push(*byte)?,
            Part::Status => into.push(b'?')?,
            Part::Name(_) => into.push(b'$')?,
        }
    }
    Ok(())
}

/// A command: its line, its words with a blank before each, and its redirection.
fn write_simple(into: &mut Bytes, simple: &Simple) -> Result<(), AllocError> {
    write_line(into, simple.line)?;
    for word in simple.words.as_slice() {
        into.push(b' ')?;
        write_word(into, word)?;
    }
    let Some(output) = &simple.output else {
        return Ok(());
    };
    into.push(b' ')?;
    write_line(into, output.line)?;
    match output.mode {
        Mode::Truncate => into.push(b'>')?,
        Mode::Append => into.append(b">>")?,
    }
    write_word(into, &output.file)
}

/// An item's line, its form, and its command; what its lists are is left out.
fn write_head(into: &mut Bytes, item: &Item) -> Result<(), AllocError> {
    write_line(into, item.line)?;
    match &item.kind {
        ItemKind::Command(simple) => {
            into.push(b'c')?;
            write_simple(into, simple)
        }
        ItemKind::Background(simple) => {
            into.push(b'&')?;
            write_simple(into, simple)
        }
        ItemKind::If(condition, _) => {
            into.push(b'i')?;
            write_simple(into, condition)
        }
        ItemKind::IfElse(condition, _, _) => {
            into.push(b'e')?;
            write_simple(into, condition)
        }
        ItemKind::While(condition, _) => {
            into.push(b'w')?;
            write_simple(into, condition)
        }
        ItemKind::Until(condition, _) => {
            into.push(b'u')?;
            write_simple(into, condition)
        }
    }
}

/// The items of a list in braces, without what is in their lists.
fn write_inner(into: &mut Bytes, items: &Items<Item>) -> Result<(), AllocError> {
    into.push(b'{')?;
    for item in items.as_slice() {
        write_head(into, item)?;
        into.push(b';')?;
    }
    into.push(b'}')
}

/// An item with its lists.
fn write_item(into: &mut Bytes, item: &Item) -> Result<(), AllocError> {
    write_head(into, item)?;
    match &item.kind {
        ItemKind::Command(_) => Ok(()),
        ItemKind::Background(_) => Ok(()),
        ItemKind::If(_, body) => write_inner(into, body.get()),
        ItemKind::IfElse(_, body, other) => {
            write_inner(into, body.get())?;
            write_inner(into, other.get())
        }
        ItemKind::While(_, body) => write_inner(into, body.get()),
        ItemKind::Until(_, body) => write_inner(into, body.get()),
    }
}

fn write_script(alloc: Global, script: &Script) -> Result<Bytes, AllocError> {
    let mut written = Bytes::new(alloc);
    for item in script.items().get().as_slice() {
        write_item(&mut written, item)?;
        written.push(b'.')?;
    }
    Ok(written)
}

/// Whether a text is a script with this tree.
fn gives(alloc: Global, text: &str, want: &str) -> bool {
    if text.len() > 1048576 {
        return false;
    }
    let Ok(script) = parse_script(alloc, text.as_bytes()) else {
        return false;
    };
    match write_script(alloc, &script) {
        Ok(written) => written.as_slice() == want.as_bytes(),
        Err(_) => false,
    }
}

fn fault_of(alloc: Global, bytes: &[u8]) -> Option<ShFault> {
    if bytes.len() > 1048576 {
        return None;
    }
    match parse_script(alloc, bytes) {
        Ok(_) => None,
        Err(fault) => Some(fault),
    }
}

/// Whether a text is refused with this fault at this line.
fn refused(alloc: Global, text: &[u8], line: u32, kind: ShKind) -> bool {
    fault_of(alloc, text) == Some(ShFault::Text { line, kind })
}

#[test]
fn trees(rt: HostRuntime) {
    for (text, want) in [
        ("", ""),
        ("\n;\n", ""),
        ("echo a > /tmp/f\n", "1c1 echo a 1>/tmp/f."),
        ("a;b&c >>d", "1c1 a.1&1 b.1c1 c 1>>d."),
        ("echo if then fi", "1c1 echo if then fi."),
        ("'if' a\n\\fi", "1c1 if a.2c2 fi."),
        ("a\\\nb c\nd", "1c1 a\nb c.3c3 d."),
        (
            "if [ $? -eq 0 ]\nthen\necho yes\nelse\necho no\nfi\nzz\n",
            "1e1 [ ? -eq 0 ]{3c3 echo yes;}{5c5 echo no;}.7c7 zz.",
        ),
        (
            "until [ -e /tmp/x ]\ndo\necho a > /tmp/x\ndone\necho $?\n",
            "1u1 [ -e /tmp/x ]{3c3 echo a 3>/tmp/x;}.5c5 echo ?.",
        ),
        ("while p > q;;do a & b;\ndone;", "1w1 p 1>q{1&1 a;1c1 b;}."),
        ("if a\nthen if b;then c;else d;fi\nfi", "1i1 a{2e2 b;}."),
        (
            "if a\nthen if b;then c;fi\nelse d\nfi",
            "1e1 a{2i2 b;}{3c3 d;}.",
        ),
        ("if a;then else fi", "1e1 a{}{}."),
        ("while a;do done", "1w1 a{}."),
    ] {
        assert!(rt; gives(rt.alloc(), text, want), "{text}");
    }
}

#[test]
fn refused_tokens(rt: HostRuntime) {
    for (text, line) in [
        ("if true\nthen\n", 3),
        ("if true\nthen", 2),
        ("a\nfi\n", 2),
        ("if a\nb\nfi", 2),
        ("if if\n", 1),
        ("if a;then b;fi &", 1),
        ("while a;do b;done > f", 1),
        ("\n> f", 2),
        ("a >\nb", 1),
        ("a > b c", 1),
        ("a > b > c", 1),
        ("if a &\nthen b;fi", 1),
        ("while a\nthen\n", 2),
        ("if a;then b;else c;else d;fi", 1),
        ("&", 1),
        ("a & ;\n\nthen", 3),
    ] {
        assert!(rt;
            refused(rt.alloc(), text.as_bytes(), line, ShKind::Syntax),
            "{text}"
        );
    }
    assert!(rt; refused(rt.alloc(), b"fi\n'a", 2, ShKind::OpenQuote));
}

/// So many copies of a text, and then another.
fn copies(alloc: Global, count: usize, each: &[u8], last: &[u8]) -> Result<Bytes, AllocError> {
    let mut text = Bytes::new(alloc);
    for _ in 0..count {
        text.append(each)?;
    }
    text.append(last)?;
    Ok(text)
}

/// Whether so many copies of a text, and then another, have this fault or none.
fn copies_give(
    alloc: Global,
    count: usize,
    each: &[u8],
    last: &[u8],
    want: Option<ShFault>,
) -> bool {
    match copies(alloc, count, each, last) {
        Ok(text) => fault_of(alloc, text.as_slice()) == want,
        Err(_) => false,
    }
}

/// The fault at a line.
fn at(line: u32, kind: ShKind) -> Option<ShFault> {
    Some(ShFault::Text { line, kind })
}

#[test]
fn limits(rt: HostRuntime) {
    let alloc = rt.alloc();
    assert!(rt; copies_give(alloc, 31, b"a ", b"b > c", None));
    assert!(rt; copies_give(alloc, 32, b"a ", b"b > c", at(1, ShKind::Limit)));
    assert!(rt;
        copies_give(
            alloc,
            31,
            b"if a\nthen\n",
            b"if a\nfi",
            at(64, ShKind::Syntax)
        )
    );
    assert!(rt;
        copies_give(
            alloc,
            32,
            b"if a\nthen\n",
            b"if a\nfi",
            at(65, ShKind::Limit)
        )
    );
    assert!(rt; copies_give(alloc, 32, b"while a\ndo\n", b"done", at(65, ShKind::Syntax)));
}
