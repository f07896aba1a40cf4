use super::*;
use nx_ctok::{CFault, CKind};
use nx_ctree::Unit;
use std::alloc::{AllocError, Global};
use std::test::Fail;

/// The tree of a program.
pub(crate) fn tree_of(alloc: Global, text: &str) -> Result<Unit, CFault> {
    if text.len() > 1048576 {
        return Err(CFault::Memory);
    }
    parse_text(alloc, text.as_bytes())
}

/// The fault by which a program is refused, if it is.
pub(crate) fn refusal(alloc: Global, text: &str) -> Option<CFault> {
    tree_of(alloc, text).err()
}

/// A fault at a line.
pub(crate) fn at(line: u32, kind: CKind) -> Option<CFault> {
    Some(CFault::Text { line, kind })
}

/// Text, some text so many times, and text.
pub(crate) fn repeated(
    alloc: Global,
    start: &str,
    part: &str,
    times: u32,
    end: &str,
) -> Result<String, AllocError> {
    let mut text = String::from_str(alloc, start)?;
    for _ in 0..times {
        text.push_str(part)?;
    }
    text.push_str(end)?;
    Ok(text)
}

/// Each refused token stands on the second line.
#[test]
fn refused_at_the_second_line(rt: HostRuntime) {
    for text in [
        // Jumps outside a loop.
        "int f(void) {\nbreak; }",
        "int f(void) { {\ncontinue; } }",
        // Types and declarations that there are none of.
        "int f(void\n*p) { }",
        "int f(const\nint x) { }",
        "int f(int\n) { }",
        "int f(int a,\n) { }",
        "int a[2]\n[3];",
        "int a[\n];",
        "int a[-\n'a'];",
        "int a[1] = {\n};",
        "int n =\n\"a\";",
        "int f(void) { int a[2]\n[3]; }",
        "int f(void) { int a\nb; }",
        "int\n*p;",
        "int\n*f(void);",
        "\nconst int x;",
        "int a\n, b;",
        "static\nstatic int a;",
        "int a;\n;",
        "int f(void) { }\n}",
        // The end of the text.
        "int f(void)\n",
        "static int a\n",
    ] {
        assert_eq!(rt; refusal(rt.alloc(), text), at(2, CKind::Syntax), "{text}");
    }
}

#[test]
fn the_end_is_on_the_last_line(rt: HostRuntime) {
    assert_eq!(rt; refusal(rt.alloc(), "int f(void)"), at(1, CKind::Syntax));
    assert_eq!(rt;
        refusal(rt.alloc(), "int a = 4294967296;"),
        at(1, CKind::TooWide)
    );
}

/// Blocks are nodes, and the body of a function is none.
#[test]
fn blocks_in_blocks(rt: HostRuntime) -> Result<(), AllocError> {
    let a = rt.alloc();
    let empty = repeated(a, "int f(void) {", "{", 64, "")?;
    assert_eq!(rt;
        refusal(a, repeated(a, empty.as_str(), "}", 65, "")?.as_str()),
        None
    );
    assert_eq!(rt;
        refusal(a, repeated(a, empty.as_str(), "\n;", 1, "")?.as_str()),
        at(2, CKind::Limit)
    );
    assert_eq!(rt;
        refusal(a, repeated(a, empty.as_str(), "\n{", 1, "")?.as_str()),
        at(2, CKind::Limit)
    );
    assert_eq!(rt;
        refusal(a, repeated(a, empty.as_str(), "\nbreak", 1, "")?.as_str()),
        at(2, CKind::Syntax)
    );
    assert_eq!(rt;
        refusal(a, repeated(a, empty.as_str(), "\n)", 1, "")?.as_str()),
        at(2, CKind::Syntax)
    );
    let filled = repeated(a, "int f(void) {", "{", 63, ";")?;
    assert_eq!(rt;
        refusal(a, repeated(a, filled.as_str(), "}", 64, "")?.as_str()),
        None
    );
    Ok(())
}

#[test]
fn declarations_of_files(rt: HostRuntime) -> Result<(), Fail> {
    for (text, tree) in [
        (
            "static char t[3] = \"ab\";",
            "Unit { externals: Items { items: [External { line: 1, internal: true, result: Char, name: Bytes { items: [116] }, rest: Array(Constant { line: 1, kind: Number(3) }, Some(Text(Bytes { items: [97, 98] }))) }] } }",
        ),
        (
            "int n = -1;\nint a[2] = {1, 'b'};",
            "Unit { externals: Items { items: [External { line: 1, internal: false, result: Int, name: Bytes { items: [110] }, rest: Valued(Constant { line: 1, kind: Minus(1) }) }, External { line: 2, internal: false, result: Int, name: Bytes { items: [97] }, rest: Array(Constant { line: 2, kind: Number(2) }, Some(Listed(Items { items: [Constant { line: 2, kind: Number(1) }, Constant { line: 2, kind: Char(98) }] }))) }] } }",
        ),
        (
            "void g(int x, const char *y);",
            "Unit { externals: Items { items: [External { line: 1, internal: false, result: Void, name: Bytes { items: [103] }, rest: Prototype(Listed(Items { items: [Param { line: 1, base: Int, pointer: false, name: Bytes { items: [120] } }, Param { line: 1, base: ConstChar, pointer: true, name: Bytes { items: [121] } }] })) }] } }",
        ),
        (
            "int h();",
            "Unit { externals: Items { items: [External { line: 1, internal: false, result: Int, name: Bytes { items: [104] }, rest: Prototype(Empty) }] } }",
        ),
        (
            "void e(void) { const char *p, q[0x10]; {;} }",
            "Unit { externals: Items { items: [External { line: 1, internal: false, result: Void, name: Bytes { items: [101] }, rest: Function(Void, Function { decls: Items { items: [Decl { line: 1, base: ConstChar, items: Items { items: [Item { line: 1, pointer: true, name: Bytes { items: [112] }, kind: Plain }, Item { line: 1, pointer: false, name: Bytes { items: [113] }, kind: Array(Constant { line: 1, kind: Number(16) }) }] } }] }, body: Shared { inner: Items { items: [Stmt { line: 1, kind: Block(Shared { inner: Items { items: [Stmt { line: 1, kind: Empty }] } }) }] } } }) }] } }",
        ),
        ("", "Unit { externals: Items { items: [] } }"),
    ] {
        let found = tree_of(rt.alloc(), text)?;
        assert_eq!(rt;
            format!(in rt.alloc(); "{found:?}")?.as_str(),
            tree,
            "{text}"
        );
    }
    Ok(())
}
