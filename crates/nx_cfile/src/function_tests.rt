use crate::tests::{at, refusal, repeated, tree_of};
use nx_ctok::CKind;
use nx_ctree::Rest;
use std::alloc::{AllocError, Global};
use std::test::Fail;

/// The declarations and the statements of a file's functions, one a line.
fn body_of(alloc: Global, text: &str) -> Result<String, Fail> {
    let tree = tree_of(alloc, text)?;
    let mut shown = String::new(alloc);
    for external in tree.externals.as_slice() {
        if let Rest::Function(_, function) = &external.rest {
            for declaration in function.decls.as_slice() {
                shown.push_str(format!(in alloc; "{declaration:?}\n")?.as_str())?;
            }
            for statement in function.body.get().as_slice() {
                shown.push_str(format!(in alloc; "{statement:?}\n")?.as_str())?;
            }
        }
    }
    Ok(shown)
}

/// Each refused token stands on the second line.
#[test]
fn refused_in_a_function(rt: HostRuntime) {
    for text in [
        // What can't be written to.
        "int f(void) { a + b\n= 1; }",
        "int f(void) { (a)\n= 1; }",
        "int f(void) { -a\n= 1; }",
        "int f(void) { a++\n= 1; }",
        "int f(void) { f()\n= 1; }",
        "int f(void) { a ? b : c\n= 1; }",
        "int f(void) { (int)a\n= 1; }",
        "int f(void) { 1\n++; }",
        "int f(void) { (a)\n++; }",
        "int f(void) { (*p)\n++; }",
        "int f(void) { a++\n++; }",
        "int f(void) { ++(a)\n; }",
        "int f(void) { ++f()\n; }",
        "int f(void) { &a\n; }",
        "int f(void) { ++\n-a; }",
        "int f(void) { &\n-a; }",
        // Declarations that stand elsewhere than at a body's head.
        "int f(void) { {\nint x; } }",
        "int f(void) { ;\nint x; }",
        "int f(void) {\nstatic int x; }",
        // Types that there are none of.
        "int f(void) { sizeof(int\n*); }",
        "int f(void) { sizeof(a\n[0]); }",
        "int f(void) { (\nvoid)x; }",
        // Branches and loops.
        "int f(void) { if (a) ; ;\nelse ; }",
        "int f(void) { do ; while (a)\n} }",
        "int f(void) { for (;\n) ; }",
        "int f(void) { while (a) break; {\nbreak; } }",
        // The end of the text.
        "int main(void) {\n",
    ] {
        assert_eq!(rt; refusal(rt.alloc(), text), at(2, CKind::Syntax), "{text}");
    }
}

#[test]
fn read_whole(rt: HostRuntime) {
    for text in [
        "int main(void) { if (1) if (0) return 1; else return 2; return 3; }",
        "int main(void) { int a = 1, b = 0; if (a) if (b) put(1); else put(2); return 0; }",
        "int f(void) { *p++; ++*p; ++(a)[0]; &a[0]; }",
        "int f(void) { int *a, b; char *a[3]; }",
        "int f() { int x = 1; for (;;) { do x--; while (x); break; } return x; }",
    ] {
        assert_eq!(rt; refusal(rt.alloc(), text), None, "{text}");
    }
}

#[test]
fn the_end_is_a_token(rt: HostRuntime) {
    assert_eq!(rt;
        refusal(rt.alloc(), "int main(void) {"),
        at(1, CKind::Syntax)
    );
}

/// Statements, expressions and the values of locals are nodes.
#[test]
fn nesting(rt: HostRuntime) -> Result<(), AllocError> {
    let a = rt.alloc();
    let blocks = repeated(a, "int f(void) {", "{", 62, "1;")?;
    assert_eq!(rt;
        refusal(a, repeated(a, blocks.as_str(), "}", 63, "")?.as_str()),
        None
    );
    let deeper = repeated(a, "int f(void) {", "{", 63, "\n1;")?;
    assert_eq!(rt; refusal(a, deeper.as_str()), at(2, CKind::Limit));
    let chain = repeated(a, "int f(void) { if (1) ;", " else if (1) ;", 62, "")?;
    assert_eq!(rt;
        refusal(a, repeated(a, chain.as_str(), "}", 1, "")?.as_str()),
        None
    );
    assert_eq!(rt;
        refusal(
            a,
            repeated(a, chain.as_str(), " else\nif (1) ; }", 1, "")?.as_str()
        ),
        at(2, CKind::Limit)
    );
    let sum = repeated(a, "int f(void) { 1", "+1", 62, "")?;
    assert_eq!(rt;
        refusal(a, repeated(a, sum.as_str(), "; }", 1, "")?.as_str()),
        None
    );
    assert_eq!(rt;
        refusal(a, repeated(a, sum.as_str(), "\n+1; }", 1, "")?.as_str()),
        at(2, CKind::Limit)
    );
    let value = repeated(a, "int f(void) { int x =", " -", 62, " ")?;
    assert_eq!(rt;
        refusal(a, repeated(a, value.as_str(), "1; }", 1, "")?.as_str()),
        None
    );
    assert_eq!(rt;
        refusal(a, repeated(a, value.as_str(), "\n-1; }", 1, "")?.as_str()),
        at(2, CKind::Limit)
    );
    Ok(())
}

#[test]
fn statements_and_their_trees(rt: HostRuntime) -> Result<(), Fail> {
    for (text, tree) in [
        (
            "int f(void) { if (1) if (0) return 1; else return 2; }",
            "Stmt { line: 1, kind: If(Shared { inner: Expr { line: 1, kind: Number(1) } }, Shared { inner: Stmt { line: 1, kind: IfElse(Shared { inner: Expr { line: 1, kind: Number(0) } }, Shared { inner: Stmt { line: 1, kind: Return(Some(Shared { inner: Expr { line: 1, kind: Number(1) } })) } }, Shared { inner: Stmt { line: 1, kind: Return(Some(Shared { inner: Expr { line: 1, kind: Number(2) } })) } }) } }) }\n",
        ),
        (
            "int f(void) { a = b = 1 + 2 * 3 - 4; }",
            "Stmt { line: 1, kind: Expr(Shared { inner: Expr { line: 1, kind: Assign(Set, Shared { inner: Place { line: 1, kind: Name(Bytes { items: [97] }) } }, Shared { inner: Expr { line: 1, kind: Assign(Set, Shared { inner: Place { line: 1, kind: Name(Bytes { items: [98] }) } }, Shared { inner: Expr { line: 1, kind: Binary(Subtract, Shared { inner: Expr { line: 1, kind: Binary(Add, Shared { inner: Expr { line: 1, kind: Number(1) } }, Shared { inner: Expr { line: 1, kind: Binary(Multiply, Shared { inner: Expr { line: 1, kind: Number(2) } }, Shared { inner: Expr { line: 1, kind: Number(3) } }) } }) } }, Shared { inner: Expr { line: 1, kind: Number(4) } }) } }) } }) } }) }\n",
        ),
        (
            "int f(void) { a ? b : c ? 1 : 2; }",
            "Stmt { line: 1, kind: Expr(Shared { inner: Expr { line: 1, kind: Conditional(Shared { inner: Expr { line: 1, kind: Name(Bytes { items: [97] }) } }, Shared { inner: Expr { line: 1, kind: Name(Bytes { items: [98] }) } }, Shared { inner: Expr { line: 1, kind: Conditional(Shared { inner: Expr { line: 1, kind: Name(Bytes { items: [99] }) } }, Shared { inner: Expr { line: 1, kind: Number(1) } }, Shared { inner: Expr { line: 1, kind: Number(2) } }) } }) } }) }\n",
        ),
        (
            "int f(void) { -a[1]++; }",
            "Stmt { line: 1, kind: Expr(Shared { inner: Expr { line: 1, kind: Unary(Minus, Shared { inner: Expr { line: 1, kind: After(Increment, Shared { inner: Place { line: 1, kind: Index(Shared { inner: Expr { line: 1, kind: Name(Bytes { items: [97] }) } }, Shared { inner: Expr { line: 1, kind: Number(1) } }) } }) } }) } }) }\n",
        ),
        (
            "int f(void) { (char *)a + sizeof(char); }",
            "Stmt { line: 1, kind: Expr(Shared { inner: Expr { line: 1, kind: Binary(Add, Shared { inner: Expr { line: 1, kind: Cast(Char, true, Shared { inner: Expr { line: 1, kind: Name(Bytes { items: [97] }) } }) } }, Shared { inner: Expr { line: 1, kind: SizeOfType(Char) } }) } }) }\n",
        ),
        (
            "int f(void) { f(1, \"a\") && !*b; }",
            "Stmt { line: 1, kind: Expr(Shared { inner: Expr { line: 1, kind: Binary(And, Shared { inner: Expr { line: 1, kind: Call(Bytes { items: [102] }, Items { items: [Expr { line: 1, kind: Number(1) }, Expr { line: 1, kind: Text(Bytes { items: [97] }) }] }) } }, Shared { inner: Expr { line: 1, kind: Unary(Not, Shared { inner: Expr { line: 1, kind: Unary(Deref, Shared { inner: Expr { line: 1, kind: Name(Bytes { items: [98] }) } }) } }) } }) } }) }\n",
        ),
        (
            "int f(void) { for (;; a += 1) while (a) do continue; while (a); }",
            "Stmt { line: 1, kind: For(None, None, Some(Shared { inner: Expr { line: 1, kind: Assign(Add, Shared { inner: Place { line: 1, kind: Name(Bytes { items: [97] }) } }, Shared { inner: Expr { line: 1, kind: Number(1) } }) } }), Shared { inner: Stmt { line: 1, kind: While(Shared { inner: Expr { line: 1, kind: Name(Bytes { items: [97] }) } }, Shared { inner: Stmt { line: 1, kind: Do(Shared { inner: Stmt { line: 1, kind: Continue } }, Shared { inner: Expr { line: 1, kind: Name(Bytes { items: [97] }) } }) } }) } }) }\n",
        ),
        (
            "int f(void) { &a[1]; }",
            "Stmt { line: 1, kind: Expr(Shared { inner: Expr { line: 1, kind: AddressOf(Shared { inner: Expr { line: 1, kind: Name(Bytes { items: [97] }) } }, Shared { inner: Expr { line: 1, kind: Number(1) } }) } }) }\n",
        ),
    ] {
        assert_eq!(rt; body_of(rt.alloc(), text)?.as_str(), tree, "{text}");
    }
    Ok(())
}

#[test]
fn a_function_and_its_tree(rt: HostRuntime) -> Result<(), Fail> {
    let text = "int put(int v) {
  char b[12]; int i, neg;
  i = 11; b[11] = 10; neg = v < 0;
  if (neg == 0) v = -v;
  do { i--; b[i] = 48 - v % 10; v = v / 10; } while (v != 0);
  if (neg) { i--; b[i] = 45; }
  return write(1, b + i, 12 - i);
}
";
    let body = body_of(rt.alloc(), text)?;
    let mut rest = body.as_str();
    for line in [
        "Decl { line: 2, base: Char, items: Items { items: [Item { line: 2, pointer: false, name: Bytes { items: [98] }, kind: Array(Constant { line: 2, kind: Number(12) }) }] } }",
        "Decl { line: 2, base: Int, items: Items { items: [Item { line: 2, pointer: false, name: Bytes { items: [105] }, kind: Plain }, Item { line: 2, pointer: false, name: Bytes { items: [110, 101, 103] }, kind: Plain }] } }",
        "Stmt { line: 3, kind: Expr(Shared { inner: Expr { line: 3, kind: Assign(Set, Shared { inner: Place { line: 3, kind: Name(Bytes { items: [105] }) } }, Shared { inner: Expr { line: 3, kind: Number(11) } }) } }) }",
        "Stmt { line: 3, kind: Expr(Shared { inner: Expr { line: 3, kind: Assign(Set, Shared { inner: Place { line: 3, kind: Index(Shared { inner: Expr { line: 3, kind: Name(Bytes { items: [98] }) } }, Shared { inner: Expr { line: 3, kind: Number(11) } }) } }, Shared { inner: Expr { line: 3, kind: Number(10) } }) } }) }",
        "Stmt { line: 3, kind: Expr(Shared { inner: Expr { line: 3, kind: Assign(Set, Shared { inner: Place { line: 3, kind: Name(Bytes { items: [110, 101, 103] }) } }, Shared { inner: Expr { line: 3, kind: Binary(Less, Shared { inner: Expr { line: 3, kind: Name(Bytes { items: [118] }) } }, Shared { inner: Expr { line: 3, kind: Number(0) } }) } }) } }) }",
        "Stmt { line: 4, kind: If(Shared { inner: Expr { line: 4, kind: Binary(Equal, Shared { inner: Expr { line: 4, kind: Name(Bytes { items: [110, 101, 103] }) } }, Shared { inner: Expr { line: 4, kind: Number(0) } }) } }, Shared { inner: Stmt { line: 4, kind: Expr(Shared { inner: Expr { line: 4, kind: Assign(Set, Shared { inner: Place { line: 4, kind: Name(Bytes { items: [118] }) } }, Shared { inner: Expr { line: 4, kind: Unary(Minus, Shared { inner: Expr { line: 4, kind: Name(Bytes { items: [118] }) } }) } }) } }) } }) }",
        "Stmt { line: 5, kind: Do(Shared { inner: Stmt { line: 5, kind: Block(Shared { inner: Items { items: [Stmt { line: 5, kind: Expr(Shared { inner: Expr { line: 5, kind: After(Decrement, Shared { inner: Place { line: 5, kind: Name(Bytes { items: [105] }) } }) } }) }, Stmt { line: 5, kind: Expr(Shared { inner: Expr { line: 5, kind: Assign(Set, Shared { inner: Place { line: 5, kind: Index(Shared { inner: Expr { line: 5, kind: Name(Bytes { items: [98] }) } }, Shared { inner: Expr { line: 5, kind: Name(Bytes { items: [105] }) } }) } }, Shared { inner: Expr { line: 5, kind: Binary(Subtract, Shared { inner: Expr { line: 5, kind: Number(48) } }, Shared { inner: Expr { line: 5, kind: Binary(Remainder, Shared { inner: Expr { line: 5, kind: Name(Bytes { items: [118] }) } }, Shared { inner: Expr { line: 5, kind: Number(10) } }) } }) } }) } }) }, Stmt { line: 5, kind: Expr(Shared { inner: Expr { line: 5, kind: Assign(Set, Shared { inner: Place { line: 5, kind: Name(Bytes { items: [118] }) } }, Shared { inner: Expr { line: 5, kind: Binary(Divide, Shared { inner: Expr { line: 5, kind: Name(Bytes { items: [118] }) } }, Shared { inner: Expr { line: 5, kind: Number(10) } }) } }) } }) }] } }) } }, Shared { inner: Expr { line: 5, kind: Binary(NotEqual, Shared { inner: Expr { line: 5, kind: Name(Bytes { items: [118] }) } }, Shared { inner: Expr { line: 5, kind: Number(0) } }) } }) }",
        "Stmt { line: 6, kind: If(Shared { inner: Expr { line: 6, kind: Name(Bytes { items: [110, 101, 103] }) } }, Shared { inner: Stmt { line: 6, kind: Block(Shared { inner: Items { items: [Stmt { line: 6, kind: Expr(Shared { inner: Expr { line: 6, kind: After(Decrement, Shared { inner: Place { line: 6, kind: Name(Bytes { items: [105] }) } }) } }) }, Stmt { line: 6, kind: Expr(Shared { inner: Expr { line: 6, kind: Assign(Set, Shared { inner: Place { line: 6, kind: Index(Shared { inner: Expr { line: 6, kind: Name(Bytes { items: [98] }) } }, Shared { inner: Expr { line: 6, kind: Name(Bytes { items: [105] }) } }) } }, Shared { inner: Expr { line: 6, kind: Number(45) } }) } }) }] } }) } }) }",
        "Stmt { line: 7, kind: Return(Some(Shared { inner: Expr { line: 7, kind: Call(Bytes { items: [119, 114, 105, 116, 101] }, Items { items: [Expr { line: 7, kind: Number(1) }, Expr { line: 7, kind: Binary(Add, Shared { inner: Expr { line: 7, kind: Name(Bytes { items: [98] }) } }, Shared { inner: Expr { line: 7, kind: Name(Bytes { items: [105] }) } }) }, Expr { line: 7, kind: Binary(Subtract, Shared { inner: Expr { line: 7, kind: Number(12) } }, Shared { inner: Expr { line: 7, kind: Name(Bytes { items: [105] }) } }) }] }) } })) }",
    ] {
        assert!(rt; rest.starts_with(line), "{rest}");
        rest = rest.get(line.len() + 1..).unwrap_or("");
    }
    assert_eq!(rt; rest, "");
    Ok(())
}
