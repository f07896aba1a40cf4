use super::*;
use nx_calls::{Calls, read_calls};
use nx_checked::Checked;
use nx_config::read_config;
use nx_ctok::{CFault, CKind};
use std::alloc::{AllocError, Global};

const MOST_BYTES: usize = 1_048_576;

const TABLE: &str = "\"write\",\"h\",\"\",\"int\",\"int\",\"const void *\",\"size_t\"
\"read\",\"h\",\"\",\"int\",\"int\",\"void *\",\"size_t\"
\"unlink\",\"h\",\"\",\"int\",\"const char *\"
\"nx_thread\",\"h\",\"\",\"int\",\"int\",\"int\"
\"waitpid\",\"h\",\"\",\"int\",\"int\",\"int *\",\"int\"
\"nx_thread_exit\",\"h\",\"\",\"void\",\"int\"
";

fn table(alloc: Global) -> Result<Calls, CFault> {
    if TABLE.len() > MOST_BYTES {
        return Err(CFault::Memory);
    }
    let config = read_config(alloc, b"".as_slice()).map_err(|_| CFault::Memory)?;
    read_calls(alloc, TABLE.as_bytes(), &config).map_err(|_| CFault::Memory)
}

fn program(alloc: Global, text: &str) -> Result<Checked, CFault> {
    if text.len() > MOST_BYTES {
        return Err(CFault::Memory);
    }
    let calls = table(alloc)?;
    check_text(alloc, calls.rows(), text.as_bytes())
}

/// The fault by which a text is refused, if it is.
fn refusal(alloc: Global, text: &str) -> Option<CFault> {
    program(alloc, text).err()
}

/// A fault at a line.
fn at(line: u32, kind: CKind) -> Option<CFault> {
    Some(CFault::Text { line, kind })
}

/// Text, some text so many times, and text.
fn repeated(
    alloc: Global,
    start: &str,
    part: &str,
    times: u32,
    end: &str,
) -> Result<String, AllocError> {
    let mut text = String::from_str(alloc, start)?;
    for _ in 0..times {
        text.push_str(part)?;
    }
    text.push_str(end)?;
    Ok(text)
}

#[test]
fn one_text_of_each_kind(rt: HostRuntime) {
    for (text, line, kind) in [
        ("int main(void) {", 1, CKind::Syntax),
        ("int main(void) { return zz; }", 1, CKind::UnknownName),
        ("int a;\nint a;", 2, CKind::NameTwice),
        (
            "int main(void) { char *p; return p; }",
            1,
            CKind::TypeMismatch,
        ),
        ("int x = 4294967296;", 1, CKind::TooWide),
        ("int f(void) { return 0; }", 0, CKind::NoMain),
        ("int main(void) { return 0; }\n@", 2, CKind::BadToken),
        ("int a[262145];", 1, CKind::Limit),
    ] {
        assert_eq!(rt; refusal(rt.alloc(), text), at(line, kind), "{text}");
    }
}

#[test]
fn texts_that_are_programs(rt: HostRuntime) {
    for text in [
        "int main(void) { if (1) if (0) return 1; else return 2; return 3; }",
        "int main() { return 0; }",
        "int main(void) { write(1, \"hello\\n\", 6); return 0; }",
        "int f(int a, int *p, char *q, const char *t) { return a + *p + *q + t[1]; }
int main(void) { int n; char c[4]; n = 1; return f(n, (int *)0, c, \"abc\"); }",
        "int g; int g2[3] = {1, -2, 'a'}; char t[4] = \"abc\"; static char h = 'h';
int main(void) { g = h; g2[0] += t[1]; h = 511; return g; }",
        "int f(void); int main(void) { return f(); } int f(void) { return 1; }",
        "int run(int n) { nx_thread_exit(n); return 0; }
int main(void) { return nx_thread(run, 3); }",
        "int run(int n) { return n; }
int main(void) { int s[1]; char b[9]; nx_thread(run, 3); read(0, b, 9); return waitpid(2, s, 0); }",
        "int write(int a) { return a; } int main(void) { return write(1); }",
        "int main(void) { char *p; char b[2]; p = b; p++; p += 1; p = 1 + p - 2; return p[0] ? 1 : 2; }",
    ] {
        assert_eq!(rt; refusal(rt.alloc(), text), None, "{text}");
    }
}

/// The name or declaration that is refused begins the second line.
#[test]
fn names(rt: HostRuntime) {
    for (text, kind) in [
        ("int main(void) { return\nx; }", CKind::UnknownName),
        ("int main(void) {\nf(1); return 0; }", CKind::UnknownName),
        (
            "int main(void) { int a =\nb, b; return 0; }",
            CKind::UnknownName,
        ),
        (
            "int f(void) { return\ng; } int g; int main(void) { return 0; }",
            CKind::UnknownName,
        ),
        ("int main(void) { return\nwrite; }", CKind::UnknownName),
        ("int f(int a) { int\na; return 0; }", CKind::NameTwice),
        ("int f(int a,\nint a) { return 0; }", CKind::NameTwice),
        ("int x;\nvoid x(void) { }", CKind::NameTwice),
        (
            "int f(void) { return 0; }\nint f(void) { return 0; }",
            CKind::NameTwice,
        ),
        ("int x;\nchar x[2];", CKind::NameTwice),
    ] {
        assert_eq!(rt; refusal(rt.alloc(), text), at(2, kind), "{text}");
    }
}

/// What is refused begins the second line.
#[test]
fn types_of_expressions(rt: HostRuntime) {
    for text in [
        "int f(char *p) { return\np * 2; }",
        "int f(char *p) { return\n-p; }",
        "int f(char *p) { return\n!p; }",
        "int f(int n) { return\n*n; }",
        "int f(int n) { return\nn[0]; }",
        "int f(int *p, char *q) { if (1)\np = q; return 0; }",
        "int f(const char *t) { char *q;\nq = t; return 0; }",
        "int f(const char *t) {\n*t = 1; return 0; }",
        "int f(const char *t) {\nt[0] = 1; return 0; }",
        "int f(int *p, char *q) { return *(\n1 ? p : q); }",
        "int f(int *p) {\np *= 2; return 0; }",
        "int f(int *p) { return f(p) +\nf(1); }",
        "int f(int *p) { return f(p) +\nf(p, p); }",
        "void g(void) { } int f(void) { return\ng() + 1; }",
        "int f(void) { return\nf; }",
        "int f(char *p, int i) { return\ni[p]; }",
        "int f(void) {\nunlink(1); return 0; }",
        "int f(void) { const char *t;\nread(0, t, 1); return 0; }",
        "int f(void) { char *p;\nwaitpid(1, p, 0); return 0; }",
        "int f(void) {\nnx_thread(1, 2); return 0; }",
        "void g(int n) { } int f(void) {\nnx_thread(g, 2); return 0; }",
    ] {
        assert_eq!(rt;
            refusal(rt.alloc(), text),
            at(2, CKind::TypeMismatch),
            "{text}"
        );
    }
}

/// What is refused begins the second line.
#[test]
fn types_of_statements_and_declarations(rt: HostRuntime) {
    for text in [
        "int f(char *p) {\nif (p) ; return 0; }",
        "int f(char *p) {\nwhile (p) ; return 0; }",
        "int f(char *p) {\nfor (; p; ) ; return 0; }",
        "int f(void) {\nreturn; }",
        "void f(void) {\nreturn 1; }",
        "int f(void) { char\n*a[2]; return 0; }",
        "int f(void) { int\na[0]; return 0; }",
        "int f(void) { const char\nc; return 0; }",
        "\nint a[0];",
        "\nchar c[2] = \"abc\";",
        "\nint a[1] = {1, 2};",
        "\nint a[4] = \"abc\";",
        "\nchar f(void) { return 0; }",
        "\nvoid main(void) { }",
        "\nint main(int n) { return 0; }",
        "int f(void) { return 0; }\nvoid f(void);",
        "int f(int a) { return 0; }\nint f(char *a);",
        "\nint f(const char *a); int f(char *a) { return 0; }",
    ] {
        assert_eq!(rt;
            refusal(rt.alloc(), text),
            at(2, CKind::TypeMismatch),
            "{text}"
        );
    }
}

/// Of the faults of a text the first pass that finds one counts.
#[test]
fn passes_in_order(rt: HostRuntime) {
    for (text, line, kind) in [
        ("int main(void) { return x; }\nint ;\n@", 3, CKind::BadToken),
        ("int main(void) { return x; }\nint ;\n", 2, CKind::Syntax),
        (
            "int main(void) { return x; }\nint f(char *p) { return p; }\n",
            1,
            CKind::UnknownName,
        ),
        ("char *a[0] =\n1;", 1, CKind::Syntax),
        (
            "int f(void) {\nint a[300000]; return b; }",
            2,
            CKind::UnknownName,
        ),
    ] {
        assert_eq!(rt; refusal(rt.alloc(), text), at(line, kind), "{text}");
    }
}

#[test]
fn limits(rt: HostRuntime) -> Result<(), AllocError> {
    let a = rt.alloc();
    for (text, line) in [
        (
            "int f(int a, int b, int c, int d, int e, int g,\nint h) { return 0; }",
            2,
        ),
        ("int a[262144];\nint b;", 2),
        ("\nint f(void) { int a[262144]; return 0; }", 2),
    ] {
        assert_eq!(rt; refusal(a, text), at(line, CKind::Limit), "{text}");
    }
    let named = repeated(a, "int ", "n", 64, "; int main(void) { return 0; }")?;
    assert_eq!(rt; refusal(a, named.as_str()), None);
    let longer = repeated(a, "\nint ", "n", 65, "; int main(void) { return 0; }")?;
    assert_eq!(rt; refusal(a, longer.as_str()), at(2, CKind::Limit));
    Ok(())
}
