use super::*;

// Whether the text is a program.
fn is_read(alloc: Global, text: &[u8]) -> Result<bool, AllocError> {
    let program = read_program(alloc, text)?;
    Ok(program.is_some())
}

// `count` writes of one byte, and a return.
fn writes(alloc: Global, count: usize) -> Result<Vec<u8>, AllocError> {
    let mut text = Vec::from_slice(alloc, b"int main(void){")?;
    for _ in 0..count {
        text.extend_from_slice(b"write(1,\"a\",1);")?;
    }
    text.extend_from_slice(b"return 0;}")?;
    Ok(text)
}

// One write of `count` bytes, and a return.
fn long_write(alloc: Global, count: usize) -> Result<Vec<u8>, AllocError> {
    let start = format!(in alloc; "int main(void){{write(1,\"")?;
    let mut text = Vec::from_slice(alloc, start.as_bytes())?;
    for _ in 0..count {
        text.extend_from_slice(b"a")?;
    }
    let end = format!(in alloc; "\",{count});return 0;}}")?;
    text.extend_from_slice(end.as_bytes())?;
    Ok(text)
}

#[test]
fn reads_writes_and_status(rt: HostRuntime) -> Result<(), AllocError> {
    let text =
        b"\n\n int main ( void ) {\n  write(1, \"Hello, \\n\", 8);\n  write(1,\"+\",1) ; return 255;\n}\n";
    let program = read_program(rt.alloc(), text)?;
    assert!(rt; program.is_some(), "is a program");
    if let Some(program) = program {
        assert_eq!(rt; program.status(), 255);
        assert_eq!(rt; program.writes().len(), 2);
        assert!(rt; program.writes()[0].as_slice() == b"Hello, \n".as_slice());
        assert!(rt; program.writes()[1].as_slice() == b"+".as_slice());
    }
    Ok(())
}

#[test]
fn accepts(rt: HostRuntime) -> Result<(), AllocError> {
    let texts: [&str; 4] = [
        "int main(void){return 0;}",
        "int\nmain(void){return 255;}",
        "\n\n  int main(void){return 10;}  \n",
        "int main(void){write(1,\"a\\nb\",3);return 0;}",
    ];
    for text in texts {
        assert!(rt; is_read(rt.alloc(), text.as_bytes())?, "{text}");
    }
    Ok(())
}

#[test]
fn refuses(rt: HostRuntime) -> Result<(), AllocError> {
    let texts: [&str; 17] = [
        "",
        "intmain(void){return 0;}",
        "int main(void){return0;}",
        "int main(void){return 00;}",
        "int main(void){return 01;}",
        "int main(void){return 256;}",
        "int main(void){return -1;}",
        "int main(void){return 0;}}",
        "int main(void){return 0;} x",
        "int main(void){return\t0;}",
        "int main(void){write(1,\"ab\",1);return 0;}",
        "int main(void){write(1,\"a\",01);return 0;}",
        "int main(void){write(1,\"\\n\",2);return 0;}",
        "int main(void){write(1,\"\",0);return 0;}",
        "int main(void){write(1,\"\\t\",1);return 0;}",
        "int main(void){write(1,\"\n\",1);return 0;}",
        "int main(void){write(1,\"a\"b\",3);return 0;}",
    ];
    for text in texts {
        assert!(rt; !is_read(rt.alloc(), text.as_bytes())?, "{text}");
    }
    Ok(())
}

#[test]
fn bounds_writes_and_strings(rt: HostRuntime) -> Result<(), AllocError> {
    let few = writes(rt.alloc(), 16)?;
    assert!(rt; is_read(rt.alloc(), few.as_slice())?);
    let many = writes(rt.alloc(), 17)?;
    assert!(rt; !is_read(rt.alloc(), many.as_slice())?);
    let short = long_write(rt.alloc(), 255)?;
    assert!(rt; is_read(rt.alloc(), short.as_slice())?);
    let long = long_write(rt.alloc(), 256)?;
    assert!(rt; !is_read(rt.alloc(), long.as_slice())?);
    Ok(())
}
