ghost use Rattle.std.specs.Prelude.{◌≤◌, length};

use crate::expression::expression;
use crate::text::{
    put_announcement, put_bad_arguments, put_failure, put_not_found, put_path, put_too_long,
};
use crate::words::Words;
use crate::*;
use nx_base::{KCall, OutOfMemory};
use nx_ksys::MovedBytes;
use std::alloc::Global;
use std::test::Fail;

/// What an expression of three words asks.
fn asked(alloc: Global, first: &[u8], second: &[u8], third: &[u8]) -> Result<Test, OutOfMemory>
    requires first { length first.now ≤ 4096 }
    requires second { length second.now ≤ 4096 }
    requires third { length third.now ≤ 4096 }
{
    let mut words = Words::new(alloc, 3)?;
    words.push(first);
    words.push(second);
    words.push(third);
    Ok(expression(words.as_slice()))
}

#[test]
fn expressions_of_three_words(rt: HostRuntime) -> Result<(), Fail> {
    let alloc = rt.alloc();
    assert_eq!(rt;
        asked(alloc, b"-2147483648", b"-lt", b"2147483647")?,
        Test::Known(true)
    );
    assert_eq!(rt; asked(alloc, b"2147483648", b"-gt", b"0")?, Test::Malformed);
    assert_eq!(rt;
        asked(alloc, b"-2147483649", b"-lt", b"0")?,
        Test::Malformed
    );
    assert_eq!(rt; asked(alloc, b"007", b"-eq", b"7")?, Test::Known(true));
    assert_eq!(rt; asked(alloc, b"3", b"-ge", b"4")?, Test::Known(false));
    assert_eq!(rt; asked(alloc, b"-", b"-eq", b"0")?, Test::Malformed);
    assert_eq!(rt; asked(alloc, b"a", b"!=", b"b")?, Test::Known(true));
    assert_eq!(rt; asked(alloc, b"!", b"=", b"!")?, Test::Known(true));
    assert_eq!(rt; asked(alloc, b"!", b"-z", b"")?, Test::Known(false));
    assert_eq!(rt;
        asked(alloc, b"!", b"-d", b"/tmp")?,
        Test::Path(Wanted::Directory, true)
    );
    Ok(())
}

#[test]
fn texts(rt: HostRuntime) -> Result<(), Fail> {
    let mut text = MovedBytes::new(rt.alloc())?;
    put_failure(&mut text, b"cat", KCall::Open, 2);
    assert_eq!(rt; text.as_slice(), b"nsh: cat: open failed: 2\n".as_slice());
    put_bad_arguments(&mut text, b"[");
    assert_eq!(rt; text.as_slice(), b"nsh: [: bad arguments\n".as_slice());
    put_not_found(&mut text, b"zz");
    assert_eq!(rt; text.as_slice(), b"nsh: zz: command not found\n".as_slice());
    put_too_long(&mut text);
    assert_eq!(rt; text.as_slice(), b"nsh: line too long\n".as_slice());
    put_announcement(&mut text, b"cons", 2);
    assert_eq!(rt; text.as_slice(), b"cons [2:100]\n".as_slice());
    put_path(&mut text, b"p");
    assert_eq!(rt; text.as_slice(), b"/bin/p".as_slice());
    put_path(&mut text, b"./p");
    assert_eq!(rt; text.as_slice(), b"./p".as_slice());
    Ok(())
}

#[test]
fn commands_by_name(rt: HostRuntime) {
    assert_eq!(rt; Builtin::named(b"["), Some(Builtin::Bracket));
    assert_eq!(rt; Builtin::named(b"rm"), Some(Builtin::Rm));
    assert_eq!(rt; Builtin::named(b"rmdir"), Some(Builtin::Rmdir));
    assert_eq!(rt; Builtin::named(b"export"), Some(Builtin::Export));
    assert_eq!(rt; Builtin::named(b"Echo"), None);
    assert_eq!(rt; Builtin::named(b""), None);
}
