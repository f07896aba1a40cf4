ghost use Rattle.std.specs.Prelude.{◌≤◌, length};

use crate::*;
use nx_base::{KCall, OutOfMemory};
use nx_ksys::{MovedBytes, Reply};
use nx_shrun::{Ending, Listing};
use std::alloc::Global;
use std::test::Fail;

/// A reply with a value and the bytes of its first output.
fn reply(alloc: Global, value: i32, bytes: &[u8]) -> Result<Reply, OutOfMemory>
    requires { length bytes.now ≤ 4096 }
{
    let mut first = MovedBytes::new(alloc)?;
    first.set(bytes);
    Ok(Reply {
        tid: 1,
        value,
        errno: 2,
        first,
        second: MovedBytes::new(alloc)?,
    })
}

#[test]
fn calls_as_the_kernel_is_told_of_them(rt: HostRuntime) -> Result<(), Fail> {
    let mut call = MadeCall::new(rt.alloc())?;
    assert_eq!(rt; call.cooked().call, Some(KCall::Getpid));
    call.set_write(1, b"a\n");
    assert_eq!(rt; call.cooked().call, Some(KCall::Write));
    assert_eq!(rt; call.cooked().words, [1, 0, 2, 0, 0, 0]);
    assert_eq!(rt; call.cooked().first.as_slice(), b"a\n".as_slice());
    call.set_listing(Listing::Groups, &[], 3);
    assert_eq!(rt; call.cooked().words, [3, 0, 512, 0, 0, 0]);
    assert_eq!(rt; call.cooked().first.as_slice(), b"".as_slice());
    Ok(())
}

#[test]
fn what_replies_hand_out(rt: HostRuntime) -> Result<(), Fail> {
    let short = reply(rt.alloc(), 2, b"abc")?;
    assert_eq!(rt; has_failed(&short), false);
    assert_eq!(rt; handed(&short), b"ab".as_slice());
    let failed = reply(rt.alloc(), -1, b"")?;
    assert_eq!(rt; has_failed(&failed), true);
    assert_eq!(rt; errno(&failed), 2);
    Ok(())
}

#[test]
fn commands_begin_with_their_calls(rt: HostRuntime) -> Result<(), Fail> {
    let mut command = Command::new(rt.alloc(), 4)?;
    command.push_word(b"echo");
    command.push_word(b"a");
    assert_eq!(rt; command.begin(None, false, 0), None);
    assert_eq!(rt; command.call().cooked().words, [1, 0, 2, 0, 0, 0]);
    assert_eq!(rt; command.call().cooked().first.as_slice(), b"a\n".as_slice());
    command.clear_words();
    command.push_word(b"cat");
    assert_eq!(rt; command.begin(None, false, 0), None);
    assert_eq!(rt; command.call().cooked().words[0], 2);
    assert_eq!(rt;
        command.call().cooked().first.as_slice(),
        b"nsh: cat: bad arguments\n".as_slice()
    );
    command.clear_words();
    command.push_word(b"false");
    assert_eq!(rt; command.begin(None, false, 0), Some(Ending::Status(1)));
    Ok(())
}
