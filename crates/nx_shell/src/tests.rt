ghost use Rattle.std.specs.Prelude.{◌≤◌, length, IfOk};
ghost use Rattle.nx_shell.specs.Shells.{IsReady};

use crate::*;
use nx_base::{KCall, OutOfMemory};
use nx_ksys::{MovedBytes, Reply};
use nx_shtree::parse_script;
use std::alloc::Global;
use std::test::Fail;

/// Answers the shell's call with success, or with error 2, and no bytes.
#[tactic(auto, using(crate::proofs::Empty::empty_fits))]
fn answer(alloc: Global, shell: &mut Shell, well: bool) -> Result<(), OutOfMemory>
    requires { IsReady shell.old }
    ensures { IsReady shell.new }
{
    let first = MovedBytes::new(alloc)?;
    let second = MovedBytes::new(alloc)?;
    if well {
        let reply = Reply {
            tid: 1,
            value: 0,
            errno: 0,
            first,
            second,
        };
        shell.answer(&reply);
    } else {
        let reply = Reply {
            tid: 1,
            value: -1,
            errno: 2,
            first,
            second,
        };
        shell.answer(&reply);
    }
    Ok(())
}

/// The shell of a script of so few bytes.
fn shell_of(alloc: Global, text: &[u8]) -> Result<Shell, OutOfMemory>
    requires { length text.now ≤ 1048576 }
    ensures { IfOk result IsReady }
{
    let Ok(script) = parse_script(alloc, text) else {
        return Err(OutOfMemory);
    };
    Shell::new(alloc, &script)
}

/// Whether this is the shell's call, with this first word and this first input.
fn makes(shell: &Shell, call: KCall, word: u32, first: &[u8]) -> bool {
    let told = shell.call();
    if told.words[0] != word || told.first.as_slice() != first {
        return false;
    }
    match told.call {
        Some(which) => which == call,
        None => false,
    }
}

/// Whether a script has come to this call after these replies.
fn comes(
    alloc: Global,
    text: &[u8],
    replies: &[bool],
    call: KCall,
    word: u32,
    first: &[u8],
) -> Result<bool, OutOfMemory>
    requires { length text.now ≤ 1048576 }
{
    let mut shell = shell_of(alloc, text)?;
    for well in replies {
        answer(alloc, &mut shell, *well)?;
    }
    Ok(makes(&shell, call, word, first))
}

#[test]
fn conditions_choose(rt: HostRuntime) -> Result<(), Fail> {
    let alloc = rt.alloc();
    let text = b"if cd x; then exit 3; else exit 4; fi\n";
    assert_eq!(rt; comes(alloc, text, &[], KCall::Getpid, 0, b"")?, true);
    assert_eq!(rt; comes(alloc, text, &[true], KCall::Chdir, 0, b"x")?, true);
    assert_eq!(rt;
        comes(alloc, text, &[true, true, true], KCall::Exit, 3, b"")?,
        true
    );
    assert_eq!(rt;
        comes(alloc, text, &[true, false, true, true], KCall::Exit, 4, b"")?,
        true
    );
    Ok(())
}

#[test]
fn names_become_their_values(rt: HostRuntime) -> Result<(), Fail> {
    let alloc = rt.alloc();
    let text = b"echo a$B\n";
    assert_eq!(rt;
        comes(alloc, text, &[true], KCall::NxGetenv, 0, b"B")?,
        true
    );
    assert_eq!(rt;
        comes(alloc, text, &[true, false], KCall::Write, 1, b"a\n")?,
        true
    );
    Ok(())
}
