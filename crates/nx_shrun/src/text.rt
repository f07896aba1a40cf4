ghost use Rattle.std.specs.Prelude.{◌≡◌, ◌≤◌, ◌<◌, ◌^◌, ◌+◌, ◌++◌, ◌∷◌, ◌==◌, [], length, decimal};
ghost use Rattle.std.specs.List.{list_any};
ghost use Rattle.nx_shrun.specs.Texts.{arguments as arguments_of, line, spaced, lines, echo_text, program_path, announcement, failure_message, bad_arguments, command_not_found, line_too_long};

use itoa::Buffer;
use nx_base::KCall;
use nx_ksys::MovedBytes;

/// Adds bytes.
pub fn append(text: &mut MovedBytes, bytes: &[u8])
    requires room { length text.old + length bytes.now ≤ 4096 }
    ensures { text.new ≡ text.old ++ bytes.now }
{
    for byte in bytes {
        text.push(*byte);
    }
}

/// Adds a number in decimal digits.
#[tactic(auto, using(crate::proofs::Bounded::decimal_le))]
pub fn append_decimal(text: &mut MovedBytes, number: u32)
    requires room { length text.old + 10 ≤ 4096 }
    ensures { text.new ≡ text.old ++ decimal number }
{
    let mut buffer = Buffer::new();
    append(text, buffer.format(number).as_bytes());
}

/// `nsh: NAME: CALL failed: E`
#[tactic(auto, unfolding(crate::specs::Texts::failure_message), using(crate::proofs::Bounded::name_le, crate::proofs::Bounded::failed_le))]
pub fn put_failure(text: &mut MovedBytes, name: &[u8], call: KCall, errno: u32)
    requires name { length name.now ≤ 255 }
    ensures { text.new ≡ failure_message name.now call errno }
{
    text.set(b"nsh: ");
    append(text, name);
    append(text, b": ");
    append(text, call.name());
    append(text, b" failed: ");
    append_decimal(text, errno);
    text.push(b'\n');
}

/// `nsh: NAME: bad arguments`
#[tactic(auto, unfolding(crate::specs::Texts::bad_arguments))]
pub fn put_bad_arguments(text: &mut MovedBytes, name: &[u8])
    requires name { length name.now ≤ 255 }
    ensures { text.new ≡ bad_arguments name.now }
{
    text.set(b"nsh: ");
    append(text, name);
    append(text, b": bad arguments");
    text.push(b'\n');
}

/// `nsh: NAME: command not found`
#[tactic(auto, unfolding(crate::specs::Texts::command_not_found))]
pub fn put_not_found(text: &mut MovedBytes, name: &[u8])
    requires name { length name.now ≤ 255 }
    ensures { text.new ≡ command_not_found name.now }
{
    text.set(b"nsh: ");
    append(text, name);
    append(text, b": command not found");
    text.push(b'\n');
}

/// `nsh: line too long`
#[tactic(auto, unfolding(crate::specs::Texts::line_too_long))]
pub fn put_too_long(text: &mut MovedBytes)
    ensures { text.new ≡ line_too_long }
{
    text.set(b"nsh: line too long\n");
}

/// `NAME [PID:100]`
#[tactic(auto, unfolding(crate::specs::Texts::announcement), using(crate::proofs::Bounded::numbered_le, crate::proofs::Bounded::announced_le))]
pub fn put_announcement(text: &mut MovedBytes, name: &[u8], pid: u32)
    requires name { length name.now ≤ 255 }
    ensures { text.new ≡ announcement name.now pid }
{
    text.set(name);
    append(text, b" [");
    append_decimal(text, pid);
    append(text, b":100]");
    text.push(b'\n');
}

fn has_slash(name: &[u8]) -> bool
    ensures { result ≡ list_any (λ b. b == 47) name.now }
{
    name.contains(&b'/')
}

/// Where a program lies.
#[tactic(auto, unfolding(crate::specs::Texts::program_path))]
pub fn put_path(text: &mut MovedBytes, name: &[u8])
    requires name { length name.now ≤ 255 }
    ensures { text.new ≡ program_path name.now }
{
    if has_slash(name) {
        text.set(name);
    } else {
        text.set(b"/bin/");
        append(text, name);
    }
}
