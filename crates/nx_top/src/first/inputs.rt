// nx_config, nx_calls and nx_shtree will take its place.

ghost use Rattle.std.specs.Prelude.{◌≡◌, ◌∷◌, [], ◌++◌, ◌↔◌, ◌≤◌, length, IsTrue, Some};
ghost use Rattle.std.specs.List.{list_any};
ghost use Rattle.std.specs.Str.{bytes_eq};
ghost use Rattle.nx_top.specs.first.Inputs.{config_text, calls_text, shell_words, IsScript};

// The shell's own commands, and the reserved words of its language, except those that are no
// names.
const SHELL_WORDS: [&[u8]; 28] = [
    b"echo", b"cat", b"ls", b"cd", b"mkdir", b"rmdir", b"rm", b"mv", b"pwd", b"cp", b"set",
    b"export", b"unset", b"env", b"ps", b"test", b"true", b"false", b"sleep", b"exit", b"if",
    b"then", b"else", b"fi", b"while", b"until", b"do", b"done",
];

/// The configuration of the flat build.
#[tactic(auto, unfolding(crate::specs::first::Inputs::config_text))]
pub fn flat_config() -> &'static [u8]
    ensures value { result.now ≡ config_text }
    ensures short { length result.now ≤ 1048576 }
{
    b"CONFIG_BUILD_FLAT=y\n"
}

/// The call table of the one row of `write`.
#[tactic(auto, unfolding(crate::specs::first::Inputs::calls_text))]
pub fn write_table() -> &'static [u8]
    ensures value { result.now ≡ calls_text }
    ensures short { length result.now ≤ 1048576 }
{
    b"\"write\",\"nxsim.h\",\"\",\"int\",\"int\",\"const void *\",\"size_t\"\n"
}

/// Whether a configuration's bytes are those of the flat build.
pub fn is_config(bytes: &[u8]) -> bool
    ensures { IsTrue result ↔ (bytes.now ≡ config_text) }
{
    bytes == flat_config()
}

/// Whether the bytes of a call table are those of the one row of `write`.
pub fn is_calls(bytes: &[u8]) -> bool
    ensures { IsTrue result ↔ (bytes.now ≡ calls_text) }
{
    bytes == write_table()
}

fn is_one_of(name: &[u8], words: &[&[u8]]) -> bool
    ensures { result ≡ list_any (λ w. bytes_eq name.now w.now) words.now }
{
    words.iter().any(|word| name == *word)
}

#[tactic(auto, unfolding(crate::specs::first::Inputs::shell_words))]
fn is_shell_word(name: &[u8]) -> bool
    ensures { result ≡ list_any (bytes_eq name.now) shell_words }
{
    is_one_of(name, &SHELL_WORDS)
}

// Whether a line is these bytes and a newline.
fn is_line(bytes: &[u8], text: &[u8]) -> bool
    ensures { IsTrue result ↔ (bytes.now ≡ text.now ++ 10 ∷ []) }
{
    match bytes.strip_suffix(b"\n") {
        Some(front) => front == text,
        None => false,
    }
}

/// Whether a script is a program's name and a newline, where the name is no word of the shell.
pub fn is_script(name: &[u8], script: &[u8]) -> bool
    ensures { IsTrue result ↔ IsScript name.now (Some script.now) }
{
    is_line(script, name) && !is_shell_word(name)
}

#[cfg(test)]
mod tests;
