ghost use Rattle.std.specs.Prelude.{◌≡◌, map, IfOk};
ghost use Rattle.std.specs.Option.{option_map};
ghost use Rattle.nx_top.specs.CommandLine.{form_of, run_form, gates_form, form_with as form_with_text, is_name as is_name_text, is_option as is_option_text, is_source as is_source_text, files_of as files_of_command, stops_at_long, run_form_of, gates_form_of, command_of};

use nx_base::{OutOfMemory, are_word_bytes};
use std::alloc::Global;

/// The words of a run: the names of its four files, and the name of its program.
#[derive(Clone, Copy, Debug)]
pub struct RunWords<'a> {
    /// The file of the configuration.
    pub config: &'a str,
    /// The file of the call table.
    pub calls: &'a str,
    /// The file of the script.
    pub script: &'a str,
    /// The name of the program, of 1 to 32 bytes.
    pub name: &'a str,
    /// The file of the program.
    pub file: &'a str,
}

/// The words of a listing of gates: the names of its two files.
#[derive(Clone, Copy, Debug)]
pub struct GatesWords<'a> {
    /// The file of the configuration.
    pub config: &'a str,
    /// The file of the call table.
    pub calls: &'a str,
}

/// A command with its words.
#[derive(Clone, Copy, Debug)]
pub enum CommandWords<'a> {
    Run(RunWords<'a>),
    Gates(GatesWords<'a>),
}

impl<'a> CommandWords<'a> {
    /// The names of its files, in the order in which they are read.
    pub fn files(&self, alloc: Global) -> Result<Vec<&'a str>, OutOfMemory>
        ensures { IfOk result (λ v. map (λ n. n.now) v.items ≡ files_of_command (command_of self.now)) }
    {
        let mut files = Vec::new(alloc);
        match self {
            CommandWords::Run(form) => {
                files.push(form.config)?;
                files.push(form.calls)?;
                files.push(form.script)?;
                files.push(form.file)?;
            }
            CommandWords::Gates(form) => {
                files.push(form.config)?;
                files.push(form.calls)?;
            }
        }
        Ok(files)
    }

    /// Whether a file that is too long ends the reading of its files.
    pub fn stops_at_long(&self) -> bool
        ensures { result ≡ stops_at_long (command_of self.now) }
    {
        match self {
            CommandWords::Run(_) => false,
            CommandWords::Gates(_) => true,
        }
    }
}

fn is_name(text: &[u8]) -> bool
    ensures { result ≡ is_name_text text.now }
{
    if text.is_empty() || text.len() > 32 {
        return false;
    }
    are_word_bytes(text)
}

fn is_option(word: &str) -> bool
    ensures { result ≡ is_option_text word.now }
{
    word.as_bytes().starts_with(b"--")
}

fn is_source(file: &str) -> bool
    ensures { result ≡ is_source_text file.now }
{
    !file.is_empty() && !file.as_bytes().ends_with(b".hex")
}

fn form_with<'a>(
    config: &'a str,
    calls: &'a str,
    script: &'a str,
    word: &'a str,
) -> Option<RunWords<'a>>
    ensures { option_map run_form_of result ≡ form_with_text config.now calls.now script.now word.now }
{
    let (name, file) = word.split_once('=')?;
    if !is_name(name.as_bytes()) || !is_source(file) {
        return None;
    }
    Some(RunWords {
        config,
        calls,
        script,
        name,
        file,
    })
}

// The words after `run`.
fn run_words<'a>(words: &[&'a str]) -> Option<RunWords<'a>>
    ensures { option_map run_form_of result ≡ run_form (map (λ w. w.now) words.now) }
{
    let [config, calls, script, word] = words else {
        return None;
    };
    if is_option(config) || is_option(calls) || is_option(script) {
        return None;
    }
    form_with(config, calls, script, word)
}

// The words after `gates`.
fn gates_words<'a>(words: &[&'a str]) -> Option<GatesWords<'a>>
    ensures { option_map gates_form_of result ≡ gates_form (map (λ w. w.now) words.now) }
{
    let [config, calls] = words else {
        return None;
    };
    if is_option(config) || is_option(calls) {
        return None;
    }
    Some(GatesWords { config, calls })
}

/// The form of the words of a command line, without the program's own word:
/// `run CONFIG CALLS SCRIPT NAME=FILE` or `gates CONFIG CALLS`. Any other words have none.
pub fn form<'a>(words: &[&'a str]) -> Option<CommandWords<'a>>
    ensures { option_map command_of result ≡ form_of (map (λ w. w.now) words.now) }
{
    let [command, words @ ..] = words else {
        return None;
    };
    match *command {
        "run" => run_words(words).map(CommandWords::Run),
        "gates" => gates_words(words).map(CommandWords::Gates),
        _ => None,
    }
}

#[cfg(test)]
mod tests;
