use nx_shtree::Mode;

/// How a command ends.
#[derive(Clone, Copy, Debug, PartialEq, Eq)]
pub enum Ending {
    /// With this status.
    Status(u32),
    /// With the end of the shell, which passes this value.
    Exit(u32),
}

/// A change that is one call.
#[derive(Clone, Copy, Debug, PartialEq, Eq)]
pub enum Change {
    /// `cd`
    Chdir,
    /// `mkdir`
    Mkdir,
    /// `rmdir`
    Rmdir,
    /// `rm`
    Unlink,
    /// `mv`
    Rename,
    /// `set` and `export`
    Setenv,
    /// `unset`
    Unsetenv,
}

/// What is listed one by one, until there is no more.
#[derive(Clone, Copy, Debug, PartialEq, Eq)]
pub enum Listing {
    /// The names in a directory: `ls`.
    Names,
    /// The variables of the environment: `env`.
    Variables,
    /// The live task groups: `ps`.
    Groups,
}

/// What a path is to name.
#[derive(Clone, Copy, Debug, PartialEq, Eq)]
pub enum Wanted {
    /// Anything: `-e`.
    Anything,
    /// A file: `-f`.
    File,
    /// A directory: `-d`.
    Directory,
}

/// What an expression of `test` asks.
#[derive(Clone, Copy, Debug, PartialEq, Eq)]
pub enum Test {
    /// It has none of the forms.
    Malformed,
    /// Its words say whether it holds.
    Known(bool),
    /// It holds where a path names what is wanted, or, with a `!`, where it doesn't.
    Path(Wanted, bool),
}

/// A step of a command. Each is one call; words count from 0, which is the command's name.
#[derive(Clone, Copy, Debug, PartialEq, Eq)]
pub enum Step {
    /// Opens the file of the redirection, to which output goes then.
    Redirect(Mode),
    /// Opens the file that a word names, to read it.
    Open(usize),
    /// Opens the file that word 2 names, emptied, to which output goes then.
    Create,
    /// Reads, and once more after what was read is written, until nothing is left.
    Read,
    /// Closes the descriptor that was opened last.
    Close,
    /// Writes the words of `echo`.
    Echo,
    /// Asks what the path of `ls` names.
    Look,
    /// Writes the path of `ls` as a name.
    Entry,
    /// Writes the path of `ls` as that of a directory.
    Heading,
    /// Asks for one from an index on, and for the next after it is written, until there is none.
    Each(Listing, u32),
    /// Asks for the directory, which is written then.
    Directory,
    /// Changes something.
    Change(Change),
    /// Asks what the path of an expression names.
    Probe(Wanted, bool),
    /// Waits for so many ticks.
    Sleep(u32),
    /// Makes a second descriptor of the output.
    Keep,
    /// Makes the redirection's file the output.
    Direct,
    /// Closes the redirection's file.
    Let,
    /// Starts a program, with its output redirected or not.
    Spawn(bool),
    /// Makes the output what it was.
    Restore,
    /// Waits for the program's end.
    Wait,
    /// Writes the program's name and number.
    Announce,
    /// Closes the descriptor that was opened last, whatever comes of it.
    Abandon,
}

/// What the reply to a call is to.
#[derive(Clone, Copy, Debug, PartialEq, Eq)]
pub enum Awaits {
    /// A step.
    Step(Step),
    /// The writing of what a step was handed.
    Output,
    /// A message of the shell, whose reply means nothing.
    Message,
}
