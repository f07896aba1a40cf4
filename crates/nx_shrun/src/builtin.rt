ghost use Rattle.std.specs.Prelude.{◌≡◌};
ghost use Rattle.nx_shrun.specs.Builtins.{all_builtins, name_of, builtin_named};

/// A command of the shell itself.
#[derive(Clone, Copy, Debug, PartialEq, Eq)]
pub enum Builtin {
    /// Writes its words.
    Echo,
    /// Writes files.
    Cat,
    /// Writes what a path names, with the names in a directory.
    Ls,
    /// Sets the directory.
    Cd,
    /// Makes a directory.
    Mkdir,
    /// Removes an empty directory.
    Rmdir,
    /// Removes a file.
    Rm,
    /// Moves a file or a directory.
    Mv,
    /// Writes the directory.
    Pwd,
    /// Copies a file.
    Cp,
    /// Sets a variable of the environment.
    Set,
    /// The same.
    Export,
    /// Removes a variable of the environment.
    Unset,
    /// Writes the environment.
    Env,
    /// Writes the live task groups.
    Ps,
    /// Whether an expression holds.
    Test,
    /// The same, with a `]` as its last word.
    Bracket,
    /// Status 0.
    True,
    /// Status 1.
    False,
    /// Waits for some ticks.
    Sleep,
    /// Ends the shell.
    Exit,
}

// In the order of their table.
static BUILTINS: [Builtin; 21] = [
    Builtin::Echo,
    Builtin::Cat,
    Builtin::Ls,
    Builtin::Cd,
    Builtin::Mkdir,
    Builtin::Rmdir,
    Builtin::Rm,
    Builtin::Mv,
    Builtin::Pwd,
    Builtin::Cp,
    Builtin::Set,
    Builtin::Export,
    Builtin::Unset,
    Builtin::Env,
    Builtin::Ps,
    Builtin::Test,
    Builtin::Bracket,
    Builtin::True,
    Builtin::False,
    Builtin::Sleep,
    Builtin::Exit,
];

impl Builtin {
    /// The commands, in the order of their table.
    #[tactic(auto, unfolding(crate::specs::Builtins::all_builtins))]
    pub fn all() -> &'static [Builtin]
        ensures { result.now ≡ all_builtins }
    {
        &BUILTINS
    }

    /// The name by which a script calls it.
    pub fn name(self) -> &'static [u8]
        ensures { result.now ≡ name_of self }
    {
        match self {
            Builtin::Echo => b"echo",
            Builtin::Cat => b"cat",
            Builtin::Ls => b"ls",
            Builtin::Cd => b"cd",
            Builtin::Mkdir => b"mkdir",
            Builtin::Rmdir => b"rmdir",
            Builtin::Rm => b"rm",
            Builtin::Mv => b"mv",
            Builtin::Pwd => b"pwd",
            Builtin::Cp => b"cp",
            Builtin::Set => b"set",
            Builtin::Export => b"export",
            Builtin::Unset => b"unset",
            Builtin::Env => b"env",
            Builtin::Ps => b"ps",
            Builtin::Test => b"test",
            Builtin::Bracket => b"[",
            Builtin::True => b"true",
            Builtin::False => b"false",
            Builtin::Sleep => b"sleep",
            Builtin::Exit => b"exit",
        }
    }

    /// The command of a name, if it is the shell's own.
    pub fn named(name: &[u8]) -> Option<Builtin>
        ensures { result ≡ builtin_named name.now }
    {
        for builtin in Builtin::all() {
            if name == builtin.name() {
                return Some(*builtin);
            }
        }
        None
    }
}
