ghost use Rattle.std.specs.Prelude.{◌≡◌};
ghost use Rattle.nx_ctok.specs.Predefined.{all_predefined, name_text, number_text, predefined_of};

/// A name that every C program begins with, as if by `#define` at its head: an error number, or a
/// flag of `open`.
#[derive(Clone, Copy, Debug, PartialEq, Eq)]
pub enum Predefined {
    Enoent,
    Ebadf,
    Echild,
    Eagain,
    Enomem,
    Efault,
    Eexist,
    Enotdir,
    Eisdir,
    Einval,
    Emfile,
    Efbig,
    Enospc,
    Enosys,
    Enotempty,
    Emsgsize,
    Etimedout,
    ReadOnly,
    WriteOnly,
    ReadWrite,
    Create,
    Exclusive,
    Append,
    Truncate,
    Nonblock,
}

static PREDEFINED: [Predefined; 25] = [
    Predefined::Enoent,
    Predefined::Ebadf,
    Predefined::Echild,
    Predefined::Eagain,
    Predefined::Enomem,
    Predefined::Efault,
    Predefined::Eexist,
    Predefined::Enotdir,
    Predefined::Eisdir,
    Predefined::Einval,
    Predefined::Emfile,
    Predefined::Efbig,
    Predefined::Enospc,
    Predefined::Enosys,
    Predefined::Enotempty,
    Predefined::Emsgsize,
    Predefined::Etimedout,
    Predefined::ReadOnly,
    Predefined::WriteOnly,
    Predefined::ReadWrite,
    Predefined::Create,
    Predefined::Exclusive,
    Predefined::Append,
    Predefined::Truncate,
    Predefined::Nonblock,
];

impl Predefined {
    #[tactic(auto, unfolding(crate::specs::Predefined::all_predefined))]
    fn all() -> &'static [Predefined]
        ensures { result.now ≡ all_predefined }
    {
        &PREDEFINED
    }

    /// How it is spelled.
    pub fn name(self) -> &'static [u8]
        ensures { result.now ≡ name_text self }
    {
        match self {
            Predefined::Enoent => b"ENOENT",
            Predefined::Ebadf => b"EBADF",
            Predefined::Echild => b"ECHILD",
            Predefined::Eagain => b"EAGAIN",
            Predefined::Enomem => b"ENOMEM",
            Predefined::Efault => b"EFAULT",
            Predefined::Eexist => b"EEXIST",
            Predefined::Enotdir => b"ENOTDIR",
            Predefined::Eisdir => b"EISDIR",
            Predefined::Einval => b"EINVAL",
            Predefined::Emfile => b"EMFILE",
            Predefined::Efbig => b"EFBIG",
            Predefined::Enospc => b"ENOSPC",
            Predefined::Enosys => b"ENOSYS",
            Predefined::Enotempty => b"ENOTEMPTY",
            Predefined::Emsgsize => b"EMSGSIZE",
            Predefined::Etimedout => b"ETIMEDOUT",
            Predefined::ReadOnly => b"O_RDONLY",
            Predefined::WriteOnly => b"O_WRONLY",
            Predefined::ReadWrite => b"O_RDWR",
            Predefined::Create => b"O_CREAT",
            Predefined::Exclusive => b"O_EXCL",
            Predefined::Append => b"O_APPEND",
            Predefined::Truncate => b"O_TRUNC",
            Predefined::Nonblock => b"O_NONBLOCK",
        }
    }

    /// The number that it stands for, in decimal digits.
    pub fn number(self) -> &'static [u8]
        ensures { result.now ≡ number_text self }
    {
        match self {
            Predefined::Enoent => b"2",
            Predefined::Ebadf => b"9",
            Predefined::Echild => b"10",
            Predefined::Eagain => b"11",
            Predefined::Enomem => b"12",
            Predefined::Efault => b"14",
            Predefined::Eexist => b"17",
            Predefined::Enotdir => b"20",
            Predefined::Eisdir => b"21",
            Predefined::Einval => b"22",
            Predefined::Emfile => b"24",
            Predefined::Efbig => b"27",
            Predefined::Enospc => b"28",
            Predefined::Enosys => b"38",
            Predefined::Enotempty => b"39",
            Predefined::Emsgsize => b"90",
            Predefined::Etimedout => b"110",
            Predefined::ReadOnly => b"1",
            Predefined::WriteOnly => b"2",
            Predefined::ReadWrite => b"3",
            Predefined::Create => b"4",
            Predefined::Exclusive => b"8",
            Predefined::Append => b"16",
            Predefined::Truncate => b"32",
            Predefined::Nonblock => b"64",
        }
    }

    /// The predefined name that these bytes spell, if they spell one.
    pub fn named(bytes: &[u8]) -> Option<Predefined>
        ensures { result ≡ predefined_of bytes.now }
    {
        for predefined in Predefined::all() {
            if bytes == predefined.name() {
                return Some(*predefined);
            }
        }
        None
    }
}
