ghost use Rattle.std.specs.Prelude.{◌≡◌};
ghost use Rattle.nx_base.specs.ErrorNumbers.{number_of};

/// Why a call of the kernel failed, by the names of POSIX.
#[derive(Clone, Copy, Debug, PartialEq, Eq)]
pub enum Errno {
    /// No such file or directory.
    Enoent,
    /// Bad file descriptor.
    Ebadf,
    /// No child processes.
    Echild,
    /// Resource unavailable, try again.
    Eagain,
    /// Not enough space.
    Enomem,
    /// Bad address.
    Efault,
    /// File exists.
    Eexist,
    /// Not a directory.
    Enotdir,
    /// Is a directory.
    Eisdir,
    /// Invalid argument.
    Einval,
    /// Too many open descriptors.
    Emfile,
    /// File too large.
    Efbig,
    /// No space left on the device.
    Enospc,
    /// Function not supported.
    Enosys,
    /// Directory not empty.
    Enotempty,
    /// Message too large.
    Emsgsize,
    /// The deadline passed.
    Etimedout,
}

impl Errno {
    /// The number that a program sees.
    pub fn number(self) -> i32
        ensures { result ≡ number_of self }
    {
        match self {
            Errno::Enoent => 2,
            Errno::Ebadf => 9,
            Errno::Echild => 10,
            Errno::Eagain => 11,
            Errno::Enomem => 12,
            Errno::Efault => 14,
            Errno::Eexist => 17,
            Errno::Enotdir => 20,
            Errno::Eisdir => 21,
            Errno::Einval => 22,
            Errno::Emfile => 24,
            Errno::Efbig => 27,
            Errno::Enospc => 28,
            Errno::Enosys => 38,
            Errno::Enotempty => 39,
            Errno::Emsgsize => 90,
            Errno::Etimedout => 110,
        }
    }
}
