ghost use Rattle.std.specs.Prelude.{◌≡◌, Some};
ghost use Rattle.nx_base.specs.KernelCalls.{all_calls, name_of, kinds_of, gives_value, call_named};
ghost use Rattle.nx_base.specs.declared.calls.KCall.{KCall};

/// The number of the first row of a call table. The next rows have the next numbers.
pub const FIRST_CALL: u16 = 16;

/// The most parameters that a call may have.
pub const MOST_PARAMETERS: usize = 6;

/// What a parameter of a call is.
#[derive(Clone, Copy, Debug, Default, PartialEq, Eq)]
pub enum Kind {
    /// A number.
    #[default]
    Word,
    /// The address of bytes that the call reads. The next parameter is their number.
    In,
    /// The address of a text that the call reads, up to its zero byte.
    Text,
    /// The address of bytes that the call writes. The next parameter is their number.
    Out,
    /// The number of bytes at the address before.
    Len,
    /// The address of four bytes that the call writes.
    Out4,
    /// The address of eight bytes that the call writes.
    Out8,
}

/// A call that the kernel implements, named by the words of its name.
#[derive(Clone, Copy, Debug, PartialEq, Eq)]
pub enum KCall {
    /// Puts bytes into what a descriptor names.
    Write,
    /// Takes bytes from what a descriptor names.
    Read,
    /// Opens a file or a device.
    Open,
    /// Closes a descriptor.
    Close,
    /// Moves the offset in a file.
    Lseek,
    /// Makes a second descriptor of one description.
    Dup,
    /// The same, with a number of the caller's choice.
    Dup2,
    /// Removes a file.
    Unlink,
    /// Makes a directory.
    Mkdir,
    /// Removes an empty directory.
    Rmdir,
    /// Moves a file, or a directory with all in it.
    Rename,
    /// Sets the directory of the task group.
    Chdir,
    /// The directory of the task group.
    NxGetcwd,
    /// A name in a directory, by its index.
    NxReaddir,
    /// What a path names.
    NxKind,
    /// Starts a program in a new task group.
    NxSpawn,
    /// Ends the task group.
    Exit,
    /// The number of the task group.
    Getpid,
    /// Waits for a child to end, and gives its status.
    Waitpid,
    /// How many arguments the program has.
    NxArgc,
    /// An argument, by its index.
    NxArg,
    /// Sets the priority of a thread.
    NxSetpriority,
    /// Lets threads of the same priority go first.
    SchedYield,
    /// A line on a live task group, by its index.
    NxPs,
    /// Starts a thread in the task group.
    NxThread,
    /// Ends the calling thread.
    NxThreadExit,
    /// Waits for a thread to end, and gives its value.
    NxJoin,
    /// Opens a message queue.
    NxMqOpen,
    /// Closes the descriptor of a message queue.
    MqClose,
    /// Removes the name of a message queue.
    MqUnlink,
    /// Sends a message.
    MqSend,
    /// Receives the oldest message of the highest priority.
    MqReceive,
    /// The same, with a limit in ticks.
    NxMqTimedreceive,
    /// Opens a semaphore.
    NxSemOpen,
    /// Takes one from a semaphore, or waits.
    NxSemWait,
    /// Takes one from a semaphore, or fails.
    NxSemTrywait,
    /// Gives one to a semaphore.
    NxSemPost,
    /// Closes the descriptor of a semaphore.
    NxSemClose,
    /// Waits for some ticks.
    NxSleep,
    /// The time in ticks.
    NxTicks,
    /// The value of a variable of the environment.
    NxGetenv,
    /// Sets a variable of the environment.
    Setenv,
    /// Removes a variable of the environment.
    Unsetenv,
    /// A variable with its value, by its index.
    NxEnv,
    /// The error number of the thread's last failed call.
    GetErrno,
}

// In the order of their table.
static CALLS: [KCall; 45] = [
    KCall::Write,
    KCall::Read,
    KCall::Open,
    KCall::Close,
    KCall::Lseek,
    KCall::Dup,
    KCall::Dup2,
    KCall::Unlink,
    KCall::Mkdir,
    KCall::Rmdir,
    KCall::Rename,
    KCall::Chdir,
    KCall::NxGetcwd,
    KCall::NxReaddir,
    KCall::NxKind,
    KCall::NxSpawn,
    KCall::Exit,
    KCall::Getpid,
    KCall::Waitpid,
    KCall::NxArgc,
    KCall::NxArg,
    KCall::NxSetpriority,
    KCall::SchedYield,
    KCall::NxPs,
    KCall::NxThread,
    KCall::NxThreadExit,
    KCall::NxJoin,
    KCall::NxMqOpen,
    KCall::MqClose,
    KCall::MqUnlink,
    KCall::MqSend,
    KCall::MqReceive,
    KCall::NxMqTimedreceive,
    KCall::NxSemOpen,
    KCall::NxSemWait,
    KCall::NxSemTrywait,
    KCall::NxSemPost,
    KCall::NxSemClose,
    KCall::NxSleep,
    KCall::NxTicks,
    KCall::NxGetenv,
    KCall::Setenv,
    KCall::Unsetenv,
    KCall::NxEnv,
    KCall::GetErrno,
];

impl KCall {
    /// The calls, in the order of their table.
    #[tactic(auto, unfolding(crate::specs::KernelCalls::all_calls))]
    pub fn all() -> &'static [KCall]
        ensures { result.now ≡ all_calls }
    {
        &CALLS
    }

    /// The name by which a table and a program call it.
    pub fn name(self) -> &'static [u8]
        ensures { result.now ≡ name_of self }
    {
        match self {
            KCall::Write => b"write",
            KCall::Read => b"read",
            KCall::Open => b"open",
            KCall::Close => b"close",
            KCall::Lseek => b"lseek",
            KCall::Dup => b"dup",
            KCall::Dup2 => b"dup2",
            KCall::Unlink => b"unlink",
            KCall::Mkdir => b"mkdir",
            KCall::Rmdir => b"rmdir",
            KCall::Rename => b"rename",
            KCall::Chdir => b"chdir",
            KCall::NxGetcwd => b"nx_getcwd",
            KCall::NxReaddir => b"nx_readdir",
            KCall::NxKind => b"nx_kind",
            KCall::NxSpawn => b"nx_spawn",
            KCall::Exit => b"_exit",
            KCall::Getpid => b"getpid",
            KCall::Waitpid => b"waitpid",
            KCall::NxArgc => b"nx_argc",
            KCall::NxArg => b"nx_arg",
            KCall::NxSetpriority => b"nx_setpriority",
            KCall::SchedYield => b"sched_yield",
            KCall::NxPs => b"nx_ps",
            KCall::NxThread => b"nx_thread",
            KCall::NxThreadExit => b"nx_thread_exit",
            KCall::NxJoin => b"nx_join",
            KCall::NxMqOpen => b"nx_mq_open",
            KCall::MqClose => b"mq_close",
            KCall::MqUnlink => b"mq_unlink",
            KCall::MqSend => b"mq_send",
            KCall::MqReceive => b"mq_receive",
            KCall::NxMqTimedreceive => b"nx_mq_timedreceive",
            KCall::NxSemOpen => b"nx_sem_open",
            KCall::NxSemWait => b"nx_sem_wait",
            KCall::NxSemTrywait => b"nx_sem_trywait",
            KCall::NxSemPost => b"nx_sem_post",
            KCall::NxSemClose => b"nx_sem_close",
            KCall::NxSleep => b"nx_sleep",
            KCall::NxTicks => b"nx_ticks",
            KCall::NxGetenv => b"nx_getenv",
            KCall::Setenv => b"setenv",
            KCall::Unsetenv => b"unsetenv",
            KCall::NxEnv => b"nx_env",
            KCall::GetErrno => b"get_errno",
        }
    }

    /// The kinds of its parameters.
    pub fn kinds(self) -> &'static [Kind]
        ensures { result.now ≡ kinds_of self }
    {
        match self {
            KCall::Write => &[Kind::Word, Kind::In, Kind::Len],
            KCall::Read => &[Kind::Word, Kind::Out, Kind::Len],
            KCall::Open => &[Kind::Text, Kind::Word, Kind::Word],
            KCall::Close => &[Kind::Word],
            KCall::Lseek => &[Kind::Word, Kind::Word, Kind::Word],
            KCall::Dup => &[Kind::Word],
            KCall::Dup2 => &[Kind::Word, Kind::Word],
            KCall::Unlink => &[Kind::Text],
            KCall::Mkdir => &[Kind::Text, Kind::Word],
            KCall::Rmdir => &[Kind::Text],
            KCall::Rename => &[Kind::Text, Kind::Text],
            KCall::Chdir => &[Kind::Text],
            KCall::NxGetcwd => &[Kind::Out, Kind::Len],
            KCall::NxReaddir => &[Kind::Text, Kind::Word, Kind::Out, Kind::Len],
            KCall::NxKind => &[Kind::Text],
            KCall::NxSpawn => &[Kind::Text, Kind::Text, Kind::Word],
            KCall::Exit => &[Kind::Word],
            KCall::Getpid => &[],
            KCall::Waitpid => &[Kind::Word, Kind::Out4, Kind::Word],
            KCall::NxArgc => &[],
            KCall::NxArg => &[Kind::Word, Kind::Out, Kind::Len],
            KCall::NxSetpriority => &[Kind::Word, Kind::Word],
            KCall::SchedYield => &[],
            KCall::NxPs => &[Kind::Word, Kind::Out, Kind::Len],
            KCall::NxThread => &[Kind::Word, Kind::Word],
            KCall::NxThreadExit => &[Kind::Word],
            KCall::NxJoin => &[Kind::Word, Kind::Out4],
            KCall::NxMqOpen => &[Kind::Text, Kind::Word, Kind::Word, Kind::Word],
            KCall::MqClose => &[Kind::Word],
            KCall::MqUnlink => &[Kind::Text],
            KCall::MqSend => &[Kind::Word, Kind::In, Kind::Len, Kind::Word],
            KCall::MqReceive => &[Kind::Word, Kind::Out, Kind::Len, Kind::Out4],
            KCall::NxMqTimedreceive => &[Kind::Word, Kind::Out, Kind::Len, Kind::Out4, Kind::Word],
            KCall::NxSemOpen => &[Kind::Text, Kind::Word, Kind::Word],
            KCall::NxSemWait => &[Kind::Word],
            KCall::NxSemTrywait => &[Kind::Word],
            KCall::NxSemPost => &[Kind::Word],
            KCall::NxSemClose => &[Kind::Word],
            KCall::NxSleep => &[Kind::Word],
            KCall::NxTicks => &[],
            KCall::NxGetenv => &[Kind::Text, Kind::Out, Kind::Len],
            KCall::Setenv => &[Kind::Text, Kind::Text, Kind::Word],
            KCall::Unsetenv => &[Kind::Text],
            KCall::NxEnv => &[Kind::Word, Kind::Out, Kind::Len],
            KCall::GetErrno => &[],
        }
    }

    /// Whether it gives a value, so that its return type is `int` and not `void`.
    pub fn gives_value(self) -> bool
        ensures { result ≡ gives_value self }
    {
        !matches!(self, KCall::Exit | KCall::NxThreadExit)
    }

    /// The call of a name, if the kernel has one.
    pub fn named(name: &[u8]) -> Option<KCall>
        ensures { result ≡ call_named name.now }
    {
        for call in KCall::all() {
            if name == call.name() {
                return Some(*call);
            }
        }
        None
    }
}

/// No two calls have one name.
pub fn each_call_has_its_name()
    ensures { (c : KCall) → call_named (name_of c) ≡ Some c }
{}
