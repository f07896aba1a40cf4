ghost use Rattle.nx_ksys.specs.Laws.{CallsCountOne, ConsolesGrow, PointersMeanNothing, PickingIsStill, ChosenAgain, EndedWithoutGroups};
ghost use Rattle.nx_ksys.specs.Bounds.{BootIsBounded, CallsStayBounded, ChoicesStayBounded, PathsAreFew};
ghost use Rattle.nx_ksys.specs.ByteLaws.{BootIsOfBytes, CallsTellBytes, ChoicesTellBytes, WellFormedInputs};
ghost use Rattle.nx_ksys.specs.TableLaws.{BootIsSound, CallsStaySound, ChoicesStaySound, NumbersWereGiven, SlotsDiffer, CallsChangeThreads, ChoicesChangeThreads, SameMeaningSameStep, NobodysCallIsSilent};
ghost use Rattle.nx_ksys.specs.TimeLaws.{IdleWithoutDeadlines, DueThreadsWake};

/// A law: each call counts one, whatever it answers.
pub fn a_call_counts_one()
    ensures { CallsCountOne }
{}

/// A law: what the console showed stays, and a call only adds to it.
pub fn a_console_only_grows()
    ensures { ConsolesGrow }
{}

/// A law: a call does and answers the same whatever its pointers are, and a new thread's entry:
/// what matters of them are the bytes that were taken from them.
pub fn pointers_mean_nothing_to_the_kernel()
    ensures { PointersMeanNothing }
{}

/// A law: choosing the thread to run makes no call, writes nothing and ends no group, also where
/// time passes for it. Choosing again chooses the same. A run is ended exactly where no group is
/// left.
pub fn choosing_changes_nothing_that_is_reported()
    ensures still { PickingIsStill }
    ensures again { ChosenAgain }
    ensures ended { EndedWithoutGroups }
{}

/// A law: a run idles only where no thread is ready and none has a deadline. Where no thread is
/// ready, time passes until one is, and each thread whose deadline has come by then wakes: the
/// deadlines that are left are later.
pub fn who_is_due_wakes()
    ensures idle { IdleWithoutDeadlines }
    ensures due { DueThreadsWake }
{}

/// A law: each state that is reached is sound. Numbers of live threads differ, and were given; a
/// live thread's group lives, with its main thread in the slot that is the group's place; and what
/// a thread waits for agrees with the call that it keeps. So it is after boot, and so it stays
/// under each call that has its words, and under each choice.
pub fn the_kernel_stays_sound()
    ensures boot { BootIsSound }
    ensures call { CallsStaySound }
    ensures choice { ChoicesStaySound }
{}

/// A law: in a sound state a live thread has a number that was given and a slot that there is, and
/// no other live thread has that slot.
pub fn live_threads_have_numbers_and_slots_of_their_own()
    ensures given { NumbersWereGiven }
    ensures slots { SlotsDiffer }
{}

/// A law: a call of a ready thread changes the table of threads exactly as its own answers say.
/// The caller waits in the call, or is gone by its last; then a group's threads are gone, or one
/// new ready thread stands; then each reply makes its receiver ready. Each reply in its turn is for
/// a thread that waits in a call which its outputs fit. A thread that starts has the next number
/// and a slot that no live thread has.
pub fn a_call_changes_the_threads_as_it_answers()
    ensures { CallsChangeThreads }
{}

/// A law: when a thread is chosen, the threads whose time has come are told so, as by a call's
/// replies, and no other changes; the chosen one is there, and ready.
pub fn a_choice_wakes_whom_it_answers()
    ensures { ChoicesChangeThreads }
{}

/// A law: calls whose words mean the same lead to the same, and a call of a thread that there
/// isn't changes nothing but the count of calls.
pub fn what_a_call_means_decides_it()
    ensures same { SameMeaningSameStep }
    ensures nobody { NobodysCallIsSilent }
{}

/// A law: where the kernel is told bytes, it tells bytes. Names, paths, contents, messages,
/// arguments, variables and console input are bytes after boot, where the configuration's are, and
/// stay so; and each reply's value is a word, and its outputs are bytes, if each input of each call
/// is of at most 4,096 bytes. The inputs of a well formed call are that short.
pub fn what_the_kernel_tells_is_words_and_bytes()
    ensures boot { BootIsOfBytes }
    ensures call { CallsTellBytes }
    ensures choice { ChoicesTellBytes }
    ensures inputs { WellFormedInputs }
{}

/// A law: a path of a file leads to a file that lives, no second path leads to the same, and so it
/// is with queues. So the paths are no more than those of boot and the objects. After boot it is so,
/// and so it stays under each call and each choice.
pub fn paths_are_bounded_by_objects()
    ensures boot { BootIsBounded }
    ensures call { CallsStayBounded }
    ensures choice { ChoicesStayBounded }
    ensures few { PathsAreFew }
{}
