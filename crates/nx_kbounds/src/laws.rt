ghost use Rattle.nx_kbounds.specs.Counts.{IsFew, IsTimely};
ghost use Rattle.nx_kbounds.specs.Shortness.{IsShort};
ghost use Rattle.nx_kbounds.specs.Leading.{BootIsLed, CallsStayLed, ChoicesStayLed, EndsStayLed, DescriptionsAreFew};
ghost use Rattle.nx_kbounds.specs.Laws.{CallsKeep, ChoicesKeep, EndsKeep, BootTakesPlaces, CallsTakeNone, ChoicesTakeNone, EndsTakeNone, BootIsFew, GroupsAreFew, BootIsTimely, BootIsShort};

/// A law: each table keeps the places that boot gave it, so none ever takes memory. Boot gives as
/// many slots as there may be threads, so many places for groups and for messages that wait to be
/// sent, 32 descriptors and descriptions for each, and as many places for files, queues and
/// semaphores as there may be objects.
pub fn tables_keep_their_places()
    ensures boot { BootTakesPlaces }
    ensures call { CallsTakeNone }
    ensures choice { ChoicesTakeNone }
    ensures end { EndsTakeNone }
{}

/// A law: of the numbers that were given, at most 65,535, each is of at most one live thread or
/// thread's value that is kept, of at most one live group or group that ended, and of at most one
/// child's code that is kept. So a table of 65,535 has room for each of these. The moments are no
/// more than twice the calls and one, less the threads that wait.
pub fn numbers_bound_what_is_kept()
    ensures boot { BootIsFew }
    ensures call { CallsKeep IsFew }
    ensures choice { ChoicesKeep IsFew }
    ensures end { EndsKeep IsFew }
{}

/// A law: there are no more live groups than live threads, and no more of these than slots.
pub fn groups_are_no_more_than_threads()
    ensures { GroupsAreFew }
{}

/// A law: time and deadlines grow by less than 2^31 ticks with each moment and with each lateness
/// that is used, of which there are at most 4,096, each below 2^31.
pub fn time_is_bounded_by_moments()
    ensures boot { BootIsTimely }
    ensures call { CallsKeep IsTimely }
    ensures choice { ChoicesKeep IsTimely }
    ensures end { EndsKeep IsTimely }
{}

/// A law: what is kept of texts is short: paths of at most 255 bytes, arguments and values of
/// variables of at most 260, names of variables and semaphores of at most 32, files of at most
/// 4,194,304, at most 64 messages of 4,096 bytes in a queue, and no more on the console than it has
/// room for.
pub fn what_is_kept_is_short()
    ensures boot { BootIsShort }
    ensures call { CallsKeep IsShort }
    ensures choice { ChoicesKeep IsShort }
    ensures end { EndsKeep IsShort }
{}

/// A law: nothing leads to what isn't there, where each path of a file or queue leads to one that
/// lives. Open descriptors are of live groups, and lead to descriptions that stand; each description
/// has a descriptor; files, queues and semaphores that descriptions lead to, and queues and
/// semaphores that threads wait for, stand. So there are no more descriptions than 32 for each live
/// group.
pub fn nothing_leads_nowhere()
    ensures boot { BootIsLed }
    ensures call { CallsStayLed }
    ensures choice { ChoicesStayLed }
    ensures end { EndsStayLed }
    ensures few { DescriptionsAreFew }
{}
