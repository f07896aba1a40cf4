ghost use Rattle.nx_calling.specs.Laws.{ArgumentsCome, CallsLead, ProxiesCall, TemporariesAreKept, TemporariesComeBack};

/// A law: the cells that are handed over come into the registers of arguments, in their order, and no other register
/// changes.
pub fn arguments_come_into_registers()
    ensures { ArgumentsCome }
{}

/// A law: a call leads to its function with the address behind it in register 1.
pub fn a_call_leads_to_its_function()
    ensures { CallsLead }
{}

/// A law: a proxy makes the call of its number with the caller's arguments as its words.
pub fn a_proxy_makes_its_call()
    ensures { ProxiesCall }
{}

/// A law: the temporaries in registers are stored into their words, and come back from there, and nothing else changes.
pub fn temporaries_are_kept_and_come_back()
    ensures kept { TemporariesAreKept }
    ensures back { TemporariesComeBack }
{}
