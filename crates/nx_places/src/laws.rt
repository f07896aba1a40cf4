ghost use Rattle.nx_places.specs.Laws.{CostsSuffice, EntriesStandFirst, InstructionsAreThere, OperationsStand, PlacesFollow, PlacesLie};

/// A law: where a function's code stands, its entry stands first, and each operation's instructions stand at the
/// operation's place, one behind the other.
pub fn operations_stand_at_their_places()
    ensures first { EntriesStandFirst }
    ensures each { OperationsStand }
    ensures next { PlacesFollow }
{}

/// A law: each place of a function whose code stands at a multiple of four is one too, and lies below the end of all
/// addresses.
pub fn places_lie_among_addresses()
    ensures { PlacesLie }
{}

/// A law: an operation that is no call, no return and makes no array has at most as many instructions as it costs, and
/// one at least.
pub fn an_operation_has_no_more_instructions_than_it_costs()
    ensures few { CostsSuffice }
    ensures some { InstructionsAreThere }
{}
