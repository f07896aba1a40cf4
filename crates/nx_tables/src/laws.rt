ghost use Rattle.nx_tables.specs.Laws.{WalksAsMapped, RootTells, RootStep, TableStep, PageStep, StandsKept, SeenKept, SeenPut, SeenOther, EndFrees};

/// A law: the walk from a root gives exactly what is mapped, and the root tells which regions have a
/// table.
pub fn the_walk_gives_what_is_mapped()
    ensures walk { WalksAsMapped }
    ensures root { RootTells }
{}

/// A law: a root of zeros maps nothing, and an entry that is written adds exactly one table or page.
pub fn an_entry_adds_what_it_says()
    ensures root { RootStep }
    ensures table { TableStep }
    ensures page { PageStep }
{}

/// A law: what is written outside of a group's tables, a store of a user included, changes no
/// table; what is written outside of its frames shows in none of its windows; and the end of another
/// group leaves it as it is.
pub fn a_group_stands_alone()
    ensures tables { StandsKept }
    ensures windows { SeenKept }
    ensures end { EndFrees }
{}

/// A law: what is put into a page shows in the window of that page, and in no other window of any
/// group.
pub fn a_store_shows_in_its_window()
    ensures put { SeenPut }
    ensures other { SeenOther }
{}
