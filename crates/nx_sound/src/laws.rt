ghost use Rattle.nx_sound.specs.Laws.{TablesHaveFewParameters, WellTypedFilesAreSound, WellTypedFilesAreKept};
ghost use Rattle.nx_sound.specs.Places.{ObjectsAreThere};

/// A law: each row of a call table that was read has at most six parameters.
pub fn tables_have_few_parameters()
    ensures { TablesHaveFewParameters }
{}

/// A law: a well-typed file names functions, variables, arrays, texts and calls that there are, and calls functions with as
/// many arguments as they have parameters. Its calls are rows of the table. Its main function has no parameter, each of
/// its functions has the frame that it needs, of at most 1,048,576 bytes, and each array all of its bytes.
pub fn well_typed_files_are_sound()
    ensures { WellTypedFilesAreSound }
{}

/// A law: the slot code of a well-typed file makes the calls that the file makes, with the same words and bytes, for every
/// reply that fits and whatever the variables of the file then are. It ends with the same number and tells the same need
/// of stack, and costs at most 64 instructions for each step.
pub fn well_typed_files_are_kept()
    ensures { WellTypedFilesAreKept }
{}

/// A law: the first bytes of each variable, array and text of a file stand in the globals or literals of its slot program
/// where its slot code says, where each array has all of its bytes. There are no further bytes than these and those that
/// fill arrays up to words.
pub fn objects_stand_where_code_says()
    ensures { ObjectsAreThere }
{}
