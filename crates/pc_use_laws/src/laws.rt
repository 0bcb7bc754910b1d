//! Laws of the view `uses`.

ghost use Rattle.pc_use_laws.specs.FieldPlaces.{FieldsLaw};
ghost use Rattle.pc_use_laws.specs.FieldsSeen.{SeenFieldsLaw};
ghost use Rattle.pc_use_laws.specs.OpenedSteps.{OpenedLaw};
ghost use Rattle.pc_use_laws.specs.OwnPlaces.{OwnPlaceLaw};
ghost use Rattle.pc_use_laws.specs.Pairs.{PairsLaw};
ghost use Rattle.pc_use_laws.specs.RecordNames.{RecordsLaw};

/// What a name means as that of a field is the place of a field's name, where no declared name of a routine stands.
pub fn fields_are_no_declared_names()
    ensures { FieldsLaw }
{}

/// The text of the view is made of the pairs of a used name and its declaration, of those names that no open record has as a field.
pub fn uses_come_by_pairs()
    ensures { PairsLaw }
{}

/// Whether an open record has a field of a name follows from the definitions of the accesses' types, and from the record types of the program with the names of their fields.
pub fn opened_names_are_known_by_definitions()
    ensures { RecordsLaw }
{}

/// Which accesses are open at a node follows from those that are open at the node above; at the parts of routines and of their blocks none is.
pub fn opened_accesses_go_by_steps()
    ensures { OpenedLaw }
{}

/// At a place of a routine's own block that routine is the innermost one, so what is found there is what is found this way in its block.
pub fn places_of_a_block_are_its_routines_own()
    ensures { OwnPlaceLaw }
{}

/// In a statement part a used name means a field exactly where one of the accesses that are open there opens a field of that name.
pub fn fields_are_seen_where_opened()
    ensures { SeenFieldsLaw }
{}
