//! Laws of the view `decls`.

ghost use Rattle.pc_decl_laws.specs.Kinds.{KindsLaw};
ghost use Rattle.pc_decl_laws.specs.Lines.{LinesLaw};
ghost use Rattle.pc_decl_laws.specs.OwnTypes.{OwnTypeLaw};

/// The type at the place of a declared name is the one that the name has where the block of its routine ends.
pub fn types_of_declared_names_are_their_own()
    ensures { OwnTypeLaw }
{}

/// The lines of a routine in the view `decls` are made of what is known of that routine and of the tree.
pub fn decls_come_routine_by_routine()
    ensures { LinesLaw }
{}

/// The kind of the node that declares a name, which gives its class in the view, is that of the node at which the name is met.
pub fn kinds_come_with_declared_names()
    ensures { KindsLaw }
{}
