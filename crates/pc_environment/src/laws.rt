//! Laws of what is seen from the places of a statement part.

ghost use Rattle.pc_environment.specs.RowLaws.{SeesAlike};

/// Behind nodes of a statement part, none of which opens a record, the same is seen as before them: what names mean, the function
/// whose block it is, the block, and which of its variables a routine in it changes.
pub fn statement_parts_see_alike()
    ensures { SeesAlike }
{}
