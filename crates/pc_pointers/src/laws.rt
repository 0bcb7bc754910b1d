//! Laws of what pointers lead to.

ghost use Rattle.pc_pointers.specs.PointerLaws.{PointersAgree, PartsAgree};

/// Where the types of what names mean at the place of some nodes of a statement part lead to what one table of domains says, so do
/// the types of all these nodes and of what is below them.
pub fn pointers_agree()
    ensures { PointersAgree }
{}

/// A pointer of such a type leads to what the table says; and what it leads to, the elements of an array and the fields of a record
/// are of such types too.
pub fn parts_agree()
    ensures { PartsAgree }
{}
