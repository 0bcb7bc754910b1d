//! Laws of the definitions.

ghost use Rattle.pc_rules.specs.Law.{UnaffectedLaw};

/// A routine that no change between two programs affects has the same entries, from its own place on, and the same is found at each node of
/// its own block.
pub fn unaffected_routines()
    ensures { UnaffectedLaw }
{}
