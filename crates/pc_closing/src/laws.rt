//! Laws of whole types.

ghost use Rattle.pc_closing.specs.Kept.{KeptLaw};
ghost use Rattle.pc_closing.specs.Truth.{TruthLaw};
ghost use Rattle.pc_closing.specs.Whole.{AgreeLaw, WholeLaw};

/// A whole type leads to whole types, and what leads only to types of its kind is whole.
pub fn whole_types_lead_to_whole_types()
    ensures { WholeLaw }
{}

/// Whether a type is whole, and the shape of its closed type, depend only on what the table of domains has at the places that are
/// reached from it.
pub fn reached_places_decide()
    ensures { AgreeLaw }
{}

/// Flags stay right where types are added, where domains are added that have no type, and where what changes isn't reached from the types
/// with flags.
pub fn flags_stay_right()
    ensures { KeptLaw }
{}

/// A type of a table is whole by numbers exactly where it is closed by the rules' list of domains, if both lead to what one truth says; and
/// flags stay right where a table grows and where targets that aren't whole are forgotten.
pub fn numbers_agree_with_rules()
    ensures { TruthLaw }
{}
