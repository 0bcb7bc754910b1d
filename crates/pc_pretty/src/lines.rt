//! The law that lines and columns are counted.

ghost use Rattle.pc_pretty.specs.LinesLaws.{PlacesAreCounted};

/// The place of a line and column is that of the byte which stands there: its line is one more than the number of line
/// feeds before it, its column one more than the number of bytes since the last of them.
pub fn places_are_counted()
    ensures { PlacesAreCounted }
{}
