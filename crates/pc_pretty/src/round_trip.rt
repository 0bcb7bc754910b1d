//! The law that a printed tree reads back.

ghost use Rattle.pc_pretty.specs.RoundTrip.{PrintedReadsBack};

use pc_parse::{one_tree, sorts_are_classes};

/// What is printed of a well-formed tree that has a sort, with its notes, spells symbols whose one tree of that sort is
/// that tree, and no comment is dropped.
pub fn printed_reads_back()
    ensures { PrintedReadsBack }
{
    one_tree();
    sorts_are_classes();
}
