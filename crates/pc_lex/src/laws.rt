//! Laws of the definitions.

ghost use Rattle.pc_lex.specs.Laws.{EachIsRead, OneSpelling, OneFault, NotBoth, LongestFirst, SameTables, MarksRead};

/// A text has one list of symbols or one first fault, and never both: so the clauses of `lex`
/// determine its answer, want of memory aside.
pub fn one_reading()
    ensures each { EachIsRead }
    ensures symbols { OneSpelling }
    ensures fault { OneFault }
    ensures never_both { NotBoth }
{}

/// The symbol with which a text begins is the longest beginning of the text that is one symbol.
pub fn longest_first()
    ensures { LongestFirst }
{}

/// The tables of key words and marks agree: each row of a parser's symbols is spelled as the row
/// that is read.
pub fn same_tables()
    ensures spelled { SameTables }
    ensures read { MarksRead }
{}
