//! Which words, notes and kids a node may have.

ghost use Rattle.std.specs.Prelude.{◌≡◌, ◌∷◌, [], length};
ghost use Rattle.std.specs.List.{list_all};
ghost use Rattle.std.specs.Str.{bytes_eq};
ghost use Rattle.pc_syntax.specs.declared.kind.Kind.TheVariants.{Mul, Rel};
ghost use Rattle.pc_syntax.specs.Plain.{forest_of};
ghost use Rattle.pc_syntax.specs.Words as words;
ghost use Rattle.pc_syntax.specs.WellFormed as sound;
ghost use Rattle.pc_syntax.specs.Slots.{class_from};
ghost use Rattle.pc_syntax.specs.Fits.{is_last_semicolon, word_fits, takes_count, takes, takes_from, kinds_of, node_fits};

use crate::class::Class;
use crate::kind::Kind;
use crate::note::Note;
use crate::tree::Tree;
use crate::words::{is_comment, is_forward, is_identifier, is_numeral, is_text};

/// Whether a node may have this word, these notes and these kids.
#[tactic(auto, unfolding(crate::specs::Fits::node_fits))]
pub fn node_fits(kind: Kind, word: &[u8], notes: &[Note], kids: &[Tree]) -> bool
    ensures { result ≡ node_fits kind word.now notes.now kids.now }
{
    word_fits(kind, word)
        && takes_count(kind, kids.len())
        && takes_kids(kind, kids)
        && takes_notes(kind, kids.len(), notes)
        && !breaks_else_rule(kind, kids)
}

/// Whether a node of this kind may have this word.
pub fn word_fits(kind: Kind, word: &[u8]) -> bool
    ensures { result ≡ word_fits kind word.now }
{
    match kind {
        Kind::Forward => is_forward(word),
        Kind::Name => is_identifier(word),
        Kind::Number | Kind::Cnumber => is_numeral(word),
        Kind::Text | Kind::Cstring => is_text(word),
        Kind::Record | Kind::Case => is_last_semicolon(word),
        Kind::Csign | Kind::Sign => is_written(word, b"+") || is_written(word, b"-"),
        Kind::For => is_written(word, b"to") || is_written(word, b"downto"),
        Kind::Mul => is_multiplying(word),
        Kind::Add => is_written(word, b"+") || is_written(word, b"-") || is_written(word, b"or"),
        Kind::Rel => is_relational(word),
        _ => word.is_empty(),
    }
}

/// Whether the word is `*`, `div`, `mod` or `and`.
fn is_multiplying(word: &[u8]) -> bool
    ensures { result ≡ word_fits Mul word.now }
{
    is_written(word, b"*")
        || is_written(word, b"div")
        || is_written(word, b"mod")
        || is_written(word, b"and")
}

/// Whether the word is `=`, `<>`, `<`, `>`, `<=`, `>=` or `in`.
fn is_relational(word: &[u8]) -> bool
    ensures { result ≡ word_fits Rel word.now }
{
    is_written(word, b"=")
        || is_written(word, b"<>")
        || is_written(word, b"<")
        || is_written(word, b">")
        || is_written(word, b"<=")
        || is_written(word, b">=")
        || is_written(word, b"in")
}

fn is_last_semicolon(word: &[u8]) -> bool
    ensures { result ≡ is_last_semicolon word.now }
{
    match word {
        [] => true,
        [byte] => *byte == 59,
        _ => false,
    }
}

/// Whether the word is this one.
pub fn is_written(word: &[u8], spelling: &[u8]) -> bool
    ensures { result ≡ bytes_eq spelling.now word.now }
{
    spelling == word
}

/// Whether a node of this kind may have so many kids.
pub fn takes_count(kind: Kind, count: usize) -> bool
    ensures { result ≡ takes_count kind count }
{
    let slots = kind.slots();
    if slots.list {
        slots.count as usize <= count
    } else {
        count == slots.count as usize
    }
}

/// Whether a node of this kind may have these kids, their number aside.
pub fn takes_kids(kind: Kind, kids: &[Tree]) -> bool
    ensures { result ≡ takes_from kind 0 (kinds_of kids.now) }
{
    for (i, kid) in kids.iter().enumerate() {
        if !takes(kind.class_from(i), kid.kind()) {
            return false;
        }
    }
    true
}

/// Whether a kid of this kind may stand at a place of this class; no kid where there is no place.
pub fn takes(class: Option<Class>, kind: Kind) -> bool
    ensures { result ≡ takes class kind }
{
    match class {
        Some(class) => class.has(kind),
        None => false,
    }
}

/// Whether a node of this kind with so many kids may bear these notes.
pub fn takes_notes(kind: Kind, count: usize, notes: &[Note]) -> bool
    ensures { result ≡ sound.takes_notes kind count notes.now }
{
    if notes.is_empty() {
        return true;
    }
    if !kind.bears_notes() || (count == 0 && kind.is_list()) {
        return false;
    }
    are_comments(notes)
}

fn are_comments(notes: &[Note]) -> bool
    ensures { result ≡ list_all words.is_comment notes.now }
{
    for note in notes {
        if !is_comment(note.bytes()) {
            return false;
        }
    }
    true
}

/// Whether an `else` of this node would be that of the statement before it.
pub fn breaks_else_rule(kind: Kind, kids: &[Tree]) -> bool
    ensures { result ≡ sound.breaks_else_rule kind (forest_of kids.now) }
{
    match kind {
        Kind::Ifelse => is_second_open(kids),
        _ => false,
    }
}

/// Whether the second of these trees ends open.
#[tactic(auto, using(crate::proofs::Opening::second_read, crate::proofs::Opening::second_past))]
fn is_second_open(trees: &[Tree]) -> bool
    ensures { result ≡ sound.second_open (forest_of trees.now) }
{
    match trees.get(1) {
        Some(tree) => tree.is_open(),
        None => false,
    }
}
