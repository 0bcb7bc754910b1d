//! Operators and signs, by the words of the nodes that have them.

ghost use Rattle.std.specs.Prelude.{◌≡◌};
ghost use Rattle.std.specs.Str.{bytes_eq};
ghost use Rattle.pc_forms.specs.Operators as words;

/// A sign.
#[derive(Clone, Copy, Debug, PartialEq, Eq)]
pub enum Sign {
    /// `+`
    Plus,
    /// `-`
    Minus,
}

/// An operator between a term and a factor.
#[derive(Clone, Copy, Debug, PartialEq, Eq)]
pub enum MulOperator {
    /// `*`
    Times,
    /// `div`
    Div,
    /// `mod`
    Mod,
    /// `and`
    And,
}

/// An operator between a simple expression and a term.
#[derive(Clone, Copy, Debug, PartialEq, Eq)]
pub enum AddOperator {
    /// `+`
    Plus,
    /// `-`
    Minus,
    /// `or`
    Or,
}

/// An operator between two simple expressions.
#[derive(Clone, Copy, Debug, PartialEq, Eq)]
pub enum RelOperator {
    /// `=`
    Equal,
    /// `<>`
    Unequal,
    /// `<`
    Less,
    /// `>`
    Greater,
    /// `<=`
    AtMost,
    /// `>=`
    AtLeast,
    /// `in`
    In,
}

/// Whether the word is `downto`.
pub fn is_downto(word: &[u8]) -> bool
    ensures { result ≡ words.is_downto word.now }
{
    is_written(word, b"downto")
}

/// The sign that is written so.
pub fn sign_of(word: &[u8]) -> Sign
    ensures { result ≡ words.sign_of word.now }
{
    if is_written(word, b"-") {
        Sign::Minus
    } else {
        Sign::Plus
    }
}

/// The operator that is written so.
pub fn mul_of(word: &[u8]) -> MulOperator
    ensures { result ≡ words.mul_of word.now }
{
    if is_written(word, b"*") {
        MulOperator::Times
    } else if is_written(word, b"div") {
        MulOperator::Div
    } else if is_written(word, b"mod") {
        MulOperator::Mod
    } else {
        MulOperator::And
    }
}

/// The operator that is written so.
pub fn add_of(word: &[u8]) -> AddOperator
    ensures { result ≡ words.add_of word.now }
{
    if is_written(word, b"+") {
        AddOperator::Plus
    } else if is_written(word, b"-") {
        AddOperator::Minus
    } else {
        AddOperator::Or
    }
}

/// The operator that is written so.
pub fn rel_of(word: &[u8]) -> RelOperator
    ensures { result ≡ words.rel_of word.now }
{
    if is_written(word, b"=") {
        RelOperator::Equal
    } else if is_written(word, b"<>") {
        RelOperator::Unequal
    } else if is_written(word, b"<") {
        RelOperator::Less
    } else if is_written(word, b">") {
        RelOperator::Greater
    } else if is_written(word, b"<=") {
        RelOperator::AtMost
    } else if is_written(word, b">=") {
        RelOperator::AtLeast
    } else {
        RelOperator::In
    }
}

/// Whether the word is this one.
fn is_written(word: &[u8], spelling: &[u8]) -> bool
    ensures { result ≡ bytes_eq spelling.now word.now }
{
    spelling == word
}
