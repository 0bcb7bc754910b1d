//! As what a name is declared.

/// As what a name is declared: an element is a constant of an enumerated type; values and references are value and variable
/// parameters.
#[derive(Clone, Copy, PartialEq, Eq, Debug)]
pub enum NameClass {
    Constant,
    Element,
    Type,
    Variable,
    Value,
    Reference,
    Procedure,
    Function,
}
