//! Forms of expressions.

use crate::operator::{AddOperator, MulOperator, RelOperator, Sign};

/// What an expression is, with its parts by their names: a `T` for a node of another class, an `E` for an expression, a `W` for
/// a word. An access is an expression too.
#[derive(Drop)]
pub enum ExpressionForm<T, E, W> {
    /// `name`, as a variable, a constant or a function without arguments.
    Ref {
        name: T,
    },
    /// `array [ indexes ]`
    Index {
        array: E,
        indexes: T,
    },
    /// `whole . field`
    Select {
        whole: E,
        field: T,
    },
    /// `pointer ^`
    Deref {
        pointer: E,
    },
    /// A numeral.
    Number {
        word: W,
    },
    /// A text.
    Text {
        word: W,
    },
    /// `nil`
    Nil,
    /// `name ( args )`
    Call {
        name: T,
        args: T,
    },
    /// `( inner )`
    Parens {
        inner: E,
    },
    /// `not operand`
    Not {
        operand: E,
    },
    /// `[ members ]`
    Setcon {
        members: T,
    },
    /// `left operator right`
    Mul {
        left: E,
        operator: MulOperator,
        right: E,
    },
    /// `left operator right`
    Add {
        left: E,
        operator: AddOperator,
        right: E,
    },
    /// `sign operand`
    Sign {
        sign: Sign,
        operand: E,
    },
    /// `left operator right`
    Rel {
        left: E,
        operator: RelOperator,
        right: E,
    },
    /// An expression that is still to be written.
    Hole,
}
