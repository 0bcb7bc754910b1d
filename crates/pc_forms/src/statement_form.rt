//! Forms of statements.

/// What a statement is, with its parts by their names: a `T` for a node of another class, an `E` for an expression, an `S` for
/// a statement, an `L` for a list of statements.
#[derive(Drop)]
pub enum StatementForm<T, E, S, L> {
    /// Nothing.
    Empty,
    /// `target := value`
    Assign {
        target: E,
        value: E,
    },
    /// `name args`
    Proc {
        name: T,
        args: T,
    },
    /// `begin stmts end`
    Compound {
        stmts: L,
    },
    /// `if condition then body`
    If {
        condition: E,
        body: S,
    },
    /// `if condition then body else otherwise`
    Ifelse {
        condition: E,
        body: S,
        otherwise: S,
    },
    /// `case selector of arms end`, with a `;` before the `end` or none.
    Case {
        selector: E,
        arms: T,
    },
    /// `repeat stmts until condition`
    Repeat {
        stmts: L,
        condition: E,
    },
    /// `while condition do body`
    While {
        condition: E,
        body: S,
    },
    /// `for control := first to last do body`, with `downto` where it goes downwards.
    For {
        control: T,
        first: E,
        downwards: bool,
        last: E,
        body: S,
    },
    /// `with records do body`
    With {
        records: T,
        body: S,
    },
    /// A statement that is still to be written.
    Hole,
}
