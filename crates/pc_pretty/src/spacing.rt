//! The space before an item.

ghost use Rattle.std.specs.Prelude.{◌≡◌, ◌++◌, ◌≤◌, ℕ, Option, Some, None, option_copied, slice_get, IfOk};
ghost use Rattle.pc_pretty.specs.Spacing as spec;
ghost use Rattle.pc_pretty.specs.Printed.{inner};

use pc_syntax::{Item, Kind, Lexeme};

/// What stands before an item of a node: nothing, a space, a new line at the node's indentation, or one two deeper.
#[derive(Clone, Copy, Debug, PartialEq, Eq)]
pub enum Spacing {
    Tight,
    Space,
    Line,
    Deeper,
}

/// Where a node stands: the space before it, and the indentation, in spaces, of the line that it is asked for on.
#[derive(Clone, Copy)]
pub struct Place {
    pub spacing: Spacing,
    pub indentation: u32,
}

impl Place {
    /// The indentation of the line on which a node at this place begins.
    pub fn inner(self) -> u32
        requires { self.indentation ≤ 1000 }
        ensures { result ≡ inner self }
    {
        match self.spacing {
            Spacing::Deeper => self.indentation + 2,
            Spacing::Tight | Spacing::Space | Spacing::Line => self.indentation,
        }
    }
}

/// The space before the item with a number from 0 of a node.
#[tactic(auto, unfolding(crate::specs::Spacing::space))]
pub fn space(kind: Kind, n: usize, item: Item) -> Spacing
    ensures { result ≡ spec.space kind n item }
{
    match kind {
        Kind::Heads | Kind::Args | Kind::Params => enclosed(n, item),
        Kind::Names | Kind::Labels | Kind::Indexes | Kind::Exprs | Kind::Accesses | Kind::Members =>
            before_kid(item, Spacing::Space),
        Kind::Consts | Kind::Types | Kind::Vars => before_kid(item, Spacing::Deeper),
        Kind::Routines | Kind::Fields | Kind::Stmts | Kind::Arms => before_kid(item, Spacing::Line),
        Kind::Record => between_ends(&[Spacing::Tight, Spacing::Deeper], n, item),
        Kind::Case => between_ends(
            &[
                Spacing::Tight,
                Spacing::Space,
                Spacing::Space,
                Spacing::Deeper,
            ],
            n,
            item,
        ),
        _ => nth_or_tight(spacings(kind), n),
    }
}

/// The space of an item of a list in round parentheses.
fn enclosed(n: usize, item: Item) -> Spacing
    ensures { result ≡ spec.enclosed n item }
{
    match item {
        Item::Kid(_) => {
            if n == 1 {
                Spacing::Tight
            } else {
                Spacing::Space
            }
        }
        Item::Literal(_) | Item::Word(_) => Spacing::Tight,
    }
}

/// The space of an item of a list without parentheses.
fn before_kid(item: Item, spacing: Spacing) -> Spacing
    ensures { result ≡ spec.before_kid spacing item }
{
    match item {
        Item::Kid(_) => spacing,
        Item::Literal(_) | Item::Word(_) => Spacing::Tight,
    }
}

/// The space of an item of a record or case.
fn between_ends(before: &'static [Spacing], n: usize, item: Item) -> Spacing
    ensures { result ≡ spec.between_ends before.now n item }
{
    match item {
        Item::Literal(Lexeme::KeyEnd) => Spacing::Line,
        Item::Literal(Lexeme::Semicolon) => Spacing::Tight,
        _ => nth_or_tight(before, n),
    }
}

/// The one of these with a number from 0; nothing behind the last.
fn nth_or_tight(spacings: &'static [Spacing], n: usize) -> Spacing
    ensures { result ≡ spec.or_tight (slice_get spacings.now n) }
{
    match spacings.get(n) {
        Some(spacing) => *spacing,
        None => Spacing::Tight,
    }
}

/// The spaces before the items of a node with a fixed row of items, in order.
#[tactic(auto, unfolding(crate::specs::Spacing::spacings))]
fn spacings(kind: Kind) -> &'static [Spacing]
    ensures { result.now ≡ spec.spacings kind }
{
    match kind {
        Kind::Program => &[
            Spacing::Tight,
            Spacing::Space,
            Spacing::Tight,
            Spacing::Tight,
            Spacing::Line,
            Spacing::Tight,
        ],
        Kind::Block => &[
            Spacing::Line,
            Spacing::Line,
            Spacing::Line,
            Spacing::Line,
            Spacing::Line,
        ],
        Kind::Constdef => &[
            Spacing::Tight,
            Spacing::Space,
            Spacing::Space,
            Spacing::Tight,
        ],
        Kind::Typedef => &[
            Spacing::Tight,
            Spacing::Space,
            Spacing::Space,
            Spacing::Tight,
        ],
        Kind::Vardef => &[
            Spacing::Tight,
            Spacing::Tight,
            Spacing::Space,
            Spacing::Tight,
        ],
        Kind::Field => &[Spacing::Tight, Spacing::Tight, Spacing::Space],
        Kind::Valparam => &[Spacing::Tight, Spacing::Tight, Spacing::Space],
        Kind::Varparam => &[
            Spacing::Tight,
            Spacing::Space,
            Spacing::Tight,
            Spacing::Space,
        ],
        Kind::Procedure => &[
            Spacing::Tight,
            Spacing::Space,
            Spacing::Tight,
            Spacing::Tight,
            Spacing::Deeper,
            Spacing::Tight,
        ],
        Kind::Function => &[
            Spacing::Tight,
            Spacing::Space,
            Spacing::Tight,
            Spacing::Tight,
            Spacing::Space,
            Spacing::Tight,
            Spacing::Deeper,
            Spacing::Tight,
        ],
        Kind::Funbody => &[
            Spacing::Tight,
            Spacing::Space,
            Spacing::Tight,
            Spacing::Deeper,
            Spacing::Tight,
        ],
        Kind::Tname => &[Spacing::Tight],
        Kind::Enum => &[Spacing::Tight, Spacing::Tight, Spacing::Tight],
        Kind::Subrange => &[Spacing::Tight, Spacing::Tight, Spacing::Tight],
        Kind::Array => &[
            Spacing::Tight,
            Spacing::Space,
            Spacing::Tight,
            Spacing::Tight,
            Spacing::Space,
            Spacing::Space,
        ],
        Kind::Record0 => &[Spacing::Tight, Spacing::Space],
        Kind::Setof => &[Spacing::Tight, Spacing::Space, Spacing::Space],
        Kind::Packed => &[Spacing::Tight, Spacing::Space],
        Kind::Pointer => &[Spacing::Tight, Spacing::Tight],
        Kind::Assign => &[Spacing::Tight, Spacing::Space, Spacing::Space],
        Kind::Proc => &[Spacing::Tight, Spacing::Tight],
        Kind::Compound => &[Spacing::Tight, Spacing::Deeper, Spacing::Line],
        Kind::If => &[
            Spacing::Tight,
            Spacing::Space,
            Spacing::Space,
            Spacing::Deeper,
        ],
        Kind::Ifelse => &[
            Spacing::Tight,
            Spacing::Space,
            Spacing::Space,
            Spacing::Deeper,
            Spacing::Line,
            Spacing::Deeper,
        ],
        Kind::Arm => &[Spacing::Tight, Spacing::Tight, Spacing::Deeper],
        Kind::Repeat => &[
            Spacing::Tight,
            Spacing::Deeper,
            Spacing::Line,
            Spacing::Space,
        ],
        Kind::While => &[
            Spacing::Tight,
            Spacing::Space,
            Spacing::Space,
            Spacing::Deeper,
        ],
        Kind::For => &[
            Spacing::Tight,
            Spacing::Space,
            Spacing::Space,
            Spacing::Space,
            Spacing::Space,
            Spacing::Space,
            Spacing::Space,
            Spacing::Deeper,
        ],
        Kind::With => &[
            Spacing::Tight,
            Spacing::Space,
            Spacing::Space,
            Spacing::Deeper,
        ],
        Kind::Index => &[
            Spacing::Tight,
            Spacing::Tight,
            Spacing::Tight,
            Spacing::Tight,
        ],
        Kind::Select => &[Spacing::Tight, Spacing::Tight, Spacing::Tight],
        Kind::Deref => &[Spacing::Tight, Spacing::Tight],
        Kind::Call => &[
            Spacing::Tight,
            Spacing::Tight,
            Spacing::Tight,
            Spacing::Tight,
        ],
        Kind::Parens => &[Spacing::Tight, Spacing::Tight, Spacing::Tight],
        Kind::Not => &[Spacing::Tight, Spacing::Space],
        Kind::Setcon => &[Spacing::Tight, Spacing::Tight, Spacing::Tight],
        Kind::Mul => &[Spacing::Tight, Spacing::Space, Spacing::Space],
        Kind::Add => &[Spacing::Tight, Spacing::Space, Spacing::Space],
        Kind::Rel => &[Spacing::Tight, Spacing::Space, Spacing::Space],
        Kind::Sign => &[Spacing::Tight, Spacing::Tight],
        Kind::Csign => &[Spacing::Tight, Spacing::Tight],
        Kind::Width => &[Spacing::Tight, Spacing::Tight, Spacing::Tight],
        Kind::Span => &[Spacing::Tight, Spacing::Tight, Spacing::Tight],
        _ => &[],
    }
}
