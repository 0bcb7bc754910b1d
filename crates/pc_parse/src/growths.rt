//! What becomes of a finished node where a kid of a class is awaited.

ghost use Rattle.std.specs.Prelude.{◌≡◌};
ghost use Rattle.pc_parse.specs.Tables.{multiplies, adds, relates, is_colon, is_range, takes_width, takes_span, takes_relation, takes_sum, takes_product, grow_relation, grow_simple, grow_term, grow_access, grow_defined_name, grow_defined_type, grow_type_name, grow_range, grow_bound, grow_statement_name, grow_factor_name, grow_name, grow};
ghost use Rattle.pc_parse.specs.Views.{grow_view};

use crate::lexemes::next_spelling;
use pc_syntax::{Class, Item, Kind, Lexeme, Sort};

/// What becomes of a finished node: it is given as the awaited kid; or it becomes the first kid of
/// a node, alone, or of one that goes on and takes the symbol, or that goes on without taking it.
#[derive(Clone, Copy)]
pub enum Growth {
    Give,
    Wrap(Kind),
    Shift(Kind, &'static [u8], &'static [Item]),
    Enter(Kind, &'static [Item]),
}

/// What becomes of a finished node of the kind where a kid of the class is awaited.
pub fn node_growth(kind: Kind, class: Class, next: Option<Lexeme>) -> Growth
    ensures { grow_view result ≡ grow kind class next }
{
    match kind {
        Kind::Name => name_growth(class, next),
        Kind::Ref | Kind::Index | Kind::Select | Kind::Deref => access_growth(class, next),
        Kind::Number
        | Kind::Text
        | Kind::Nil
        | Kind::Call
        | Kind::Parens
        | Kind::Not
        | Kind::Setcon
        | Kind::Mul => { term_growth(class, next) }
        Kind::Add | Kind::Sign => simple_growth(class, next),
        Kind::Rel => relation_growth(class, next),
        Kind::Cnumber | Kind::Cstring | Kind::Cname | Kind::Csign => bound_growth(class, next),
        Kind::Hole(Sort::Constant) => bound_growth(class, next),
        Kind::Hole(Sort::Expression) => access_growth(class, next),
        Kind::Hole(Sort::Name) => name_growth(class, next),
        _ => Growth::Give,
    }
}

fn name_growth(class: Class, next: Option<Lexeme>) -> Growth
    ensures { grow_view result ≡ grow_name class next }
{
    match class {
        Class::Name => Growth::Give,
        Class::Access => Growth::Wrap(Kind::Ref),
        Class::Denoter | Class::Ordinal => type_name_growth(next),
        Class::Constdef => defined_name_growth(next),
        Class::Typedef => defined_type_growth(next),
        Class::Constant | Class::Bare => Growth::Wrap(Kind::Cname),
        Class::Statement => statement_name_growth(next),
        Class::Factor
        | Class::Term
        | Class::Simple
        | Class::Expression
        | Class::Argument
        | Class::Member
        | Class::Operand => factor_name_growth(next),
        _ => Growth::Give,
    }
}

fn defined_name_growth(next: Option<Lexeme>) -> Growth
    ensures { grow_view result ≡ grow_defined_name next }
{
    match next {
        Some(Lexeme::Equal) => Growth::Shift(
            Kind::Constdef,
            b"",
            &[Item::Kid(Class::Constant), Item::Literal(Lexeme::Semicolon)],
        ),
        _ => Growth::Give,
    }
}

fn defined_type_growth(next: Option<Lexeme>) -> Growth
    ensures { grow_view result ≡ grow_defined_type next }
{
    match next {
        Some(Lexeme::Equal) => Growth::Shift(
            Kind::Typedef,
            b"",
            &[Item::Kid(Class::Denoter), Item::Literal(Lexeme::Semicolon)],
        ),
        _ => Growth::Give,
    }
}

fn type_name_growth(next: Option<Lexeme>) -> Growth
    ensures { grow_view result ≡ grow_type_name next }
{
    match next {
        Some(Lexeme::DotDot) => Growth::Wrap(Kind::Cname),
        _ => Growth::Wrap(Kind::Tname),
    }
}

fn bound_growth(class: Class, next: Option<Lexeme>) -> Growth
    ensures { grow_view result ≡ grow_bound class next }
{
    match class {
        Class::Denoter | Class::Ordinal => range_growth(next),
        _ => Growth::Give,
    }
}

fn range_growth(next: Option<Lexeme>) -> Growth
    ensures { grow_view result ≡ grow_range next }
{
    match next {
        Some(Lexeme::DotDot) => {
            Growth::Shift(Kind::Subrange, b"", &[Item::Kid(Class::Constant)])
        }
        _ => Growth::Give,
    }
}

fn statement_name_growth(next: Option<Lexeme>) -> Growth
    ensures { grow_view result ≡ grow_statement_name next }
{
    match next {
        Some(Lexeme::Becomes) => Growth::Wrap(Kind::Ref),
        Some(Lexeme::OpenBracket) => Growth::Wrap(Kind::Ref),
        Some(Lexeme::Dot) => Growth::Wrap(Kind::Ref),
        Some(Lexeme::Caret) => Growth::Wrap(Kind::Ref),
        _ => Growth::Enter(Kind::Proc, &[Item::Kid(Class::Args)]),
    }
}

fn factor_name_growth(next: Option<Lexeme>) -> Growth
    ensures { grow_view result ≡ grow_factor_name next }
{
    match next {
        Some(Lexeme::OpenParen) => Growth::Shift(
            Kind::Call,
            b"",
            &[Item::Kid(Class::Exprs), Item::Literal(Lexeme::CloseParen)],
        ),
        _ => Growth::Wrap(Kind::Ref),
    }
}

fn access_growth(class: Class, next: Option<Lexeme>) -> Growth
    ensures { grow_view result ≡ grow_access class next }
{
    match next {
        Some(Lexeme::OpenBracket) => Growth::Shift(
            Kind::Index,
            b"",
            &[Item::Kid(Class::Exprs), Item::Literal(Lexeme::CloseBracket)],
        ),
        Some(Lexeme::Dot) => Growth::Shift(Kind::Select, b"", &[Item::Kid(Class::Name)]),
        Some(Lexeme::Caret) => Growth::Shift(Kind::Deref, b"", &[]),
        Some(Lexeme::Becomes) => match class {
            Class::Statement => Growth::Shift(Kind::Assign, b"", &[Item::Kid(Class::Expression)]),
            _ => Growth::Give,
        },
        _ => term_growth(class, next),
    }
}

fn term_growth(class: Class, next: Option<Lexeme>) -> Growth
    ensures { grow_view result ≡ grow_term class next }
{
    if takes_product(class) && multiplies(next) {
        Growth::Shift(Kind::Mul, next_spelling(next), &[Item::Kid(Class::Factor)])
    } else {
        simple_growth(class, next)
    }
}

fn simple_growth(class: Class, next: Option<Lexeme>) -> Growth
    ensures { grow_view result ≡ grow_simple class next }
{
    if takes_sum(class) && adds(next) {
        Growth::Shift(Kind::Add, next_spelling(next), &[Item::Kid(Class::Term)])
    } else if takes_relation(class) && relates(next) {
        Growth::Shift(Kind::Rel, next_spelling(next), &[Item::Kid(Class::Simple)])
    } else {
        relation_growth(class, next)
    }
}

fn relation_growth(class: Class, next: Option<Lexeme>) -> Growth
    ensures { grow_view result ≡ grow_relation class next }
{
    if takes_width(class) && is_colon(next) {
        Growth::Shift(Kind::Width, b"", &[Item::Kid(Class::Expression)])
    } else if takes_span(class) && is_range(next) {
        Growth::Shift(Kind::Span, b"", &[Item::Kid(Class::Expression)])
    } else {
        Growth::Give
    }
}

fn takes_width(class: Class) -> bool
    ensures { result ≡ takes_width class }
{
    matches!(class, Class::Argument | Class::Operand)
}

fn takes_span(class: Class) -> bool
    ensures { result ≡ takes_span class }
{
    matches!(class, Class::Member | Class::Operand)
}

fn takes_relation(class: Class) -> bool
    ensures { result ≡ takes_relation class }
{
    matches!(
        class,
        Class::Expression | Class::Argument | Class::Member | Class::Operand
    )
}

fn takes_sum(class: Class) -> bool
    ensures { result ≡ takes_sum class }
{
    matches!(
        class,
        Class::Simple | Class::Expression | Class::Argument | Class::Member | Class::Operand
    )
}

fn takes_product(class: Class) -> bool
    ensures { result ≡ takes_product class }
{
    matches!(
        class,
        Class::Term
            | Class::Simple
            | Class::Expression
            | Class::Argument
            | Class::Member
            | Class::Operand
    )
}

fn multiplies(next: Option<Lexeme>) -> bool
    ensures { result ≡ multiplies next }
{
    match next {
        Some(Lexeme::Star) => true,
        Some(Lexeme::KeyDiv) => true,
        Some(Lexeme::KeyMod) => true,
        Some(Lexeme::KeyAnd) => true,
        _ => false,
    }
}

fn adds(next: Option<Lexeme>) -> bool
    ensures { result ≡ adds next }
{
    match next {
        Some(Lexeme::Plus) => true,
        Some(Lexeme::Minus) => true,
        Some(Lexeme::KeyOr) => true,
        _ => false,
    }
}

fn relates(next: Option<Lexeme>) -> bool
    ensures { result ≡ relates next }
{
    match next {
        Some(Lexeme::Equal) => true,
        Some(Lexeme::Unequal) => true,
        Some(Lexeme::Less) => true,
        Some(Lexeme::Greater) => true,
        Some(Lexeme::AtMost) => true,
        Some(Lexeme::AtLeast) => true,
        Some(Lexeme::KeyIn) => true,
        _ => false,
    }
}

fn is_colon(next: Option<Lexeme>) -> bool
    ensures { result ≡ is_colon next }
{
    match next {
        Some(Lexeme::Colon) => true,
        _ => false,
    }
}

fn is_range(next: Option<Lexeme>) -> bool
    ensures { result ≡ is_range next }
{
    match next {
        Some(Lexeme::DotDot) => true,
        _ => false,
    }
}
