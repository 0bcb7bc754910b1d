//! How a kid of a class begins at a symbol.

ghost use Rattle.std.specs.Prelude.{◌≡◌};
ghost use Rattle.pc_parse.specs.Tables.{start, name_start, access_start, program_start, block_start, heads_start, args_start, consts_start, constdef_start, bare_start, constant_start, types_start, typedef_start, field_start, fields_start, ordinal_start, structured_start, is_structure, vars_start, vardef_start, params_start, parameter_start, routines_start, routine_start, denoter_start, body_start, statement_start, arm_start, factor_start, simple_start, members_start};
ghost use Rattle.pc_parse.specs.Views.{start_view};

use crate::lexemes::comes_next;
use pc_syntax::{Class, Item, Kind, Lexeme, Sort};

/// How a kid of a class begins at a symbol: as a leaf or an opened node, which take it; as a node
/// that begins with a kid; as a node without symbols; or not at all.
#[derive(Clone, Copy)]
pub enum Beginning {
    Leaf(Kind),
    Open(Kind, &'static [u8], &'static [Item]),
    Predict(Kind, &'static [Item]),
    Blank(Kind),
    Nothing,
}

/// How a kid of the class begins at the next symbol.
pub fn kid_beginning(class: Class, next: Option<Lexeme>) -> Beginning
    ensures { start_view result ≡ start class next }
{
    match class {
        Class::Program => program_beginning(next),
        Class::Block => block_beginning(next),
        Class::Heads => heads_beginning(next),
        Class::Args => args_beginning(next),
        Class::Consts => consts_beginning(next),
        Class::Types => types_beginning(next),
        Class::Vars => vars_beginning(next),
        Class::Routines => routines_beginning(next),
        Class::Vardef => vardef_beginning(next),
        Class::Denoter => denoter_beginning(next),
        Class::Body => body_beginning(next),
        Class::Statement => statement_beginning(next),
        Class::Name => name_beginning(next),
        Class::Access => access_beginning(next),
        Class::Factor | Class::Term => factor_beginning(next),
        Class::Simple | Class::Expression | Class::Argument | Class::Member | Class::Operand =>
            simple_beginning(next),
        Class::Members => members_beginning(next),
        Class::Names => Beginning::Predict(Kind::Names, &[Item::Kid(Class::Name)]),
        Class::Exprs => Beginning::Predict(Kind::Exprs, &[Item::Kid(Class::Expression)]),
        Class::Accesses => { Beginning::Predict(Kind::Accesses, &[Item::Kid(Class::Access)]) }
        Class::Stmts => Beginning::Predict(Kind::Stmts, &[Item::Kid(Class::Statement)]),
        Class::Labels => Beginning::Predict(Kind::Labels, &[Item::Kid(Class::Constant)]),
        Class::Arms => Beginning::Predict(Kind::Arms, &[Item::Kid(Class::Arm)]),
        Class::Fields => fields_beginning(next),
        Class::Constdef => constdef_beginning(next),
        Class::Typedef => typedef_beginning(next),
        Class::Structured => structured_beginning(next),
        Class::Ordinal => ordinal_beginning(next),
        Class::Indexes => Beginning::Predict(Kind::Indexes, &[Item::Kid(Class::Ordinal)]),
        Class::Routine => routine_beginning(next),
        Class::Params => params_beginning(next),
        Class::Parameter => parameter_beginning(next),
        Class::Field => field_beginning(next),
        Class::Constant => constant_beginning(next),
        Class::Bare => bare_beginning(next),
        Class::Arm => arm_beginning(next),
    }
}

fn access_beginning(next: Option<Lexeme>) -> Beginning
    ensures { start_view result ≡ access_start next }
{
    if comes_next(Lexeme::Hole(Sort::Expression), next) {
        Beginning::Open(Kind::Hole(Sort::Expression), b"", &[])
    } else {
        name_beginning(next)
    }
}

fn name_beginning(next: Option<Lexeme>) -> Beginning
    ensures { start_view result ≡ name_start next }
{
    match next {
        Some(Lexeme::Identifier) => Beginning::Leaf(Kind::Name),
        Some(Lexeme::Hole(Sort::Name)) => Beginning::Open(Kind::Hole(Sort::Name), b"", &[]),
        _ => Beginning::Nothing,
    }
}

fn program_beginning(next: Option<Lexeme>) -> Beginning
    ensures { start_view result ≡ program_start next }
{
    match next {
        Some(Lexeme::KeyProgram) => Beginning::Open(
            Kind::Program,
            b"",
            &[
                Item::Kid(Class::Name),
                Item::Kid(Class::Heads),
                Item::Literal(Lexeme::Semicolon),
                Item::Kid(Class::Block),
                Item::Literal(Lexeme::Dot),
            ],
        ),
        Some(Lexeme::Hole(Sort::Program)) => Beginning::Open(Kind::Hole(Sort::Program), b"", &[]),
        _ => Beginning::Nothing,
    }
}

const BLOCK: &[Item] = &[
    Item::Kid(Class::Consts),
    Item::Kid(Class::Types),
    Item::Kid(Class::Vars),
    Item::Kid(Class::Routines),
    Item::Kid(Class::Body),
];

fn block_beginning(next: Option<Lexeme>) -> Beginning
    ensures { start_view result ≡ block_start next }
{
    match next {
        Some(Lexeme::Identifier) => Beginning::Leaf(Kind::Forward),
        Some(Lexeme::KeyConst) => Beginning::Predict(Kind::Block, BLOCK),
        Some(Lexeme::KeyType) => Beginning::Predict(Kind::Block, BLOCK),
        Some(Lexeme::KeyVar) => Beginning::Predict(Kind::Block, BLOCK),
        Some(Lexeme::KeyProcedure) => Beginning::Predict(Kind::Block, BLOCK),
        Some(Lexeme::KeyFunction) => Beginning::Predict(Kind::Block, BLOCK),
        Some(Lexeme::KeyBegin) => Beginning::Predict(Kind::Block, BLOCK),
        Some(Lexeme::Hole(Sort::Block)) => Beginning::Open(Kind::Hole(Sort::Block), b"", &[]),
        Some(Lexeme::Hole(Sort::Routine)) => Beginning::Predict(Kind::Block, BLOCK),
        Some(Lexeme::Hole(Sort::Statement)) => Beginning::Predict(Kind::Block, BLOCK),
        _ => Beginning::Nothing,
    }
}

fn heads_beginning(next: Option<Lexeme>) -> Beginning
    ensures { start_view result ≡ heads_start next }
{
    match next {
        Some(Lexeme::OpenParen) => Beginning::Open(
            Kind::Heads,
            b"",
            &[Item::Kid(Class::Name), Item::Literal(Lexeme::CloseParen)],
        ),
        _ => Beginning::Blank(Kind::Heads),
    }
}

fn args_beginning(next: Option<Lexeme>) -> Beginning
    ensures { start_view result ≡ args_start next }
{
    match next {
        Some(Lexeme::OpenParen) => Beginning::Open(
            Kind::Args,
            b"",
            &[
                Item::Kid(Class::Argument),
                Item::Literal(Lexeme::CloseParen),
            ],
        ),
        _ => Beginning::Blank(Kind::Args),
    }
}

fn types_beginning(next: Option<Lexeme>) -> Beginning
    ensures { start_view result ≡ types_start next }
{
    match next {
        Some(Lexeme::KeyType) => { Beginning::Open(Kind::Types, b"", &[Item::Kid(Class::Typedef)]) }
        _ => Beginning::Blank(Kind::Types),
    }
}

fn typedef_beginning(next: Option<Lexeme>) -> Beginning
    ensures { start_view result ≡ typedef_start next }
{
    match next {
        Some(Lexeme::Identifier) => Beginning::Leaf(Kind::Name),
        Some(Lexeme::Hole(Sort::TypeDef)) => Beginning::Open(Kind::Hole(Sort::TypeDef), b"", &[]),
        Some(Lexeme::Hole(Sort::Name)) => Beginning::Open(Kind::Hole(Sort::Name), b"", &[]),
        _ => Beginning::Nothing,
    }
}

fn consts_beginning(next: Option<Lexeme>) -> Beginning
    ensures { start_view result ≡ consts_start next }
{
    match next {
        Some(Lexeme::KeyConst) => {
            Beginning::Open(Kind::Consts, b"", &[Item::Kid(Class::Constdef)])
        }
        _ => Beginning::Blank(Kind::Consts),
    }
}

fn constdef_beginning(next: Option<Lexeme>) -> Beginning
    ensures { start_view result ≡ constdef_start next }
{
    match next {
        Some(Lexeme::Identifier) => Beginning::Leaf(Kind::Name),
        Some(Lexeme::Hole(Sort::ConstDef)) => Beginning::Open(Kind::Hole(Sort::ConstDef), b"", &[]),
        Some(Lexeme::Hole(Sort::Name)) => Beginning::Open(Kind::Hole(Sort::Name), b"", &[]),
        _ => Beginning::Nothing,
    }
}

fn bare_beginning(next: Option<Lexeme>) -> Beginning
    ensures { start_view result ≡ bare_start next }
{
    match next {
        Some(Lexeme::Identifier) => Beginning::Leaf(Kind::Name),
        Some(Lexeme::Numeral) => Beginning::Leaf(Kind::Cnumber),
        Some(Lexeme::Hole(Sort::Constant)) => Beginning::Open(Kind::Hole(Sort::Constant), b"", &[]),
        Some(Lexeme::Hole(Sort::Name)) => Beginning::Open(Kind::Hole(Sort::Name), b"", &[]),
        _ => Beginning::Nothing,
    }
}

fn constant_beginning(next: Option<Lexeme>) -> Beginning
    ensures { start_view result ≡ constant_start next }
{
    if comes_next(Lexeme::Text, next) {
        Beginning::Leaf(Kind::Cstring)
    } else if comes_next(Lexeme::Plus, next) {
        Beginning::Open(Kind::Csign, b"+", &[Item::Kid(Class::Bare)])
    } else if comes_next(Lexeme::Minus, next) {
        Beginning::Open(Kind::Csign, b"-", &[Item::Kid(Class::Bare)])
    } else {
        bare_beginning(next)
    }
}

fn vars_beginning(next: Option<Lexeme>) -> Beginning
    ensures { start_view result ≡ vars_start next }
{
    match next {
        Some(Lexeme::KeyVar) => Beginning::Open(Kind::Vars, b"", &[Item::Kid(Class::Vardef)]),
        _ => Beginning::Blank(Kind::Vars),
    }
}

const VARDEF: &[Item] = &[
    Item::Kid(Class::Names),
    Item::Literal(Lexeme::Colon),
    Item::Kid(Class::Denoter),
    Item::Literal(Lexeme::Semicolon),
];

fn vardef_beginning(next: Option<Lexeme>) -> Beginning
    ensures { start_view result ≡ vardef_start next }
{
    match next {
        Some(Lexeme::Identifier) => Beginning::Predict(Kind::Vardef, VARDEF),
        Some(Lexeme::Hole(Sort::VarDef)) => Beginning::Open(Kind::Hole(Sort::VarDef), b"", &[]),
        Some(Lexeme::Hole(Sort::Name)) => Beginning::Predict(Kind::Vardef, VARDEF),
        _ => Beginning::Nothing,
    }
}

fn params_beginning(next: Option<Lexeme>) -> Beginning
    ensures { start_view result ≡ params_start next }
{
    match next {
        Some(Lexeme::OpenParen) => Beginning::Open(
            Kind::Params,
            b"",
            &[
                Item::Kid(Class::Parameter),
                Item::Literal(Lexeme::CloseParen),
            ],
        ),
        _ => Beginning::Blank(Kind::Params),
    }
}

const PARAMETER: &[Item] = &[
    Item::Kid(Class::Names),
    Item::Literal(Lexeme::Colon),
    Item::Kid(Class::Name),
];

fn parameter_beginning(next: Option<Lexeme>) -> Beginning
    ensures { start_view result ≡ parameter_start next }
{
    match next {
        Some(Lexeme::Identifier) => Beginning::Predict(Kind::Valparam, PARAMETER),
        Some(Lexeme::KeyVar) => Beginning::Open(Kind::Varparam, b"", PARAMETER),
        Some(Lexeme::Hole(Sort::Parameter)) => Beginning::Open(
            Kind::Hole(Sort::Parameter),
            b"",
            &[],
        ),
        Some(Lexeme::Hole(Sort::Name)) => Beginning::Predict(Kind::Valparam, PARAMETER),
        _ => Beginning::Nothing,
    }
}

const ROUTINES: &[Item] = &[Item::Kid(Class::Routine)];

fn routines_beginning(next: Option<Lexeme>) -> Beginning
    ensures { start_view result ≡ routines_start next }
{
    match next {
        Some(Lexeme::KeyProcedure) => Beginning::Predict(Kind::Routines, ROUTINES),
        Some(Lexeme::KeyFunction) => Beginning::Predict(Kind::Routines, ROUTINES),
        Some(Lexeme::Hole(Sort::Routine)) => Beginning::Predict(Kind::Routines, ROUTINES),
        _ => Beginning::Blank(Kind::Routines),
    }
}

const PROCEDURE: &[Item] = &[
    Item::Kid(Class::Name),
    Item::Kid(Class::Params),
    Item::Literal(Lexeme::Semicolon),
    Item::Kid(Class::Block),
    Item::Literal(Lexeme::Semicolon),
];

/// A function without parameters and result, as one that was announced before.
const FUNBODY: &[Item] = &[
    Item::Kid(Class::Name),
    Item::Literal(Lexeme::Semicolon),
    Item::Kid(Class::Block),
    Item::Literal(Lexeme::Semicolon),
];

fn routine_beginning(next: Option<Lexeme>) -> Beginning
    ensures { start_view result ≡ routine_start next }
{
    match next {
        Some(Lexeme::KeyProcedure) => Beginning::Open(Kind::Procedure, b"", PROCEDURE),
        Some(Lexeme::KeyFunction) => Beginning::Open(Kind::Funbody, b"", FUNBODY),
        Some(Lexeme::Hole(Sort::Routine)) => Beginning::Open(Kind::Hole(Sort::Routine), b"", &[]),
        _ => Beginning::Nothing,
    }
}

const FIELD: &[Item] = &[
    Item::Kid(Class::Names),
    Item::Literal(Lexeme::Colon),
    Item::Kid(Class::Denoter),
];

fn field_beginning(next: Option<Lexeme>) -> Beginning
    ensures { start_view result ≡ field_start next }
{
    match next {
        Some(Lexeme::Identifier) => Beginning::Predict(Kind::Field, FIELD),
        Some(Lexeme::Hole(Sort::Field)) => Beginning::Open(Kind::Hole(Sort::Field), b"", &[]),
        Some(Lexeme::Hole(Sort::Name)) => Beginning::Predict(Kind::Field, FIELD),
        _ => Beginning::Nothing,
    }
}

fn fields_beginning(next: Option<Lexeme>) -> Beginning
    ensures { start_view result ≡ fields_start next }
{
    match next {
        Some(Lexeme::KeyEnd) => Beginning::Nothing,
        _ => Beginning::Predict(Kind::Fields, &[Item::Kid(Class::Field)]),
    }
}

fn ordinal_beginning(next: Option<Lexeme>) -> Beginning
    ensures { start_view result ≡ ordinal_start next }
{
    if comes_next(Lexeme::OpenParen, next) {
        Beginning::Open(
            Kind::Enum,
            b"",
            &[Item::Kid(Class::Names), Item::Literal(Lexeme::CloseParen)],
        )
    } else if comes_next(Lexeme::Hole(Sort::Denoter), next) {
        Beginning::Open(Kind::Hole(Sort::Denoter), b"", &[])
    } else {
        constant_beginning(next)
    }
}

const ARRAY: &[Item] = &[
    Item::Literal(Lexeme::OpenBracket),
    Item::Kid(Class::Indexes),
    Item::Literal(Lexeme::CloseBracket),
    Item::Literal(Lexeme::KeyOf),
    Item::Kid(Class::Denoter),
];

fn structured_beginning(next: Option<Lexeme>) -> Beginning
    ensures { start_view result ≡ structured_start next }
{
    match next {
        Some(Lexeme::KeyArray) => Beginning::Open(Kind::Array, b"", ARRAY),
        Some(Lexeme::KeyRecord) => Beginning::Open(
            Kind::Record,
            b"",
            &[Item::Kid(Class::Fields), Item::Literal(Lexeme::KeyEnd)],
        ),
        Some(Lexeme::KeySet) => Beginning::Open(
            Kind::Setof,
            b"",
            &[Item::Literal(Lexeme::KeyOf), Item::Kid(Class::Ordinal)],
        ),
        Some(Lexeme::Hole(Sort::Denoter)) => Beginning::Open(Kind::Hole(Sort::Denoter), b"", &[]),
        _ => Beginning::Nothing,
    }
}

fn is_structure(next: Option<Lexeme>) -> bool
    ensures { result ≡ is_structure next }
{
    match next {
        Some(Lexeme::KeyArray) => true,
        Some(Lexeme::KeyRecord) => true,
        Some(Lexeme::KeySet) => true,
        _ => false,
    }
}

fn denoter_beginning(next: Option<Lexeme>) -> Beginning
    ensures { start_view result ≡ denoter_start next }
{
    if comes_next(Lexeme::KeyPacked, next) {
        Beginning::Open(Kind::Packed, b"", &[Item::Kid(Class::Structured)])
    } else if comes_next(Lexeme::Caret, next) {
        Beginning::Open(Kind::Pointer, b"", &[Item::Kid(Class::Name)])
    } else if is_structure(next) {
        structured_beginning(next)
    } else {
        ordinal_beginning(next)
    }
}

const COMPOUND: &[Item] = &[Item::Kid(Class::Stmts), Item::Literal(Lexeme::KeyEnd)];

fn body_beginning(next: Option<Lexeme>) -> Beginning
    ensures { start_view result ≡ body_start next }
{
    match next {
        Some(Lexeme::KeyBegin) => Beginning::Open(Kind::Compound, b"", COMPOUND),
        Some(Lexeme::Hole(Sort::Statement)) => Beginning::Open(
            Kind::Hole(Sort::Statement),
            b"",
            &[],
        ),
        _ => Beginning::Nothing,
    }
}

const CASE: &[Item] = &[
    Item::Kid(Class::Expression),
    Item::Literal(Lexeme::KeyOf),
    Item::Kid(Class::Arms),
    Item::Literal(Lexeme::KeyEnd),
];

const REPEAT: &[Item] = &[
    Item::Kid(Class::Stmts),
    Item::Literal(Lexeme::KeyUntil),
    Item::Kid(Class::Expression),
];

const FOR: &[Item] = &[
    Item::Kid(Class::Name),
    Item::Literal(Lexeme::Becomes),
    Item::Kid(Class::Expression),
    Item::Literal(Lexeme::KeyTo),
    Item::Kid(Class::Expression),
    Item::Literal(Lexeme::KeyDo),
    Item::Kid(Class::Statement),
];

const WITH: &[Item] = &[
    Item::Kid(Class::Accesses),
    Item::Literal(Lexeme::KeyDo),
    Item::Kid(Class::Statement),
];

fn statement_beginning(next: Option<Lexeme>) -> Beginning
    ensures { start_view result ≡ statement_start next }
{
    match next {
        Some(Lexeme::Identifier) => Beginning::Leaf(Kind::Name),
        Some(Lexeme::KeyBegin) => Beginning::Open(Kind::Compound, b"", COMPOUND),
        Some(Lexeme::KeyIf) => Beginning::Open(
            Kind::If,
            b"",
            &[
                Item::Kid(Class::Expression),
                Item::Literal(Lexeme::KeyThen),
                Item::Kid(Class::Statement),
            ],
        ),
        Some(Lexeme::KeyWhile) => Beginning::Open(
            Kind::While,
            b"",
            &[
                Item::Kid(Class::Expression),
                Item::Literal(Lexeme::KeyDo),
                Item::Kid(Class::Statement),
            ],
        ),
        Some(Lexeme::KeyCase) => Beginning::Open(Kind::Case, b"", CASE),
        Some(Lexeme::KeyRepeat) => Beginning::Open(Kind::Repeat, b"", REPEAT),
        Some(Lexeme::KeyFor) => Beginning::Open(Kind::For, b"to", FOR),
        Some(Lexeme::KeyWith) => Beginning::Open(Kind::With, b"", WITH),
        Some(Lexeme::Hole(Sort::Statement)) => Beginning::Open(
            Kind::Hole(Sort::Statement),
            b"",
            &[],
        ),
        Some(Lexeme::Hole(Sort::Expression)) => Beginning::Open(
            Kind::Hole(Sort::Expression),
            b"",
            &[],
        ),
        Some(Lexeme::Hole(Sort::Name)) => Beginning::Open(Kind::Hole(Sort::Name), b"", &[]),
        _ => Beginning::Blank(Kind::Empty),
    }
}

const ARM: &[Item] = &[
    Item::Kid(Class::Labels),
    Item::Literal(Lexeme::Colon),
    Item::Kid(Class::Statement),
];

fn arm_beginning(next: Option<Lexeme>) -> Beginning
    ensures { start_view result ≡ arm_start next }
{
    match next {
        Some(Lexeme::Identifier) => Beginning::Predict(Kind::Arm, ARM),
        Some(Lexeme::Numeral) => Beginning::Predict(Kind::Arm, ARM),
        Some(Lexeme::Text) => Beginning::Predict(Kind::Arm, ARM),
        Some(Lexeme::Plus) => Beginning::Predict(Kind::Arm, ARM),
        Some(Lexeme::Minus) => Beginning::Predict(Kind::Arm, ARM),
        Some(Lexeme::Hole(Sort::Arm)) => Beginning::Open(Kind::Hole(Sort::Arm), b"", &[]),
        Some(Lexeme::Hole(Sort::Constant)) => Beginning::Predict(Kind::Arm, ARM),
        Some(Lexeme::Hole(Sort::Name)) => Beginning::Predict(Kind::Arm, ARM),
        _ => Beginning::Nothing,
    }
}

fn factor_beginning(next: Option<Lexeme>) -> Beginning
    ensures { start_view result ≡ factor_start next }
{
    match next {
        Some(Lexeme::Identifier) => Beginning::Leaf(Kind::Name),
        Some(Lexeme::Numeral) => Beginning::Leaf(Kind::Number),
        Some(Lexeme::Text) => Beginning::Leaf(Kind::Text),
        Some(Lexeme::KeyNil) => Beginning::Open(Kind::Nil, b"", &[]),
        Some(Lexeme::KeyNot) => Beginning::Open(Kind::Not, b"", &[Item::Kid(Class::Factor)]),
        Some(Lexeme::OpenBracket) => Beginning::Open(
            Kind::Setcon,
            b"",
            &[
                Item::Kid(Class::Members),
                Item::Literal(Lexeme::CloseBracket),
            ],
        ),
        Some(Lexeme::OpenParen) => Beginning::Open(
            Kind::Parens,
            b"",
            &[
                Item::Kid(Class::Expression),
                Item::Literal(Lexeme::CloseParen),
            ],
        ),
        Some(Lexeme::Hole(Sort::Expression)) => Beginning::Open(
            Kind::Hole(Sort::Expression),
            b"",
            &[],
        ),
        Some(Lexeme::Hole(Sort::Name)) => Beginning::Open(Kind::Hole(Sort::Name), b"", &[]),
        _ => Beginning::Nothing,
    }
}

fn simple_beginning(next: Option<Lexeme>) -> Beginning
    ensures { start_view result ≡ simple_start next }
{
    if comes_next(Lexeme::Plus, next) {
        Beginning::Open(Kind::Sign, b"+", &[Item::Kid(Class::Term)])
    } else if comes_next(Lexeme::Minus, next) {
        Beginning::Open(Kind::Sign, b"-", &[Item::Kid(Class::Term)])
    } else {
        factor_beginning(next)
    }
}

fn members_beginning(next: Option<Lexeme>) -> Beginning
    ensures { start_view result ≡ members_start next }
{
    match next {
        Some(Lexeme::CloseBracket) => Beginning::Blank(Kind::Members),
        _ => Beginning::Predict(Kind::Members, &[Item::Kid(Class::Member)]),
    }
}
