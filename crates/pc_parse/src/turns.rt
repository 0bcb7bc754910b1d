//! How a node goes on at a symbol that isn't the next of its items.

ghost use Rattle.std.specs.Prelude.{◌≡◌};
ghost use Rattle.pc_parse.specs.Tables.{switch, recast, closes, turned_word, again};
ghost use Rattle.pc_parse.specs.Views.{switch_view};

use pc_syntax::{Class, Item, Kind, Lexeme, Sort};

/// The kind and the items with which a node goes on at the next symbol, which it takes, where it
/// isn't the next of its items.
pub fn turn(kind: Kind, items: &[Item], next: Option<Lexeme>) -> Option<(Kind, &'static [Item])>
    ensures { switch_view result ≡ switch kind items.now next }
{
    match kind {
        Kind::If => if_turn(items, next),
        Kind::For => for_turn(items, next),
        Kind::Stmts => stmts_turn(items, next),
        Kind::Arms => arms_turn(items, next),
        Kind::Fields => fields_turn(items, next),
        Kind::Labels => labels_turn(items, next),
        Kind::Indexes => indexes_turn(items, next),
        Kind::Exprs => exprs_turn(items, next),
        Kind::Accesses => accesses_turn(items, next),
        Kind::Members => members_turn(items, next),
        Kind::Names => names_turn(items, next),
        Kind::Args => args_turn(items, next),
        Kind::Params => params_turn(items, next),
        Kind::Heads => heads_turn(items, next),
        _ => None,
    }
}

fn if_turn(items: &[Item], next: Option<Lexeme>) -> Option<(Kind, &'static [Item])>
    ensures { switch_view result ≡ switch Kind.If items.now next }
{
    match items {
        [] => match next {
            Some(Lexeme::KeyElse) => Some((Kind::Ifelse, &[Item::Kid(Class::Statement)])),
            _ => None,
        },
        _ => None,
    }
}

const DOWN: &[Item] = &[
    Item::Kid(Class::Expression),
    Item::Literal(Lexeme::KeyDo),
    Item::Kid(Class::Statement),
];

fn for_turn(items: &[Item], next: Option<Lexeme>) -> Option<(Kind, &'static [Item])>
    ensures { switch_view result ≡ switch Kind.For items.now next }
{
    match items {
        [Item::Literal(Lexeme::KeyTo), ..] => match next {
            Some(Lexeme::KeyDownto) => Some((Kind::For, DOWN)),
            _ => None,
        },
        _ => None,
    }
}

fn stmts_turn(items: &[Item], next: Option<Lexeme>) -> Option<(Kind, &'static [Item])>
    ensures { switch_view result ≡ switch Kind.Stmts items.now next }
{
    match items {
        [] => match next {
            Some(Lexeme::Semicolon) => Some((Kind::Stmts, &[Item::Kid(Class::Statement)])),
            _ => None,
        },
        _ => None,
    }
}

fn arms_turn(items: &[Item], next: Option<Lexeme>) -> Option<(Kind, &'static [Item])>
    ensures { switch_view result ≡ switch Kind.Arms items.now next }
{
    match items {
        [] => match next {
            Some(Lexeme::Semicolon) => Some((Kind::Arms, &[Item::Kid(Class::Arm)])),
            _ => None,
        },
        _ => None,
    }
}

fn fields_turn(items: &[Item], next: Option<Lexeme>) -> Option<(Kind, &'static [Item])>
    ensures { switch_view result ≡ switch Kind.Fields items.now next }
{
    match items {
        [] => match next {
            Some(Lexeme::Semicolon) => Some((Kind::Fields, &[Item::Kid(Class::Field)])),
            _ => None,
        },
        _ => None,
    }
}

fn labels_turn(items: &[Item], next: Option<Lexeme>) -> Option<(Kind, &'static [Item])>
    ensures { switch_view result ≡ switch Kind.Labels items.now next }
{
    match items {
        [] => match next {
            Some(Lexeme::Comma) => Some((Kind::Labels, &[Item::Kid(Class::Constant)])),
            _ => None,
        },
        _ => None,
    }
}

fn indexes_turn(items: &[Item], next: Option<Lexeme>) -> Option<(Kind, &'static [Item])>
    ensures { switch_view result ≡ switch Kind.Indexes items.now next }
{
    match items {
        [] => match next {
            Some(Lexeme::Comma) => Some((Kind::Indexes, &[Item::Kid(Class::Ordinal)])),
            _ => None,
        },
        _ => None,
    }
}

fn exprs_turn(items: &[Item], next: Option<Lexeme>) -> Option<(Kind, &'static [Item])>
    ensures { switch_view result ≡ switch Kind.Exprs items.now next }
{
    match items {
        [] => match next {
            Some(Lexeme::Comma) => Some((Kind::Exprs, &[Item::Kid(Class::Expression)])),
            _ => None,
        },
        _ => None,
    }
}

fn accesses_turn(items: &[Item], next: Option<Lexeme>) -> Option<(Kind, &'static [Item])>
    ensures { switch_view result ≡ switch Kind.Accesses items.now next }
{
    match items {
        [] => match next {
            Some(Lexeme::Comma) => Some((Kind::Accesses, &[Item::Kid(Class::Access)])),
            _ => None,
        },
        _ => None,
    }
}

fn members_turn(items: &[Item], next: Option<Lexeme>) -> Option<(Kind, &'static [Item])>
    ensures { switch_view result ≡ switch Kind.Members items.now next }
{
    match items {
        [] => match next {
            Some(Lexeme::Comma) => Some((Kind::Members, &[Item::Kid(Class::Member)])),
            _ => None,
        },
        _ => None,
    }
}

fn names_turn(items: &[Item], next: Option<Lexeme>) -> Option<(Kind, &'static [Item])>
    ensures { switch_view result ≡ switch Kind.Names items.now next }
{
    match items {
        [] => match next {
            Some(Lexeme::Comma) => Some((Kind::Names, &[Item::Kid(Class::Name)])),
            _ => None,
        },
        _ => None,
    }
}

fn args_turn(items: &[Item], next: Option<Lexeme>) -> Option<(Kind, &'static [Item])>
    ensures { switch_view result ≡ switch Kind.Args items.now next }
{
    match items {
        [Item::Literal(Lexeme::CloseParen)] => match next {
            Some(Lexeme::Comma) => Some((
                Kind::Args,
                &[
                    Item::Kid(Class::Argument),
                    Item::Literal(Lexeme::CloseParen),
                ],
            )),
            _ => None,
        },
        _ => None,
    }
}

fn params_turn(items: &[Item], next: Option<Lexeme>) -> Option<(Kind, &'static [Item])>
    ensures { switch_view result ≡ switch Kind.Params items.now next }
{
    match items {
        [Item::Literal(Lexeme::CloseParen)] => match next {
            Some(Lexeme::Semicolon) => Some((
                Kind::Params,
                &[
                    Item::Kid(Class::Parameter),
                    Item::Literal(Lexeme::CloseParen),
                ],
            )),
            _ => None,
        },
        _ => None,
    }
}

fn heads_turn(items: &[Item], next: Option<Lexeme>) -> Option<(Kind, &'static [Item])>
    ensures { switch_view result ≡ switch Kind.Heads items.now next }
{
    match items {
        [Item::Literal(Lexeme::CloseParen)] => match next {
            Some(Lexeme::Comma) => Some((
                Kind::Heads,
                &[Item::Kid(Class::Name), Item::Literal(Lexeme::CloseParen)],
            )),
            _ => None,
        },
        _ => None,
    }
}

const RESULT: &[Item] = &[
    Item::Kid(Class::Params),
    Item::Literal(Lexeme::Colon),
    Item::Kid(Class::Name),
    Item::Literal(Lexeme::Semicolon),
    Item::Kid(Class::Block),
    Item::Literal(Lexeme::Semicolon),
];

/// The kind and the items with which a node goes on at the next symbol, which it leaves, where its
/// next item can't come.
pub fn recast(kind: Kind, items: &[Item], next: Option<Lexeme>) -> Option<(Kind, &'static [Item])>
    ensures { switch_view result ≡ recast kind items.now next }
{
    match kind {
        Kind::Funbody => funbody_recast(items, next),
        Kind::Record => record_recast(items, next),
        _ => None,
    }
}

fn funbody_recast(items: &[Item], next: Option<Lexeme>) -> Option<(Kind, &'static [Item])>
    ensures { switch_view result ≡ recast Kind.Funbody items.now next }
{
    match items {
        [
            Item::Literal(Lexeme::Semicolon),
            Item::Kid(Class::Block),
            Item::Literal(Lexeme::Semicolon),
        ] => match next {
            Some(Lexeme::OpenParen) => Some((Kind::Function, RESULT)),
            Some(Lexeme::Colon) => Some((Kind::Function, RESULT)),
            _ => None,
        },
        _ => None,
    }
}

fn record_recast(items: &[Item], next: Option<Lexeme>) -> Option<(Kind, &'static [Item])>
    ensures { switch_view result ≡ recast Kind.Record items.now next }
{
    match items {
        [Item::Kid(Class::Fields), Item::Literal(Lexeme::KeyEnd)] => match next {
            Some(Lexeme::KeyEnd) => Some((Kind::Record0, &[Item::Literal(Lexeme::KeyEnd)])),
            _ => None,
        },
        _ => None,
    }
}

/// Whether a list of the first kind that awaits a further element, where none can come, ends in
/// front of its last separator, which is then the last `;` of the node of the second kind that
/// awaits the list.
pub fn closes(list: Kind, more: &[Item], kind: Kind, items: &[Item]) -> bool
    ensures { result ≡ closes list more.now kind items.now }
{
    match list {
        Kind::Arms => arms_close(more, kind, items),
        Kind::Fields => fields_close(more, kind, items),
        _ => false,
    }
}

fn arms_close(more: &[Item], kind: Kind, items: &[Item]) -> bool
    ensures { result ≡ closes Kind.Arms more.now kind items.now }
{
    match more {
        [Item::Kid(Class::Arm)] => match kind {
            Kind::Case => match items {
                [Item::Kid(Class::Arms), Item::Literal(Lexeme::KeyEnd)] => true,
                _ => false,
            },
            _ => false,
        },
        _ => false,
    }
}

fn fields_close(more: &[Item], kind: Kind, items: &[Item]) -> bool
    ensures { result ≡ closes Kind.Fields more.now kind items.now }
{
    match more {
        [Item::Kid(Class::Field)] => match kind {
            Kind::Record => match items {
                [Item::Kid(Class::Fields), Item::Literal(Lexeme::KeyEnd)] => true,
                _ => false,
            },
            _ => false,
        },
        _ => false,
    }
}

/// The word of a node that goes on at a symbol that it takes: a loop that was taken for one upwards goes downwards.
pub fn turned_word<'a>(kind: Kind, word: &'a [u8]) -> &'a [u8]
    ensures { result.now ≡ turned_word kind word.now }
{
    match kind {
        Kind::For => b"downto",
        _ => word,
    }
}

/// The class of a further element of a list without separators, where one begins at the next symbol.
pub fn next_element(kind: Kind, next: Option<Lexeme>) -> Option<Class>
    ensures { result ≡ again kind next }
{
    match kind {
        Kind::Consts => match next {
            Some(Lexeme::Identifier) => Some(Class::Constdef),
            Some(Lexeme::Hole(Sort::ConstDef)) => Some(Class::Constdef),
            Some(Lexeme::Hole(Sort::Name)) => Some(Class::Constdef),
            _ => None,
        },
        Kind::Types => match next {
            Some(Lexeme::Identifier) => Some(Class::Typedef),
            Some(Lexeme::Hole(Sort::TypeDef)) => Some(Class::Typedef),
            Some(Lexeme::Hole(Sort::Name)) => Some(Class::Typedef),
            _ => None,
        },
        Kind::Vars => match next {
            Some(Lexeme::Identifier) => Some(Class::Vardef),
            Some(Lexeme::Hole(Sort::VarDef)) => Some(Class::Vardef),
            Some(Lexeme::Hole(Sort::Name)) => Some(Class::Vardef),
            _ => None,
        },
        Kind::Routines => match next {
            Some(Lexeme::KeyProcedure) => Some(Class::Routine),
            Some(Lexeme::KeyFunction) => Some(Class::Routine),
            Some(Lexeme::Hole(Sort::Routine)) => Some(Class::Routine),
            _ => None,
        },
        _ => None,
    }
}
