//! What a node is made of, as printing walks over it.

ghost use Rattle.std.specs.Prelude.{◌≡◌, ◌++◌, ◌∷◌, [], ℕ, List, Some, None, Option, IfOk, IsSome};
ghost use Rattle.pc_syntax.specs.Layout.{layout};
ghost use Rattle.pc_layout.specs.Items.{items_of};
ghost use Rattle.pc_syntax.specs.declared.item.Item.{Item};
ghost use Rattle.pc_syntax.specs.declared.lexeme.Lexeme.{Lexeme};

use crate::made::{around, elements, last_semicolon};
use pc_syntax::{Class, Item, Kind, Lexeme, Sort};
use std::alloc::{AllocError, Global};

/// The items of a node.
#[derive(Drop)]
pub enum Items {
    Fixed(&'static [Item]),
    Made(Vec<Item>),
}

impl Items {
    /// The items, in order.
    pub fn as_slice(&self) -> &[Item]
        ensures { result.now ≡ items_of self.now }
    {
        match self {
            Items::Fixed(items) => items,
            Items::Made(items) => items.as_slice(),
        }
    }
}

/// The items of a node with this kind, word and number of kids.
#[tactic(auto, using(crate::proofs::ItemLaws::wordless_is, crate::proofs::ItemLaws::spelled_is))]
pub fn node_items(alloc: Global, kind: Kind, word: &[u8], kids: usize) -> Result<Items, AllocError>
    requires { IsSome (layout kind word.now kids) }
    ensures { IfOk result (λ items. layout kind word.now kids ≡ Some (items_of items)) }
{
    match kind {
        Kind::Program => Ok(Items::Fixed(&[
            Item::Literal(Lexeme::KeyProgram),
            Item::Kid(Class::Name),
            Item::Kid(Class::Heads),
            Item::Literal(Lexeme::Semicolon),
            Item::Kid(Class::Block),
            Item::Literal(Lexeme::Dot),
        ])),
        Kind::Block => Ok(Items::Fixed(&[
            Item::Kid(Class::Consts),
            Item::Kid(Class::Types),
            Item::Kid(Class::Vars),
            Item::Kid(Class::Routines),
            Item::Kid(Class::Body),
        ])),
        Kind::Forward => Ok(Items::Fixed(&[Item::Word(Lexeme::Identifier)])),
        Kind::Constdef => Ok(Items::Fixed(&[
            Item::Kid(Class::Name),
            Item::Literal(Lexeme::Equal),
            Item::Kid(Class::Constant),
            Item::Literal(Lexeme::Semicolon),
        ])),
        Kind::Typedef => Ok(Items::Fixed(&[
            Item::Kid(Class::Name),
            Item::Literal(Lexeme::Equal),
            Item::Kid(Class::Denoter),
            Item::Literal(Lexeme::Semicolon),
        ])),
        Kind::Vardef => Ok(Items::Fixed(&[
            Item::Kid(Class::Names),
            Item::Literal(Lexeme::Colon),
            Item::Kid(Class::Denoter),
            Item::Literal(Lexeme::Semicolon),
        ])),
        Kind::Field => Ok(Items::Fixed(&[
            Item::Kid(Class::Names),
            Item::Literal(Lexeme::Colon),
            Item::Kid(Class::Denoter),
        ])),
        Kind::Valparam => Ok(Items::Fixed(&[
            Item::Kid(Class::Names),
            Item::Literal(Lexeme::Colon),
            Item::Kid(Class::Name),
        ])),
        Kind::Varparam => Ok(Items::Fixed(&[
            Item::Literal(Lexeme::KeyVar),
            Item::Kid(Class::Names),
            Item::Literal(Lexeme::Colon),
            Item::Kid(Class::Name),
        ])),
        Kind::Procedure => Ok(Items::Fixed(&[
            Item::Literal(Lexeme::KeyProcedure),
            Item::Kid(Class::Name),
            Item::Kid(Class::Params),
            Item::Literal(Lexeme::Semicolon),
            Item::Kid(Class::Block),
            Item::Literal(Lexeme::Semicolon),
        ])),
        Kind::Function => Ok(Items::Fixed(&[
            Item::Literal(Lexeme::KeyFunction),
            Item::Kid(Class::Name),
            Item::Kid(Class::Params),
            Item::Literal(Lexeme::Colon),
            Item::Kid(Class::Name),
            Item::Literal(Lexeme::Semicolon),
            Item::Kid(Class::Block),
            Item::Literal(Lexeme::Semicolon),
        ])),
        Kind::Funbody => Ok(Items::Fixed(&[
            Item::Literal(Lexeme::KeyFunction),
            Item::Kid(Class::Name),
            Item::Literal(Lexeme::Semicolon),
            Item::Kid(Class::Block),
            Item::Literal(Lexeme::Semicolon),
        ])),
        Kind::Tname => Ok(Items::Fixed(&[Item::Kid(Class::Name)])),
        Kind::Enum => Ok(Items::Fixed(&[
            Item::Literal(Lexeme::OpenParen),
            Item::Kid(Class::Names),
            Item::Literal(Lexeme::CloseParen),
        ])),
        Kind::Subrange => Ok(Items::Fixed(&[
            Item::Kid(Class::Constant),
            Item::Literal(Lexeme::DotDot),
            Item::Kid(Class::Constant),
        ])),
        Kind::Array => Ok(Items::Fixed(&[
            Item::Literal(Lexeme::KeyArray),
            Item::Literal(Lexeme::OpenBracket),
            Item::Kid(Class::Indexes),
            Item::Literal(Lexeme::CloseBracket),
            Item::Literal(Lexeme::KeyOf),
            Item::Kid(Class::Denoter),
        ])),
        Kind::Record => last_semicolon(
            alloc,
            word,
            &[Item::Literal(Lexeme::KeyRecord), Item::Kid(Class::Fields)],
            &[Item::Literal(Lexeme::KeyEnd)],
        ),
        Kind::Record0 => Ok(Items::Fixed(&[
            Item::Literal(Lexeme::KeyRecord),
            Item::Literal(Lexeme::KeyEnd),
        ])),
        Kind::Setof => Ok(Items::Fixed(&[
            Item::Literal(Lexeme::KeySet),
            Item::Literal(Lexeme::KeyOf),
            Item::Kid(Class::Ordinal),
        ])),
        Kind::Packed => Ok(Items::Fixed(&[
            Item::Literal(Lexeme::KeyPacked),
            Item::Kid(Class::Structured),
        ])),
        Kind::Pointer => Ok(Items::Fixed(&[Item::Literal(Lexeme::Caret), Item::Kid(Class::Name)])),
        Kind::Cnumber => Ok(Items::Fixed(&[Item::Word(Lexeme::Numeral)])),
        Kind::Cstring => Ok(Items::Fixed(&[Item::Word(Lexeme::Text)])),
        Kind::Cname => Ok(Items::Fixed(&[Item::Kid(Class::Name)])),
        Kind::Csign => around(
            alloc,
            &[Lexeme::Plus, Lexeme::Minus],
            word,
            &[],
            &[Item::Kid(Class::Bare)],
        ),
        Kind::Empty => Ok(Items::Fixed(&[])),
        Kind::Assign => Ok(Items::Fixed(&[
            Item::Kid(Class::Access),
            Item::Literal(Lexeme::Becomes),
            Item::Kid(Class::Expression),
        ])),
        Kind::Proc => Ok(Items::Fixed(&[Item::Kid(Class::Name), Item::Kid(Class::Args)])),
        Kind::Compound => Ok(Items::Fixed(&[
            Item::Literal(Lexeme::KeyBegin),
            Item::Kid(Class::Stmts),
            Item::Literal(Lexeme::KeyEnd),
        ])),
        Kind::If => Ok(Items::Fixed(&[
            Item::Literal(Lexeme::KeyIf),
            Item::Kid(Class::Expression),
            Item::Literal(Lexeme::KeyThen),
            Item::Kid(Class::Statement),
        ])),
        Kind::Ifelse => Ok(Items::Fixed(&[
            Item::Literal(Lexeme::KeyIf),
            Item::Kid(Class::Expression),
            Item::Literal(Lexeme::KeyThen),
            Item::Kid(Class::Statement),
            Item::Literal(Lexeme::KeyElse),
            Item::Kid(Class::Statement),
        ])),
        Kind::Case => last_semicolon(
            alloc,
            word,
            &[
                Item::Literal(Lexeme::KeyCase),
                Item::Kid(Class::Expression),
                Item::Literal(Lexeme::KeyOf),
                Item::Kid(Class::Arms),
            ],
            &[Item::Literal(Lexeme::KeyEnd)],
        ),
        Kind::Arm => Ok(Items::Fixed(&[
            Item::Kid(Class::Labels),
            Item::Literal(Lexeme::Colon),
            Item::Kid(Class::Statement),
        ])),
        Kind::Repeat => Ok(Items::Fixed(&[
            Item::Literal(Lexeme::KeyRepeat),
            Item::Kid(Class::Stmts),
            Item::Literal(Lexeme::KeyUntil),
            Item::Kid(Class::Expression),
        ])),
        Kind::While => Ok(Items::Fixed(&[
            Item::Literal(Lexeme::KeyWhile),
            Item::Kid(Class::Expression),
            Item::Literal(Lexeme::KeyDo),
            Item::Kid(Class::Statement),
        ])),
        Kind::For => around(
            alloc,
            &[Lexeme::KeyTo, Lexeme::KeyDownto],
            word,
            &[
                Item::Literal(Lexeme::KeyFor),
                Item::Kid(Class::Name),
                Item::Literal(Lexeme::Becomes),
                Item::Kid(Class::Expression),
            ],
            &[
                Item::Kid(Class::Expression),
                Item::Literal(Lexeme::KeyDo),
                Item::Kid(Class::Statement),
            ],
        ),
        Kind::With => Ok(Items::Fixed(&[
            Item::Literal(Lexeme::KeyWith),
            Item::Kid(Class::Accesses),
            Item::Literal(Lexeme::KeyDo),
            Item::Kid(Class::Statement),
        ])),
        Kind::Ref => Ok(Items::Fixed(&[Item::Kid(Class::Name)])),
        Kind::Index => Ok(Items::Fixed(&[
            Item::Kid(Class::Access),
            Item::Literal(Lexeme::OpenBracket),
            Item::Kid(Class::Exprs),
            Item::Literal(Lexeme::CloseBracket),
        ])),
        Kind::Select => Ok(Items::Fixed(&[
            Item::Kid(Class::Access),
            Item::Literal(Lexeme::Dot),
            Item::Kid(Class::Name),
        ])),
        Kind::Deref => Ok(Items::Fixed(&[Item::Kid(Class::Access), Item::Literal(Lexeme::Caret)])),
        Kind::Number => Ok(Items::Fixed(&[Item::Word(Lexeme::Numeral)])),
        Kind::Text => Ok(Items::Fixed(&[Item::Word(Lexeme::Text)])),
        Kind::Nil => Ok(Items::Fixed(&[Item::Literal(Lexeme::KeyNil)])),
        Kind::Call => Ok(Items::Fixed(&[
            Item::Kid(Class::Name),
            Item::Literal(Lexeme::OpenParen),
            Item::Kid(Class::Exprs),
            Item::Literal(Lexeme::CloseParen),
        ])),
        Kind::Parens => Ok(Items::Fixed(&[
            Item::Literal(Lexeme::OpenParen),
            Item::Kid(Class::Expression),
            Item::Literal(Lexeme::CloseParen),
        ])),
        Kind::Not => Ok(Items::Fixed(&[Item::Literal(Lexeme::KeyNot), Item::Kid(Class::Factor)])),
        Kind::Setcon => Ok(Items::Fixed(&[
            Item::Literal(Lexeme::OpenBracket),
            Item::Kid(Class::Members),
            Item::Literal(Lexeme::CloseBracket),
        ])),
        Kind::Mul => around(
            alloc,
            &[Lexeme::Star, Lexeme::KeyDiv, Lexeme::KeyMod, Lexeme::KeyAnd],
            word,
            &[Item::Kid(Class::Term)],
            &[Item::Kid(Class::Factor)],
        ),
        Kind::Add => around(
            alloc,
            &[Lexeme::Plus, Lexeme::Minus, Lexeme::KeyOr],
            word,
            &[Item::Kid(Class::Simple)],
            &[Item::Kid(Class::Term)],
        ),
        Kind::Sign => around(
            alloc,
            &[Lexeme::Plus, Lexeme::Minus],
            word,
            &[],
            &[Item::Kid(Class::Term)],
        ),
        Kind::Rel => around(
            alloc,
            &[
                Lexeme::Equal,
                Lexeme::Unequal,
                Lexeme::Less,
                Lexeme::Greater,
                Lexeme::AtMost,
                Lexeme::AtLeast,
                Lexeme::KeyIn,
            ],
            word,
            &[Item::Kid(Class::Simple)],
            &[Item::Kid(Class::Simple)],
        ),
        Kind::Width => Ok(Items::Fixed(&[
            Item::Kid(Class::Expression),
            Item::Literal(Lexeme::Colon),
            Item::Kid(Class::Expression),
        ])),
        Kind::Span => Ok(Items::Fixed(&[
            Item::Kid(Class::Expression),
            Item::Literal(Lexeme::DotDot),
            Item::Kid(Class::Expression),
        ])),
        Kind::Name => Ok(Items::Fixed(&[Item::Word(Lexeme::Identifier)])),
        Kind::Heads => elements(
            alloc,
            &[Item::Literal(Lexeme::OpenParen)],
            Some(Lexeme::Comma),
            Class::Name,
            &[Item::Literal(Lexeme::CloseParen)],
            kids,
        ),
        Kind::Args => elements(
            alloc,
            &[Item::Literal(Lexeme::OpenParen)],
            Some(Lexeme::Comma),
            Class::Argument,
            &[Item::Literal(Lexeme::CloseParen)],
            kids,
        ),
        Kind::Params => elements(
            alloc,
            &[Item::Literal(Lexeme::OpenParen)],
            Some(Lexeme::Semicolon),
            Class::Parameter,
            &[Item::Literal(Lexeme::CloseParen)],
            kids,
        ),
        Kind::Names => elements(alloc, &[], Some(Lexeme::Comma), Class::Name, &[], kids),
        Kind::Labels => elements(alloc, &[], Some(Lexeme::Comma), Class::Constant, &[], kids),
        Kind::Indexes => elements(alloc, &[], Some(Lexeme::Comma), Class::Ordinal, &[], kids),
        Kind::Exprs => elements(
            alloc,
            &[],
            Some(Lexeme::Comma),
            Class::Expression,
            &[],
            kids,
        ),
        Kind::Accesses => elements(alloc, &[], Some(Lexeme::Comma), Class::Access, &[], kids),
        Kind::Members => elements(alloc, &[], Some(Lexeme::Comma), Class::Member, &[], kids),
        Kind::Consts => elements(
            alloc,
            &[Item::Literal(Lexeme::KeyConst)],
            None,
            Class::Constdef,
            &[],
            kids,
        ),
        Kind::Types => elements(
            alloc,
            &[Item::Literal(Lexeme::KeyType)],
            None,
            Class::Typedef,
            &[],
            kids,
        ),
        Kind::Vars => elements(
            alloc,
            &[Item::Literal(Lexeme::KeyVar)],
            None,
            Class::Vardef,
            &[],
            kids,
        ),
        Kind::Routines => elements(alloc, &[], None, Class::Routine, &[], kids),
        Kind::Fields => elements(alloc, &[], Some(Lexeme::Semicolon), Class::Field, &[], kids),
        Kind::Stmts => elements(
            alloc,
            &[],
            Some(Lexeme::Semicolon),
            Class::Statement,
            &[],
            kids,
        ),
        Kind::Arms => elements(alloc, &[], Some(Lexeme::Semicolon), Class::Arm, &[], kids),
        Kind::Hole(sort) => hole_items(alloc, sort),
    }
}

/// The items of a hole.
fn hole_items(alloc: Global, sort: Sort) -> Result<Items, AllocError>
    ensures { IfOk result (λ items. items_of items ≡ Item.Literal (Lexeme.Hole sort) ∷ []) }
{
    Ok(Items::Made(vec![in alloc; Item::Literal(Lexeme::Hole(sort))]?))
}
