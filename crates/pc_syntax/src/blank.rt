//! Nodes that are still to be written.

ghost use Rattle.std.specs.Prelude.{◌≡◌, IfOk, map};
ghost use Rattle.pc_syntax.specs.Slots.{places_of};
ghost use Rattle.pc_syntax.specs.Blanks.{blank_kind, first_hole, holes, blank, fresh};
ghost use Rattle.pc_syntax.specs.WellFormed.{IsProper};

use crate::class::Class;
use crate::kind::Kind;
use crate::make::hole;
use crate::sort::Sort;
use crate::tree::Tree;
use std::alloc::{AllocError, Global};

/// The node that stands at a place of the class while nothing is written there: a hole, or a list with as few holes as
/// it may have.
pub fn blank(alloc: Global, class: Class) -> Result<Tree, AllocError>
    ensures { IfOk result (λ tree. tree ≡ blank class) }
{
    let kind = class.blank_kind();
    let kids = first_holes(alloc, kind)?;
    Tree::of_proper(alloc, kind, b"", kids)
}

fn first_holes(alloc: Global, kind: Kind) -> Result<Vec<Tree>, AllocError>
    ensures { IfOk result (λ kids. kids.items ≡ holes (first_hole kind)) }
{
    let mut kids = Vec::new(alloc);
    if let Some(sort) = first_hole(kind) {
        kids.push(hole(alloc, sort)?)?;
    }
    Ok(kids)
}

/// A node of a kind and with a word that are known to fit, at whose places nothing is written yet.
pub fn fresh(alloc: Global, kind: Kind, word: &[u8]) -> Result<Tree, AllocError>
    requires { IsProper (fresh kind word.now) }
    ensures { IfOk result (λ tree. tree ≡ fresh kind word.now) }
{
    let kids = blanks(alloc, kind.places())?;
    Tree::of_proper(alloc, kind, word, kids)
}

fn blanks(alloc: Global, places: &[Class]) -> Result<Vec<Tree>, AllocError>
    ensures { IfOk result (λ kids. kids.items ≡ map blank places.now) }
{
    let mut kids = Vec::with_capacity(alloc, places.len())?;
    for class in places {
        kids.push(blank(alloc, *class)?)?;
    }
    Ok(kids)
}

impl Class {
    /// What stands at a place of the class while nothing is written there: a hole, or a list.
    pub fn blank_kind(self) -> Kind
        ensures { result ≡ blank_kind self }
    {
        match self {
            Class::Program => Kind::Hole(Sort::Program),
            Class::Block => Kind::Hole(Sort::Block),
            Class::Constdef => Kind::Hole(Sort::ConstDef),
            Class::Typedef => Kind::Hole(Sort::TypeDef),
            Class::Vardef => Kind::Hole(Sort::VarDef),
            Class::Routine => Kind::Hole(Sort::Routine),
            Class::Parameter => Kind::Hole(Sort::Parameter),
            Class::Denoter => Kind::Hole(Sort::Denoter),
            Class::Structured => Kind::Hole(Sort::Denoter),
            Class::Ordinal => Kind::Hole(Sort::Denoter),
            Class::Field => Kind::Hole(Sort::Field),
            Class::Constant => Kind::Hole(Sort::Constant),
            Class::Bare => Kind::Hole(Sort::Constant),
            Class::Statement => Kind::Hole(Sort::Statement),
            Class::Body => Kind::Hole(Sort::Statement),
            Class::Arm => Kind::Hole(Sort::Arm),
            Class::Argument => Kind::Hole(Sort::Expression),
            Class::Member => Kind::Hole(Sort::Expression),
            Class::Operand => Kind::Hole(Sort::Expression),
            Class::Expression => Kind::Hole(Sort::Expression),
            Class::Simple => Kind::Hole(Sort::Expression),
            Class::Term => Kind::Hole(Sort::Expression),
            Class::Factor => Kind::Hole(Sort::Expression),
            Class::Access => Kind::Hole(Sort::Expression),
            Class::Name => Kind::Hole(Sort::Name),
            Class::Heads => Kind::Heads,
            Class::Args => Kind::Args,
            Class::Params => Kind::Params,
            Class::Names => Kind::Names,
            Class::Labels => Kind::Labels,
            Class::Indexes => Kind::Indexes,
            Class::Exprs => Kind::Exprs,
            Class::Accesses => Kind::Accesses,
            Class::Members => Kind::Members,
            Class::Consts => Kind::Consts,
            Class::Types => Kind::Types,
            Class::Vars => Kind::Vars,
            Class::Routines => Kind::Routines,
            Class::Fields => Kind::Fields,
            Class::Stmts => Kind::Stmts,
            Class::Arms => Kind::Arms,
        }
    }
}

/// The sort of the hole that a list of this kind begins with, where it may not be empty.
fn first_hole(kind: Kind) -> Option<Sort>
    ensures { result ≡ first_hole kind }
{
    match kind {
        Kind::Names => Some(Sort::Name),
        Kind::Labels => Some(Sort::Constant),
        Kind::Indexes => Some(Sort::Denoter),
        Kind::Exprs => Some(Sort::Expression),
        Kind::Accesses => Some(Sort::Expression),
        Kind::Fields => Some(Sort::Field),
        Kind::Stmts => Some(Sort::Statement),
        Kind::Arms => Some(Sort::Arm),
        _ => None,
    }
}
