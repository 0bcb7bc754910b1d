//! What is found at the parameters of a heading so far.

ghost use Rattle.std.specs.Prelude.{List, []};
ghost use Rattle.pc_facts.specs.Known.{Known};
ghost use Rattle.pc_headings.specs.Listing.{ShowsListed};

use pc_facts::{Declared, Formal};
use pc_names::{NameClass, Names};
use pc_places::Parameter;
use pc_report::ErrorEntry;
use pc_types::{Operand, OwnerId, TypeId};
use std::alloc::Global;

/// The parameters of a heading so far: the names that stand before, the first parameter of each name, and the formal parameters,
/// where the type of each is known.
#[derive(Drop)]
pub(crate) struct Listed {
    pub passed: Names,
    pub parameters: Vec<Parameter>,
    pub formals: Vec<Formal>,
    pub is_whole: bool,
}

/// What the names of a group of parameters are declared as: by which class, in which routine, with which type, and the number of
/// that.
#[derive(Clone, Copy)]
pub(crate) struct Group {
    pub class: NameClass,
    pub owner: OwnerId,
    pub of: Option<Operand>,
    pub number: Option<TypeId>,
}

/// What a part of a heading has: whether a hole stands in it, and its entries, seen from its node.
#[derive(Drop)]
pub(crate) struct Part {
    pub hole: bool,
    pub entries: Vec<ErrorEntry>,
}

/// A type's name in a heading, or a hole in its place: whether it is one, the entries of the name, and the type that it means.
#[derive(Drop)]
pub(crate) struct UsedType {
    pub hole: bool,
    pub entries: Vec<ErrorEntry>,
    pub of: Option<Operand>,
}

impl Listed {
    /// No parameter so far.
    pub(crate) fn new(alloc: Global) -> Listed
        ensures { (k : Known) (ds : List Declared) → ShowsListed k ds result [] }
    {
        Listed {
            passed: Names::new(alloc),
            parameters: Vec::new(alloc),
            formals: Vec::new(alloc),
            is_whole: true,
        }
    }
}
