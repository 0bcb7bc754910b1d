//! What is found at one node.

ghost use Rattle.std.specs.Prelude.{◌≡◌, List, ℕ, [], None, Option, false};
ghost use Rattle.pc_types.specs.Shapes.{Owner, Typed};
ghost use Rattle.pc_rules.specs.Attributes as rules;
ghost use Rattle.pc_rules.specs.Attributes.{Entry, Node};
ghost use Rattle.pc_rules.specs.HandedOn.{statement_node, any_hole};
ghost use Rattle.pc_rules.specs.Operators.{expression_node, constant_expression};
ghost use Rattle.pc_rules.specs.Components.{component_node};
ghost use Rattle.pc_rules.specs.Decorated.{with_kind};
ghost use Rattle.pc_facts.specs.Known.{Known};
ghost use Rattle.pc_facts.specs.Shows.{ShowsNode, ShowsType, value_of, place_of};

use crate::judged::{Judged, Judgement};
use crate::sighting::{Sighting, Value, Variable};
use pc_report::ErrorEntry;
use pc_syntax::Kind;
use pc_types::Operand;
use std::alloc::Global;

/// What is found at a node that is no name: its kind; whether a hole stands in it; its judgement; a constant's value; the variable that
/// it names as a whole; and whether it is a component of something packed.
#[derive(Drop)]
pub struct Facts {
    pub kind: Kind,
    pub hole: bool,
    pub judgement: Judgement,
    pub constant: Option<Value>,
    pub variable: Option<Variable>,
    pub packed_part: bool,
}

/// An argument of a call: of a name alone also what the name means, and of a value with a width the types of both.
#[derive(Drop)]
pub struct Argument {
    pub at: Facts,
    pub name: Sighting,
    pub first: Option<Operand>,
    pub second: Option<Operand>,
}

/// A member of a set constructor: one value, or all from one to another.
#[derive(Drop)]
pub enum Member {
    One(Facts),
    Span(Facts, Facts),
}

/// An arm of a case statement, with the values of its labels, where they have one.
#[derive(Drop)]
pub struct Arm {
    pub at: Facts,
    pub labels: Vec<Option<Value>>,
}

impl Facts {
    /// A node of this kind with this judgement, about which nothing else is to be said.
    pub fn judged(kind: Kind, hole: bool, judgement: Judgement) -> Facts
        ensures { result ≡ record { kind = kind; hole = hole; judgement = judgement; constant = None; variable = None; packed_part = false } }
    {
        Facts {
            kind,
            hole,
            judgement,
            constant: None,
            variable: None,
            packed_part: false,
        }
    }

    /// A node about which nothing is to be said.
    pub fn plain(alloc: Global, kind: Kind) -> Facts
        ensures { (k : Known) (w : List ℕ) → ShowsNode k result (with_kind kind w rules.plain) }
    {
        Facts::judged(kind, false, Judgement::Same(Judged::nothing(alloc)))
    }

    /// A statement, or a list, with its own entries and its kids'.
    pub fn statement(alloc: Global, kind: Kind, hole: bool, entries: Vec<ErrorEntry>) -> Facts
        ensures { (k : Known) (w : List ℕ) (kids : List Node) (es : List Entry) (ts : List (Owner × List ℕ)) → any_hole kids ≡ hole → entries.items ≡ es → ShowsNode k result (with_kind kind w (statement_node kids es ts)) }
    {
        let value = Judged::of_parts(hole, entries, None);
        Facts::judged(
            kind,
            hole,
            Judgement::ByUse(value, Judged::nothing(alloc), Judged::nothing(alloc)),
        )
    }

    /// An expression with its entries and its kids', and its type, where it has neither an error nor a hole.
    pub fn expression(
        kind: Kind,
        hole: bool,
        entries: Vec<ErrorEntry>,
        of: Option<Operand>,
    ) -> Facts
        ensures { (k : Known) (w : List ℕ) (kids : List Node) (es : List Entry) (ty : Option Typed) → any_hole kids ≡ hole → entries.items ≡ es → ShowsType k.table of ty → ShowsNode k result (with_kind kind w (expression_node kids es ty)) }
    {
        let value = Judged::of_parts(hole, entries, of);
        Facts::judged(kind, hole, Judgement::Same(value))
    }

    /// A component of a variable, likewise, and whether it is one of something packed.
    pub fn component(
        kind: Kind,
        hole: bool,
        entries: Vec<ErrorEntry>,
        of: Option<Operand>,
        packed: bool,
    ) -> Facts
        ensures { (k : Known) (w : List ℕ) (kids : List Node) (es : List Entry) (ty : Option Typed) → any_hole kids ≡ hole → entries.items ≡ es → ShowsType k.table of ty → ShowsNode k result (with_kind kind w (component_node kids es ty packed)) }
    {
        let value = Judged::of_parts(hole, entries, of);
        Facts {
            kind,
            hole,
            judgement: Judgement::Same(value),
            constant: None,
            variable: None,
            packed_part: packed,
        }
    }

    /// The type as a value.
    pub fn value_type(&self) -> Option<Operand>
        ensures { result ≡ (value_of self.now.judgement).of }
    {
        self.judgement.value().of
    }

    /// The type as a variable.
    pub fn place_type(&self) -> Option<Operand>
        ensures { result ≡ (place_of self.now.judgement).of }
    {
        self.judgement.place().of
    }
}
