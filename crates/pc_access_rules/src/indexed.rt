//! Indexed variables (ISO 7185, 6.5.3.2).

ghost use Rattle.std.specs.Prelude.{◌≡◌, ◌+◌, ◌++◌, ◌∷◌, [], List, ℕ, Option, IfOk, OnOk};
ghost use Rattle.pc_types.specs.Rows.{seen};
ghost use Rattle.pc_types.specs.Shapes.{Typed};
ghost use Rattle.pc_rules.specs.Attributes.{Node, kids_below};
ghost use Rattle.pc_rules.specs.Components.{index_rule};
ghost use Rattle.pc_rules.specs.HandedOn.{any_hole};
ghost use Rattle.pc_rules.specs.Decorated.{with_kind};
ghost use Rattle.pc_syntax.specs.declared.kind.Kind.TheVariants as kind;
ghost use Rattle.pc_facts.specs.Known.{Known};
ghost use Rattle.pc_facts.specs.Shows.{ShowsNode, ShowsType, AllShow};
ghost use Rattle.pc_access_rules.specs.Indexing.{ShowsIndexed};

use crate::tests::{is_no_array, is_packed_array, where_true};
use pc_facts::{Facts, add_kid, add_note_if, both, either, is_known};
use pc_judgements::{component_of, index_of, is_unassignable};
use pc_report::ErrorEntry;
use pc_syntax::Kind;
use pc_types::{Operand, Types};
use std::alloc::{AllocError, Global};

/// What is found of the indexes of a variable, as far as they are read: the type behind them; their entries, seen from their list; the
/// number of the next one, from 1; whether a hole stands in one; whether each has a type; and whether one stands at a type that is no
/// array, and one at a packed array.
#[derive(Drop)]
pub(crate) struct Indexed {
    of: Option<Operand>,
    entries: Vec<ErrorEntry>,
    next: u32,
    hole: bool,
    typed: bool,
    no_array: bool,
    packed: bool,
}

/// An indexed variable: `array[i, j]`; each index takes one array off. Rows 11 and 15. Only memory can fail. Work: the number of
/// indexes and of entries.
pub fn index(
    alloc: Global,
    types: &Types,
    array: Facts,
    indexes: Vec<Facts>,
) -> Result<Facts, AllocError>
    ensures { IfOk result (λ f. (k : Known) (w : List ℕ) (a b : Node) → k.table ≡ seen types.now → ShowsNode k array a.at → AllShow (λ g n. ShowsNode k g n.at) indexes.items (kids_below b) → b.at.hole ≡ any_hole (kids_below b) → ShowsNode k f (with_kind kind.Index w (index_rule a b))) }
{
    let mut read = Indexed::new(alloc, array.place_type());
    for index in indexes {
        read.add(alloc, types, index)?;
    }
    read.finish(alloc, array)
}

impl Indexed {
    /// No index of a variable of this type is read.
    fn new(alloc: Global, of: Option<Operand>) -> Indexed
        ensures { (k : Known) (t : Option Typed) → ShowsType k.table of t → ShowsIndexed k result t [] }
    {
        Indexed {
            of,
            entries: Vec::new(alloc),
            next: 1,
            hole: false,
            typed: true,
            no_array: false,
            packed: false,
        }
    }

    /// Reads the next index. Only memory can fail.
    fn add(&mut self, alloc: Global, types: &Types, index: Facts) -> Result<(), AllocError>
        ensures { OnOk result ((k : Known) (t : Option Typed) (ns : List Node) (n : Node) → k.table ≡ seen types.now → ShowsIndexed k self.old t ns → ShowsNode k index n.at → ShowsIndexed k self.new t (ns ++ n ∷ [])) }
    {
        self.hole = either(self.hole, index.hole);
        self.typed = both(self.typed, is_known(index.value_type()));
        self.no_array = either(self.no_array, is_no_array(types, self.of));
        self.packed = either(self.packed, is_packed_array(types, self.of));
        let misfit = is_unassignable(types, index_of(types, self.of), index.value_type());
        let mut own = index.judgement.into_value().entries;
        add_note_if(alloc, &mut own, misfit, 11, b"types do not agree", b"")?;
        add_kid(&mut self.entries, self.next, own)?;
        self.next = following(self.next)?;
        self.of = component_of(types, self.of);
        Ok(())
    }

    /// The indexed variable, when all its indexes are read. Only memory can fail.
    fn finish(self, alloc: Global, array: Facts) -> Result<Facts, AllocError>
        ensures { IfOk result (λ f. (k : Known) (w : List ℕ) (a b : Node) → ShowsNode k array a.at → ShowsIndexed k self a.at.as_place.type (kids_below b) → b.at.hole ≡ any_hole (kids_below b) → ShowsNode k f (with_kind kind.Index w (index_rule a b))) }
    {
        let hole = either(array.hole, self.hole);
        let packed = both(
            is_known(array.place_type()),
            either(self.packed, array.packed_part),
        );
        let mut own = Vec::new(alloc);
        add_note_if(alloc, &mut own, self.no_array, 15, b"not an array", b"")?;
        let mut entries = Vec::new(alloc);
        add_kid(&mut entries, 1, array.judgement.into_place().entries)?;
        add_kid(&mut entries, 2, self.entries)?;
        add_kid(&mut entries, 1, own)?;
        Ok(Facts::component(
            Kind::Index,
            hole,
            entries,
            where_true(self.typed, self.of),
            packed,
        ))
    }
}

/// The number after this one, or no memory where there is none.
fn following(number: u32) -> Result<u32, AllocError>
    ensures { IfOk result (λ n. n ≡ number + 1) }
{
    number.checked_add(1).ok_or(AllocError)
}
