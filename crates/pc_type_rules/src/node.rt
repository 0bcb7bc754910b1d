//! What is found at a denoter.

ghost use Rattle.std.specs.Prelude.{◌≡◌, ℕ, Bool, List, Option, IfOk};
ghost use Rattle.pc_types.specs.Shapes.{Typed};
ghost use Rattle.pc_types.specs.Rows.{seen};
ghost use Rattle.pc_rules.specs.Attributes.{Entry};
ghost use Rattle.pc_rules.specs.Decorated.{with_kind};
ghost use Rattle.pc_rules.specs.Meanings.{Meaning};
ghost use Rattle.pc_facts.specs.Known.{Known};
ghost use Rattle.pc_facts.specs.Shows.{ShowsNode, ShowsType};
ghost use Rattle.pc_type_rules.specs.Denoted as denoted;

use crate::rows::add_too_large;
use pc_facts::{Facts, Judged, Judgement};
use pc_report::ErrorEntry;
use pc_syntax::Kind;
use pc_types::{Operand, Types};
use std::alloc::{AllocError, Global};

/// A denoter with its entries and its kids', and its type, where it has neither an error nor a hole.
pub fn denoter(
    alloc: Global,
    kind: Kind,
    hole: bool,
    entries: Vec<ErrorEntry>,
    of: Option<Operand>,
) -> Facts
    ensures { (k : Known) (w : List ℕ) (h : Bool) (es : List Entry) (ty : Option Typed) (ds : List (List ℕ × Meaning)) → h ≡ hole → entries.items ≡ es → ShowsType k.table of ty → ShowsNode k result (with_kind kind w (denoted.denoter h es ty ds)) }
{
    let value = Judged::of_parts(hole, entries, of);
    Facts::judged(
        kind,
        hole,
        Judgement::ByUse(value, Judged::nothing(alloc), Judged::nothing(alloc)),
    )
}

/// An array or a record, likewise, with row 10 where it is right but for its size. Only memory can fail.
pub fn sized_denoter(
    alloc: Global,
    types: &Types,
    kind: Kind,
    hole: bool,
    entries: Vec<ErrorEntry>,
    of: Option<Operand>,
) -> Result<Facts, AllocError>
    ensures { IfOk result (λ f. (k : Known) (w : List ℕ) (h : Bool) (es : List Entry) (ty : Option Typed) (ds : List (List ℕ × Meaning)) → k.table ≡ seen types.now → h ≡ hole → entries.items ≡ es → ShowsType k.table of ty → ShowsNode k f (with_kind kind w (denoted.sized_denoter h es ty ds))) }
{
    let judged = Judged::of_parts(hole, entries, of);
    let mut all = judged.entries;
    add_too_large(alloc, types, &mut all, judged.of)?;
    Ok(denoter(alloc, kind, hole, all, of))
}
