//! Fields of records (ISO 7185, 6.5.3.3).

ghost use Rattle.std.specs.Prelude.{◌≡◌, List, ℕ, IfOk};
ghost use Rattle.pc_syntax.specs.Sorts.{is_hole};
ghost use Rattle.pc_types.specs.Rows.{seen};
ghost use Rattle.pc_rules.specs.Attributes.{Node};
ghost use Rattle.pc_rules.specs.Components.{select_rule};
ghost use Rattle.pc_rules.specs.Decorated.{with_kind};
ghost use Rattle.pc_syntax.specs.declared.kind.Kind.TheVariants as kind;
ghost use Rattle.pc_facts.specs.Known.{Known};
ghost use Rattle.pc_facts.specs.Shows.{ShowsNode};

use crate::tests::{is_no_record, lacks_field};
use pc_facts::{Facts, add_kid, add_note_if, both, either, is_known};
use pc_judgements::{field_type, packed_type};
use pc_syntax::Kind;
use pc_types::Types;
use std::alloc::{AllocError, Global};

/// A field of a record: `whole.field`, given the field's name as written, or that a hole stands in its place. Rows 15 and 4. Only
/// memory can fail. Work: the number of entries and of fields.
pub fn select(
    alloc: Global,
    types: &Types,
    whole: Facts,
    field: &[u8],
    hole: bool,
) -> Result<Facts, AllocError>
    ensures { IfOk result (λ f. (k : Known) (w : List ℕ) (a b : Node) → k.table ≡ seen types.now → ShowsNode k whole a.at → b.at.hole ≡ hole → is_hole b.at.kind ≡ hole → b.at.word ≡ field.now → ShowsNode k f (with_kind kind.Select w (select_rule a b))) }
{
    let of = whole.place_type();
    let holes = either(whole.hole, hole);
    let packed = both(
        is_known(of),
        either(packed_type(types, of), whole.packed_part),
    );
    let mut own = whole.judgement.into_place().entries;
    add_note_if(
        alloc,
        &mut own,
        is_no_record(types, of),
        15,
        b"not a record",
        b"",
    )?;
    let mut missed = Vec::new(alloc);
    add_note_if(
        alloc,
        &mut missed,
        lacks_field(types, of, field, hole),
        4,
        b"not a field: ",
        field,
    )?;
    let mut entries = Vec::new(alloc);
    add_kid(&mut entries, 1, own)?;
    add_kid(&mut entries, 2, missed)?;
    Ok(Facts::component(
        Kind::Select,
        holes,
        entries,
        field_type(types, of, field),
        packed,
    ))
}
