//! Denoters without denoters in them (ISO 7185, 6.4.2).

ghost use Rattle.std.specs.Prelude.{◌≡◌, ◌<◌, ℕ, Bool, true, length, IfOk};
ghost use Rattle.pc_syntax.specs.Classes.{has};
ghost use Rattle.pc_syntax.specs.declared.class.Class.TheVariants as class;
ghost use Rattle.pc_types.specs.Rows.{seen};
ghost use Rattle.pc_forms.specs.declared.form.Form.TheVariants as form;
ghost use Rattle.pc_denoters.specs.Goings.{AtHere, MakesForm};

use pc_facts::Facts;
use pc_names::BlockId;
use pc_places::{Tables, constant_at_place};
use pc_syntax::Tree;
use pc_type_rules::{no_fields, subrange};
use pc_types::Definition;
use std::alloc::{AllocError, Global};

/// What is found at a subrange that is defined here. Only memory and numbers can fail.
pub(crate) fn subrange_between(
    alloc: Global,
    tables: &mut Tables,
    block: BlockId,
    here: Definition,
    low: &Tree,
    high: &Tree,
) -> Result<Facts, AllocError>
    requires block { block.0 < length tables.old.names.chains }
    requires there { here.owner.0 < length (seen tables.old.types).owners }
    requires low { has class.Constant low.now.kind ≡ true }
    requires high { has class.Constant high.now.kind ≡ true }
    ensures { IfOk result (λ f. (owner : ℕ) (packed : Bool) → MakesForm (AtHere here packed) block.0 owner tables.old tables.new (form.Subrange low.now high.now) f) }
{
    let first = constant_at_place(alloc, tables, block, low)?;
    let last = constant_at_place(alloc, tables, block, high)?;
    let found = subrange(alloc, &mut tables.types, here, first, last)?;
    Ok(found)
}

/// What is found at a record without fields that is defined here. Only memory and numbers can fail.
pub(crate) fn empty_record(
    alloc: Global,
    tables: &mut Tables,
    here: Definition,
    packed: bool,
) -> Result<Facts, AllocError>
    requires { here.owner.0 < length (seen tables.old.types).owners }
    ensures { IfOk result (λ f. (block owner : ℕ) → MakesForm (AtHere here packed) block owner tables.old tables.new form.Record0 f) }
{
    let found = no_fields(alloc, &mut tables.types, here, packed)?;
    Ok(found)
}
