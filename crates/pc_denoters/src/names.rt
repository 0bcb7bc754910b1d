//! Names of types (ISO 7185, 6.4.1).

ghost use Rattle.std.specs.Prelude.{◌≡◌, ◌<◌, ℕ, Bool, true, length, IfOk};
ghost use Rattle.pc_syntax.specs.Classes.{has};
ghost use Rattle.pc_syntax.specs.Words.{lowered};
ghost use Rattle.pc_syntax.specs.declared.class.Class.TheVariants as class;
ghost use Rattle.pc_types.specs.declared.form.Definition.{Definition as Written};
ghost use Rattle.pc_forms.specs.declared.form.Form.TheVariants as form;
ghost use Rattle.pc_denoters.specs.Goings.{AtHere, MakesForm};

use pc_facts::Facts;
use pc_name_rules::{Allowed, add_name_entries};
use pc_names::BlockId;
use pc_places::{Tables, name_at_place};
use pc_syntax::{Tree, Word, lower};
use pc_type_rules::type_name;
use std::alloc::{AllocError, Global};

/// What is found at a type's name. Only memory can fail.
pub(crate) fn type_at_name(
    alloc: Global,
    tables: &mut Tables,
    block: BlockId,
    name: &Tree,
) -> Result<Facts, AllocError>
    requires block { block.0 < length tables.old.names.chains }
    requires name { has class.Name name.now.kind ≡ true }
    ensures { IfOk result (λ f. (owner : ℕ) (here : Written) (packed : Bool) → MakesForm (AtHere here packed) block.0 owner tables.old tables.new (form.Tname name.now) f) }
{
    let named = name_at_place(tables, block, name)?;
    let mut entries = Vec::new(alloc);
    add_name_entries(alloc, &mut entries, name.word(), named, Allowed::Type)?;
    let found = type_name(alloc, &tables.types, named, entries)?;
    Ok(found)
}

/// A word in small letters. Only memory can fail.
pub(crate) fn small_word(alloc: Global, word: &[u8]) -> Result<Word, AllocError>
    ensures { IfOk result (λ small. small ≡ lowered word.now) }
{
    let mut small = Vec::new(alloc);
    for byte in word {
        small.push(lower(*byte))?;
    }
    Ok(Word::from_vec(small))
}
