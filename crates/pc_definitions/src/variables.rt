//! The names of a variable declaration (ISO 7185, 6.5.1).

ghost use Rattle.std.specs.Prelude.{◌≡◌, ◌<◌, ◌+◌, ◌++◌, ◌∷◌, [], ℕ, List, not, ◌&&◌, true, false, length, if◌then◌else◌, IfOk, OnOk};
ghost use Rattle.std.specs.Option.{is_some};
ghost use Rattle.pc_syntax.specs.Classes.{has};
ghost use Rattle.pc_syntax.specs.Plain.{Plain, kids_of};
ghost use Rattle.pc_syntax.specs.Sorts.{is_hole};
ghost use Rattle.pc_syntax.specs.declared.class.Class.TheVariants as class;
ghost use Rattle.pc_names.specs.Numbers as numbers;
ghost use Rattle.pc_rules.specs.Meanings.{Local, Outside};
ghost use Rattle.pc_places.specs.Places.{IsPlace};
ghost use Rattle.pc_places.specs.declared.tables.Tables.{Tables as AllTables};
ghost use Rattle.pc_definitions.specs.DefineLaws.{is_new};
ghost use Rattle.pc_definitions.specs.VariableNames.{DeclaredSoFar, twice_at};

use crate::types::next;
use pc_facts::{Declared, add_kid, add_note_if, either};
use pc_names::{BlockId, NameClass, NameId};
use pc_places::{Tables, declare, is_passed, number};
use pc_report::ErrorEntry;
use pc_syntax::{Kind, Tree};
use pc_types::OwnerId;
use std::alloc::{AllocError, Global};

/// The names of a variable declaration that its block declares here first, by their numbers; the entries of row 3 at its names, as seen
/// from their list; and whether there is a hole among them.
#[derive(Drop)]
pub struct Variables {
    pub first: Vec<NameId>,
    pub entries: Vec<ErrorEntry>,
    pub hole: bool,
}

/// The names of a list are declared as variables whose type is not known yet. Only memory and numbers can fail.
pub fn enter_variables(
    alloc: Global,
    tables: &mut Tables,
    block: BlockId,
    owner: OwnerId,
    list: &Tree,
) -> Result<Variables, AllocError>
    requires block { block.0 < length tables.old.names.chains }
    requires list { has class.Names list.now.kind ≡ true }
    ensures { IfOk result (λ v. DeclaredSoFar block.0 owner.0 tables.old tables.new (kids_of list.now) v) }
{
    let mut found = Variables {
        first: Vec::new(alloc),
        entries: Vec::new(alloc),
        hole: false,
    };
    let mut i: u32 = 0;
    for kid in list.kid_slice() {
        i = next(i)?;
        enter_kid(alloc, tables, block, owner, i, kid, &mut found)?;
    }
    Ok(found)
}

/// One more name of the list, or a hole in its place.
fn enter_kid(
    alloc: Global,
    tables: &mut Tables,
    block: BlockId,
    owner: OwnerId,
    i: u32,
    kid: &Tree,
    found: &mut Variables,
) -> Result<(), AllocError>
    requires block { block.0 < length tables.old.names.chains }
    requires name { has class.Name kid.now.kind ≡ true }
    ensures { OnOk result ((base : AllTables) (ts : List Plain) → i ≡ 1 + length ts → DeclaredSoFar block.0 owner.0 base tables.old ts found.old → DeclaredSoFar block.0 owner.0 base tables.new (ts ++ kid.now ∷ []) found.new) }
{
    match kid.kind() {
        Kind::Name => {
            enter_name(alloc, tables, block, owner, i, kid.word(), found)?;
        }
        _ => {
            found.hole = true;
        }
    }
    Ok(())
}

/// One more name of the list.
fn enter_name(
    alloc: Global,
    tables: &mut Tables,
    block: BlockId,
    owner: OwnerId,
    i: u32,
    word: &[u8],
    found: &mut Variables,
) -> Result<(), AllocError>
    requires { block.0 < length tables.old.names.chains }
    ensures { OnOk result ((base : AllTables) (ts : List Plain) (t : Plain) → i ≡ 1 + length ts → is_hole t.kind ≡ false → t.word ≡ word.now → DeclaredSoFar block.0 owner.0 base tables.old ts found.old → DeclaredSoFar block.0 owner.0 base tables.new (ts ++ t ∷ []) found.new) }
{
    let name = number(tables, word)?;
    let twice = is_passed(tables, block, name);
    let fresh = is_new_name(tables, block, name);
    add_twice(alloc, &mut found.entries, i, twice, word)?;
    let declared = Declared {
        class: NameClass::Variable,
        owner,
        name,
        value: None,
        of: None,
        signature: None,
    };
    declare(tables, block, name, declared)?;
    push_if(&mut found.first, fresh, name)?;
    Ok(())
}

/// Whether a declaration of the name in the block would be the first one.
fn is_new_name(tables: &Tables, block: BlockId, name: NameId) -> bool
    ensures { (owner : ℕ) (out : Outside) (l : Local) (n : List ℕ) → numbers.number_of tables.now.names.texts n ≡ Some name.0 → IsPlace tables.now block.0 owner out l → result ≡ is_new l n }
{
    let slot = tables.names.slot(block, name);
    let known = slot.known.is_some();
    let old = either(slot.passed, known);
    !old
}

fn push_if(names: &mut Vec<NameId>, is_so: bool, name: NameId) -> Result<(), AllocError>
    ensures { OnOk result (names.new.items ≡ names.old.items ++ (if is_so then name ∷ [] else [])) }
{
    if is_so {
        names.push(name)?;
    }
    Ok(())
}

/// Row 3 at kid `i` of a list, where its name stands before. Only memory can fail.
fn add_twice(
    alloc: Global,
    entries: &mut Vec<ErrorEntry>,
    i: u32,
    twice: bool,
    word: &[u8],
) -> Result<(), AllocError>
    ensures { OnOk result (entries.new.items ≡ entries.old.items ++ twice_at i twice word.now) }
{
    let mut own = Vec::new(alloc);
    add_note_if(alloc, &mut own, twice, 3, b"declared twice: ", word)?;
    add_kid(entries, i, own)?;
    Ok(())
}
