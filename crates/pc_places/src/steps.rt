//! The tables come to stand for the next place of a block (ISO 7185, 6.2.2).

ghost use Rattle.std.specs.Prelude.{◌≡◌, ◌<◌, ◌++◌, ◌∷◌, [], ℕ, List, length, Some, IfOk, OnOk};
ghost use Rattle.pc_syntax.specs.Words.{lowered, is_among};
ghost use Rattle.pc_names.specs.Numbers as numbers;
ghost use Rattle.pc_names.specs.Standing.{meant};
ghost use Rattle.pc_names.specs.StandingLaws as standing;
ghost use Rattle.pc_rules.specs.Meanings.{Local, Meaning, Outside, define};
ghost use Rattle.pc_places.specs.Places.{known, IsPlace, AddsDeclaration, RetellsDeclaration, Keeps, Moves};
ghost use Rattle.pc_places.specs.TellingLaws.{telling};
ghost use Rattle.pc_places.specs.Scenes.{Declares};

use crate::tables::Tables;
use pc_facts::Declared;
use pc_names::{BlockId, DeclarationId, NameClass, NameId};
use std::alloc::AllocError;

/// The number of a name in any case. Only memory can fail. Work: the length of the word, and one look-up in a hash table.
pub fn number(tables: &mut Tables, word: &[u8]) -> Result<NameId, AllocError>
    ensures number { IfOk result (λ i. numbers.number_of tables.new.names.texts (lowered word.now) ≡ Some i.0) }
    ensures there { IfOk result (λ i. i.0 < length tables.new.names.texts) }
    ensures keeps { OnOk result (Keeps tables.old tables.new) }
{
    let id = tables.names.number(word)?;
    Ok(id)
}

/// Whether the name stands before in the block.
pub fn is_passed(tables: &Tables, block: BlockId, name: NameId) -> bool
    ensures { (owner : ℕ) (out : Outside) (l : Local) (n : List ℕ) → numbers.number_of tables.now.names.texts n ≡ Some name.0 → IsPlace tables.now block.0 owner out l → result ≡ is_among l.passed n }
{
    tables.names.slot(block, name).passed
}

/// The block declares the name somewhere as this. Only memory can fail.
pub fn announce(
    tables: &mut Tables,
    block: BlockId,
    name: NameId,
    class: NameClass,
) -> Result<(), AllocError>
    requires block { block.0 < length tables.old.names.chains }
    requires name { name.0 < length tables.old.names.texts }
    ensures place { OnOk result ((owner : ℕ) (out : Outside) (l : Local) (n : List ℕ) → numbers.number_of tables.old.names.texts n ≡ Some name.0 → IsPlace tables.old block.0 owner out l → IsPlace tables.new block.0 owner out (standing.announce l n (meant class))) }
    ensures moves { OnOk result (Moves block.0 tables.old tables.new) }
{
    tables.names.announce(block, name, class)?;
    Ok(())
}

/// The name stands before in the block from now on. Only memory can fail.
pub fn pass(tables: &mut Tables, block: BlockId, name: NameId) -> Result<(), AllocError>
    requires block { block.0 < length tables.old.names.chains }
    requires name { name.0 < length tables.old.names.texts }
    ensures place { OnOk result ((owner : ℕ) (out : Outside) (l : Local) (n : List ℕ) → numbers.number_of tables.old.names.texts n ≡ Some name.0 → IsPlace tables.old block.0 owner out l → IsPlace tables.new block.0 owner out (standing.passing l n)) }
    ensures moves { OnOk result (Moves block.0 tables.old tables.new) }
{
    tables.names.pass(block, name)?;
    Ok(())
}

/// The declaration, which is one under this name, of a name that already stands before, or that is not to, is complete from now on.
/// Fails for want of memory, and where there are as many declarations as numbers.
pub fn complete(
    tables: &mut Tables,
    block: BlockId,
    name: NameId,
    declared: Declared,
) -> Result<(), AllocError>
    requires block { block.0 < length tables.old.names.chains }
    requires name { name.0 < length tables.old.names.texts }
    requires named { declared.name ≡ name }
    ensures place { OnOk result ((owner : ℕ) (out : Outside) (l : Local) (n : List ℕ) (m : Meaning) → numbers.number_of tables.old.names.texts n ≡ Some name.0 → Declares (known tables.old) n declared m → IsPlace tables.old block.0 owner out l → IsPlace tables.new block.0 owner out (standing.knowing l n m)) }
    ensures moves { OnOk result (Moves block.0 tables.old tables.new) }
{
    let id = add_declaration(&mut tables.declarations, declared)?;
    tables.names.complete(block, name, id)?;
    Ok(())
}

/// The declaration of the name of the block is this one from now on, which is one under this name, whichever it was. Fails likewise.
pub fn retell(
    tables: &mut Tables,
    block: BlockId,
    name: NameId,
    declared: Declared,
) -> Result<(), AllocError>
    requires block { block.0 < length tables.old.names.chains }
    requires name { name.0 < length tables.old.names.texts }
    requires named { declared.name ≡ name }
    ensures place { OnOk result ((owner : ℕ) (out : Outside) (l : Local) (n : List ℕ) (m : Meaning) → numbers.number_of tables.old.names.texts n ≡ Some name.0 → Declares (known tables.old) n declared m → IsPlace tables.old block.0 owner out l → IsPlace tables.new block.0 owner out (telling l n m)) }
    ensures retold { OnOk result (RetellsDeclaration block.0 name.0 declared tables.old tables.new) }
    ensures moves { OnOk result (Moves block.0 tables.old tables.new) }
{
    let id = add_declaration(&mut tables.declarations, declared)?;
    tables.names.retell(block, name, id)?;
    Ok(())
}

/// One more name stands before in the block, with its declaration under it, which is complete unless the name stood before already.
/// Fails likewise.
pub fn declare(
    tables: &mut Tables,
    block: BlockId,
    name: NameId,
    declared: Declared,
) -> Result<(), AllocError>
    requires block { block.0 < length tables.old.names.chains }
    requires name { name.0 < length tables.old.names.texts }
    requires named { declared.name ≡ name }
    ensures place { OnOk result ((owner : ℕ) (out : Outside) (l : Local) (n : List ℕ) (m : Meaning) → numbers.number_of tables.old.names.texts n ≡ Some name.0 → Declares (known tables.old) n declared m → IsPlace tables.old block.0 owner out l → IsPlace tables.new block.0 owner out (define l n m)) }
    ensures added { OnOk result (AddsDeclaration block.0 name.0 declared tables.old tables.new) }
    ensures moves { OnOk result (Moves block.0 tables.old tables.new) }
{
    let id = add_declaration(&mut tables.declarations, declared)?;
    tables.names.declare(block, name, id)?;
    Ok(())
}

/// Adds a declaration: its number.
fn add_declaration(
    declarations: &mut Vec<Declared>,
    declared: Declared,
) -> Result<DeclarationId, AllocError>
    ensures number { IfOk result (λ i. i.0 ≡ length declarations.old.items) }
    ensures added { OnOk result (declarations.new.items ≡ declarations.old.items ++ declared ∷ []) }
{
    match u32::try_from(declarations.len()) {
        Ok(id) => {
            declarations.push(declared)?;
            Ok(DeclarationId(id))
        }
        Err(_) => Err(AllocError),
    }
}
