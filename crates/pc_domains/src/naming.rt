//! The names that a block enters with their types.

ghost use Rattle.std.specs.Prelude.{◌≡◌, [], ◌∷◌, ◌++◌, ℕ, List, Some, true, IfOk, MatchOption, OnOk};
ghost use Rattle.pc_syntax.specs.Words.{lowered};
ghost use Rattle.pc_names.specs.Numbers as numbers;
ghost use Rattle.pc_block_laws.specs.Block.{type_names, name_in_front};
ghost use Rattle.pc_domains.specs.Types.{AreNumbers, OnlyNames, ShowsBlockNames};

use pc_names::NameId;
use pc_places::Tables;
use pc_syntax::Tree;
use std::alloc::{AllocError, Global};

/// The numbers of the names of the required types.
#[derive(Clone, Copy, Debug, PartialEq, Eq)]
pub(crate) struct RequiredNames {
    pub integer: NameId,
    pub boolean: NameId,
    pub char_type: NameId,
}

/// The numbers of the names that a block enters: those of its type definitions, and in the program's own block those of the required
/// types.
#[derive(Drop)]
pub(crate) struct BlockNames {
    pub ids: Vec<NameId>,
    pub required: Option<RequiredNames>,
}

/// The names that a block with these type definitions enters. Fails for want of memory and of numbers; a name without letters, which no
/// tree has, counts as no memory.
pub(crate) fn block_names(
    alloc: Global,
    tables: &mut Tables,
    is_program: bool,
    list: &Tree,
) -> Result<BlockNames, AllocError>
    ensures shows { IfOk result (λ b. ShowsBlockNames tables.new.names.texts is_program (type_names list.now.kids) b) }
    ensures names { OnOk result (OnlyNames tables.old tables.new) }
{
    let ids = type_name_ids(alloc, tables, list)?;
    let all = with_required(tables, is_program, ids)?;
    Ok(all)
}

/// The numbers of the names of type definitions.
fn type_name_ids(alloc: Global, tables: &mut Tables, list: &Tree) -> Result<Vec<NameId>, AllocError>
    ensures numbers { IfOk result (λ ids. AreNumbers tables.new.names.texts ids.items (type_names list.now.kids)) }
    ensures names { OnOk result (OnlyNames tables.old tables.new) }
{
    let mut ids = Vec::new(alloc);
    for kid in list.kid_slice() {
        add_name(tables, &mut ids, kid)?;
    }
    Ok(ids)
}

/// The number of the name that stands first below a node comes behind these, unless it is a hole.
fn add_name(tables: &mut Tables, ids: &mut Vec<NameId>, node: &Tree) -> Result<(), AllocError>
    ensures numbers { OnOk result ((ns : List (List ℕ)) → AreNumbers tables.old.names.texts ids.old.items ns → AreNumbers tables.new.names.texts ids.new.items (ns ++ name_in_front node.now.kids)) }
    ensures names { OnOk result (OnlyNames tables.old tables.new) }
{
    if let Some(word) = name_below(node) {
        let id = numbered(tables, word)?;
        ids.push(id)?;
    }
    Ok(())
}

/// The word of the name that stands first below a node, unless it is a hole.
fn name_below(node: &Tree) -> Option<&[u8]>
    ensures { MatchOption result (name_in_front node.now.kids ≡ []) (λ w. name_in_front node.now.kids ≡ lowered w.now ∷ []) }
{
    let Some(first) = node.kid(1) else {
        return None;
    };
    if first.kind().is_hole() {
        return None;
    }
    Some(first.word())
}

/// The number of a name; one without letters counts as no memory.
fn numbered(tables: &mut Tables, word: &[u8]) -> Result<NameId, AllocError>
    ensures number { IfOk result (λ i. numbers.number_of tables.new.names.texts (lowered word.now) ≡ Some i.0) }
    ensures full { OnOk result (lowered word.now ≡ [] → ⊥) }
    ensures names { OnOk result (OnlyNames tables.old tables.new) }
{
    if word.is_empty() {
        return Err(AllocError);
    }
    let id = tables.names.number(word)?;
    Ok(id)
}

/// These names, and in the program's own block those of the required types.
fn with_required(
    tables: &mut Tables,
    is_program: bool,
    ids: Vec<NameId>,
) -> Result<BlockNames, AllocError>
    ensures shows { IfOk result (λ b. (ns : List (List ℕ)) → AreNumbers tables.old.names.texts ids.items ns → ShowsBlockNames tables.new.names.texts is_program ns b) }
    ensures names { OnOk result (OnlyNames tables.old tables.new) }
{
    if is_program {
        let all = with_required_names(tables, ids)?;
        Ok(all)
    } else {
        Ok(BlockNames {
            ids,
            required: None,
        })
    }
}

/// These names and those of the required types.
fn with_required_names(tables: &mut Tables, ids: Vec<NameId>) -> Result<BlockNames, AllocError>
    ensures shows { IfOk result (λ b. (ns : List (List ℕ)) → AreNumbers tables.old.names.texts ids.items ns → ShowsBlockNames tables.new.names.texts true ns b) }
    ensures names { OnOk result (OnlyNames tables.old tables.new) }
{
    let mut all = ids;
    let integer = numbered(tables, b"integer")?;
    let boolean = numbered(tables, b"boolean")?;
    let char_type = numbered(tables, b"char")?;
    all.push(integer)?;
    all.push(boolean)?;
    all.push(char_type)?;
    Ok(BlockNames {
        ids: all,
        required: Some(RequiredNames {
            integer,
            boolean,
            char_type,
        }),
    })
}
