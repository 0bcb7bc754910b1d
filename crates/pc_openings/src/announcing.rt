//! The names that a block declares somewhere (ISO 7185, 6.2.2).

ghost use Rattle.std.specs.Prelude.{◌≡◌, ◌<◌, ◌∷◌, [], length, OnOk};
ghost use Rattle.pc_syntax.specs.Words.{lowered};
ghost use Rattle.pc_scope.specs.Headings.{first_name, names_of, names_of_first};
ghost use Rattle.pc_rules.specs.OwnBlock.{all_of_class, named_of_class, declared_by};
ghost use Rattle.pc_names.specs.Standing.{meant};
ghost use Rattle.pc_openings.specs.Announced.{Announced};
ghost use Rattle.pc_openings.specs.Declaring.{name_of, listed, declared_below};

use crate::kinds::may_declare_below;
use pc_names::{BlockId, NameClass, Names};
use pc_syntax::{Kind, Tree};
use std::alloc::AllocError;

/// The block declares what the nodes below a node of it declare, in text order. Only memory can fail. Work: one visit for each node
/// that stands below, but for those below a statement, a constant or a routine.
pub(crate) fn announce_below(
    names: &mut Names,
    block: BlockId,
    node: &Tree,
) -> Result<(), AllocError>
    requires { block.0 < length names.old.chains }
    ensures { OnOk result (Announced block.0 (declared_below node.now) names.old names.new) }
{
    if !may_declare_below(node.kind()) {
        return Ok(());
    }
    for kid in node.kid_slice() {
        announce_own(names, block, kid)?;
        announce_below(names, block, kid)?;
    }
    Ok(())
}

/// The block declares what a node itself declares.
fn announce_own(names: &mut Names, block: BlockId, node: &Tree) -> Result<(), AllocError>
    requires { block.0 < length names.old.chains }
    ensures { OnOk result (Announced block.0 (declared_by node.now.kind node.now.kids) names.old names.new) }
{
    match node.kind() {
        Kind::Constdef => {
            announce_first(names, block, node, NameClass::Constant)?;
            Ok(())
        }
        Kind::Typedef => {
            announce_first(names, block, node, NameClass::Type)?;
            Ok(())
        }
        Kind::Vardef => {
            announce_list(names, block, node, NameClass::Variable)?;
            Ok(())
        }
        Kind::Enum => {
            announce_list(names, block, node, NameClass::Element)?;
            Ok(())
        }
        Kind::Procedure => {
            announce_first(names, block, node, NameClass::Procedure)?;
            Ok(())
        }
        Kind::Function | Kind::Funbody => {
            announce_first(names, block, node, NameClass::Function)?;
            Ok(())
        }
        _ => Ok(()),
    }
}

/// The block declares the name that a node has as its first kid.
fn announce_first(
    names: &mut Names,
    block: BlockId,
    node: &Tree,
    class: NameClass,
) -> Result<(), AllocError>
    requires { block.0 < length names.old.chains }
    ensures { OnOk result (Announced block.0 (named_of_class (meant class) (first_name node.now.kids)) names.old names.new) }
{
    let Some(name) = node.kid(1) else {
        return Ok(());
    };
    announce_name(names, block, name, class)?;
    Ok(())
}

/// The block declares the names of the list that a node has as its first kid.
fn announce_list(
    names: &mut Names,
    block: BlockId,
    node: &Tree,
    class: NameClass,
) -> Result<(), AllocError>
    requires { block.0 < length names.old.chains }
    ensures { OnOk result (Announced block.0 (all_of_class (meant class) (names_of_first node.now.kids)) names.old names.new) }
{
    let Some(list) = node.kid(1) else {
        return Ok(());
    };
    announce_names(names, block, list, class)?;
    Ok(())
}

/// The block declares a name; a hole is none.
fn announce_name(
    names: &mut Names,
    block: BlockId,
    name: &Tree,
    class: NameClass,
) -> Result<(), AllocError>
    requires { block.0 < length names.old.chains }
    ensures { OnOk result (Announced block.0 (named_of_class (meant class) (name_of name.now)) names.old names.new) }
{
    if name.kind().is_hole() {
        return Ok(());
    }
    let word = name.word();
    if word.is_empty() {
        return Ok(());
    }
    announce_word(names, block, word, class)?;
    Ok(())
}

/// The block declares the names of a list.
fn announce_names(
    names: &mut Names,
    block: BlockId,
    list: &Tree,
    class: NameClass,
) -> Result<(), AllocError>
    requires { block.0 < length names.old.chains }
    ensures { OnOk result (Announced block.0 (all_of_class (meant class) (names_of list.now.kids)) names.old names.new) }
{
    for name in list.kid_slice() {
        announce_listed(names, block, name, class)?;
    }
    Ok(())
}

/// The block declares a name of a list; a hole is none.
fn announce_listed(
    names: &mut Names,
    block: BlockId,
    name: &Tree,
    class: NameClass,
) -> Result<(), AllocError>
    requires { block.0 < length names.old.chains }
    ensures { OnOk result (Announced block.0 (listed (meant class) name.now) names.old names.new) }
{
    if name.kind().is_hole() {
        return Ok(());
    }
    announce_word(names, block, name.word(), class)?;
    Ok(())
}

/// The block declares a name in any case.
fn announce_word(
    names: &mut Names,
    block: BlockId,
    word: &[u8],
    class: NameClass,
) -> Result<(), AllocError>
    requires { block.0 < length names.old.chains }
    ensures { OnOk result (Announced block.0 ((lowered word.now, meant class) ∷ []) names.old names.new) }
{
    let name = names.number(word)?;
    names.announce(block, name, class)?;
    Ok(())
}
