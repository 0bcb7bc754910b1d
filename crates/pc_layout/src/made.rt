//! Items that depend on a node's word or on the number of its kids.

ghost use Rattle.std.specs.Prelude.{◌≡◌, ◌≢◌, ◌++◌, ◌∷◌, [], ℕ, zero, suc, List, Some, None, Option, IfOk, IsSome};
ghost use Rattle.pc_syntax.specs.Layout as lay;
ghost use Rattle.pc_layout.specs.Items.{items_of, one_more};

use crate::items::Items;
use pc_syntax::{Class, Item, Lexeme};
use std::alloc::{AllocError, Global};

/// The one of these symbols that is written like the word.
fn operator(operators: &'static [Lexeme], word: &[u8]) -> Option<Lexeme>
    ensures { result ≡ lay.operator operators.now word.now }
{
    for operator in operators {
        if operator.spelling() == word {
            return Some(*operator);
        }
    }
    None
}

/// The items before an operator, the operator that is the word, and the items behind it.
pub fn around(
    alloc: Global,
    operators: &'static [Lexeme],
    word: &[u8],
    before: &'static [Item],
    behind: &'static [Item],
) -> Result<Items, AllocError>
    requires { IsSome (lay.around (lay.operator operators.now word.now) before.now behind.now) }
    ensures { IfOk result (λ items. lay.around (lay.operator operators.now word.now) before.now behind.now ≡ Some (items_of items)) }
{
    match operator(operators, word) {
        Some(operator) => {
            let mut items = with_room(alloc, before, 1, behind)?;
            items.push(Item::Literal(operator))?;
            items.extend_from_slice(behind)?;
            Ok(Items::Made(items))
        }
        None => unreachable!(),
    }
}

/// The items before a last `;`, the `;` where it is the word, and the items behind it.
pub fn last_semicolon(
    alloc: Global,
    word: &[u8],
    before: &'static [Item],
    behind: &'static [Item],
) -> Result<Items, AllocError>
    requires { IsSome (lay.last_semicolon word.now before.now behind.now) }
    ensures { IfOk result (λ items. lay.last_semicolon word.now before.now behind.now ≡ Some (items_of items)) }
{
    let mut items = with_room(alloc, before, 1, behind)?;
    match word {
        [] => {}
        _ => items.push(Item::Literal(Lexeme::Semicolon))?,
    }
    items.extend_from_slice(behind)?;
    Ok(Items::Made(items))
}

/// The items of a list of so many elements.
pub fn elements(
    alloc: Global,
    opening: &'static [Item],
    separator: Option<Lexeme>,
    class: Class,
    close: &'static [Item],
    count: usize,
) -> Result<Items, AllocError>
    ensures { IfOk result (λ items. lay.elements opening.now separator class close.now count ≡ Some (items_of items)) }
{
    if count == 0 {
        return Ok(Items::Fixed(&[]));
    }
    let mut items = with_room(alloc, opening, count.saturating_mul(2), close)?;
    items.push(Item::Kid(class))?;
    for _i in 1..count {
        push_element(&mut items, separator, class)?;
    }
    items.extend_from_slice(close)?;
    Ok(Items::Made(items))
}

/// These items, with room for more and for those behind them.
fn with_room(
    alloc: Global,
    items: &'static [Item],
    more: usize,
    behind: &'static [Item],
) -> Result<Vec<Item>, AllocError>
    ensures { IfOk result (λ made. made.items ≡ items.now) }
{
    let room = items
        .len()
        .saturating_add(more)
        .saturating_add(behind.len());
    let mut made = Vec::with_capacity(alloc, room)?;
    made.extend_from_slice(items)?;
    Ok(made)
}

/// Adds a further element, behind its separator.
fn push_element(
    items: &mut Vec<Item>,
    separator: Option<Lexeme>,
    class: Class,
) -> Result<(), AllocError>
    ensures { IfOk result (λ _. items.new.items ≡ items.old.items ++ one_more separator class) }
{
    if let Some(mark) = separator {
        items.push(Item::Literal(mark))?;
    }
    items.push(Item::Kid(class))?;
    Ok(())
}
