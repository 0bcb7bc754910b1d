//! The first name of some variables, by which the definition of their denoter is named.

ghost use Rattle.std.specs.Prelude.{◌≡◌, ℕ, [], true, if◌then◌else◌, IfOk, OnOk};
ghost use Rattle.pc_syntax.specs.Words.{lowered};
ghost use Rattle.pc_scope.specs.Headings.{names_of};
ghost use Rattle.pc_rules.specs.Meanings.{Local, Outside};
ghost use Rattle.pc_rules.specs.Places.{first_of_names};
ghost use Rattle.pc_places.specs.Places.{IsPlace, Keeps};
ghost use Rattle.pc_definitions.specs.Namings as namings;
ghost use Rattle.pc_declaration_parts.specs.FirstNames.{FitsFirst};

use pc_definitions::Naming;
use pc_names::{BlockId, NameId};
use pc_places::{Tables, is_passed, number};
use pc_syntax::Tree;
use std::alloc::AllocError;

/// The first name of a list, and nothing where there is none.
pub(crate) fn first_word(list: &Tree) -> &[u8]
    ensures { lowered result.now ≡ first_of_names (names_of list.now.kids) }
{
    for kid in list.kid_slice() {
        if !kid.kind().is_hole() {
            return kid.word();
        }
    }
    &[]
}

/// How this name stands before in the block; it is none if it is empty. Only memory can fail.
pub(crate) fn naming_of(
    tables: &mut Tables,
    block: BlockId,
    word: &[u8],
) -> Result<Naming, AllocError>
    ensures fits { IfOk result (λ n. (owner : ℕ) (out : Outside) (l : Local) → IsPlace tables.old block.0 owner out l → FitsFirst l (lowered word.now) n) }
    ensures nameless { IfOk result (λ n. namings.is_nameless n ≡ true → lowered word.now ≡ []) }
    ensures keeps { OnOk result (Keeps tables.old tables.new) }
{
    if word.is_empty() {
        Ok(Naming::Nameless)
    } else {
        let name = number(tables, word)?;
        let second = is_passed(tables, block, name);
        Ok(filled(name, second))
    }
}

/// How a name stands before.
fn filled(name: NameId, second: bool) -> Naming
    ensures { result ≡ (if second then Naming.Second else Naming.First name) }
{
    if second {
        Naming::Second
    } else {
        Naming::First(name)
    }
}
