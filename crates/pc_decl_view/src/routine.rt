//! The lines of a routine.

ghost use Rattle.std.specs.Prelude.{◌≡◌, ◌++◌, [], codes, IfOk};
ghost use Rattle.std.specs.Option.{option_copied, option_map_or};
ghost use Rattle.pc_types.specs.Rows.{seen};
ghost use Rattle.pc_views.specs.Limit.{Agrees};
ghost use Rattle.pc_decl.specs.Shown.{key_text};
ghost use Rattle.pc_decl_view.specs.KeptLines.{kept_name_lines, kept_key_lines, kept_routine_lines};

use crate::names::push_names;
use pc_decl::push_key;
use pc_facts::Signature;
use pc_own_names::RoutineNames;
use pc_syntax::Key;
use pc_types::Types;
use std::alloc::{AllocError, Global};

/// Adds the lines of a routine with this later declaration: none where it has no key, or is one itself.
pub(crate) fn push_routine(
    alloc: Global,
    text: &mut Vec<u8>,
    types: &Types,
    signatures: &[Signature],
    routine: &RoutineNames,
    later: Option<&RoutineNames>,
) -> Result<(), AllocError>
    ensures { IfOk result (λ _. Agrees text.new.items (text.old.items ++ kept_routine_lines (seen types.now) signatures.now routine.now (option_copied later.entry))) }
{
    if routine.is_later {
        return Ok(());
    }
    match &routine.key {
        Some(key) => {
            push_key_line(text, key)?;
            push_names(alloc, text, types, signatures, &routine.names)?;
            push_later(alloc, text, types, signatures, later)?;
            Ok(())
        }
        None => Ok(()),
    }
}

/// Adds the line of a key.
fn push_key_line(text: &mut Vec<u8>, key: &Key) -> Result<(), AllocError>
    ensures { IfOk result (λ _. text.new.items ≡ text.old.items ++ (key_text key.now ++ codes "\n")) }
{
    push_key(text, key)?;
    text.push(b'\n')?;
    Ok(())
}

/// Adds the lines of the names of the later declaration, if there is one.
fn push_later(
    alloc: Global,
    text: &mut Vec<u8>,
    types: &Types,
    signatures: &[Signature],
    later: Option<&RoutineNames>,
) -> Result<(), AllocError>
    ensures { IfOk result (λ _. Agrees text.new.items (text.old.items ++ option_map_or (kept_name_lines (seen types.now) signatures.now) (option_copied later.entry) [])) }
{
    match later {
        Some(later) => {
            push_names(alloc, text, types, signatures, &later.names)?;
            Ok(())
        }
        None => Ok(()),
    }
}
