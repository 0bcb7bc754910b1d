//! Types are added.

ghost use Rattle.std.specs.Prelude.{◌≡◌, length, IfOk, OnOk};
ghost use Rattle.pc_types.specs.Table.{shape_in, IsReady};
ghost use Rattle.pc_types.specs.Rows.{seen};
ghost use Rattle.pc_types.specs.Growth.{GrowsBy};
ghost use Rattle.pc_type_rules.specs.Extends.{Extends};

use pc_types::{Definition, Form, TypeId, Types};
use std::alloc::AllocError;

/// A new type of this form, defined here: its number. What the form and the definition name must be there. Fails for want of memory,
/// and where the table has as many types as there are numbers.
pub fn add_type(types: &mut Types, form: Form, here: Definition) -> Result<TypeId, AllocError>
    requires { IsReady (seen types.old) form here }
    ensures id { IfOk result (λ id. id.0 ≡ length (seen types.old).shapes) }
    ensures grown { OnOk result (GrowsBy (seen types.old) (seen types.new) (shape_in (seen types.old) here form)) }
    ensures extended { OnOk result (Extends (seen types.old) (seen types.new)) }
{
    if types.count() > u32::MAX as usize {
        return Err(AllocError);
    }
    let id = types.add(form, here)?;
    Ok(id)
}
