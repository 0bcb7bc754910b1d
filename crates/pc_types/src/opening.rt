//! The table of a program that has no types of its own.

ghost use Rattle.std.specs.Prelude.{◌≡◌, IfOk};
ghost use Rattle.pc_types.specs.Rows.{seen, IsRequiredRow};
ghost use Rattle.pc_types.specs.Growth.{opening};

use crate::form::{Definition, Form, OwnerId};
use crate::owner::Owner;
use crate::types::{Row, Types};
use pc_syntax::{Key, Path, Word};
use std::alloc::{AllocError, Global};

impl Types {
    /// The required types integer, Boolean, char and that of `nil`, as 0 to 3, and the program as owner 0. Fails for want of memory
    /// only.
    pub fn new(alloc: Global) -> Result<Types, AllocError>
        ensures { IfOk result (λ types. seen types ≡ opening) }
    {
        let mut rows = Vec::new(alloc);
        rows.push(required(alloc, Form::Integer)?)?;
        rows.push(required(alloc, Form::Boolean)?)?;
        rows.push(required(alloc, Form::Char)?)?;
        rows.push(required(alloc, Form::Nil)?)?;
        let mut owners = Vec::new(alloc);
        owners.push(Owner::Keyed(Key::root(alloc)))?;
        Ok(Types {
            rows,
            owners,
            domains: Vec::new(alloc),
        })
    }
}

/// The row of a required type. It has no definition: the program stands for it.
fn required(alloc: Global, form: Form) -> Result<Row, AllocError>
    ensures { IfOk result (λ row. IsRequiredRow form row) }
{
    Ok(Row {
        form,
        definition: Definition {
            owner: OwnerId::PROGRAM,
            name: Word::new(alloc, b"")?,
            number: 0,
            inside: Path::root(alloc),
        },
        cells: 1,
        levels: 1,
    })
}
