//! Fields of records (ISO 7185, 6.4.3.3).

ghost use Rattle.std.specs.Prelude.{◌≡◌, ◌<◌, option_map, length, IfSome};
ghost use Rattle.pc_syntax.specs.Words.{lowered};
ghost use Rattle.pc_types.specs.Domains.{field_in};
ghost use Rattle.pc_types.specs.TypeClasses.{fields_of};
ghost use Rattle.pc_types.specs.Table.{shape_at, numbered, fields_from, FieldsThere};
ghost use Rattle.pc_types.specs.Rows.{seen, form_fields, find_field};

use crate::form::{Form, TypeId};
use crate::operand::Operand;
use crate::types::Types;
use pc_syntax::{Word, is_spelled};

impl Types {
    /// The type of the field with this name, in any case, if the type is a record type that has it. Work: the number of fields.
    #[tactic(auto, using(crate::proofs::FieldsLaws::fields))]
    pub fn field(&self, operand: Operand, name: &[u8]) -> Option<TypeId>
        ensures shape { option_map (numbered (seen self.now).shapes) result ≡ field_in (fields_of (shape_at (seen self.now) operand)) (lowered name.now) }
        ensures there { IfSome result (λ id. id.0 < length (seen self.now).shapes) }
    {
        find(self.fields(operand), name)
    }

    /// The fields in order, each by its name in small letters; none if the type is no record type.
    pub fn fields(&self, operand: Operand) -> &[(Word, TypeId)]
        ensures fields { fields_from (seen self.now).shapes result.now ≡ fields_of (shape_at (seen self.now) operand) }
        ensures there { FieldsThere (length (seen self.now).shapes) result.now }
    {
        match operand {
            Operand::Id(id) => self.fields_at(id),
            _ => &[],
        }
    }

    #[tactic(auto, using(crate::proofs::FieldsLaws::fields))]
    fn fields_at(&self, id: TypeId) -> &[(Word, TypeId)]
        ensures fields { fields_from (seen self.now).shapes result.now ≡ fields_of (numbered (seen self.now).shapes id) }
        ensures there { FieldsThere (length (seen self.now).shapes) result.now }
    {
        match self.row(id) {
            Some(row) => fields_in(&row.form),
            None => &[],
        }
    }
}

/// The fields of a form.
fn fields_in(form: &Form) -> &[(Word, TypeId)]
    ensures { result.now ≡ form_fields form.now }
{
    match form {
        Form::Record(_, fields) => fields.as_slice(),
        _ => &[],
    }
}

/// The type of the first field with this name, in any case.
fn find(fields: &[(Word, TypeId)], name: &[u8]) -> Option<TypeId>
    ensures { result ≡ find_field fields.now (lowered name.now) }
{
    let mut rest = fields;
    while let [field, tail @ ..] = rest {
        if is_spelled(name, field.0.bytes()) {
            return Some(field.1);
        }
        rest = tail;
    }
    None
}
