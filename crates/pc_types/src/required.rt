//! The required types (ISO 7185, 6.4.2.2), and the type of `nil`.

ghost use Rattle.std.specs.Prelude.{◌≡◌};
ghost use Rattle.pc_types.specs.Shapes.{IntegerType, BooleanType, CharType, NilType};
ghost use Rattle.pc_types.specs.Table.{shape_at, IsThere, HasRequired};
ghost use Rattle.pc_types.specs.Rows.{seen};
ghost use Rattle.pc_types.specs.declared.operand.Operand.TheVariants as operand;

use crate::form::TypeId;
use crate::operand::Operand;
use crate::types::Types;

impl Types {
    /// The type integer.
    pub fn integer(&self) -> Operand
        ensures shape { shape_at (seen self.now) result ≡ IntegerType }
        ensures there { IsThere (seen self.now) result }
    {
        self.required(TypeId::INTEGER)
    }

    /// The type Boolean.
    pub fn boolean(&self) -> Operand
        ensures shape { shape_at (seen self.now) result ≡ BooleanType }
        ensures there { IsThere (seen self.now) result }
    {
        self.required(TypeId::BOOLEAN)
    }

    /// The type char.
    pub fn char_type(&self) -> Operand
        ensures shape { shape_at (seen self.now) result ≡ CharType }
        ensures there { IsThere (seen self.now) result }
    {
        self.required(TypeId::CHAR)
    }

    /// The type of `nil`.
    pub fn nil(&self) -> Operand
        ensures shape { shape_at (seen self.now) result ≡ NilType }
        ensures there { IsThere (seen self.now) result }
    {
        self.required(TypeId::NIL)
    }

    /// The type with this number, in a table that begins with the required types.
    fn required(&self, id: TypeId) -> Operand
        ensures is { result ≡ operand.Id id }
        ensures begins { HasRequired (seen self.now) }
    {
        let _rows = &self.rows;
        Operand::Id(id)
    }
}
