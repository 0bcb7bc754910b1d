//! Classes of types: ordinal types, sets, pointers, arrays, records.

ghost use Rattle.std.specs.Prelude.{◌≡◌, ◌<◌, option_map, length, IfSome};
ghost use Rattle.pc_types.specs.Sameness.{required_number};
ghost use Rattle.pc_types.specs.Compatibility.{is_nil};
ghost use Rattle.pc_types.specs.TypeClasses.{is_ordinal, is_set, is_constructed, is_pointer, is_integer, is_boolean, is_char, is_packed, host, low, high, base_of};
ghost use Rattle.pc_types.specs.Outlined.{is_array, is_record, index_of, element_of, domain_place};
ghost use Rattle.pc_types.specs.Table.{shape_at, numbered, place_at, IsThere};
ghost use Rattle.pc_types.specs.Rows.{seen};

use crate::form::{DomainId, TypeId};
use crate::operand::Operand;
use crate::types::Types;

impl Types {
    /// Whether the type is ordinal (ISO 7185, 6.4.2).
    pub fn is_ordinal(&self, operand: Operand) -> bool
        ensures { result ≡ is_ordinal (shape_at (seen self.now) operand) }
    {
        self.outline(operand).is_ordinal()
    }

    /// Whether the type is a set type, or that of a set constructor.
    pub fn is_set(&self, operand: Operand) -> bool
        ensures { result ≡ is_set (shape_at (seen self.now) operand) }
    {
        self.outline(operand).is_set()
    }

    /// Whether the type is that of a set constructor, `[]` too.
    pub fn is_constructed(&self, operand: Operand) -> bool
        ensures { result ≡ is_constructed (shape_at (seen self.now) operand) }
    {
        self.outline(operand).is_constructed()
    }

    /// Whether the type is a pointer type, or that of `nil`.
    pub fn is_pointer(&self, operand: Operand) -> bool
        ensures { result ≡ is_pointer (shape_at (seen self.now) operand) }
    {
        self.outline(operand).is_pointer()
    }

    pub fn is_array(&self, operand: Operand) -> bool
        ensures { result ≡ is_array (shape_at (seen self.now) operand) }
    {
        self.outline(operand).is_array()
    }

    pub fn is_record(&self, operand: Operand) -> bool
        ensures { result ≡ is_record (shape_at (seen self.now) operand) }
    {
        self.outline(operand).is_record()
    }

    /// Whether the type is an array or record type that is packed.
    pub fn is_packed(&self, operand: Operand) -> bool
        ensures { result ≡ is_packed (shape_at (seen self.now) operand) }
    {
        self.outline(operand).is_packed()
    }

    /// The host of a subrange, and else the type itself.
    pub fn host(&self, operand: Operand) -> Operand
        ensures shape { shape_at (seen self.now) result ≡ host (shape_at (seen self.now) operand) }
        ensures there { IsThere (seen self.now) operand → IsThere (seen self.now) result }
    {
        self.outline(operand).host_of(operand)
    }

    /// The host of a subrange of the table, and else the type itself.
    pub fn host_id(&self, id: TypeId) -> TypeId
        ensures shape { numbered (seen self.now).shapes result ≡ host (numbered (seen self.now).shapes id) }
        ensures there { id.0 < length (seen self.now).shapes → result.0 < length (seen self.now).shapes }
    {
        self.outline(Operand::Id(id)).host_id(id)
    }

    /// Which required type the host is: integer 1, Boolean 2, char 3, the type of `nil` 4, and 0 for all others.
    pub(crate) fn host_number(&self, operand: Operand) -> u8
        ensures { result ≡ required_number (host (shape_at (seen self.now) operand)) }
    {
        self.outline(self.host(operand)).number()
    }

    /// Whether the type is integer, or a subrange of it.
    pub fn is_integer(&self, operand: Operand) -> bool
        ensures { result ≡ is_integer (shape_at (seen self.now) operand) }
    {
        self.host_number(operand) == 1
    }

    /// Whether the type is Boolean, or a subrange of it.
    pub fn is_boolean(&self, operand: Operand) -> bool
        ensures { result ≡ is_boolean (shape_at (seen self.now) operand) }
    {
        self.host_number(operand) == 2
    }

    /// Whether the type is char, or a subrange of it.
    pub fn is_char(&self, operand: Operand) -> bool
        ensures { result ≡ is_char (shape_at (seen self.now) operand) }
    {
        self.host_number(operand) == 3
    }

    /// Whether the type is that of `nil`.
    pub fn is_nil(&self, operand: Operand) -> bool
        ensures { result ≡ is_nil (shape_at (seen self.now) operand) }
    {
        self.outline(operand).number() == 4
    }

    /// The least ordinal of an ordinal type.
    pub fn low(&self, operand: Operand) -> i64
        ensures { result ≡ low (shape_at (seen self.now) operand) }
    {
        self.outline(operand).low()
    }

    /// The largest ordinal of an ordinal type.
    pub fn high(&self, operand: Operand) -> i64
        ensures { result ≡ high (shape_at (seen self.now) operand) }
    {
        self.outline(operand).high()
    }

    /// The base of a set, if it is one and not `[]`.
    pub fn base(&self, operand: Operand) -> Option<TypeId>
        ensures shape { option_map (numbered (seen self.now).shapes) result ≡ base_of (shape_at (seen self.now) operand) }
        ensures there { IsThere (seen self.now) operand → IfSome result (λ id. id.0 < length (seen self.now).shapes) }
    {
        self.outline(operand).base()
    }

    /// The index type, if it is an array.
    pub fn index(&self, operand: Operand) -> Option<TypeId>
        ensures shape { option_map (numbered (seen self.now).shapes) result ≡ index_of (shape_at (seen self.now) operand) }
        ensures there { IsThere (seen self.now) operand → IfSome result (λ id. id.0 < length (seen self.now).shapes) }
    {
        self.outline(operand).index()
    }

    /// The type of the elements, if it is an array.
    pub fn element(&self, operand: Operand) -> Option<TypeId>
        ensures shape { option_map (numbered (seen self.now).shapes) result ≡ element_of (shape_at (seen self.now) operand) }
        ensures there { IsThere (seen self.now) operand → IfSome result (λ id. id.0 < length (seen self.now).shapes) }
    {
        self.outline(operand).element()
    }

    /// The domain, if it is a pointer type.
    pub fn pointed(&self, operand: Operand) -> Option<DomainId>
        ensures { option_map (place_at (seen self.now)) result ≡ domain_place (shape_at (seen self.now) operand) }
    {
        self.outline(operand).domain()
    }
}
