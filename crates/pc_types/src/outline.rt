//! Tests of outlines.

ghost use Rattle.std.specs.Prelude.{◌≡◌, ◌-ℤ◌, length, pos};
ghost use Rattle.pc_types.specs.Outlines.{outline_of, outline_number, outline_is_defined, outline_is_ordinal, outline_is_subrange, outline_is_set, outline_is_constructed, outline_is_pointer, outline_is_array, outline_is_record, outline_is_packed, outline_host, outline_low, outline_high, outline_base, outline_packing, outline_index, outline_element, outline_text, outline_domain};
ghost use Rattle.pc_types.specs.declared.operand.Operand.TheVariants as operand;

use crate::form::{DomainId, Form, TypeId};
use crate::operand::{Operand, Outline};
use pc_syntax::Word;
use sqlite_items::Items;

const MAXINT: i64 = 9223372036854775807;

impl Outline {
    /// The outline of a form.
    pub(crate) fn of(form: &Form) -> Outline
        ensures { result ≡ outline_of form.now }
    {
        match form {
            Form::Integer => Outline::Integer,
            Form::Boolean => Outline::Boolean,
            Form::Char => Outline::Char,
            Form::Nil => Outline::Nil,
            Form::Named(names) => Outline::Named(last_ordinal(names)),
            Form::Subrange(host, low, high) => Outline::Subrange(*host, *low, *high),
            Form::Array(packed, index, element) => Outline::Array(*packed, *index, *element),
            Form::Record(packed, _) => Outline::Record(*packed),
            Form::Set(packed, base) => Outline::Set(*packed, *base),
            Form::Members(Some(base)) => Outline::Members(*base),
            Form::Members(None) => Outline::NoMembers,
            Form::Text(n) => Outline::Text(*n),
            Form::Pointer(domain) => Outline::Pointer(*domain),
        }
    }

    /// Which required type it is: integer 1, Boolean 2, char 3, the type of `nil` 4, and 0 for all others.
    pub(crate) fn number(self) -> u8
        ensures { result ≡ outline_number self }
    {
        match self {
            Outline::Integer => 1,
            Outline::Boolean => 2,
            Outline::Char => 3,
            Outline::Nil => 4,
            _ => 0,
        }
    }

    /// Whether a denoter of the program defines it.
    pub(crate) fn is_defined(self) -> bool
        ensures { result ≡ outline_is_defined self }
    {
        match self {
            Outline::Named(_) => true,
            Outline::Subrange(_, _, _) => true,
            Outline::Array(_, _, _) => true,
            Outline::Record(_) => true,
            Outline::Set(_, _) => true,
            Outline::Pointer(_) => true,
            _ => false,
        }
    }

    pub(crate) fn is_ordinal(self) -> bool
        ensures { result ≡ outline_is_ordinal self }
    {
        match self {
            Outline::Integer => true,
            Outline::Boolean => true,
            Outline::Char => true,
            Outline::Named(_) => true,
            Outline::Subrange(_, _, _) => true,
            _ => false,
        }
    }

    pub(crate) fn is_subrange(self) -> bool
        ensures { result ≡ outline_is_subrange self }
    {
        matches!(self, Outline::Subrange(_, _, _))
    }

    pub(crate) fn is_set(self) -> bool
        ensures { result ≡ outline_is_set self }
    {
        match self {
            Outline::NoMembers => true,
            Outline::Members(_) => true,
            Outline::Set(_, _) => true,
            _ => false,
        }
    }

    /// Whether it is that of a set constructor.
    pub(crate) fn is_constructed(self) -> bool
        ensures { result ≡ outline_is_constructed self }
    {
        match self {
            Outline::NoMembers => true,
            Outline::Members(_) => true,
            _ => false,
        }
    }

    pub(crate) fn is_pointer(self) -> bool
        ensures { result ≡ outline_is_pointer self }
    {
        match self {
            Outline::Nil => true,
            Outline::Pointer(_) => true,
            _ => false,
        }
    }

    pub(crate) fn is_array(self) -> bool
        ensures { result ≡ outline_is_array self }
    {
        matches!(self, Outline::Array(_, _, _))
    }

    pub(crate) fn is_record(self) -> bool
        ensures { result ≡ outline_is_record self }
    {
        matches!(self, Outline::Record(_))
    }

    pub(crate) fn is_packed(self) -> bool
        ensures { result ≡ outline_is_packed self }
    {
        match self {
            Outline::Array(packed, _, _) => packed,
            Outline::Record(packed) => packed,
            _ => false,
        }
    }

    /// The host where this is the outline of a subrange, and else the type itself.
    pub(crate) fn host_of(self, operand: Operand) -> Operand
        ensures { result ≡ outline_host operand self }
    {
        match self {
            Outline::Subrange(host, _, _) => Operand::Id(host),
            _ => operand,
        }
    }

    /// The same, where it is a type of the table.
    pub(crate) fn host_id(self, id: TypeId) -> TypeId
        ensures { operand.Id result ≡ outline_host (operand.Id id) self }
    {
        match self {
            Outline::Subrange(host, _, _) => host,
            _ => id,
        }
    }

    /// The least ordinal.
    #[tactic(auto, unfolding(crate::specs::TypeClasses::largest_number))]
    pub(crate) fn low(self) -> i64
        ensures { result ≡ outline_low self }
    {
        match self {
            Outline::Integer => -MAXINT,
            Outline::Subrange(_, low, _) => low,
            _ => 0,
        }
    }

    /// The largest ordinal.
    #[tactic(auto, unfolding(crate::specs::TypeClasses::largest_number))]
    pub(crate) fn high(self) -> i64
        ensures { result ≡ outline_high self }
    {
        match self {
            Outline::Integer => MAXINT,
            Outline::Boolean => 1,
            Outline::Char => 127,
            Outline::Named(last) => last,
            Outline::Subrange(_, _, high) => high,
            _ => 0,
        }
    }

    /// The base of a set.
    pub(crate) fn base(self) -> Option<TypeId>
        ensures { result ≡ outline_base self }
    {
        match self {
            Outline::Set(_, base) => Some(base),
            Outline::Members(base) => Some(base),
            _ => None,
        }
    }

    /// Whether a set type is packed.
    pub(crate) fn packing(self) -> Option<bool>
        ensures { result ≡ outline_packing self }
    {
        match self {
            Outline::Set(packed, _) => Some(packed),
            _ => None,
        }
    }

    pub(crate) fn index(self) -> Option<TypeId>
        ensures { result ≡ outline_index self }
    {
        match self {
            Outline::Array(_, index, _) => Some(index),
            _ => None,
        }
    }

    pub(crate) fn element(self) -> Option<TypeId>
        ensures { result ≡ outline_element self }
    {
        match self {
            Outline::Array(_, _, element) => Some(element),
            _ => None,
        }
    }

    /// The length of a text, 0 for every other type.
    pub(crate) fn text(self) -> u32
        ensures { result ≡ outline_text self }
    {
        match self {
            Outline::Text(n) => n,
            _ => 0,
        }
    }

    pub(crate) fn domain(self) -> Option<DomainId>
        ensures { result ≡ outline_domain self }
    {
        match self {
            Outline::Pointer(domain) => Some(domain),
            _ => None,
        }
    }
}

/// The largest ordinal of an enumerated type with these constants.
fn last_ordinal(names: &Items<Word>) -> i64
    ensures { result ≡ pos (length names.now) -ℤ pos 1 }
{
    names.as_slice().len() as i64 - 1
}
