//! Strings (ISO 7185, 6.4.3.2).

ghost use Rattle.std.specs.Prelude.{◌≡◌};
ghost use Rattle.pc_types.specs.TypeClasses.{text_bounds, text_length, string_length, is_string};
ghost use Rattle.pc_types.specs.Table.{shape_at, numbered};
ghost use Rattle.pc_types.specs.Rows.{seen};

use crate::form::TypeId;
use crate::operand::Operand;
use crate::types::Types;

impl Types {
    /// Whether the type is a string type, or that of a text.
    pub fn is_string(&self, operand: Operand) -> bool
        ensures { result ≡ is_string (shape_at (seen self.now) operand) }
    {
        self.string_length(operand) != 0
    }

    /// The length of a string, 0 for every other type.
    #[tactic(auto, using(crate::proofs::ShapesLaws::strings))]
    pub fn string_length(&self, operand: Operand) -> u64
        ensures { result ≡ string_length (shape_at (seen self.now) operand) }
    {
        let outline = self.outline(operand);
        match (outline.index(), outline.element()) {
            (Some(index), Some(element)) => {
                if outline.is_packed() {
                    self.text_length(index, element)
                } else {
                    0
                }
            }
            _ => u64::from(outline.text()),
        }
    }

    /// The length of a string with this index type and this component; 0 where it is none.
    #[tactic(auto, using(crate::proofs::ShapesLaws::strings))]
    fn text_length(&self, index: TypeId, element: TypeId) -> u64
        ensures { result ≡ text_length (numbered (seen self.now).shapes index) (numbered (seen self.now).shapes element) }
    {
        let range = self.outline(Operand::Id(index));
        let host = self.host_number(Operand::Id(index));
        let component = self.outline(Operand::Id(element)).number();
        if range.is_subrange() && host == 1 && component == 3 {
            text_bounds(range.low(), range.high())
        } else {
            0
        }
    }
}

/// The length of a string whose indices go from the one number to the other.
fn text_bounds(low: i64, high: i64) -> u64
    ensures { result ≡ text_bounds low high }
{
    if low == 1 && high >= 2 {
        high as u64
    } else {
        0
    }
}
