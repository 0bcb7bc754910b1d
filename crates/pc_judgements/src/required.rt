//! Required functions and procedures (ISO 7185, 6.6.5, 6.6.6, 6.9).

ghost use Rattle.std.specs.Prelude.{◌≡◌, IfSome, option_map, codes};
ghost use Rattle.std.specs.Str.{bytes_eq};
ghost use Rattle.pc_types.specs.Rows.{seen};
ghost use Rattle.pc_types.specs.Table.{shape_at, IsThere};
ghost use Rattle.pc_rules.specs.RequiredFunctions as functions;
ghost use Rattle.pc_rules.specs.RequiredProcedures as procedures;
ghost use Rattle.pc_judgements.specs.Judged as judged;

use pc_types::{Operand, Types};

/// The type of a required function with this name, in small letters, on a value of this type, where it is defined: `ord`, `succ` and
/// `pred` are for ordinal types, all others, as `chr`, `odd`, `abs` and `sqr`, for integers.
pub fn function_result(types: &Types, name: &[u8], argument: Operand) -> Option<Operand>
    ensures shape { option_map (shape_at (seen types.now)) result ≡ functions.function_result name.now (shape_at (seen types.now) argument) }
    ensures there { IsThere (seen types.now) argument → IfSome result (IsThere (seen types.now)) }
{
    if is_word(name, b"ord") {
        return ordinal_number(types, argument);
    }
    if is_word(name, b"succ") || is_word(name, b"pred") {
        return neighbour(types, argument);
    }
    if types.is_integer(argument) {
        Some(of_integer(types, name))
    } else {
        None
    }
}

/// The type of `ord`.
fn ordinal_number(types: &Types, argument: Operand) -> Option<Operand>
    ensures shape { option_map (shape_at (seen types.now)) result ≡ functions.function_result (codes "ord") (shape_at (seen types.now) argument) }
    ensures there { IfSome result (IsThere (seen types.now)) }
{
    if types.is_ordinal(argument) {
        Some(types.integer())
    } else {
        None
    }
}

/// The type of `succ` and `pred`.
fn neighbour(types: &Types, argument: Operand) -> Option<Operand>
    ensures shape { option_map (shape_at (seen types.now)) result ≡ functions.function_result (codes "succ") (shape_at (seen types.now) argument) }
    ensures there { IsThere (seen types.now) argument → IfSome result (IsThere (seen types.now)) }
{
    if types.is_ordinal(argument) {
        Some(types.host(argument))
    } else {
        None
    }
}

/// The type of a function of an integer.
fn of_integer(types: &Types, name: &[u8]) -> Operand
    ensures shape { shape_at (seen types.now) result ≡ judged.of_integer name.now }
    ensures there { IsThere (seen types.now) result }
{
    if is_word(name, b"chr") {
        types.char_type()
    } else if is_word(name, b"odd") {
        types.boolean()
    } else {
        types.integer()
    }
}

fn is_word(name: &[u8], word: &[u8]) -> bool
    ensures { result ≡ bytes_eq name.now word.now }
{
    name == word
}

/// Whether a variable of the type can be read: integers and characters.
pub fn can_be_read(types: &Types, operand: Operand) -> bool
    ensures { result ≡ procedures.can_be_read (shape_at (seen types.now) operand) }
{
    types.is_ordinal(operand) && (types.is_integer(operand) || types.is_char(operand))
}

/// Whether a value of the type can be written: integers, characters, Boolean values and strings.
pub fn can_be_written(types: &Types, operand: Operand) -> bool
    ensures { result ≡ procedures.can_be_written (shape_at (seen types.now) operand) }
{
    types.is_string(operand)
        || (types.is_ordinal(operand)
            && (types.is_integer(operand) || types.is_char(operand) || types.is_boolean(operand)))
}

/// Whether the type is integer or a subrange of it.
pub fn is_integer_ordinal(types: &Types, operand: Operand) -> bool
    ensures { result ≡ procedures.is_integer_ordinal (shape_at (seen types.now) operand) }
{
    types.is_ordinal(operand) && types.is_integer(operand)
}
