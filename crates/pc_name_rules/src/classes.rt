//! Classes of declared names, by what they may be used as (ISO 7185, 6.3 to 6.6).

ghost use Rattle.std.specs.Prelude.{◌≡◌};
ghost use Rattle.pc_names.specs.Standing.{meant};
ghost use Rattle.pc_rules.specs.NameClasses as rule;

use pc_names::NameClass;

/// Whether a constant may stand there.
pub fn is_constant_class(class: NameClass) -> bool
    ensures { result ≡ rule.is_constant_class (meant class) }
{
    matches!(class, NameClass::Constant | NameClass::Element)
}

/// Whether a type may.
pub fn is_type_class(class: NameClass) -> bool
    ensures { result ≡ rule.is_type_class (meant class) }
{
    matches!(class, NameClass::Type)
}

/// Whether a variable may, parameters included.
pub fn is_variable_class(class: NameClass) -> bool
    ensures { result ≡ rule.is_variable_class (meant class) }
{
    matches!(
        class,
        NameClass::Variable | NameClass::Value | NameClass::Reference
    )
}

/// Whether the name is that of a variable of a variable declaration part.
pub fn is_own_variable(class: NameClass) -> bool
    ensures { result ≡ rule.is_own_variable (meant class) }
{
    matches!(class, NameClass::Variable)
}

/// Whether it is that of a variable parameter.
pub fn is_reference_class(class: NameClass) -> bool
    ensures { result ≡ rule.is_reference_class (meant class) }
{
    matches!(class, NameClass::Reference)
}

/// Whether it is that of a function.
pub fn is_function_class(class: NameClass) -> bool
    ensures { result ≡ rule.is_function_class (meant class) }
{
    matches!(class, NameClass::Function)
}

/// Whether it is that of a procedure.
pub fn is_procedure_class(class: NameClass) -> bool
    ensures { result ≡ rule.is_procedure_class (meant class) }
{
    matches!(class, NameClass::Procedure)
}

/// Whether the name has a value: a variable, a constant, or a function.
pub fn is_value_class(class: NameClass) -> bool
    ensures { result ≡ rule.is_value_class (meant class) }
{
    !matches!(class, NameClass::Type | NameClass::Procedure)
}
