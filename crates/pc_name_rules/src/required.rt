//! Required names, by what they are (ISO 7185, 6.2.2.10).

ghost use Rattle.std.specs.Prelude.{◌≡◌};
ghost use Rattle.pc_scope.specs.Required as required;
ghost use Rattle.pc_scope.specs.Spelled.{spelling};
ghost use Rattle.pc_rules.specs.Variables as variables;

use pc_scope::Builtin;

/// Whether it is a required type.
pub fn is_required_type(builtin: Builtin) -> bool
    ensures { result ≡ required.is_required_type (spelling builtin) }
{
    matches!(builtin, Builtin::Integer | Builtin::Boolean | Builtin::Char)
}

/// Whether it is a required constant.
pub fn is_required_constant(builtin: Builtin) -> bool
    ensures { result ≡ required.is_required_constant (spelling builtin) }
{
    matches!(builtin, Builtin::Maxint | Builtin::False | Builtin::True)
}

/// Whether it is a required function.
pub fn is_required_function(builtin: Builtin) -> bool
    ensures { result ≡ required.is_required_function (spelling builtin) }
{
    matches!(
        builtin,
        Builtin::Abs
            | Builtin::Sqr
            | Builtin::Ord
            | Builtin::Chr
            | Builtin::Succ
            | Builtin::Pred
            | Builtin::Odd
            | Builtin::Eof
            | Builtin::Eoln
    )
}

/// Whether it is a required procedure.
pub fn is_required_procedure(builtin: Builtin) -> bool
    ensures { result ≡ required.is_required_procedure (spelling builtin) }
{
    matches!(
        builtin,
        Builtin::New
            | Builtin::Dispose
            | Builtin::Read
            | Builtin::Readln
            | Builtin::Write
            | Builtin::Writeln
    )
}

/// Whether it has a value: a required constant, or a required function.
pub fn is_required_value(builtin: Builtin) -> bool
    ensures { result ≡ variables.is_required_value (spelling builtin) }
{
    is_required_constant(builtin) || is_required_function(builtin)
}

/// Whether it may be called without arguments: eof and eoln.
pub fn is_end_test(builtin: Builtin) -> bool
    ensures { result ≡ variables.is_end_test (spelling builtin) }
{
    matches!(builtin, Builtin::Eof | Builtin::Eoln)
}
