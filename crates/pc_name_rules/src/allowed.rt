//! What a use of a name allows.

ghost use Rattle.std.specs.Prelude.{◌≡◌, ◌++◌, List, ℕ, codes};
ghost use Rattle.pc_names.specs.Standing.{meant};
ghost use Rattle.pc_scope.specs.Spelled.{spelling};
ghost use Rattle.pc_rules.specs.Meanings.{Found};
ghost use Rattle.pc_rules.specs.UsedNames as rule;
ghost use Rattle.pc_facts.specs.Known.{Known};
ghost use Rattle.pc_facts.specs.Shows.{ShowsFound};
ghost use Rattle.pc_name_rules.specs.Uses.{allows_class, allows_required, called};

use crate::classes::{
    is_constant_class, is_function_class, is_procedure_class, is_type_class, is_value_class,
    is_variable_class,
};
use crate::required::{
    is_required_constant, is_required_function, is_required_procedure, is_required_type,
    is_required_value,
};
use pc_facts::Sighting;
use pc_names::NameClass;
use pc_scope::Builtin;

/// What a name is used as: a variable; a value, as a variable, a constant or a function without arguments is; a function with
/// arguments; a procedure; a type; or a constant.
#[derive(Clone, Copy, Debug, PartialEq, Eq)]
pub enum Allowed {
    Variable,
    Value,
    Function,
    Procedure,
    Type,
    Constant,
}

impl Allowed {
    /// Whether a name that is declared with this class may stand there.
    pub fn allows_class(self, class: NameClass) -> bool
        ensures { result ≡ allows_class self (meant class) }
    {
        match self {
            Allowed::Variable => is_variable_class(class),
            Allowed::Value => is_value_class(class),
            Allowed::Function => is_function_class(class),
            Allowed::Procedure => is_procedure_class(class),
            Allowed::Type => is_type_class(class),
            Allowed::Constant => is_constant_class(class),
        }
    }

    /// Whether this required name may.
    pub fn allows_required(self, builtin: Builtin) -> bool
        ensures { result ≡ allows_required self (spelling builtin) }
    {
        match self {
            Allowed::Variable => false,
            Allowed::Value => is_required_value(builtin),
            Allowed::Function => is_required_function(builtin),
            Allowed::Procedure => is_required_procedure(builtin),
            Allowed::Type => is_required_type(builtin),
            Allowed::Constant => is_required_constant(builtin),
        }
    }

    /// The text of row 4, up to the name.
    pub(crate) fn refusal(self) -> &'static [u8]
        ensures { result.now ≡ codes "not a " ++ called self ++ codes ": " }
    {
        match self {
            Allowed::Variable => b"not a variable: ",
            Allowed::Value => b"not a variable: ",
            Allowed::Function => b"not a function: ",
            Allowed::Procedure => b"not a procedure: ",
            Allowed::Type => b"not a type: ",
            Allowed::Constant => b"not a constant: ",
        }
    }
}

/// Whether the name is declared with a class, or required, as its use allows; an undeclared one counts as well, since it has row 1
/// alone.
pub fn is_used_as(sighting: Sighting, allows: Allowed) -> bool
    ensures { (k : Known) (n : List ℕ) (f : Found) → ShowsFound k n sighting f → result ≡ rule.is_used_as (allows_class allows) (allows_required allows) f }
{
    match sighting {
        Sighting::Here(declared) => allows.allows_class(declared.class),
        Sighting::Later(class) => allows.allows_class(class),
        Sighting::Component(_, _) => false,
        Sighting::Required(builtin) => allows.allows_required(builtin),
        Sighting::Missing => true,
    }
}
