//! Functions as variables in their own blocks.

ghost use Rattle.std.specs.Prelude.{◌≡◌};
ghost use Rattle.pc_scope.specs.Headings as headings;
ghost use Rattle.pc_routine_sites.specs.Identities as identities;

use pc_facts::Variable;
use pc_names::NameId;
use pc_syntax::Kind;
use pc_types::OwnerId;

/// The function that a routine of this kind is, as a variable of the block around it, if it is one and has a key.
pub(crate) fn own_function(
    kind: Kind,
    has_key: bool,
    around: OwnerId,
    name: Option<NameId>,
) -> Option<Variable>
    ensures { result ≡ identities.own_function kind has_key around name }
{
    if has_key && is_function_kind(kind) {
        let id = name?;
        Some(Variable {
            owner: around,
            name: id,
        })
    } else {
        None
    }
}

/// Whether a routine of this kind is a function.
fn is_function_kind(kind: Kind) -> bool
    ensures { result ≡ headings.is_function_kind kind }
{
    matches!(kind, Kind::Function | Kind::Funbody)
}
