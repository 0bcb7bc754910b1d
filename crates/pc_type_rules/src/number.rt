//! Types as parts of other types.

ghost use Rattle.std.specs.Prelude.{◌≡◌, ◌<◌, Option, Some, IfOk, OnOk, length};
ghost use Rattle.pc_types.specs.declared.form.TypeId.{TypeId};
ghost use Rattle.pc_types.specs.declared.operand.Operand.TheVariants as operand;
ghost use Rattle.std.specs.Option.{ForSome};
ghost use Rattle.pc_types.specs.Shapes.{Shape, Typed};
ghost use Rattle.pc_types.specs.Table.{shape_in, shape_at, IsReady, IsThere, PartsThere};
ghost use Rattle.pc_types.specs.Rows.{seen};
ghost use Rattle.pc_types.specs.declared.form.Definition.{Definition as Written};
ghost use Rattle.pc_facts.specs.Shows.{ShowsType, shape_of};
ghost use Rattle.pc_type_rules.specs.Extends.{Extends};
ghost use Rattle.pc_type_rules.specs.Denoted.{IsNumber};

use crate::add::add_type;
use pc_syntax::{Path, Word};
use pc_types::{Definition, Form, Operand, OwnerId, TypeId, Types};
use std::alloc::{AllocError, Global};

/// A new type of this form, defined here. Only memory and numbers can fail.
pub fn made(types: &mut Types, form: Form, here: Definition) -> Result<Option<Operand>, AllocError>
    requires { IsReady (seen types.old) form here }
    ensures shows { IfOk result (λ o. (ty : Option Typed) → shape_of ty ≡ Some (shape_in (seen types.old) here form) → ShowsType (seen types.new) o ty) }
    ensures extended { OnOk result (Extends (seen types.old) (seen types.new)) }
{
    let id = add_type(types, form, here)?;
    Ok(Some(Operand::Id(id)))
}

/// The number of a type, as a part of a type that this owner defines; the type of a text or of a set constructor, which no denoter
/// has, is given one. None where the type isn't known, or isn't there. Only memory and numbers can fail.
#[tactic(auto, using(crate::specs::ExtendsLaws::unchanged))]
pub fn number_of(
    alloc: Global,
    types: &mut Types,
    owner: OwnerId,
    of: Option<Operand>,
) -> Result<Option<TypeId>, AllocError>
    requires { owner.0 < length (seen types.old).owners }
    ensures number { IfOk result (λ i. (ty : Option Typed) → ShowsType (seen types.old) of ty → IsNumber (seen types.new) i ty) }
    ensures there { IfOk result (λ i. ForSome i (λ x. x.0 < length (seen types.new).shapes)) }
    ensures extended { OnOk result (Extends (seen types.old) (seen types.new)) }
{
    match of {
        None => Ok(None),
        Some(known) => {
            let id = number_in(alloc, types, owner, known)?;
            Ok(id)
        }
    }
}

/// The same of a type that is known.
#[tactic(auto, using(crate::specs::ExtendsLaws::unchanged))]
fn number_in(
    alloc: Global,
    types: &mut Types,
    owner: OwnerId,
    known: Operand,
) -> Result<Option<TypeId>, AllocError>
    requires { owner.0 < length (seen types.old).owners }
    ensures number { IfOk result (λ i. (ty : Option Typed) → ShowsType (seen types.old) (Some known) ty → IsNumber (seen types.new) i ty) }
    ensures there { IfOk result (λ i. ForSome i (λ x. x.0 < length (seen types.new).shapes)) }
    ensures extended { OnOk result (Extends (seen types.old) (seen types.new)) }
{
    match known {
        Operand::Id(id) => Ok(if_there(types, id)),
        Operand::Text(n) => without_name(alloc, types, owner, Form::Text(n)),
        Operand::Members(base) => {
            let id = members(alloc, types, owner, if_there(types, base))?;
            Ok(id)
        }
        Operand::NoMembers => without_name(alloc, types, owner, Form::Members(None)),
    }
}

/// The number, if there is a type with it.
pub(crate) fn if_there(types: &Types, id: TypeId) -> Option<TypeId>
    ensures same { id.0 < length (seen types.now).shapes → result ≡ Some id }
    ensures there { ForSome result (λ x. x.0 < length (seen types.now).shapes) }
{
    if (id.0 as usize) < types.count() {
        Some(id)
    } else {
        None
    }
}

/// The type of a set constructor.
#[tactic(auto, using(crate::specs::ExtendsLaws::unchanged))]
fn members(
    alloc: Global,
    types: &mut Types,
    owner: OwnerId,
    base: Option<TypeId>,
) -> Result<Option<TypeId>, AllocError>
    requires owned { owner.0 < length (seen types.old).owners }
    requires based { ForSome base (λ x. x.0 < length (seen types.old).shapes) }
    ensures number { IfOk result (λ i. (b : TypeId) (ty : Option Typed) → base ≡ Some b → ShowsType (seen types.old) (Some (operand.Members b)) ty → IsNumber (seen types.new) i ty) }
    ensures there { IfOk result (λ i. ForSome i (λ x. x.0 < length (seen types.new).shapes)) }
    ensures extended { OnOk result (Extends (seen types.old) (seen types.new)) }
{
    match base {
        Some(base) => without_name(alloc, types, owner, Form::Members(Some(base))),
        None => Ok(None),
    }
}

/// A new type of this form, for which no name stands.
fn without_name(
    alloc: Global,
    types: &mut Types,
    owner: OwnerId,
    form: Form,
) -> Result<Option<TypeId>, AllocError>
    requires owned { owner.0 < length (seen types.old).owners }
    requires parts { PartsThere (length (seen types.old).shapes) (length (seen types.old).domains) form }
    ensures number { IfOk result (λ i. (ty : Option Typed) → ((d : Written) → shape_of ty ≡ Some (shape_in (seen types.old) d form)) → IsNumber (seen types.new) i ty) }
    ensures there { IfOk result (λ i. ForSome i (λ x. x.0 < length (seen types.new).shapes)) }
    ensures extended { OnOk result (Extends (seen types.old) (seen types.new)) }
{
    let here = Definition {
        owner,
        name: Word::from_vec(Vec::new(alloc)),
        number: 0,
        inside: Path::root(alloc),
    };
    let id = add_type(types, form, here)?;
    Ok(Some(id))
}
