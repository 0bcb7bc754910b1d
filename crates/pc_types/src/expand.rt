//! The structure of a type alone.

ghost use Rattle.std.specs.Prelude.{◌≡◌, ◌↔◌, IsTrue, IfOk, get_or};
ghost use Rattle.pc_types.specs.Expanded.{PointerTy, expanded, expanded_fields};
ghost use Rattle.pc_types.specs.Expansions.{IsTy, AreTys, IsKeyOf};
ghost use Rattle.pc_types.specs.Shapes.{TextType};
ghost use Rattle.pc_types.specs.Sizes.{is_too_large};
ghost use Rattle.pc_types.specs.Table.{shape_at, numbered, fields_from, FieldsThere, place_at, nobody};
ghost use Rattle.pc_types.specs.Rows.{seen};

use crate::form::{DomainId, Form, OwnerId, TypeId};
use crate::operand::Operand;
use crate::owner::Owner;
use crate::types::Types;
use pc_heads::{Ty, copy_names};
use pc_syntax::Word;
use sqlite_items::{Boxed, Items};
use std::alloc::{AllocError, Global};
use thiserror::Error;

/// Why a type was not expanded.
#[derive(Clone, Copy, Debug, PartialEq, Eq, Error)]
pub enum ExpandError {
    /// It has over 1,000,000 cells or over 256 levels.
    #[error("the type is too large")]
    TypeTooLarge,
    #[error("no memory")]
    NoMemory,
}

impl Types {
    /// The structure of the type, with all names expanded up to pointers: a text as the string of its length, a set constructor as the
    /// set of its base that is not packed. For the types of `nil` and of `[]`, which have none, any. `TypeTooLarge` exactly where
    /// `is_too_large`; else it fails for want of memory only.
    pub fn expand(&self, alloc: Global, operand: Operand) -> Result<Ty, ExpandError>
        ensures large { (result ≡ Err ExpandError.TypeTooLarge) ↔ IsTrue (is_too_large (shape_at (seen self.now) operand)) }
        ensures value { IfOk result (λ ty. IsTy ty (expanded (shape_at (seen self.now) operand))) }
    {
        if self.is_too_large(operand) {
            return Err(ExpandError::TypeTooLarge);
        }
        match self.ty(alloc, operand) {
            Ok(ty) => Ok(ty),
            Err(_) => Err(ExpandError::NoMemory),
        }
    }

    fn ty(&self, alloc: Global, operand: Operand) -> Result<Ty, AllocError>
        ensures { IfOk result (λ ty. IsTy ty (expanded (shape_at (seen self.now) operand))) }
    {
        match operand {
            Operand::Id(id) => self.ty_at(alloc, id),
            Operand::Text(n) => text_ty(alloc, n),
            Operand::Members(base) => {
                let base = Boxed::new(alloc, self.ty_at(alloc, base)?)?;
                Ok(Ty::Set(false, base))
            }
            Operand::NoMembers => Ok(Ty::Int),
        }
    }

    #[cycle(tys)]
    fn ty_at(&self, alloc: Global, id: TypeId) -> Result<Ty, AllocError>
        ensures { IfOk result (λ ty. IsTy ty (expanded (numbered (seen self.now).shapes id))) }
    {
        let Some(row) = self.row(id) else {
            return Ok(Ty::Int);
        };
        match &row.form {
            Form::Integer => Ok(Ty::Int),
            Form::Boolean => Ok(Ty::Truth),
            Form::Char => Ok(Ty::Letter),
            Form::Nil => Ok(Ty::Int),
            Form::Named(names) => {
                let names = copy_names(alloc, names.as_slice())?;
                Ok(Ty::Named(names))
            }
            Form::Subrange(host, low, high) => {
                let host = Boxed::new(alloc, self.ty_at(alloc, *host)?)?;
                Ok(Ty::Sub(host, *low, *high))
            }
            Form::Array(packed, index, element) => {
                let index = Boxed::new(alloc, self.ty_at(alloc, *index)?)?;
                let element = Boxed::new(alloc, self.ty_at(alloc, *element)?)?;
                Ok(Ty::Array(*packed, index, element))
            }
            Form::Record(packed, fields) => {
                let fields = self.field_tys(alloc, id, fields.as_slice())?;
                Ok(Ty::Record(*packed, fields))
            }
            Form::Set(packed, base) => {
                let base = Boxed::new(alloc, self.ty_at(alloc, *base)?)?;
                Ok(Ty::Set(*packed, base))
            }
            Form::Members(Some(base)) => {
                let base = Boxed::new(alloc, self.ty_at(alloc, *base)?)?;
                Ok(Ty::Set(false, base))
            }
            Form::Members(None) => Ok(Ty::Int),
            Form::Text(n) => text_ty(alloc, *n),
            Form::Pointer(domain) => self.pointer_ty(alloc, *domain),
        }
    }

    /// The fields of a record; their types stand before the number.
    #[cycle(tys)]
    fn field_tys(
        &self,
        alloc: Global,
        id: TypeId,
        fields: &[(Word, TypeId)],
    ) -> Result<Items<(Word, Ty)>, AllocError>
        requires { FieldsThere id.0 fields.now }
        ensures { IfOk result (λ tys. AreTys tys (expanded_fields (fields_from (seen self.now).shapes fields.now))) }
    {
        let mut tys = Items::new(alloc);
        let mut rest = fields;
        while let [field, tail @ ..] = rest {
            let name = field.0.copy(alloc)?;
            let ty = self.ty_at(alloc, field.1)?;
            tys.push((name, ty))?;
            rest = tail;
        }
        Ok(tys)
    }

    /// The type of pointers to a domain.
    fn pointer_ty(&self, alloc: Global, id: DomainId) -> Result<Ty, AllocError>
        ensures { IfOk result (λ ty. IsTy ty (PointerTy (place_at (seen self.now) id).owner (place_at (seen self.now) id).name)) }
    {
        match self.domain_row(id) {
            Some(row) => {
                let key = self.key_names(alloc, row.owner)?;
                let name = row.name.copy(alloc)?;
                Ok(Ty::Pointer(key, name))
            }
            None => {
                let name = Word::new(alloc, b"")?;
                Ok(Ty::Pointer(Items::new(alloc), name))
            }
        }
    }

    /// The names of the owner's key, or of the key around it.
    fn key_names(&self, alloc: Global, owner: OwnerId) -> Result<Items<Word>, AllocError>
        ensures { IfOk result (λ names. IsKeyOf (get_or (seen self.now).owners owner.0 nobody) names) }
    {
        match self.owner(owner) {
            Some(Owner::Keyed(key)) => copy_names(alloc, key.names()),
            Some(Owner::Placed(_, key)) => copy_names(alloc, key.names()),
            None => Ok(Items::new(alloc)),
        }
    }
}

/// The structure of a text of so many characters.
fn text_ty(alloc: Global, n: u32) -> Result<Ty, AllocError>
    ensures { IfOk result (λ ty. IsTy ty (expanded (TextType n))) }
{
    let host = Boxed::new(alloc, Ty::Int)?;
    let index = Boxed::new(alloc, Ty::Sub(host, 1, i64::from(n)))?;
    let element = Boxed::new(alloc, Ty::Letter)?;
    Ok(Ty::Array(true, index, element))
}
