//! Copies of types.

ghost use Rattle.std.specs.Prelude.{◌≡◌, IfOk};

use crate::ty::Ty;
use pc_syntax::Word;
use sqlite_items::{Boxed, Items};
use std::alloc::{AllocError, Global};

impl Ty {
    /// An equal type.
    #[cycle(copy)]
    pub fn copy(&self, alloc: Global) -> Result<Ty, AllocError>
        ensures { IfOk result (λ ty. ty ≡ self.now) }
    {
        match self {
            Ty::Int => Ok(Ty::Int),
            Ty::Truth => Ok(Ty::Truth),
            Ty::Letter => Ok(Ty::Letter),
            Ty::Named(names) => Ok(Ty::Named(copy_names(alloc, names.as_slice())?)),
            Ty::Sub(host, low, high) => {
                let host = Boxed::new(alloc, host.get().copy(alloc)?)?;
                Ok(Ty::Sub(host, *low, *high))
            }
            Ty::Array(packed, index, element) => {
                let index = Boxed::new(alloc, index.get().copy(alloc)?)?;
                let element = Boxed::new(alloc, element.get().copy(alloc)?)?;
                Ok(Ty::Array(*packed, index, element))
            }
            Ty::Record(packed, fields) => {
                let fields = copy_fields(alloc, fields.as_slice())?;
                Ok(Ty::Record(*packed, fields))
            }
            Ty::Set(packed, base) => {
                let base = Boxed::new(alloc, base.get().copy(alloc)?)?;
                Ok(Ty::Set(*packed, base))
            }
            Ty::Pointer(owner, name) => {
                let owner = copy_names(alloc, owner.as_slice())?;
                Ok(Ty::Pointer(owner, Word::new(alloc, name.bytes())?))
            }
        }
    }
}

#[cycle(copy)]
fn copy_fields(alloc: Global, fields: &[(Word, Ty)]) -> Result<Items<(Word, Ty)>, AllocError>
    ensures { IfOk result (λ copied. copied ≡ fields.now) }
{
    let mut copied = Items::new(alloc);
    for (name, ty) in fields {
        let name = Word::new(alloc, name.bytes())?;
        let ty = ty.copy(alloc)?;
        copied.push((name, ty))?;
    }
    Ok(copied)
}

/// Equal names.
pub fn copy_names(alloc: Global, names: &[Word]) -> Result<Items<Word>, AllocError>
    ensures { IfOk result (λ copied. copied ≡ names.now) }
{
    let mut copied = Items::new(alloc);
    for name in names {
        copied.push(Word::new(alloc, name.bytes())?)?;
    }
    Ok(copied)
}
