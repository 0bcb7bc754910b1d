//! Types are added.

ghost use Rattle.std.specs.Prelude.{◌≡◌, ◌<◌, ◌^◌, length, get_or, IfOk, OnOk, OnErr};
ghost use Rattle.pc_types.specs.Table.{shape_in, IsReady, nobody};
ghost use Rattle.pc_types.specs.Rows.{seen, seen_owner, row_domain, IsSized, IsDomainRow};
ghost use Rattle.pc_types.specs.Growth.{GrowsBy, AddsOwner, AddsDomain};

use crate::form::{Definition, DomainId, Form, OwnerId, TypeId};
use crate::owner::Owner;
use crate::types::{DomainRow, Row, Types};
use pc_syntax::Word;
use std::alloc::AllocError;

impl Types {
    /// How many types there are.
    pub fn count(&self) -> usize
        ensures { result ≡ length (seen self.now).shapes }
    {
        self.rows.as_slice().len()
    }

    /// How many owners there are.
    pub fn count_owners(&self) -> usize
        ensures { result ≡ length (seen self.now).owners }
    {
        self.owners.as_slice().len()
    }

    /// The number of the program as an owner.
    pub fn program(&self) -> OwnerId
        ensures is { get_or (seen self.now).owners result.0 nobody ≡ nobody }
        ensures there { result.0 < length (seen self.now).owners }
        ensures number { result ≡ OwnerId.PROGRAM }
    {
        let _ = self.owners.as_slice();
        OwnerId::PROGRAM
    }

    /// How many domains there are.
    pub fn count_domains(&self) -> usize
        ensures { result ≡ length (seen self.now).domains }
    {
        self.domains.as_slice().len()
    }

    /// A new type of this form, defined here: its number. What the form and the definition name must be there. Fails for want of
    /// memory only.
    #[tactic(auto, using(crate::proofs::SizesLaws::sizes))]
    pub fn add(&mut self, form: Form, definition: Definition) -> Result<TypeId, AllocError>
        requires ready { IsReady (seen self.old) form definition }
        requires room { length (seen self.old).shapes < 2 ^ 32 }
        ensures id { IfOk result (λ id. id.0 ≡ length (seen self.old).shapes) }
        ensures grown { OnOk result (GrowsBy (seen self.old) (seen self.new) (shape_in (seen self.old) definition form)) }
        ensures failure { OnErr result (self.new ≡ self.old) }
    {
        let id = TypeId(self.count() as u32);
        let cells = self.cells_in(&form);
        let levels = self.levels_in(&form);
        self.push_row(Row {
            form,
            definition,
            cells,
            levels,
        })?;
        Ok(id)
    }

    /// A new owner: its number. Fails for want of memory only.
    pub fn add_owner(&mut self, owner: Owner) -> Result<OwnerId, AllocError>
        requires { length (seen self.old).owners < 2 ^ 32 }
        ensures id { IfOk result (λ id. id.0 ≡ length (seen self.old).owners) }
        ensures added { OnOk result (AddsOwner (seen self.old) (seen self.new) (seen_owner owner)) }
        ensures failure { OnErr result (self.new ≡ self.old) }
    {
        let id = OwnerId(self.count_owners() as u32);
        self.push_owner(owner)?;
        Ok(id)
    }

    fn push_owner(&mut self, owner: Owner) -> Result<(), AllocError>
        ensures added { OnOk result (AddsOwner (seen self.old) (seen self.new) (seen_owner owner)) }
        ensures failure { OnErr result (self.new ≡ self.old) }
    {
        self.owners.push(owner)?;
        Ok(())
    }

    /// A new domain, declared by this owner under this name, in small letters, with no type yet: its number. Fails for want of memory
    /// only.
    pub fn add_domain(&mut self, owner: OwnerId, name: Word) -> Result<DomainId, AllocError>
        requires there { owner.0 < length (seen self.old).owners }
        requires room { length (seen self.old).domains < 2 ^ 32 }
        ensures id { IfOk result (λ id. id.0 ≡ length (seen self.old).domains) }
        ensures added { OnOk result (AddsDomain (seen self.old) (seen self.new) (record { owner = get_or (seen self.old).owners owner.0 nobody; name = name; shape = None })) }
        ensures failure { OnErr result (self.new ≡ self.old) }
    {
        let id = DomainId(self.count_domains() as u32);
        self.push_domain(DomainRow {
            owner,
            name,
            of: None,
        })?;
        Ok(id)
    }

    fn push_domain(&mut self, row: DomainRow) -> Result<(), AllocError>
        requires { IsDomainRow (length (seen self.old).owners) (length (seen self.old).shapes) row }
        ensures added { OnOk result (AddsDomain (seen self.old) (seen self.new) (row_domain (seen self.old).owners (seen self.old).shapes row)) }
        ensures failure { OnErr result (self.new ≡ self.old) }
    {
        self.domains.push(row)?;
        Ok(())
    }

    /// One more row.
    pub(crate) fn push_row(&mut self, row: Row) -> Result<(), AllocError>
        requires ready { IsReady (seen self.old) row.form row.definition }
        requires sized { IsSized (seen self.old) row }
        ensures grown { OnOk result (GrowsBy (seen self.old) (seen self.new) (shape_in (seen self.old) row.definition row.form)) }
        ensures failure { OnErr result (self.new ≡ self.old) }
    {
        self.rows.push(row)?;
        Ok(())
    }
}
