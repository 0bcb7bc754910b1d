//! Domains of pointer types and their types.

ghost use Rattle.std.specs.Prelude.{◌≡◌, ◌<◌, length, option_map, get_or, IfSome, MatchOption};
ghost use Rattle.pc_types.specs.Table.{numbered, domain_at, nobody, nowhere, place_at};
ghost use Rattle.pc_types.specs.Rows.{seen, IsInOrder, TargetThere};
ghost use Rattle.pc_types.specs.Growth.{Retargets};

use crate::form::{DomainId, OwnerId, TypeId};
use crate::types::Types;
use sqlite_items::at;

impl Types {
    /// The type of the domain, where it is known and has neither an error nor a hole. There is none for a number that is not there.
    pub fn domain(&self, id: DomainId) -> Option<TypeId>
        ensures shape { option_map (numbered (seen self.now).shapes) result ≡ (domain_at (seen self.now) id).shape }
        ensures there { IfSome result (λ id. id.0 < length (seen self.now).shapes) }
    {
        match at(&self.domains, id.0 as usize) {
            Some(row) => row.of,
            None => None,
        }
    }

    /// The owner that declares the domain, if there is a domain with this number.
    pub fn domain_owner(&self, id: DomainId) -> Option<OwnerId>
        ensures { MatchOption result (place_at (seen self.now) id ≡ nowhere) (λ o. (place_at (seen self.now) id).owner ≡ get_or (seen self.now).owners o.0 nobody) }
    {
        match self.domain_row(id) {
            Some(row) => Some(row.owner),
            None => None,
        }
    }

    /// The name of the domain, in small letters; nothing where there is no domain with this number.
    pub fn domain_name(&self, id: DomainId) -> &[u8]
        ensures { result.now ≡ (place_at (seen self.now) id).name }
    {
        match self.domain_row(id) {
            Some(row) => row.name.bytes(),
            None => &[],
        }
    }

    /// The domain has this type from now on, or none.
    pub fn set_domain(&mut self, id: DomainId, of: Option<TypeId>)
        requires there { id.0 < length (seen self.old).domains }
        requires target { TargetThere (length (seen self.old).shapes) (option_map (λ i. i.0) of) }
        ensures { Retargets (seen self.old) (seen self.new) id.0 (option_map (numbered (seen self.old).shapes) of) }
    {
        self.domains[id.0 as usize].of = of;
    }

    /// What is kept is in order: what each row and each domain names is there.
    pub fn stays_in_order(&self)
        ensures { IsInOrder self.now }
    {
        let _ = self.rows.as_slice();
    }
}
