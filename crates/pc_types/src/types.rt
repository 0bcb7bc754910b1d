//! The types of a program, each by its number.

ghost use Rattle.std.specs.Prelude.{◌≡◌, MatchOption, get_or, length};
ghost use Rattle.pc_types.specs.Shapes.{NoMembers};
ghost use Rattle.pc_types.specs.Rows.{seen, seen_owner, row_place, StandsFor};
ghost use Rattle.pc_types.specs.Table.{shape_at, numbered, nobody, nowhere, place_at, IsThere, IsFormOf, HasRequired};
ghost use Rattle.pc_types.specs.Outlined.{IsOutline, OutlineThere};

use crate::form::{Definition, DomainId, Form, OwnerId, TypeId};
use crate::operand::{Operand, Outline};
use crate::owner::Owner;
use pc_syntax::Word;
use sqlite_items::at;
use std::marker::Model;

/// A type: what it is, where it is defined, and how many cells and levels it has, up to one over the limits.
#[derive(Drop)]
pub(crate) struct Row {
    pub form: Form,
    pub definition: Definition,
    pub cells: u64,
    pub levels: u64,
}

/// A domain: the routine that declares it, its name in small letters, and its type, where that is known and has neither an error nor
/// a hole.
#[derive(Drop)]
pub(crate) struct DomainRow {
    pub owner: OwnerId,
    pub name: Word,
    pub of: Option<TypeId>,
}

/// The types of a program, each by its number, the routines that define them, and the domains of its pointer types.
#[derive(Drop)]
pub struct Types {
    pub(crate) rows: Vec<Row>,
    pub(crate) owners: Vec<Owner>,
    pub(crate) domains: Vec<DomainRow>,
}

impl Model for Types {
    ghost use Rattle.pc_types.specs.Rows.{Kept, IsInOrder};

    ghost Value = { Kept };

    ghost view = { λ t. record { rows = t.rows.items; owners = t.owners.items; domains = t.domains.items } };

    ghost invariant = { λ t. IsInOrder (record { rows = t.rows.items; owners = t.owners.items; domains = t.domains.items }) };
}

impl Types {
    /// The row at the number, if there is one.
    pub(crate) fn row(&self, id: TypeId) -> Option<&Row>
        ensures { MatchOption result (numbered (seen self.now).shapes id ≡ NoMembers) (λ r. StandsFor (seen self.now) id r.now) }
    {
        at(&self.rows, id.0 as usize)
    }

    /// What the type with this number is, with its parts by their numbers, if there is one.
    #[tactic(auto, using(crate::proofs::RowsLaws::form_row))]
    pub fn form(&self, id: TypeId) -> Option<&Form>
        ensures { MatchOption result (numbered (seen self.now).shapes id ≡ NoMembers) (λ f. IsFormOf (seen self.now) id f.now) }
    {
        match self.row(id) {
            Some(row) => Some(&row.form),
            None => None,
        }
    }

    /// The owner at the number, if there is one.
    pub(crate) fn owner(&self, id: OwnerId) -> Option<&Owner>
        ensures { MatchOption result (get_or (seen self.now).owners id.0 nobody ≡ nobody) (λ o. get_or (seen self.now).owners id.0 nobody ≡ seen_owner o.now) }
    {
        at(&self.owners, id.0 as usize)
    }

    /// The row of the domain, if there is one.
    pub(crate) fn domain_row(&self, id: DomainId) -> Option<&DomainRow>
        ensures { MatchOption result (place_at (seen self.now) id ≡ nowhere) (λ d. place_at (seen self.now) id ≡ row_place (seen self.now).owners d.now) }
    {
        at(&self.domains, id.0 as usize)
    }

    /// What tests of the type look at. A number that is not there counts as the type of `[]`.
    pub(crate) fn outline(&self, operand: Operand) -> Outline
        ensures tells { IsOutline (seen self.now) operand result (shape_at (seen self.now) operand) }
        ensures there { IsThere (seen self.now) operand → OutlineThere (length (seen self.now).shapes) result }
    {
        match operand {
            Operand::Id(id) => match self.row(id) {
                Some(row) => Outline::of(&row.form),
                None => Outline::NoMembers,
            },
            Operand::Text(n) => Outline::Text(n),
            Operand::Members(base) => Outline::Members(base),
            Operand::NoMembers => Outline::NoMembers,
        }
    }
}
