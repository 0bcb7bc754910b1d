//! Whether two types are the same: by one definition (ISO 7185, 6.4.1).

ghost use Rattle.std.specs.Prelude.{◌≡◌, get_or, option_map};
ghost use Rattle.pc_types.specs.Sameness.{same, same_words, same_owner, same_definition, same_definitions, definition_of};
ghost use Rattle.pc_types.specs.Table.{shape_at, numbered, nobody, definition_in};
ghost use Rattle.pc_types.specs.Rows.{seen, seen_owner};

use crate::form::{Definition, OwnerId, TypeId};
use crate::operand::Operand;
use crate::owner::Owner;
use crate::types::Types;
use pc_syntax::Word;

impl Types {
    /// Whether the types are the same: required types by themselves, all others by one definition (ISO 7185, 6.4.1).
    #[tactic(auto, unfolding(crate::specs::Sameness::same))]
    pub fn same(&self, a: Operand, b: Operand) -> bool
        ensures { result ≡ same (shape_at (seen self.now) a) (shape_at (seen self.now) b) }
    {
        let number = self.outline(a).number();
        if number == 0 {
            self.same_definitions(a, b)
        } else {
            number == self.outline(b).number()
        }
    }

    /// Whether both types have one definition.
    fn same_definitions(&self, a: Operand, b: Operand) -> bool
        ensures { result ≡ same_definitions (definition_of (shape_at (seen self.now) a)) (definition_of (shape_at (seen self.now) b)) }
    {
        match (a, b) {
            (Operand::Id(i), Operand::Id(j)) => self.same_rows(i, j),
            _ => false,
        }
    }

    fn same_rows(&self, a: TypeId, b: TypeId) -> bool
        ensures { result ≡ same_definitions (definition_of (numbered (seen self.now).shapes a)) (definition_of (numbered (seen self.now).shapes b)) }
    {
        match (self.definition(a), self.definition(b)) {
            (Some(one), Some(other)) => self.same_definition(one, other),
            _ => false,
        }
    }

    /// Where the type is defined, if a denoter defines it.
    pub fn definition(&self, id: TypeId) -> Option<&Definition>
        ensures { option_map (λ d. definition_in (seen self.now).owners d.now) result ≡ definition_of (numbered (seen self.now).shapes id) }
    {
        match self.row(id) {
            Some(row) => {
                if self.outline(Operand::Id(id)).is_defined() {
                    Some(&row.definition)
                } else {
                    None
                }
            }
            None => None,
        }
    }

    fn same_definition(&self, one: &Definition, other: &Definition) -> bool
        ensures { result ≡ same_definition (definition_in (seen self.now).owners one.now) (definition_in (seen self.now).owners other.now) }
    {
        one.number == other.number
            && one.name.bytes() == other.name.bytes()
            && one.inside.steps() == other.inside.steps()
            && self.same_owners(one.owner, other.owner)
    }

    /// Whether both numbers are those of one routine: one key, or one place where there is no key.
    #[tactic(auto, using(crate::proofs::OwnersLaws::owners))]
    pub fn same_owners(&self, a: OwnerId, b: OwnerId) -> bool
        ensures { result ≡ same_owner (get_or (seen self.now).owners a.0 nobody) (get_or (seen self.now).owners b.0 nobody) }
    {
        if a.0 == b.0 {
            return true;
        }
        match (self.owner(a), self.owner(b)) {
            (Some(one), Some(other)) => same_owner(one, other),
            (Some(one), None) => is_nobody(one),
            (None, Some(other)) => is_nobody(other),
            (None, None) => true,
        }
    }
}

/// Whether the owner is the program.
fn is_nobody(owner: &Owner) -> bool
    ensures left { result ≡ same_owner (seen_owner owner.now) nobody }
    ensures right { result ≡ same_owner nobody (seen_owner owner.now) }
{
    match owner {
        Owner::Keyed(key) => match key.names() {
            [] => true,
            [_, ..] => false,
        },
        Owner::Placed(_, _) => false,
    }
}

fn same_owner(one: &Owner, other: &Owner) -> bool
    ensures { result ≡ same_owner (seen_owner one.now) (seen_owner other.now) }
{
    match (one, other) {
        (Owner::Keyed(key), Owner::Keyed(another)) => same_words(key.names(), another.names()),
        (Owner::Placed(place, _), Owner::Placed(another, _)) => place.steps() == another.steps(),
        _ => false,
    }
}

#[tactic(auto, using(crate::proofs::OwnersLaws::words))]
fn same_words(words: &[Word], others: &[Word]) -> bool
    ensures { result ≡ same_words words.now others.now }
{
    match words {
        [] => match others {
            [] => true,
            [_, ..] => false,
        },
        [word, rest @ ..] => match others {
            [] => false,
            [another, more @ ..] => { word.bytes() == another.bytes() && same_words(rest, more) }
        },
    }
}
