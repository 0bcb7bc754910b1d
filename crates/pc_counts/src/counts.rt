//! How often names stood before in a block (ISO 7185, 6.2.2).

ghost use Rattle.std.specs.Prelude.{◌≡◌, ◌+◌, ℕ, List, [], suc, nat_eq, map, true, if◌then◌else◌, IfOk, OnOk};
ghost use Rattle.pc_syntax.specs.Classes.{has};
ghost use Rattle.pc_syntax.specs.Plain.{kids_of};
ghost use Rattle.pc_syntax.specs.declared.class.Class.TheVariants as class;
ghost use Rattle.pc_syntax.specs.declared.kind.Kind.TheVariants as kind;
ghost use Rattle.pc_names.specs.Numbers.{AreDistinct};
ghost use Rattle.pc_rules.specs.Meanings.{Local, Meaning, Outside};
ghost use Rattle.pc_environment.specs.Decorating.{place_behind};
ghost use Rattle.pc_places.specs.Parameters.{ShowsParameters};
ghost use Rattle.pc_places.specs.Places.{known, Keeps};
ghost use Rattle.pc_definitions.specs.Numbered.{AtBefore};
ghost use Rattle.pc_counts.specs.Counting.{times_of, AreCounted};

use crate::counting::count_below;
use crate::parameters::count_each;
use crate::parts::count_part;
use indexmap::IndexMap;
use pc_names::NameId;
use pc_places::{Parameter, Tables};
use pc_syntax::Tree;
use std::alloc::{AllocError, Global};
use std::marker::Model;

/// How often each name stands before in a block so far, by its number.
#[derive(Drop)]
pub struct Counts {
    times: IndexMap<u32, u32>,
}

impl Model for Counts {
    ghost use Rattle.std.specs.Prelude.{List, ℕ};

    ghost Value = { List (ℕ × ℕ) };

    ghost view = { λ c. c.times.entries };
}

impl Counts {
    /// No name stands before.
    pub fn new(alloc: Global) -> Counts
        ensures none { result ≡ [] }
        ensures counts { (names : List (List ℕ)) → AreCounted result names [] }
    {
        Counts {
            times: IndexMap::new(alloc),
        }
    }

    /// The parameters of the block stand before. Only memory and numbers can fail. Work: a look-up in a hash table for each.
    pub fn count_parameters(
        &mut self,
        tables: &Tables,
        parameters: &[Parameter],
    ) -> Result<(), AllocError>
        ensures { OnOk result ((es : List (List ℕ × Meaning)) → AreDistinct tables.now.names.texts → ShowsParameters (known tables.now) tables.now.declarations.items parameters.now es → AreCounted self.old tables.now.names.texts [] → AreCounted self.new tables.now.names.texts (map (λ d. d.0) es)) }
    {
        count_each(self, parameters)?;
        Ok(())
    }

    /// Counts what the constant definitions of a block declare. Only memory and numbers can fail. Work: a visit for each node, and a few
    /// look-ups in hash tables for each name that is declared.
    pub fn count_constants(&mut self, tables: &mut Tables, list: &Tree) -> Result<(), AllocError>
        requires list { has class.Consts list.now.kind ≡ true }
        ensures counts { OnOk result ((out : Outside) (l : Local) → AreDistinct tables.old.names.texts → AreCounted self.old tables.old.names.texts l.passed → AreCounted self.new tables.new.names.texts (place_behind out l list.now).passed) }
        ensures keeps { OnOk result (Keeps tables.old tables.new) }
    {
        count_below(self, tables, list)?;
        Ok(())
    }

    /// Counts what the type definitions of a block declare, and says of each of them how often its name stood before it. Only memory
    /// and numbers can fail. Work: a visit for each node, and a few look-ups in hash tables for each name that is declared.
    pub fn count_types(
        &mut self,
        alloc: Global,
        tables: &mut Tables,
        list: &Tree,
    ) -> Result<Vec<u32>, AllocError>
        requires list { has class.Types list.now.kind ≡ true }
        ensures before { IfOk result (λ bs. (l : Local) → AreDistinct tables.old.names.texts → AreCounted self.old tables.old.names.texts l.passed → AtBefore kind.Types kind.Typedef (kids_of list.now) bs.items tables.old l) }
        ensures counts { OnOk result ((out : Outside) (l : Local) → AreDistinct tables.old.names.texts → AreCounted self.old tables.old.names.texts l.passed → AreCounted self.new tables.new.names.texts (place_behind out l list.now).passed) }
        ensures keeps { OnOk result (Keeps tables.old tables.new) }
    {
        let before = count_part(self, alloc, tables, list)?;
        Ok(before)
    }

    /// Counts what the variable declarations of a block declare, and says of each of them how often its first name stood before it.
    /// Only memory and numbers can fail. Work: a visit for each node, and a few look-ups in hash tables for each name that is declared.
    pub fn count_variables(
        &mut self,
        alloc: Global,
        tables: &mut Tables,
        list: &Tree,
    ) -> Result<Vec<u32>, AllocError>
        requires list { has class.Vars list.now.kind ≡ true }
        ensures before { IfOk result (λ bs. (l : Local) → AreDistinct tables.old.names.texts → AreCounted self.old tables.old.names.texts l.passed → AtBefore kind.Vars kind.Vardef (kids_of list.now) bs.items tables.old l) }
        ensures counts { OnOk result ((out : Outside) (l : Local) → AreDistinct tables.old.names.texts → AreCounted self.old tables.old.names.texts l.passed → AreCounted self.new tables.new.names.texts (place_behind out l list.now).passed) }
        ensures keeps { OnOk result (Keeps tables.old tables.new) }
    {
        let before = count_part(self, alloc, tables, list)?;
        Ok(before)
    }

    /// How often a name was counted.
    pub(crate) fn count(&self, name: NameId) -> u32
        ensures { result ≡ times_of self.now name.0 }
    {
        match self.times.get(&name.0) {
            Some(times) => *times,
            None => 0,
        }
    }

    /// Counts a name once more.
    pub(crate) fn add(&mut self, name: NameId) -> Result<(), AllocError>
        ensures { OnOk result ((i : ℕ) → times_of self.new i ≡ (if nat_eq name.0 i then suc (times_of self.old i) else times_of self.old i)) }
    {
        let times = one_more(self.count(name))?;
        self.times.insert(name.0, times)?;
        Ok(())
    }
}

/// The next number, or no memory where there is none.
fn one_more(times: u32) -> Result<u32, AllocError>
    ensures { IfOk result (λ n. n ≡ times + 1) }
{
    match times.checked_add(1) {
        Some(more) => Ok(more),
        None => Err(AllocError),
    }
}
