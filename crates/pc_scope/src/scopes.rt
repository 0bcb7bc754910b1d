//! What the names of a tree mean.

ghost use Rattle.std.specs.Prelude.{◌≡◌, ◌==◌, ℕ, List, Option, IfOk};
ghost use Rattle.std.specs.Option.{option_map};
ghost use Rattle.pc_syntax.specs.Plain.{Plain};
ghost use Rattle.pc_syntax.specs.Words.{lowered};
ghost use Rattle.pc_scope.specs.Around.{Block, inner_block};
ghost use Rattle.pc_scope.specs.Entries.{definition_of};
ghost use Rattle.pc_scope.specs.FoundAs.{meant_by, Holds};
ghost use Rattle.pc_scope.specs.Places.{in_definition};
ghost use Rattle.pc_scope.specs.Lookup.{declaration_in, declaration, Declaration, declared_here, entered, lookup, required_or_not, seen_from};
ghost use Rattle.pc_scope.specs.Stands.{StandsFor, StandsForBlock, Both};
ghost use Rattle.pc_scope.specs.Table.{declared_as};

use crate::building::add_block;
use crate::builtin::required;
use crate::found::Found;
use crate::names::Entry;
use crate::owner::Owner;
use crate::places::{is_before, stands_in};
use crate::region::Region;
use crate::site::Site;
use pc_syntax::{Path, Tree};
use std::alloc::{AllocError, Global};

/// The declarations of a tree's blocks.
#[derive(Drop)]
pub struct Scopes {
    regions: Vec<Region>,
    root: usize,
}

impl Scopes {
    /// The declarations of a program's blocks. Fails for want of memory only. Work: in the size of the tree, with the paths and
    /// keys of what is declared.
    pub fn of(alloc: Global, tree: &Tree) -> Result<Scopes, AllocError>
        ensures { IfOk result (λ scopes. StandsFor scopes tree.now) }
    {
        let mut regions = Vec::new(alloc);
        let site = Site {
            owner: Owner::program(alloc),
            place: Path::of(alloc, &[3])?,
            number: 3,
            parameters: Vec::new(alloc),
        };
        let root = add_block(alloc, tree, site, &mut regions)?;
        Ok(Scopes { regions, root })
    }

    /// What a name, spelled in any case, means at a place: the innermost block around the place whose own declarations have
    /// the name decides, wherever in it the declaration stands (ISO 7185, 6.2.2). It takes no memory.
    pub fn lookup<'a>(&'a self, name: &[u8], at: &Path) -> Found<'a>
        ensures meaning { (t : Plain) → StandsFor self.now t → meant_by result ≡ lookup t name.now at.now }
        ensures holds { (t : Plain) → StandsFor self.now t → Holds result (lowered name.now) (declaration t name.now at.now) }
    {
        let steps = at.steps();
        match self.declaration(name, steps) {
            Some(entry) => seen_from(entry, steps),
            None => required_or_not(name),
        }
    }

    /// The declaration of a name, spelled in any case, that counts at a place.
    fn declaration(&self, name: &[u8], at: &[u32]) -> Option<&Entry>
        ensures { (t : Plain) → StandsFor self.now t → option_map (λ e. declared_as e.now.decl e.now.is_definition) result ≡ declaration t name.now at.now }
    {
        let [first, way @ ..] = at else {
            return None;
        };
        if *first != 3 {
            return None;
        }
        self.declaration_in(name, self.root, way)
    }

    /// The same, on the way from a region down.
    fn declaration_in(&self, name: &[u8], region: usize, way: &[u32]) -> Option<&Entry>
        ensures { (b : Block) → StandsForBlock self.now.regions.items region b → option_map (λ e. declared_as e.now.decl e.now.is_definition) result ≡ declaration_in (lowered name.now) b way.now }
    {
        let [a, i, k, rest @ ..] = way else {
            return self.declared_here(name, region);
        };
        if *a != 4 {
            return self.declared_here(name, region);
        }
        let Some(inner) = self.step(region, *i, *k) else {
            return self.declared_here(name, region);
        };
        match self.declaration_in(name, inner, rest) {
            Some(entry) => Some(entry),
            None => self.declared_here(name, region),
        }
    }

    /// The declaration of a name in a region.
    fn declared_here(&self, name: &[u8], region: usize) -> Option<&Entry>
        ensures { (b : Block) → StandsForBlock self.now.regions.items region b → option_map (λ e. declared_as e.now.decl e.now.is_definition) result ≡ declared_here (lowered name.now) b }
    {
        match self.regions.get(region) {
            Some(region) => region.names.entry(name),
            None => None,
        }
    }

    /// The region that the way from a region to the block of its i-th routine enters, where `k` is the number of that block.
    fn step(&self, region: usize, i: u32, k: u32) -> Option<usize>
        ensures { (b : Block) → StandsForBlock self.now.regions.items region b → Both (StandsForBlock self.now.regions.items) result (entered b 4 i k) }
    {
        match self.inner_region(region, i) {
            Some(inner) => {
                if self.has_number(inner, k) {
                    Some(inner)
                } else {
                    None
                }
            }
            None => None,
        }
    }

    /// The region of the i-th routine in a region.
    fn inner_region(&self, region: usize, i: u32) -> Option<usize>
        ensures { (b : Block) → StandsForBlock self.now.regions.items region b → Both (StandsForBlock self.now.regions.items) result (inner_block b i) }
    {
        match self.regions.get(region) {
            Some(region) => region.inner(i),
            None => None,
        }
    }

    /// Whether the block of a region has a number.
    fn has_number(&self, region: usize, k: u32) -> bool
        ensures { (b : Block) → StandsForBlock self.now.regions.items region b → result ≡ (b.number == k) }
    {
        match self.regions.get(region) {
            Some(region) => region.number == k as usize,
            None => false,
        }
    }
}

/// What a name that no block declares means.
fn required_or_not<'a>(name: &[u8]) -> Found<'a>
    ensures meaning { meant_by result ≡ required_or_not (lowered name.now) }
    ensures holds { (o : Option Declaration) → Holds result (lowered name.now) o }
{
    match required(name) {
        Some(builtin) => Found::Required(builtin),
        None => Found::Missing,
    }
}

/// A declaration as it is seen from a place.
fn seen_from<'a>(entry: &'a Entry, place: &[u32]) -> Found<'a>
    ensures meaning { meant_by result ≡ seen_from place.now (declared_as entry.now.decl entry.now.is_definition).declared }
    ensures holds { (n : List ℕ) → Holds result n (Some (declared_as entry.now.decl entry.now.is_definition)) }
{
    if is_before(place, entry.decl.place.steps()) || is_in_definition(entry, place) {
        Found::Later(&entry.decl)
    } else {
        Found::Here(&entry.decl)
    }
}

/// Whether a place stands in the constant or type definition that an entry names.
fn is_in_definition(entry: &Entry, place: &[u32]) -> bool
    ensures { result ≡ in_definition (definition_of entry.now.is_definition entry.now.decl.place) place.now }
{
    if !entry.is_definition {
        return false;
    }
    let name = entry.decl.place.steps();
    stands_in(&name[..name.len().saturating_sub(1)], place)
}
