//! The names that a block declares, and the declaration that counts for each: the first.

ghost use Rattle.std.specs.Prelude.{◌≡◌, ℕ, List, ◌+◌, ◌<◌, ◌++◌, ◌∷◌, ◌^◌, [], IfOk, IfSome, length, slice_get, None, Some};
ghost use Rattle.std.specs.Option.{option_and_then, option_map, option_or};
ghost use Rattle.pc_syntax.specs.Words.{lowered};
ghost use Rattle.pc_scope.specs.Entries.{all_declared, declared_of};
ghost use Rattle.pc_scope.specs.Table.{chain_of, IsLinked, names_in, links_in, declared_as, declarations_in, first_of, owned, hash_after};

use crate::decl::Decl;
use crate::named::Named;
use pc_syntax::{Key, is_spelled, lower};
use std::alloc::{AllocError, Global};

/// The first declaration of a name in a block, whether it is that of a constant or type definition, and the entry before it
/// in its chain.
#[derive(Drop)]
pub struct Entry {
    pub decl: Decl,
    pub is_definition: bool,
    pub link: usize,
}

/// The first declarations of a block's names in text order, each found by its name. A name is in one of some chains, by a
/// number that its bytes give. `heads` has the last entry of each chain, which links to the one before. They count from 1,
/// and 0 is none.
#[derive(Drop)]
pub struct Names {
    entries: Vec<Entry>,
    heads: Vec<usize>,
    ghost linked: { IsLinked (names_in entries.items) (links_in entries.items) heads.items },
}

/// The number that the bytes of a name give, in any case.
fn hash(name: &[u8]) -> u64
    ensures value { result ≡ hash_after 0 (lowered name.now) }
    ensures small { result < 4294967291 }
{
    let mut hash: u64 = 0;
    for byte in name {
        hash = (hash * 257 + u64::from(lower(*byte))) % 4294967291;
    }
    hash
}

/// Which of some chains a name is in.
#[tactic(auto, unfolding(crate::specs::Table::chain_of))]
fn chain(name: &[u8], size: usize) -> usize
    requires { 0 < size }
    ensures value { result ≡ chain_of name.now size }
    ensures within { result < size }
{
    hash(name) as usize % size
}

impl Names {
    /// An empty table with about as many chains as names that are to come.
    pub fn new(alloc: Global, room: usize) -> Result<Names, AllocError>
        requires { room + 1 < 2 ^ 63 }
        ensures { IfOk result (λ names. names.entries.items ≡ []) }
    {
        Ok(Names {
            entries: Vec::new(alloc),
            heads: vec![in alloc; 0; room + 1]?,
        })
    }

    /// The entries, in text order.
    pub fn entries(&self) -> &[Entry]
        ensures { result.now ≡ self.now.entries.items }
    {
        &self.entries
    }

    /// The index of the entry of a name, spelled in any case.
    pub fn find(&self, name: &[u8]) -> Option<usize>
        ensures within { IfSome result (λ i. i < length self.now.entries.items) }
        ensures first { option_and_then (slice_get (declarations_in self.now.entries.items)) result ≡ first_of (lowered name.now) (declarations_in self.now.entries.items) }
    {
        let mut at = self.heads[chain(name, self.heads.len())];
        while at != 0 {
            let entry = &self.entries[at - 1];
            if is_spelled(name, entry.decl.name.bytes()) {
                return Some(at - 1);
            }
            at = entry.link;
        }
        None
    }

    /// The entry of a name, spelled in any case.
    pub fn entry(&self, name: &[u8]) -> Option<&Entry>
        ensures { option_map (λ e. declared_as e.now.decl e.now.is_definition) result ≡ first_of (lowered name.now) (declarations_in self.now.entries.items) }
    {
        let i = self.find(name)?;
        Some(&self.entries[i])
    }

    /// Adds a declaration of a name that isn't there.
    pub fn push(&mut self, decl: Decl, is_definition: bool) -> Result<(), AllocError>
        requires { first_of decl.name (declarations_in self.old.entries.items) ≡ None }
        ensures { IfOk result (λ _. declarations_in self.new.entries.items ≡ declarations_in self.old.entries.items ++ declared_as decl is_definition ∷ []) }
    {
        let i = chain(decl.name.bytes(), self.heads.len());
        let link = self.heads[i];
        self.entries.push(Entry {
            decl,
            is_definition,
            link,
        })?;
        self.heads[i] = self.entries.len();
        Ok(())
    }

    /// The first declaration of each name, all with one owner.
    pub fn of(alloc: Global, owner: &Key, declared: Vec<Named>) -> Result<Names, AllocError>
        ensures { IfOk result (λ names. (n : List ℕ) → first_of n (declarations_in names.entries.items) ≡ first_of n (owned owner.now (all_declared declared.items))) }
    {
        let mut names = Names::new(alloc, declared.len())?;
        for named in declared {
            names.add(alloc, owner, named)?;
        }
        Ok(names)
    }

    /// Adds a declaration, unless its name is there.
    fn add(&mut self, alloc: Global, owner: &Key, named: Named) -> Result<(), AllocError>
        ensures { IfOk result (λ _. (n : List ℕ) → first_of n (declarations_in self.new.entries.items) ≡ option_or (first_of n (declarations_in self.old.entries.items)) (first_of n (owned owner.now (declared_of named ∷ [])))) }
    {
        if self.find(named.name.bytes()).is_some() {
            return Ok(());
        }
        let Named {
            name,
            place,
            is_definition,
        } = named;
        let owner = owner.copy(alloc)?;
        self.push(Decl { owner, name, place }, is_definition)?;
        Ok(())
    }
}
