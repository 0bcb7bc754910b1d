//! The blocks around each block.

ghost use Rattle.std.specs.Prelude.{◌≡◌, ◌<◌, [], ◌∷◌, Some, None, length, IfOk, OnOk, OnErr, IfSome};
ghost use Rattle.std.specs.Option.{ForSome};
ghost use Rattle.pc_names.specs.Chains.{chain_of, chain_around, with_block, AreBelow};

use crate::id::u32_of;
use std::alloc::{AllocError, Global};
use std::marker::Model;

/// Blocks, each with the number of the block that it stands in directly.
#[derive(Drop)]
pub struct Blocks {
    arounds: Vec<Option<u32>>,
}

impl Model for Blocks {
    ghost use Rattle.std.specs.Prelude.{List, ℕ};
    ghost use Rattle.pc_names.specs.Chains.{chains_of, IsNested};

    ghost Value = { List (List ℕ) };

    ghost view = { λ b. chains_of b.arounds.items };

    ghost invariant = { λ b. IsNested b.arounds.items };
}

impl Blocks {
    /// No blocks.
    pub fn new(alloc: Global) -> Blocks
        ensures { result ≡ [] }
    {
        Blocks {
            arounds: Vec::new(alloc),
        }
    }

    /// Begins a block that stands directly in this one, or in none, and answers its number, the next one. Only memory can fail.
    pub fn begin(&mut self, around: Option<u32>) -> Result<u32, AllocError>
        requires { ForSome around (λ block. block < length self.old) }
        ensures number { IfOk result (λ block. block ≡ length self.old) }
        ensures chains { OnOk result (self.new ≡ with_block self.old around) }
        ensures below { AreBelow (length self.old) (chain_around self.old around) }
        ensures failure { OnErr result (self.new ≡ self.old) }
    {
        let number = u32_of(self.arounds.len())?;
        self.arounds.push(around)?;
        Ok(number)
    }

    /// The number of the block that a block stands in directly, if it stands in one.
    pub fn around(&self, block: u32) -> Option<u32>
        requires { block < length self.now }
        ensures chain { chain_of self.now block ≡ block ∷ chain_around self.now result }
        ensures below { IfSome result (λ outer. outer < block) }
    {
        self.arounds[block as usize]
    }

    /// How many blocks were begun.
    pub fn len(&self) -> usize
        ensures { result ≡ length self.now }
    {
        self.arounds.len()
    }
}
