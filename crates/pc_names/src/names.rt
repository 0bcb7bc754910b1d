//! The table of names.

ghost use Rattle.std.specs.Prelude.{◌≡◌, ◌<◌, ℕ, List, [], ◌∷◌, length, Some, slice_get, IfOk, OnOk, OnErr};
ghost use Rattle.std.specs.Option.{ForSome, option_map};
ghost use Rattle.pc_syntax.specs.Words.{lowered};
ghost use Rattle.pc_names.specs.Bindings.{empty_slot, slot_in, announced, passed, completed, declared, retold};
ghost use Rattle.pc_names.specs.Numbers as numbers;
ghost use Rattle.pc_names.specs.Numbers.{with_name, AreDistinct};
ghost use Rattle.pc_names.specs.Chains.{chain_of, chain_around, with_block, found, AreBelow};
ghost use Rattle.pc_names.specs.Table.{slot_named, Rebinds};

use crate::blocks::Blocks;
use crate::bound::Bound;
use crate::id::{BlockId, DeclarationId, NameId};
use crate::name_class::NameClass;
use crate::slot::Slot;
use crate::slots::Slots;
use crate::texts::Texts;
use std::alloc::{AllocError, Global};
use std::marker::Model;

/// A table of names: names by numbers, without regard to case, blocks that stand in each other, and what each block has of each
/// name.
#[derive(Drop)]
pub struct Names {
    texts: Texts,
    slots: Slots,
    blocks: Blocks,
}

impl Model for Names {
    ghost use Rattle.std.specs.Prelude.{length};
    ghost use Rattle.pc_names.specs.Table.{Table, IsWithin};

    ghost Value = { Table };

    ghost view = { λ n. record { texts = n.texts; slots = n.slots; chains = n.blocks } };

    ghost invariant = { λ n. IsWithin n.slots (length n.blocks) (length n.texts) };
}

impl Names {
    /// No names and no blocks.
    pub fn new(alloc: Global) -> Names
        ensures { result ≡ record { texts = []; slots = []; chains = [] } }
    {
        Names {
            texts: Texts::new(alloc),
            slots: Slots::new(alloc),
            blocks: Blocks::new(alloc),
        }
    }

    /// The number of a name in any case; that of one that wasn't met before is the next one. What is bound to each name stays. Only
    /// memory can fail. Work: the length of the word, and one look-up in a hash table.
    pub fn number(&mut self, word: &[u8]) -> Result<NameId, AllocError>
        ensures number { IfOk result (λ i. numbers.number_of self.new.texts (lowered word.now) ≡ Some i.0) }
        ensures table { OnOk result (self.new ≡ record self.old { texts = with_name self.old.texts (lowered word.now) }) }
        ensures within { IfOk result (λ i. i.0 < length self.new.texts) }
        ensures distinct { AreDistinct self.new.texts }
        ensures bindings { (block : ℕ) (n : List ℕ) → slot_named self.new block n ≡ slot_named self.old block n }
        ensures failure { OnErr result (self.new ≡ self.old) }
    {
        let number = self.texts.number(word)?;
        Ok(NameId(number))
    }

    /// The number of a name in small letters, if it was met. Work: the length of the word, and one look-up in a hash table.
    pub fn number_of(&self, small: &[u8]) -> Option<usize>
        ensures { result ≡ numbers.number_of self.now.texts small.now }
    {
        self.texts.number_of(small)
    }

    /// The name with this number, in small letters.
    pub fn name(&self, name: NameId) -> &[u8]
        requires { name.0 < length self.now.texts }
        ensures { slice_get self.now.texts name.0 ≡ Some result.now }
    {
        self.texts.text(name.0)
    }

    /// Begins a block that stands directly in this one, or in none, and has nothing of any name. Only memory can fail.
    pub fn begin(&mut self, around: Option<BlockId>) -> Result<BlockId, AllocError>
        requires { ForSome around (λ block. block.0 < length self.old.chains) }
        ensures number { IfOk result (λ block. block.0 ≡ length self.old.chains) }
        ensures table { OnOk result (self.new ≡ record self.old { chains = with_block self.old.chains (option_map (λ block. block.0) around) }) }
        ensures below { AreBelow (length self.old.chains) (chain_around self.old.chains (option_map (λ block. block.0) around)) }
        ensures empty { (n : ℕ) → slot_in self.new.slots (length self.old.chains) n ≡ empty_slot }
        ensures failure { OnErr result (self.new ≡ self.old) }
    {
        let number = self.blocks.begin(around.map(|block| block.0))?;
        Ok(BlockId(number))
    }

    /// The block declares the name somewhere as this; where it declares it more than once, the first class counts. Only memory can
    /// fail.
    pub fn announce(
        &mut self,
        block: BlockId,
        name: NameId,
        class: NameClass,
    ) -> Result<(), AllocError>
        requires block { block.0 < length self.old.chains }
        requires name { name.0 < length self.old.texts }
        ensures binding { OnOk result (Rebinds self.old self.new block.0 name.0 (announced (slot_in self.old.slots block.0 name.0) class)) }
        ensures failure { OnErr result (self.new ≡ self.old) }
    {
        let slot = self.slots.slot(block.0, name.0).announced(class);
        self.slots.bind(block.0, name.0, slot)
    }

    /// The name stands before in the block from now on. Only memory can fail.
    pub fn pass(&mut self, block: BlockId, name: NameId) -> Result<(), AllocError>
        requires block { block.0 < length self.old.chains }
        requires name { name.0 < length self.old.texts }
        ensures binding { OnOk result (Rebinds self.old self.new block.0 name.0 (passed (slot_in self.old.slots block.0 name.0))) }
        ensures failure { OnErr result (self.new ≡ self.old) }
    {
        let slot = self.slots.slot(block.0, name.0).passed();
        self.slots.bind(block.0, name.0, slot)
    }

    /// The block has a complete declaration of the name from now on; the first one counts. Only memory can fail.
    pub fn complete(
        &mut self,
        block: BlockId,
        name: NameId,
        declaration: DeclarationId,
    ) -> Result<(), AllocError>
        requires block { block.0 < length self.old.chains }
        requires name { name.0 < length self.old.texts }
        ensures binding { OnOk result (Rebinds self.old self.new block.0 name.0 (completed (slot_in self.old.slots block.0 name.0) declaration)) }
        ensures failure { OnErr result (self.new ≡ self.old) }
    {
        let slot = self.slots.slot(block.0, name.0).completed(declaration);
        self.slots.bind(block.0, name.0, slot)
    }

    /// The declaration of the name in the block is this one from now on, whichever it was. Only memory can fail.
    pub fn retell(
        &mut self,
        block: BlockId,
        name: NameId,
        declaration: DeclarationId,
    ) -> Result<(), AllocError>
        requires block { block.0 < length self.old.chains }
        requires name { name.0 < length self.old.texts }
        ensures binding { OnOk result (Rebinds self.old self.new block.0 name.0 (retold (slot_in self.old.slots block.0 name.0) declaration)) }
        ensures failure { OnErr result (self.new ≡ self.old) }
    {
        let slot = self.slots.slot(block.0, name.0).retold(declaration);
        self.slots.bind(block.0, name.0, slot)
    }

    /// One more declaration of the name stands before in the block: it is complete unless the name stood before already. Only memory
    /// can fail.
    pub fn declare(
        &mut self,
        block: BlockId,
        name: NameId,
        declaration: DeclarationId,
    ) -> Result<(), AllocError>
        requires block { block.0 < length self.old.chains }
        requires name { name.0 < length self.old.texts }
        ensures binding { OnOk result (Rebinds self.old self.new block.0 name.0 (declared (slot_in self.old.slots block.0 name.0) declaration)) }
        ensures failure { OnErr result (self.new ≡ self.old) }
    {
        let slot = self.slots.slot(block.0, name.0).declared(declaration);
        self.slots.bind(block.0, name.0, slot)
    }

    /// What a block has of a name. Work: one look-up in a hash table.
    pub fn slot(&self, block: BlockId, name: NameId) -> Slot
        ensures { result ≡ slot_in self.now.slots block.0 name.0 }
    {
        self.slots.slot(block.0, name.0)
    }

    /// What a name means from a block outwards: the innermost block that has it decides. Work: one look-up in a hash table for each of
    /// these blocks.
    pub fn find(&self, block: BlockId, name: NameId) -> Bound
        requires { block.0 < length self.now.chains }
        ensures { result ≡ found (λ b. slot_in self.now.slots b name.0) (chain_of self.now.chains block.0) }
    {
        outwards(&self.slots, &self.blocks, block.0, name.0)
    }
}

/// What a name means from a block outwards, both by their numbers.
fn outwards(slots: &Slots, blocks: &Blocks, block: u32, name: u32) -> Bound
    requires { block < length blocks.now }
    ensures { result ≡ found (λ b. slot_in slots.now b name) (chain_of blocks.now block) }
{
    let mut at = block;
    'outwards: loop {
        let around = blocks.around(at);
        match slots.slot(at, name).bound() {
            Bound::Unbound => {}
            bound => return bound,
        }
        match around {
            Some(outer) => at = outer,
            None => return Bound::Unbound,
        }
    }
}
