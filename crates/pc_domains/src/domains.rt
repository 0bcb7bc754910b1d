//! The types of domains, and which types are whole (ISO 7185, 6.4.4).

ghost use Rattle.std.specs.Prelude.{◌≡◌, ◌<◌, ℕ, List, [], Option, None, true, false, get_or, length, IfOk, OnOk};
ghost use Rattle.pc_syntax.specs.Classes.{has};
ghost use Rattle.pc_syntax.specs.declared.class.Class.TheVariants as class;
ghost use Rattle.pc_types.specs.Shapes.{Typed};
ghost use Rattle.pc_types.specs.Table.{nobody};
ghost use Rattle.pc_rules.specs.ClosedTypes.{own_domains, close_types};
ghost use Rattle.pc_rules.specs.Declarations as rules;
ghost use Rattle.pc_rules.specs.Meanings.{Local, Outside};
ghost use Rattle.pc_sightings.specs.TouchedLog.{AreApart};
ghost use Rattle.pc_facts.specs.Known.{Known};
ghost use Rattle.pc_facts.specs.Shows.{ShowsType};
ghost use Rattle.pc_pointers.specs.Good.{Targets};
ghost use Rattle.pc_closed.specs.Carried.{AllTypesCarried, IsCarriedType};
ghost use Rattle.pc_places.specs.Places.{known, Changes, IsPlace};
ghost use Rattle.pc_types.specs.Rows.{seen};
ghost use Rattle.pc_closing.specs.Whole.{is_whole_in};
ghost use Rattle.pc_domains.specs.Closing.{Closing, ClosesOwner, Entering, Settling};
ghost use Rattle.pc_domains.specs.Telling.{Telling, if_whole_type};
ghost use Rattle.pc_domains.specs.Sifting.{AreSettled, Sifts};
ghost use Rattle.pc_domains.specs.Types.{AllBelow};
ghost use Rattle.pc_domains.specs.Told.{IsTold, IsAllTold, Retargeted};
ghost use Rattle.pc_block_laws.specs.Block.{block_targets, OnceEach, OwnTypes};

use crate::by_name::TypesByName;
use crate::entering::enter_types;
use crate::naming::{BlockNames, block_names};
use crate::owners::ClosedOwners;
use crate::rows::tell_rows;
use crate::sifting::sift;
use pc_closing::Whole;
use pc_names::BlockId;
use pc_places::Tables;
use pc_syntax::Tree;
use pc_types::{Operand, OwnerId, Types};
use std::alloc::{AllocError, Global};
use std::marker::Model;

/// The types that are declared by blocks whose type parts are closed, by the numbers of owner and name; which owners these are; which
/// types are whole; and of how many domains the types are told.
#[derive(Drop)]
pub struct Domains {
    closed: ClosedOwners,
    types: TypesByName,
    whole: Whole,
    told: usize,
}

impl Model for Domains {
    ghost use Rattle.pc_domains.specs.Told.{Told};

    ghost Value = { Told };

    ghost view = { λ d. record { closed = d.closed; types = d.types; whole = d.whole; told = d.told } };
}

impl Domains {
    /// No types of any block, and no domains.
    pub fn new(alloc: Global) -> Domains
        ensures { (targets : Targets) (k : Known) → IsTold targets result k }
    {
        Domains {
            closed: ClosedOwners::new(alloc),
            types: TypesByName::new(alloc),
            whole: Whole::new(alloc),
            told: 0,
        }
    }

    /// The type part of a block, which this list is, is closed: the tables stand for the place where its types are, and the domains that
    /// name them have their types; those from which something unknown is reached have none. Fails for want of memory and of numbers; a
    /// domain of a block whose types are not closed, a type that has no number, and a block whose types are closed already count as no
    /// memory. No program has any of these.
    pub fn close(
        &mut self,
        alloc: Global,
        tables: &mut Tables,
        block: BlockId,
        owner: OwnerId,
        is_program: bool,
        list: &Tree,
    ) -> Result<(), AllocError>
        requires block { block.0 < length tables.old.names.chains }
        requires list { has class.Types list.now.kind ≡ true }
        ensures closes { OnOk result ((targets : Targets) (out : Outside) (l : Local) → IsTold targets self.old (known tables.old) → IsPlace tables.old block.0 owner.0 out l → AreApart (known tables.old).table.owners → targets nobody [] ≡ None → OnceEach l.known → OwnTypes list.now l → (is_program ≡ true → owner.0 ≡ 0) → AllTypesCarried targets (own_domains l.known) l.known → ((n : List ℕ) → targets l.owner n ≡ block_targets is_program l n) → IsAllTold targets self.new (known tables.new) × IsPlace tables.new block.0 owner.0 out (close_types l)) }
        ensures changes { OnOk result (Changes block.0 tables.old tables.new) }
    {
        if self.closed.has(owner) {
            return Err(AllocError);
        }
        self.close_first(alloc, tables, block, owner, is_program, list)?;
        Ok(())
    }

    /// The same for a block whose types are not closed yet.
    fn close_first(
        &mut self,
        alloc: Global,
        tables: &mut Tables,
        block: BlockId,
        owner: OwnerId,
        is_program: bool,
        list: &Tree,
    ) -> Result<(), AllocError>
        requires block { block.0 < length tables.old.names.chains }
        requires fresh { get_or self.old.closed owner.0 false ≡ false }
        ensures { OnOk result (Closing is_program block.0 owner.0 list.now self.old self.new tables.old tables.new) }
    {
        self.begin(owner)?;
        let names = block_names(alloc, tables, is_program, list)?;
        self.enter(tables, block, owner, &names)?;
        self.settle(alloc, tables)?;
        self.sift(tables, block, &names)?;
        self.enter(tables, block, owner, &names)?;
        self.end(tables);
        Ok(())
    }

    /// The types of this owner count as closed.
    fn begin(&mut self, owner: OwnerId) -> Result<(), AllocError>
        ensures { OnOk result (ClosesOwner owner.0 self.old self.new) }
    {
        self.closed.close(owner)?;
        Ok(())
    }

    /// The block's types under these names lose their types, where something unknown is reached.
    fn sift(
        &self,
        tables: &mut Tables,
        block: BlockId,
        names: &BlockNames,
    ) -> Result<(), AllocError>
        requires block { block.0 < length tables.old.names.chains }
        requires there { AllBelow (length tables.old.names.texts) names.now.ids.items }
        ensures { OnOk result (Sifts self.now.whole block.0 names.now.ids.items tables.old tables.new) }
    {
        sift(tables, &self.whole, block, &names.ids)?;
        Ok(())
    }

    /// All domains that there are have been told.
    fn end(&mut self, tables: &Tables)
        ensures { self.new ≡ record self.old { told = length (known tables.now).table.domains } }
    {
        self.told = tables.types.count_domains();
    }

    /// What the block says stands under its names, and the domains that are not told have the types that stand under theirs.
    fn enter(
        &mut self,
        tables: &mut Tables,
        block: BlockId,
        owner: OwnerId,
        names: &BlockNames,
    ) -> Result<(), AllocError>
        ensures { OnOk result (Entering block.0 owner.0 names.now self.old self.new tables.old tables.new) }
    {
        enter_types(
            tables,
            &mut self.types,
            block,
            owner,
            names.required,
            &names.ids,
        )?;
        tell_rows(tables, &self.closed, &self.types, self.told)?;
        tables.types.stays_in_order();
        Ok(())
    }

    /// All types have flags.
    fn settle(&mut self, alloc: Global, tables: &Tables) -> Result<(), AllocError>
        ensures { OnOk result (Settling self.old self.new tables.now) }
    {
        self.whole.settle(alloc, &tables.types)?;
        Ok(())
    }

    /// All domains have their types, and all types have their flags. Fails for want of memory and of numbers; a domain of a block whose
    /// types are not closed, which no program has, counts as no memory.
    pub fn catch_up(&mut self, alloc: Global, tables: &mut Tables) -> Result<(), AllocError>
        ensures told { OnOk result ((targets : Targets) → targets nobody [] ≡ None → IsTold targets self.old (known tables.old) → IsAllTold targets self.new (known tables.new)) }
        ensures retargeted { OnOk result (Retargeted tables.old tables.new) }
    {
        self.tell_all(alloc, tables)?;
        Ok(())
    }

    /// The domains that are not told have the types that stand under their names, and all types have flags.
    fn tell_all(&mut self, alloc: Global, tables: &mut Tables) -> Result<(), AllocError>
        ensures { OnOk result (Telling self.old self.new tables.old tables.new) }
    {
        tell_rows(tables, &self.closed, &self.types, self.told)?;
        self.settle(alloc, tables)?;
        self.told = tables.types.count_domains();
        tables.types.stays_in_order();
        Ok(())
    }

    /// The type of variables behind their denoter: none where something unknown is reached from it. Fails likewise.
    pub fn completed(
        &mut self,
        alloc: Global,
        tables: &mut Tables,
        of: Option<Operand>,
    ) -> Result<Option<Operand>, AllocError>
        ensures shows { IfOk result (λ o. (targets : Targets) (t : Option Typed) → targets nobody [] ≡ None → IsTold targets self.old (known tables.old) → ShowsType (known tables.old).table of t → IsCarriedType targets [] t → ShowsType (known tables.new).table o (rules.completed t) × IsAllTold targets self.new (known tables.new)) }
        ensures retargeted { OnOk result (Retargeted tables.old tables.new) }
    {
        self.catch_up(alloc, tables)?;
        tables.types.stays_in_order();
        Ok(self.whole_type(&tables.types, of))
    }

    /// The same type, if every domain that is reached from it has a type.
    fn whole_type(&self, types: &Types, of: Option<Operand>) -> Option<Operand>
        ensures { AreSettled (seen types.now) self.now.whole → result ≡ if_whole_type (is_whole_in (seen types.now).domains) (seen types.now) of }
    {
        let known = of?;
        if self.whole.is_whole(types, known) {
            Some(known)
        } else {
            None
        }
    }
}
