//! The records of a with (ISO 7185, 6.8.3.10).

ghost use Rattle.std.specs.Prelude.{◌≡◌, ◌∷◌, ◌++◌, [], List, ℕ, IfOk, OnOk};
ghost use Rattle.pc_types.specs.Rows.{seen};
ghost use Rattle.pc_rules.specs.Attributes.{Node};
ghost use Rattle.pc_rules.specs.Statements.{opened_entries, records_rule};
ghost use Rattle.pc_rules.specs.Decorated.{with_kind};
ghost use Rattle.pc_facts.specs.Known.{Known};
ghost use Rattle.pc_facts.specs.Shows.{ShowsNode};
ghost use Rattle.pc_syntax.specs.declared.kind.Kind.TheVariants as kind;
ghost use Rattle.pc_statement_rules.specs.Handed.{ShowsOpened};

use crate::kids::Handing;
use crate::own::add_no_record;
use pc_facts::Facts;
use pc_report::ErrorEntry;
use pc_syntax::Kind;
use pc_types::Types;
use std::alloc::{AllocError, Global};

/// The accesses that a with names, one after the other, since each opens its fields before the next is gone through.
#[derive(Drop)]
pub struct Opening {
    pub(crate) parts: Handing,
}

impl Opening {
    /// No access so far.
    pub fn new(alloc: Global) -> Opening
        ensures { (k : Known) → ShowsOpened k result [] }
    {
        Opening {
            parts: Handing::new(alloc),
        }
    }

    /// One more access, with row 15 where it is no record. Only memory can fail; a place has no number for more than 4,294,967,295
    /// kids.
    pub fn add(&mut self, alloc: Global, types: &Types, access: Facts) -> Result<(), AllocError>
        ensures { OnOk result ((k : Known) (ns : List Node) (n : Node) → k.table ≡ seen types.now → ShowsOpened k self.old ns → ShowsNode k access n.at → ShowsOpened k self.new (ns ++ n ∷ [])) }
    {
        let hole = access.hole;
        let part = opened(alloc, types, access)?;
        self.parts.add_part(hole, part)?;
        Ok(())
    }

    /// The node of these accesses.
    pub fn finish(self, alloc: Global) -> Facts
        ensures { (k : Known) (w : List ℕ) (ns : List Node) → ShowsOpened k self ns → ShowsNode k result (with_kind kind.Accesses w (records_rule ns)) }
    {
        let parts = self.parts;
        Facts::statement(alloc, Kind::Accesses, parts.hole, parts.entries)
    }
}

/// The entries of an access that a with names, with row 15 where it is no record. Only memory can fail.
pub fn opened(alloc: Global, types: &Types, access: Facts) -> Result<Vec<ErrorEntry>, AllocError>
    ensures { IfOk result (λ es. (k : Known) (n : Node) → k.table ≡ seen types.now → ShowsNode k access n.at → es.items ≡ opened_entries n) }
{
    let place = access.judgement.into_place();
    let mut entries = place.entries;
    add_no_record(alloc, types, &mut entries, place.of)?;
    Ok(entries)
}
