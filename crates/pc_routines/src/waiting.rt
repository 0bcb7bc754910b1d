//! The forward routines that wait for their later declarations (ISO 7185, 6.6.1, 6.6.2).

ghost use Rattle.std.specs.Prelude.{◌≡◌, [], ◌&&◌, nat_eq, ℕ, List, Some, if◌then◌else◌, option_copied, OnOk};
ghost use Rattle.std.specs.Option.{option_or};
ghost use Rattle.pc_scope.specs.Headings.{Heading};
ghost use Rattle.pc_rules.specs.Declarations.{heading_here};
ghost use Rattle.pc_rules.specs.Meanings.{Local};
ghost use Rattle.pc_rules.specs.Places.{past_routine};
ghost use Rattle.pc_rules.specs.RoutineList.{Forwarded, forwarded_for, forwarded_by};
ghost use Rattle.pc_rules.specs.Routines.{Routine};
ghost use Rattle.pc_places.specs.declared.tables.Tables.{Tables};
ghost use Rattle.pc_routines.specs.Heads as heads;
ghost use Rattle.pc_routines.specs.Heads.{ShowsHead, found_at};
ghost use Rattle.pc_routines.specs.Waits.{waiting_at, is_key, settled, Gives, Waits, ShowsForwarded};

use crate::forward::Forward;
use crate::head::RoutineHead;
use crate::table::side;
use indexmap::IndexMap;
use pc_names::NameId;
use std::alloc::{AllocError, Global};
use std::marker::Model;

/// The forward routines that wait for their later declarations, by the numbers of their names and by their side.
#[derive(Drop)]
pub struct Waiting {
    table: IndexMap<(u32, u32), Option<Forward>>,
}

impl Model for Waiting {
    ghost use Rattle.std.specs.Prelude.{List, ℕ, Option};
    ghost use Rattle.pc_routines.specs.declared.forward.Forward.{Forward as Had};

    ghost Value = { List ((ℕ × ℕ) × Option Had) };

    ghost view = { λ w. w.table.entries };
}

impl Waiting {
    /// None waits.
    pub fn new(alloc: Global) -> Waiting
        ensures { (t : Tables) → Waits t result [] [] }
    {
        Waiting {
            table: IndexMap::new(alloc),
        }
    }

    /// The forward routine that waits for one with this heading, if there is one. Work: one look-up in a hash table.
    pub fn find(&self, head: &RoutineHead) -> Option<&Forward>
        ensures shows { (t : Tables) (h : Heading) (ws : List Heading) (fs : List Forwarded) → ShowsHead t.names.texts head.now h → Waits t self.now ws fs → ShowsForwarded t (option_copied result) (forwarded_for h fs) }
        ensures found { option_copied result ≡ found_at (waiting_at self.now) head.now.name head.now.is_function }
    {
        let name = head.name?;
        self.at(name, head.is_function)
    }

    /// Behind a routine with this heading: a forward one waits, unless one waits that it pairs with; behind any other one those that pair
    /// with it wait no more. Only memory can fail. Work: two look-ups in a hash table.
    pub fn pass(&mut self, head: &RoutineHead, forward: Option<Forward>) -> Result<(), AllocError>
        ensures { OnOk result ((t : Tables) (l : Local) (r : Routine) (fs : List Forwarded) → ShowsHead t.names.texts head.now (heading_here l) → Gives t forward r (heading_here l).is_forward → Waits t self.old l.waiting fs → Waits t self.new (past_routine l).waiting (forwarded_by l r fs)) }
    {
        self.settle(head, forward)?;
        Ok(())
    }

    /// The table behind a routine.
    fn settle(&mut self, head: &RoutineHead, forward: Option<Forward>) -> Result<(), AllocError>
        ensures { OnOk result ((i s : ℕ) → waiting_at self.new i s ≡ (if is_key head.now.name head.now.is_function i s then settled forward (found_at (waiting_at self.old) head.now.name head.now.is_function) else waiting_at self.old i s)) }
    {
        let Some(name) = head.name else {
            return Ok(());
        };
        match forward {
            Some(first) => self.wait(name, head.is_function, first),
            None => self.put(name, head.is_function, None),
        }
    }

    /// One waits, unless one waits already.
    fn wait(&mut self, name: NameId, is_function: bool, forward: Forward) -> Result<(), AllocError>
        ensures { OnOk result ((i s : ℕ) → waiting_at self.new i s ≡ (if nat_eq name.0 i && nat_eq (heads.side is_function) s then option_or (waiting_at self.old name.0 (heads.side is_function)) (Some forward) else waiting_at self.old i s)) }
    {
        if self.at(name, is_function).is_some() {
            return Ok(());
        }
        self.put(name, is_function, Some(forward))?;
        Ok(())
    }

    /// This is at a name and a side.
    fn put(
        &mut self,
        name: NameId,
        is_function: bool,
        slot: Option<Forward>,
    ) -> Result<(), AllocError>
        ensures { OnOk result ((i s : ℕ) → waiting_at self.new i s ≡ (if nat_eq name.0 i && nat_eq (heads.side is_function) s then slot else waiting_at self.old i s)) }
    {
        self.table.insert((name.0, side(is_function)), slot)?;
        Ok(())
    }

    /// The one that waits with this name on this side.
    fn at(&self, name: NameId, is_function: bool) -> Option<&Forward>
        ensures { option_copied result ≡ waiting_at self.now name.0 (heads.side is_function) }
    {
        match self.table.get(&(name.0, side(is_function))) {
            Some(slot) => slot.as_ref(),
            None => None,
        }
    }
}
