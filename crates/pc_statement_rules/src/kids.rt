//! Nodes that have what their kids have together.

ghost use Rattle.std.specs.Prelude.{◌≡◌, ◌+◌, ◌∷◌, ◌++◌, [], List, ℕ, IfOk, OnOk};
ghost use Rattle.pc_rules.specs.Attributes.{Entry, Node, at_kid};
ghost use Rattle.pc_types.specs.Shapes.{Owner};
ghost use Rattle.pc_rules.specs.HandedOn.{handed_on, statement_node, kid_entries};
ghost use Rattle.pc_rules.specs.Decorated.{with_kind};
ghost use Rattle.pc_facts.specs.Known.{Known};
ghost use Rattle.pc_facts.specs.Shows.{ShowsNode, AllShow};
ghost use Rattle.pc_statement_rules.specs.Handed.{ShowsEach, ShowsHanded};

use pc_facts::{Facts, add_kid, either};
use pc_report::ErrorEntry;
use pc_syntax::Kind;
use std::alloc::{AllocError, Global};

/// What the kids of a node have together, kid after kid: whether a hole stands in one of them, and their entries, seen from the node.
#[derive(Drop)]
pub struct Handing {
    pub(crate) hole: bool,
    pub(crate) entries: Vec<ErrorEntry>,
    pub(crate) count: u32,
}

impl Handing {
    /// No kid so far.
    pub fn new(alloc: Global) -> Handing
        ensures { (k : Known) → ShowsHanded k result [] }
    {
        Handing {
            hole: false,
            entries: Vec::new(alloc),
            count: 0,
        }
    }

    /// One more kid. Only memory can fail; a place has no number for more than 4,294,967,295 kids.
    pub fn add(&mut self, kid: Facts) -> Result<(), AllocError>
        ensures { OnOk result ((k : Known) (ns : List Node) (n : Node) → ShowsHanded k self.old ns → ShowsNode k kid n.at → ShowsHanded k self.new (ns ++ n ∷ [])) }
    {
        self.add_part(kid.hole, kid.judgement.into_value().entries)?;
        Ok(())
    }

    /// One more kid with this hole and these entries.
    pub(crate) fn add_part(&mut self, hole: bool, part: Vec<ErrorEntry>) -> Result<(), AllocError>
        ensures { OnOk result ((of_kid : Node → List Entry) (ns : List Node) (n : Node) → ShowsEach of_kid self.old ns → hole ≡ n.at.hole → part.items ≡ of_kid n → ShowsEach of_kid self.new (ns ++ n ∷ [])) }
    {
        let i = next(self.count)?;
        self.hole = either(self.hole, hole);
        add_kid(&mut self.entries, i, part)?;
        self.count = i;
        Ok(())
    }

    /// Further kids, in order. Only memory can fail, likewise.
    pub fn add_all(&mut self, kids: Vec<Facts>) -> Result<(), AllocError>
        ensures { OnOk result ((k : Known) (ns ms : List Node) → ShowsHanded k self.old ns → AllShow (λ g n. ShowsNode k g n.at) kids.items ms → ShowsHanded k self.new (ns ++ ms)) }
    {
        for kid in kids {
            self.add(kid)?;
        }
        Ok(())
    }

    /// A node of this kind that only hands on what these kids have.
    pub fn finish(self, alloc: Global, kind: Kind) -> Facts
        ensures { (k : Known) (w : List ℕ) (ns : List Node) → ShowsHanded k self ns → ShowsNode k result (with_kind kind w (handed_on ns)) }
    {
        Facts::statement(alloc, kind, self.hole, self.entries)
    }

    /// A statement of this kind with these kids, and with entries of its own at kid `i`. Only memory can fail.
    pub fn finish_with(
        self,
        alloc: Global,
        kind: Kind,
        i: u32,
        own: Vec<ErrorEntry>,
    ) -> Result<Facts, AllocError>
        ensures { IfOk result (λ f. (k : Known) (w : List ℕ) (ns : List Node) (es : List Entry) (ts : List (Owner × List ℕ)) → ShowsHanded k self ns → own.items ≡ es → ShowsNode k f (with_kind kind w (statement_node ns (kid_entries 1 ns ++ at_kid i es) ts))) }
    {
        let mut entries = self.entries;
        add_kid(&mut entries, i, own)?;
        Ok(Facts::statement(alloc, kind, self.hole, entries))
    }
}

/// The number of the kid behind this one; fails where there is none.
pub(crate) fn next(i: u32) -> Result<u32, AllocError>
    ensures { IfOk result (λ j. j ≡ i + 1) }
{
    match i.checked_add(1) {
        Some(j) => Ok(j),
        None => Err(AllocError),
    }
}

/// A node of this kind that only hands on what its kids have: an empty or a compound statement, a list of statements or of labels, a
/// with. Only memory can fail.
pub fn handed_on(alloc: Global, kind: Kind, kids: Vec<Facts>) -> Result<Facts, AllocError>
    ensures { IfOk result (λ f. (k : Known) (w : List ℕ) (ns : List Node) → AllShow (λ g n. ShowsNode k g n.at) kids.items ns → ShowsNode k f (with_kind kind w (handed_on ns))) }
{
    let mut handing = Handing::new(alloc);
    handing.add_all(kids)?;
    Ok(handing.finish(alloc, kind))
}
