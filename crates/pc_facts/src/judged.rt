//! What a part has where a value, a variable or a target is needed.

ghost use Rattle.std.specs.Prelude.{◌≡◌, ◌||◌, not, [], None, if◌then◌else◌};
ghost use Rattle.pc_rules.specs.Attributes.{is_empty};
ghost use Rattle.pc_facts.specs.Shows.{value_of, place_of, target_of};

use pc_report::ErrorEntry;
use pc_types::Operand;
use std::alloc::Global;

/// The entries of a part, seen from its node, and its type, where it has neither an error nor a hole.
#[derive(Drop)]
pub struct Judged {
    pub entries: Vec<ErrorEntry>,
    pub of: Option<Operand>,
}

impl Judged {
    /// No entry and no type.
    pub fn nothing(alloc: Global) -> Judged
        ensures entries { result.entries.items ≡ [] }
        ensures known { result.of ≡ None }
    {
        Judged {
            entries: Vec::new(alloc),
            of: None,
        }
    }

    /// What its parts make of a node: no type where there is an entry or a hole.
    pub fn of_parts(hole: bool, entries: Vec<ErrorEntry>, of: Option<Operand>) -> Judged
        ensures entries { result.entries ≡ entries }
        ensures known { result.of ≡ (if hole || not (is_empty entries.items) then None else of) }
    {
        if hole || !entries.is_empty() {
            Judged { entries, of: None }
        } else {
            Judged { entries, of }
        }
    }
}

/// How a node is judged: the same wherever it stands, or apart where a value is needed, where a variable is, and where it is the
/// target of an assignment, as the name of a variable is.
#[derive(Drop)]
pub enum Judgement {
    Same(Judged),
    ByUse(Judged, Judged, Judged),
}

impl Judgement {
    /// The judgement where a value is needed.
    pub fn value(&self) -> &Judged
        ensures { result.now ≡ value_of self.now }
    {
        match self {
            Judgement::Same(judged) => judged,
            Judgement::ByUse(value, _, _) => value,
        }
    }

    /// The judgement where a variable is needed.
    pub fn place(&self) -> &Judged
        ensures { result.now ≡ place_of self.now }
    {
        match self {
            Judgement::Same(judged) => judged,
            Judgement::ByUse(_, place, _) => place,
        }
    }

    /// The same, and the judgement is used up.
    pub fn into_value(self) -> Judged
        ensures { result ≡ value_of self }
    {
        match self {
            Judgement::Same(judged) => judged,
            Judgement::ByUse(value, _, _) => value,
        }
    }

    pub fn into_place(self) -> Judged
        ensures { result ≡ place_of self }
    {
        match self {
            Judgement::Same(judged) => judged,
            Judgement::ByUse(_, place, _) => place,
        }
    }

    /// The judgement as the target of an assignment; the judgement is used up.
    pub fn into_target(self) -> Judged
        ensures { result ≡ target_of self }
    {
        match self {
            Judgement::Same(judged) => judged,
            Judgement::ByUse(_, _, target) => target,
        }
    }
}
