//! What facts show by numbers, they show when more is numbered.
//!
//! Read `Grows` of `specs/`; the lemmas stand in `GrowsLaws`.
#![tactic(auto)]
