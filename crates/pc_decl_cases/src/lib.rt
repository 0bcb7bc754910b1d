//! Programs with the views that they have, as equations that the checker evaluates.
#![tactic(auto)]
