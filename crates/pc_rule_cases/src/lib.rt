//! Programs with the errors that they have, as equations that the checker evaluates.
#![tactic(auto)]
