//! Tests of the outside: objects that fail at chosen calls, the real streams over readers and writers that fail, and a sink
//! that counts its calls. They stand above the crates that they test, so that those are proved once.
#![tactic(auto)]

#[cfg(test)]
mod counting;
#[cfg(test)]
mod failing;
#[cfg(test)]
mod memory;
