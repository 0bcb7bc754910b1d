//! Forward routines that wait for their later declarations.

ghost use Rattle.std.specs.Prelude.{◌≡◌, ◌&&◌, ◌==◌, ℕ, List, [], Option, Some, None, if◌then◌else◌, not, length, IfOk, OnOk};
ghost use Rattle.std.specs.HashMap.{get_by};
ghost use Rattle.std.specs.Option.{option_or, option_map_or};
ghost use Rattle.std.specs.Str.{bytes_eq};
ghost use Rattle.pc_scope.specs.Headings as headings;
ghost use Rattle.pc_scope.specs.Waiting.{waits};
ghost use Rattle.pc_scope.specs.WaitingIn.{waiting_in};

use crate::heading::Heading;
use std::alloc::{AllocError, Global};
use std::collections::HashMap;

/// The number at a name.
fn at(waiting: &HashMap<Vec<u8>, u32>, name: &[u8]) -> Option<u32>
    ensures { result ≡ get_by (λ k. bytes_eq name.now k.items) waiting.now }
{
    waiting.get(name).copied()
}

/// Puts a number at a name.
fn put(
    alloc: Global,
    waiting: &mut HashMap<Vec<u8>, u32>,
    name: &[u8],
    number: u32,
) -> Result<(), AllocError>
    ensures { OnOk result ((n : List ℕ) → get_by (λ k. bytes_eq n k.items) waiting.new ≡ (if bytes_eq name.now n then Some number else get_by (λ k. bytes_eq n k.items) waiting.old)) }
{
    let name = name.to_vec(alloc)?;
    waiting.insert(name, number)?;
    Ok(())
}

/// Takes away what is at a name.
fn clear(waiting: &mut HashMap<Vec<u8>, u32>, name: &[u8])
    ensures { (n : List ℕ) → get_by (λ k. bytes_eq n k.items) waiting.new ≡ (if bytes_eq name.now n then None else get_by (λ k. bytes_eq n k.items) waiting.old) }
{
    waiting.remove(name);
}

/// Passes a routine with a name: a forward begins to wait, unless one waits; a routine with a block ends the waiting.
fn pass(
    alloc: Global,
    waiting: &mut HashMap<Vec<u8>, u32>,
    name: &[u8],
    is_forward: bool,
    number: u32,
) -> Result<(), AllocError>
    ensures { OnOk result ((n : List ℕ) → get_by (λ k. bytes_eq n k.items) waiting.new ≡ (if bytes_eq n name.now then (if is_forward then option_or (get_by (λ k. bytes_eq n k.items) waiting.old) (Some number) else None) else get_by (λ k. bytes_eq n k.items) waiting.old)) }
{
    if !is_forward {
        clear(waiting, name);
        return Ok(());
    }
    if at(waiting, name).is_some() {
        return Ok(());
    }
    put(alloc, waiting, name, number)
}

/// The forward procedures and functions that wait for their later declarations, by their names in small letters.
#[derive(Drop)]
pub struct Waiting {
    procedures: HashMap<Vec<u8>, u32>,
    functions: HashMap<Vec<u8>, u32>,
}

impl Waiting {
    /// None.
    pub fn new(alloc: Global) -> Waiting
        ensures { (h : headings.Heading) → waiting_in result h ≡ None }
    {
        Waiting {
            procedures: HashMap::new(alloc),
            functions: HashMap::new(alloc),
        }
    }

    /// The number of the routine whose heading counts for the next routine, which has this heading and number.
    pub fn counting(&self, heading: &Heading, number: u32) -> u32
        ensures { result ≡ (if heading.now.is_forward then number else option_map_or (λ c. c) (waiting_in self.now heading.now) number) }
    {
        if heading.is_forward {
            return number;
        }
        let waiting = if heading.is_function {
            at(&self.functions, heading.name.bytes())
        } else {
            at(&self.procedures, heading.name.bytes())
        };
        waiting.unwrap_or(number)
    }

    /// Passes a routine.
    pub fn pass(&mut self, alloc: Global, heading: &Heading, number: u32) -> Result<(), AllocError>
        ensures { OnOk result ((h : headings.Heading) → waiting_in self.new h ≡ waits h heading.now number (waiting_in self.old h)) }
    {
        let name = heading.name.bytes();
        if name.is_empty() {
            return Ok(());
        }
        if heading.is_function {
            pass(alloc, &mut self.functions, name, heading.is_forward, number)
        } else {
            pass(
                alloc,
                &mut self.procedures,
                name,
                heading.is_forward,
                number,
            )
        }
    }
}
