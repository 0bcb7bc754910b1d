//! Paths of nodes.

ghost use Rattle.std.specs.Prelude.{◌≡◌, [], ◌∷◌, ◌++◌, IfOk};
ghost use Rattle.pc_syntax.specs.Paths.{path_of, step_of, ReadsAs};

use crate::bytes::{are_digits, value_of};
use crate::error::ReadError;
use crate::parts::parts_behind;
use smallvec::SmallVec;
use std::alloc::{AllocError, Global};
use std::marker::Model;

/// The way from the root of a tree to a node: the number of a kid, counted from 1, at each step.
#[derive(Drop)]
pub struct Path {
    steps: SmallVec<u32, 8>,
}

impl Model for Path {
    ghost use Rattle.std.specs.Prelude.{ℕ, List};

    ghost Value = { List ℕ };

    ghost view = { λ p. p.steps.items };
}

impl Path {
    /// The path of the root, which has no step.
    pub fn root(alloc: Global) -> Path
        ensures { result ≡ [] }
    {
        Path {
            steps: SmallVec::new(alloc),
        }
    }

    /// The path with these steps, each the number of a kid, from 1. Fails for want of memory only.
    pub fn of(alloc: Global, steps: &[u32]) -> Result<Path, AllocError>
        ensures { IfOk result (λ path. path ≡ steps.now) }
    {
        Ok(Path {
            steps: SmallVec::from_slice(alloc, steps)?,
        })
    }

    /// The same path once more. Fails for want of memory only.
    pub fn copy(&self, alloc: Global) -> Result<Path, AllocError>
        ensures { IfOk result (λ path. path ≡ self.now) }
    {
        Path::of(alloc, self.steps())
    }

    /// The number of the kid, from 1, at each step from the root.
    pub fn steps(&self) -> &[u32]
        ensures { result.now ≡ self.now }
    {
        self.steps.as_slice()
    }

    /// The path of kid `i`, from 1, of the node with this path.
    pub fn child(&self, alloc: Global, i: u32) -> Result<Path, AllocError>
        ensures { IfOk result (λ path. path ≡ self.now ++ i ∷ []) }
    {
        let mut steps = SmallVec::from_slice(alloc, self.steps.as_slice())?;
        steps.push(i)?;
        Ok(Path { steps })
    }

    /// The path that the word writes: `/` for the root, or `/` before each number, as `/3/5/1/2`. The numbers are from 1
    /// to 4294967295 and have no leading zeros, and there are at most 256. Any other word is `BadForm`.
    #[tactic(auto, unfolding(crate::specs::Paths::path_of))]
    pub fn read(alloc: Global, word: &[u8]) -> Result<Path, ReadError>
        ensures { ReadsAs (path_of word.now) result }
    {
        let parts = parts_behind(alloc, b'/', word)?;
        let mut steps = SmallVec::new(alloc);
        for part in &parts {
            let Some(step) = step_of(part) else {
                return Err(ReadError::BadForm);
            };
            steps.push(step)?;
        }
        Ok(Path { steps })
    }
}

/// The number of a step, from 1, or none where the word is no such number without leading zeros.
#[tactic(auto, unfolding(crate::specs::Paths::step_of))]
fn step_of(word: &[u8]) -> Option<u32>
    ensures { result ≡ step_of word.now }
{
    let [first, rest @ ..] = word else {
        return None;
    };
    if *first < b'1' || *first > b'9' || !are_digits(rest) {
        return None;
    }
    match value_of(word) {
        Some(value) => u32::try_from(value).ok(),
        None => None,
    }
}
