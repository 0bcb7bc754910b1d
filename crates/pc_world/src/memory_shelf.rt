//! A shelf in memory.

ghost use Rattle.std.specs.Prelude.{◌≡◌, Some, IfOk, OnOk, OnErr, IsErrOf};
ghost use Rattle.std.specs.FinMap.{from_entries};
ghost use Rattle.std.specs.Option.{option_map};
ghost use Rattle.pc_world.specs.Files.{FindsFile};

use crate::failures::Failures;
use crate::{Shelf, ShelfError};
use pc_syntax::Word;
use std::alloc::Global;

/// A shelf of these files, which fails at chosen calls.
#[derive(Drop)]
pub struct MemShelf {
    files: Vec<(Word, Word)>,
    failures: Failures,
}

impl MemShelf {
    ghost use Rattle.pc_world.specs.Plan.{first_plan};
    ghost use Rattle.pc_world.specs.InMemory.{shelf_plan};

    /// A shelf of `files`, each a name and its bytes; of two with one name the first counts. Exactly
    /// the gets and puts answer `Failed` whose numbers, counted together from 1, stand in `fails`; a
    /// call that fails has a number too.
    pub fn new(files: Vec<(Word, Word)>, fails: Vec<u64>) -> MemShelf
        ensures told { ⟦<MemShelf as Shelf>⟧.files result ≡ Some (from_entries files.items) }
        ensures fresh { ⟦<MemShelf as Shelf>⟧.faults result ≡ 0 }
        ensures plan { shelf_plan result ≡ first_plan fails.items }
    {
        MemShelf {
            files,
            failures: Failures::new(fails),
        }
    }
}

impl Shelf for MemShelf {
    ghost use Rattle.pc_world.specs.Files.{KeepsFiles, PutsFile, IsFileAt};
    ghost use Rattle.pc_world.specs.InMemory.{shelf_files, shelf_faults, shelf_plan};
    ghost use Rattle.pc_world.specs.Plan.{IsNextCall};
    ghost use Rattle.pc_world.specs.ShelfCauses.{ShelfHasCause};

    ghost files = { shelf_files };

    ghost faults = { shelf_faults };

    fn get(&mut self, alloc: Global, name: &str) -> Result<Option<Vec<u8>>, ShelfError>
        ensures answer { IfOk result (λ answer. IsFileAt (shelf_files self.old) name.now (option_map (λ v. v.items) answer)) }
        ensures same { KeepsFiles (shelf_files self.old) (shelf_files self.new) }
        ensures cause { ShelfHasCause (shelf_faults self.old) (shelf_faults self.new) result }
        ensures plan { IsNextCall (shelf_plan self.old) (shelf_plan self.new) (IsErrOf result ShelfError.Failed) }
    {
        if self.failures.pass().is_err() {
            return Err(ShelfError::Failed);
        }
        match place_of(&self.files, name.as_bytes()) {
            Some(i) => match self.files[i].1.bytes().to_vec(alloc) {
                Ok(bytes) => Ok(Some(bytes)),
                Err(_) => Err(ShelfError::NoMemory),
            },
            None => Ok(None),
        }
    }

    fn put(&mut self, alloc: Global, name: &str, bytes: &[u8]) -> Result<(), ShelfError>
        ensures ok { OnOk result (PutsFile (shelf_files self.old) (shelf_files self.new) name.now bytes.now) }
        ensures err { OnErr result (KeepsFiles (shelf_files self.old) (shelf_files self.new)) }
        ensures cause { ShelfHasCause (shelf_faults self.old) (shelf_faults self.new) result }
        ensures plan { IsNextCall (shelf_plan self.old) (shelf_plan self.new) (IsErrOf result ShelfError.Failed) }
    {
        if self.failures.pass().is_err() {
            return Err(ShelfError::Failed);
        }
        let Ok(file) = Word::new(alloc, bytes) else {
            return Err(ShelfError::NoMemory);
        };
        let Ok(word) = Word::new(alloc, name.as_bytes()) else {
            return Err(ShelfError::NoMemory);
        };
        match self.files.insert(0, (word, file)) {
            Ok(()) => Ok(()),
            Err(_) => Err(ShelfError::NoMemory),
        }
    }
}

/// The first place of a name, counted from 0, or none.
fn place_of(files: &[(Word, Word)], name: &[u8]) -> Option<usize>
    ensures { FindsFile files.now name.now result }
{
    for (i, file) in files.iter().enumerate() {
        if name == file.0.bytes() {
            return Some(i);
        }
    }
    None
}
