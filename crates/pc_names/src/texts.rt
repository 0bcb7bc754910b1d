//! Names in small letters, by their numbers.

ghost use Rattle.std.specs.Prelude.{◌≡◌, ◌<◌, List, ℕ, [], ◌∷◌, ◌++◌, length, map, Some, None, slice_get, IfOk, OnOk, OnErr};
ghost use Rattle.pc_syntax.specs.Words.{lowered};
ghost use Rattle.pc_names.specs.Numbers as numbers;
ghost use Rattle.pc_names.specs.Numbers.{with_name, AreDistinct};

use crate::id::u32_of;
use indexmap::IndexSet;
use pc_syntax::lower;
use std::alloc::{AllocError, Global};
use std::marker::Model;

/// The names that were met, in small letters, in the order in which they were first met.
#[derive(Drop)]
pub struct Texts {
    alloc: Global,
    small: Vec<u8>,
    texts: IndexSet<Vec<u8>>,
}

impl Model for Texts {
    ghost use Rattle.std.specs.Prelude.{List, ℕ, map};

    ghost Value = { List (List ℕ) };

    ghost view = { λ t. map (λ text. text.items) t.texts.keys };

    ghost use Rattle.pc_names.specs.Numbers.{AreDistinct};

    ghost invariant = { λ t. AreDistinct (map (λ text. text.items) t.texts.keys) };
}

impl Texts {
    /// No names.
    pub fn new(alloc: Global) -> Texts
        ensures { result ≡ [] }
    {
        Texts {
            alloc,
            small: Vec::new(alloc),
            texts: IndexSet::new(alloc),
        }
    }

    /// The number of a name in any case; that of one that wasn't met before is the next one. Only memory can fail.
    pub fn number(&mut self, word: &[u8]) -> Result<u32, AllocError>
        ensures number { IfOk result (λ i. numbers.number_of self.new (lowered word.now) ≡ Some i) }
        ensures texts { OnOk result (self.new ≡ with_name self.old (lowered word.now)) }
        ensures distinct { AreDistinct self.new }
        ensures failure { OnErr result (self.new ≡ self.old) }
    {
        self.small.clear();
        put_lowered(&mut self.small, word)?;
        match number_of(&self.texts, self.small.as_slice()) {
            Some(index) => Ok(u32_of(index)?),
            None => Ok(add_text(self.alloc, &mut self.texts, self.small.as_slice())?),
        }
    }

    /// The number of a name in small letters, if it was met.
    pub fn number_of(&self, small: &[u8]) -> Option<usize>
        ensures { result ≡ numbers.number_of self.now small.now }
    {
        number_of(&self.texts, small)
    }

    /// The name with a number.
    pub fn text(&self, number: u32) -> &[u8]
        requires { number < length self.now }
        ensures { slice_get self.now number ≡ Some result.now }
    {
        match self.texts.get_index(number as usize) {
            Some(text) => text.as_slice(),
            None => unreachable!(),
        }
    }
}

/// Adds the word in small letters to a word.
fn put_lowered(small: &mut Vec<u8>, word: &[u8]) -> Result<(), AllocError>
    requires { small.old.items ≡ [] }
    ensures { OnOk result (small.new.items ≡ lowered word.now) }
{
    for byte in word {
        small.push(lower(*byte))?;
    }
    Ok(())
}

/// The number of a name in small letters, if it was met.
fn number_of(texts: &IndexSet<Vec<u8>>, small: &[u8]) -> Option<usize>
    ensures { result ≡ numbers.number_of (map (λ text. text.items) texts.now.keys) small.now }
{
    texts.get_index_of(small)
}

/// Gives a name in small letters that wasn't met the next number.
fn add_text(alloc: Global, texts: &mut IndexSet<Vec<u8>>, small: &[u8]) -> Result<u32, AllocError>
    requires new_name { numbers.number_of (map (λ text. text.items) texts.old.keys) small.now ≡ None }
    requires distinct { AreDistinct (map (λ text. text.items) texts.old.keys) }
    ensures number { IfOk result (λ i. numbers.number_of (map (λ text. text.items) texts.new.keys) small.now ≡ Some i) }
    ensures texts { OnOk result (map (λ text. text.items) texts.new.keys ≡ map (λ text. text.items) texts.old.keys ++ small.now ∷ []) }
    ensures distinct { AreDistinct (map (λ text. text.items) texts.new.keys) }
    ensures failure { OnErr result (texts.new.keys ≡ texts.old.keys) }
{
    let next = u32_of(texts.len())?;
    let text = small.to_vec(alloc)?;
    texts.insert(text)?;
    Ok(next)
}
