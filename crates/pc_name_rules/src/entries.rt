//! Rows 1, 2 and 4: names that are used (ISO 7185, 6.2.2.9).

ghost use Rattle.std.specs.Prelude.{◌≡◌, ◌++◌, if◌then◌else◌, List, ℕ, [], OnOk};
ghost use Rattle.pc_rules.specs.Attributes.{Node};
ghost use Rattle.pc_rules.specs.Meanings.{Found};
ghost use Rattle.pc_rules.specs.UsedNames.{missed, not_a};
ghost use Rattle.pc_rules.specs.UsedNames as rule;
ghost use Rattle.pc_rules.specs.Variables.{variable_entries, value_entries};
ghost use Rattle.pc_facts.specs.Known.{Known};
ghost use Rattle.pc_facts.specs.Shows.{ShowsFound, ShowsName};
ghost use Rattle.pc_name_rules.specs.Uses.{allows_class, allows_required, called, used_entries};

use crate::allowed::{Allowed, is_used_as};
use pc_facts::{Named, Sighting, add_note};
use pc_report::ErrorEntry;
use std::alloc::{AllocError, Global};

/// Adds rows 1, 2 and 4 of a used name, as written, given what its use allows; none of a hole. Only memory can fail.
pub fn add_name_entries(
    alloc: Global,
    entries: &mut Vec<ErrorEntry>,
    word: &[u8],
    named: Named,
    allows: Allowed,
) -> Result<(), AllocError>
    ensures { OnOk result ((k : Known) (a : Node) → ShowsName k named a.at → a.at.word ≡ word.now → entries.new.items ≡ entries.old.items ++ used_entries allows a) }
{
    if !named.hole {
        add_missed(alloc, entries, word, named.sighting)?;
        add_refusal(alloc, entries, word, named.sighting, allows)?;
    }
    Ok(())
}

/// The same of a name that stands for a variable; a field of the record of a with is one.
pub fn add_variable_entries(
    alloc: Global,
    entries: &mut Vec<ErrorEntry>,
    word: &[u8],
    named: Named,
) -> Result<(), AllocError>
    ensures { OnOk result ((k : Known) (a : Node) → ShowsName k named a.at → a.at.word ≡ word.now → entries.new.items ≡ entries.old.items ++ variable_entries a) }
{
    match named.sighting {
        Sighting::Component(_, _) => Ok(()),
        _ => add_name_entries(alloc, entries, word, named, Allowed::Variable),
    }
}

/// The same of a name that stands for a value: a variable, a constant, or a function that is called without arguments.
pub fn add_value_entries(
    alloc: Global,
    entries: &mut Vec<ErrorEntry>,
    word: &[u8],
    named: Named,
) -> Result<(), AllocError>
    ensures { OnOk result ((k : Known) (a : Node) → ShowsName k named a.at → a.at.word ≡ word.now → entries.new.items ≡ entries.old.items ++ value_entries a) }
{
    match named.sighting {
        Sighting::Component(_, _) => Ok(()),
        _ => add_name_entries(alloc, entries, word, named, Allowed::Value),
    }
}

/// Rows 1 and 2.
fn add_missed(
    alloc: Global,
    entries: &mut Vec<ErrorEntry>,
    word: &[u8],
    sighting: Sighting,
) -> Result<(), AllocError>
    ensures { OnOk result ((k : Known) (n : List ℕ) (f : Found) → ShowsFound k n sighting f → entries.new.items ≡ entries.old.items ++ missed word.now f) }
{
    match sighting {
        Sighting::Missing => add_note(alloc, entries, 1, b"not declared: ", word),
        Sighting::Later(_) => add_note(alloc, entries, 2, b"used before its declaration: ", word),
        _ => Ok(()),
    }
}

/// Row 4, where the name is declared, but as something else.
fn add_refusal(
    alloc: Global,
    entries: &mut Vec<ErrorEntry>,
    word: &[u8],
    sighting: Sighting,
    allows: Allowed,
) -> Result<(), AllocError>
    ensures { OnOk result ((k : Known) (n : List ℕ) (f : Found) → ShowsFound k n sighting f → entries.new.items ≡ entries.old.items ++ (if rule.is_used_as (allows_class allows) (allows_required allows) f then [] else not_a (called allows) word.now)) }
{
    if !is_used_as(sighting, allows) {
        add_note(alloc, entries, 4, allows.refusal(), word)?;
    }
    Ok(())
}
