//! The heading of the program (ISO 7185, 6.10).

ghost use Rattle.std.specs.Prelude.{◌≡◌, ℕ, Bool, List, true, IfOk};
ghost use Rattle.pc_syntax.specs.Classes.{has};
ghost use Rattle.pc_syntax.specs.Plain.{kids_of};
ghost use Rattle.pc_syntax.specs.Words.{lowered};
ghost use Rattle.pc_syntax.specs.declared.class.Class.TheVariants as class;
ghost use Rattle.pc_syntax.specs.declared.kind.Kind.TheVariants as kind;
ghost use Rattle.pc_scope.specs.Required as required;
ghost use Rattle.pc_types.specs.Shapes.{Owner};
ghost use Rattle.pc_rules.specs.Attributes.{each_kid};
ghost use Rattle.pc_rules.specs.Headings.{entries_of_heading, program_parameter_entries};
ghost use Rattle.pc_rules.specs.Meanings.{Found};
ghost use Rattle.pc_headings.specs.Headed.{marks_in};
ghost use Rattle.pc_headings.specs.Listing.{named_node, named_nodes};

use crate::names::next;
use crate::parts::program_part;
use pc_facts::{add_kid, add_note_if, both, either};
use pc_report::ErrorEntry;
use pc_syntax::{Kind, Tree, is_spelled};
use std::alloc::{AllocError, Global};

/// The entries of the heading of a program: row 25 at each name that is not that of a required file. Only memory can fail.
pub fn program_heading(alloc: Global, node: &Tree) -> Result<Vec<ErrorEntry>, AllocError>
    requires { has class.Program node.now.kind ≡ true }
    ensures { IfOk result (λ es. (means : List ℕ → Found) (o : Owner) (later : Bool) → es.items ≡ entries_of_heading kind.Program later (marks_in means o node.now)) }
{
    match node.kind() {
        Kind::Program => {
            let heads = program_part(node);
            let own = file_entries(alloc, heads)?;
            let mut entries = Vec::new(alloc);
            add_kid(&mut entries, 2, own)?;
            Ok(entries)
        }
        _ => Ok(Vec::new(alloc)),
    }
}

/// The entries of a list of files, seen from it.
fn file_entries(alloc: Global, list: &Tree) -> Result<Vec<ErrorEntry>, AllocError>
    ensures { IfOk result (λ es. es.items ≡ each_kid program_parameter_entries 1 (named_nodes (kids_of list.now))) }
{
    let mut entries = Vec::new(alloc);
    let mut count = 0;
    for kid in list.kid_slice() {
        count = next(count)?;
        let own = file_entry(alloc, kid)?;
        add_kid(&mut entries, count, own)?;
    }
    Ok(entries)
}

/// Row 25 at the name of a file.
fn file_entry(alloc: Global, node: &Tree) -> Result<Vec<ErrorEntry>, AllocError>
    ensures { IfOk result (λ es. es.items ≡ program_parameter_entries (named_node node.now)) }
{
    let word = node.word();
    let is_hole = node.kind().is_hole();
    let is_required = is_required_file(word);
    let mut entries = Vec::new(alloc);
    add_note_if(
        alloc,
        &mut entries,
        both(!is_hole, !is_required),
        25,
        b"program parameter: ",
        word,
    )?;
    Ok(entries)
}

/// Whether this is the name of a required file, in any case.
fn is_required_file(word: &[u8]) -> bool
    ensures { result ≡ required.is_required_file (lowered word.now) }
{
    let input = is_spelled(word, b"input");
    let output = is_spelled(word, b"output");
    either(input, output)
}
