//! Declarations by what is found at their parts (ISO 7185, 6.2.2.7, 6.3, 6.4.1, 6.5.1).

ghost use Rattle.std.specs.Prelude.{◌≡◌, ◌++◌, ◌∷◌, [], ℕ, List, codes, IfOk};
ghost use Rattle.pc_rules.specs.Attributes.{Entry, Node, at_kid};
ghost use Rattle.pc_rules.specs.Declarations as rule;
ghost use Rattle.pc_rules.specs.Decorated.{with_kind};
ghost use Rattle.pc_rules.specs.Entries.{note_if, quoted};
ghost use Rattle.pc_rules.specs.Meanings.{Meaning};
ghost use Rattle.pc_facts.specs.Known.{Known};
ghost use Rattle.pc_facts.specs.Shows.{ShowsNode};

use pc_facts::{Facts, add_kid, add_note_if, either};
use pc_report::ErrorEntry;
use pc_syntax::Kind;
use std::alloc::{AllocError, Global};

/// Row 3 at the name of a definition, as written, where it stood before. Only memory can fail.
pub fn second_name(alloc: Global, second: bool, word: &[u8]) -> Result<Vec<ErrorEntry>, AllocError>
    ensures { IfOk result (λ es. es.items ≡ note_if second 3 (quoted (codes "declared twice") word.now)) }
{
    let mut entries = Vec::new(alloc);
    add_note_if(alloc, &mut entries, second, 3, b"declared twice: ", word)?;
    Ok(entries)
}

/// A declaration of this kind, given whether there is a hole among its names, the entries at them, and its part, which is the second
/// kid. Only memory can fail.
pub fn declaration(
    alloc: Global,
    kind: Kind,
    hole: bool,
    own: Vec<ErrorEntry>,
    part: Facts,
) -> Result<Facts, AllocError>
    ensures { IfOk result (λ f. (k : Known) (w : List ℕ) (a b : Node) (es : List Entry) (ds : List (List ℕ × Meaning)) → a.at.hole ≡ hole → own.items ≡ es → ShowsNode k part b.at → ShowsNode k f (with_kind kind w (rule.declaration (a ∷ b ∷ []) (at_kid 1 es ++ at_kid 2 b.at.as_value.entries) ds))) }
{
    let open = either(hole, part.hole);
    let mut entries = Vec::new(alloc);
    add_kid(&mut entries, 1, own)?;
    add_kid(&mut entries, 2, part.judgement.into_value().entries)?;
    Ok(Facts::statement(alloc, kind, open, entries))
}
