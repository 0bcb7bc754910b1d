//! Facts in a row.

ghost use Rattle.std.specs.Prelude.{◌≡◌, ◌∷◌, [], ℕ, List, IfOk};
ghost use Rattle.pc_rules.specs.Attributes.{Node};
ghost use Rattle.pc_rules.specs.Decorated.{with_kind};
ghost use Rattle.pc_rules.specs.HandedOn.{handed_on};
ghost use Rattle.pc_facts.specs.Known.{Known};
ghost use Rattle.pc_facts.specs.Shows.{ShowsNode};

use pc_facts::Facts;
use pc_statement_rules::Handing;
use pc_syntax::Kind;
use std::alloc::{AllocError, Global};

/// These facts alone. Only memory can fail.
pub(crate) fn single(alloc: Global, first: Facts) -> Result<Vec<Facts>, AllocError>
    ensures { IfOk result (λ fs. fs.items ≡ first ∷ []) }
{
    let mut row = Vec::new(alloc);
    row.push(first)?;
    Ok(row)
}

/// These facts, one after the other. Only memory can fail.
pub(crate) fn pair(alloc: Global, first: Facts, second: Facts) -> Result<Vec<Facts>, AllocError>
    ensures { IfOk result (λ fs. fs.items ≡ first ∷ second ∷ []) }
{
    let mut row = Vec::new(alloc);
    row.push(first)?;
    row.push(second)?;
    Ok(row)
}

/// A node of this kind that only hands on what its two kids have. Only memory can fail.
pub(crate) fn handed_two(
    alloc: Global,
    kind: Kind,
    first: Facts,
    second: Facts,
) -> Result<Facts, AllocError>
    ensures { IfOk result (λ f. (k : Known) (w : List ℕ) (m n : Node) → ShowsNode k first m.at → ShowsNode k second n.at → ShowsNode k f (with_kind kind w (handed_on (m ∷ n ∷ [])))) }
{
    let mut both = Handing::new(alloc);
    both.add(first)?;
    both.add(second)?;
    Ok(both.finish(alloc, kind))
}
