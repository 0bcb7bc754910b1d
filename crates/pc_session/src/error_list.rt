//! The view `errors` of a program.

ghost use Rattle.std.specs.Prelude.{◌≡◌, IfOk};
ghost use Rattle.pc_decl.specs.ErrorsText.{errors_text};
ghost use Rattle.pc_views.specs.Limit.{limited};

use pc_decl::errors_view;
use pc_resolve::errors;
use pc_syntax::Tree;
use std::alloc::{AllocError, Global};

/// The text of the view `errors` of a program: a line for each entry of its error list. Fails where `errors` does.
#[tactic(auto, unfolding(pc_decl::specs::ErrorsText::errors_text))]
pub fn error_list(alloc: Global, tree: &Tree) -> Result<Vec<u8>, AllocError>
    ensures { IfOk result (λ text. text.items ≡ limited (errors_text tree.now)) }
{
    let entries = errors(alloc, tree)?;
    errors_view(alloc, &entries)
}
