//! The view `decls` of a program.

ghost use Rattle.std.specs.Prelude.{◌≡◌, IfOk};
ghost use Rattle.pc_decl.specs.DeclsText.{decls_text};
ghost use Rattle.pc_views.specs.Limit.{limited};

use pc_decl_view::decls_view;
use pc_resolve::resolve;
use pc_syntax::Tree;
use std::alloc::{AllocError, Global};

/// The text of the view `decls` of a program: for each routine with a key a line with that, and a line for each name that it declares.
/// Fails where `resolve` does.
pub fn declarations(alloc: Global, tree: &Tree) -> Result<Vec<u8>, AllocError>
    ensures { IfOk result (λ text. text.items ≡ limited (decls_text tree.now)) }
{
    let _ = tree.kind();
    let resolved = resolve(alloc, tree)?;
    let signatures = resolved.tables.signatures.as_slice();
    let routines = resolved.routines.as_slice();
    let text = decls_view(alloc, &resolved.tables.types, signatures, routines)?;
    Ok(text)
}
