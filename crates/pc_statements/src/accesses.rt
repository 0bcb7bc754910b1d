//! The accesses of a with (ISO 7185, 6.8.3.10).

ghost use Rattle.std.specs.Prelude.{◌≡◌, ◌<◌, length, true, IfOk};
ghost use Rattle.pc_syntax.specs.Classes.{has};
ghost use Rattle.pc_syntax.specs.Plain.{kids_of};
ghost use Rattle.pc_syntax.specs.declared.class.Class.TheVariants as class;
ghost use Rattle.pc_statements.specs.Opens.{OpensRow};

use pc_bodies::{Body, Going, expression};
use pc_forms::Expression;
use pc_sightings::open;
use pc_statement_rules::Opening;
use pc_syntax::Tree;
use std::alloc::{AllocError, Global};

/// What is found at the accesses of a with, each with the records of those before it open; behind them all are. Only memory can fail.
pub(crate) fn accesses(
    alloc: Global,
    body: &Body,
    going: &mut Going,
    list: &Tree,
) -> Result<Opening, AllocError>
    requires block { body.now.block.0 < length body.now.names.now.chains }
    requires list { has class.Accesses list.now.kind ≡ true }
    ensures { IfOk result (λ o. OpensRow body.now going.old going.new (kids_of list.now) o) }
{
    let mut opening = Opening::new(alloc);
    for kid in list.kid_slice() {
        let access = expression(alloc, body, going, &Expression::new(kid))?;
        let of = access.place_type();
        opening.add(alloc, body.types, access)?;
        open(&mut going.opened, of)?;
    }
    Ok(opening)
}
