//! Arms of case statements (ISO 7185, 6.8.3.5).

ghost use Rattle.std.specs.Prelude.{◌≡◌, ◌<◌, length, map, true, IfOk};
ghost use Rattle.pc_syntax.specs.Classes.{has};
ghost use Rattle.pc_syntax.specs.declared.class.Class.TheVariants as class;
ghost use Rattle.pc_syntax.specs.declared.kind.Kind.TheVariants as kind;
ghost use Rattle.pc_forms.specs.Form.{form_of};
ghost use Rattle.pc_forms.specs.declared.form.Form.TheVariants as form;
ghost use Rattle.pc_bodies.specs.Resolved.{ResolvesAs};
ghost use Rattle.pc_statements.specs.Labelled.{ShowsLabelled};

use crate::constants::constant;
use pc_bodies::{Body, Going};
use pc_facts::{Arm, Facts, Value};
use pc_forms::{Form, Statement, form_of};
use pc_statement_rules::handed_on;
use pc_syntax::{Kind, Tree};
use std::alloc::{AllocError, Global};

/// The labels of an arm: what is found at their list, and the value of each, where it has one.
#[derive(Drop)]
pub(crate) struct Labels {
    pub(crate) at: Facts,
    pub(crate) values: Vec<Option<Value>>,
}

/// What is found at the labels of an arm. Only memory can fail.
pub(crate) fn labels_of(
    alloc: Global,
    body: &Body,
    going: &mut Going,
    list: &Tree,
) -> Result<Labels, AllocError>
    requires block { body.now.block.0 < length body.now.names.now.chains }
    requires list { has class.Labels list.now.kind ≡ true }
    ensures { IfOk result (λ x. ResolvesAs ShowsLabelled body.now going.old going.new list.now x) }
{
    let mut kids = Vec::new(alloc);
    for kid in list.kid_slice() {
        let one = constant(alloc, body, going, kid)?;
        kids.push(one)?;
    }
    let values = values_of(alloc, kids.as_slice())?;
    let at = handed_on(alloc, Kind::Labels, kids)?;
    Ok(Labels { at, values })
}

/// The values of constants, where they have one.
fn values_of(alloc: Global, kids: &[Facts]) -> Result<Vec<Option<Value>>, AllocError>
    ensures { IfOk result (λ vs. vs.items ≡ map (λ f. f.constant) kids.now) }
{
    let mut values = Vec::new(alloc);
    for kid in kids {
        values.push(kid.constant)?;
    }
    Ok(values)
}

/// What is found at arms, and the arms with the values of their labels alone.
pub(crate) fn parted(alloc: Global, arms: Vec<Arm>) -> Result<(Vec<Facts>, Vec<Arm>), AllocError>
    ensures kids { IfOk result (λ p. p.0.items ≡ map (λ g. g.at) arms.items) }
    ensures labels { IfOk result (λ p. map (λ g. g.labels) p.1.items ≡ map (λ g. g.labels) arms.items) }
{
    let mut kids = Vec::new(alloc);
    let mut labelled = Vec::new(alloc);
    for arm in arms {
        kids.push(arm.at)?;
        labelled.push(Arm {
            at: Facts::plain(alloc, Kind::Arm),
            labels: arm.labels,
        })?;
    }
    Ok((kids, labelled))
}

/// The labels of an arm, and its statement.
#[tactic(auto, using(pc_forms::specs::ClassesLaws::wider))]
pub(crate) fn arm_parts<'a>(node: &'a Tree) -> (&'a Tree, Statement<'a>)
    requires { node.now.kind ≡ kind.Arm }
    ensures { form.Arm result.0.now result.1 ≡ form_of node.now }
{
    match form_of(node) {
        Form::Arm { labels, body } => (labels, Statement::new(body)),
        _ => unreachable!(),
    }
}
