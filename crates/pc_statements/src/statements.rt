//! Statements (ISO 7185, 6.8).

ghost use Rattle.std.specs.Prelude.{◌≡◌, ◌<◌, ◌∷◌, [], length, true, IfOk};
ghost use Rattle.pc_syntax.specs.Classes.{has};
ghost use Rattle.pc_syntax.specs.Plain.{kids_of};
ghost use Rattle.pc_syntax.specs.declared.class.Class.TheVariants as class;
ghost use Rattle.pc_syntax.specs.declared.kind.Kind.TheVariants as kind;
ghost use Rattle.pc_environment.specs.Sight.{is_body};
ghost use Rattle.pc_facts.specs.Shows.{ShowsArm};
ghost use Rattle.pc_bodies.specs.Resolved.{Resolves};
ghost use Rattle.pc_statements.specs.Walked.{WalkAs, Walks, WalksAs, WalksKind};

use crate::accesses::accesses;
use crate::arms::{arm_parts, labels_of, parted};
use crate::controls::{is_changed_inside, is_changed_since, number_of};
use crate::noting::{add_variable, catch_up};
use crate::rows::{handed_two, pair, single};
use crate::simple::{assign, called};
use pc_access_rules::variable_of;
use pc_bodies::{Body, Going, expression, used_name};
use pc_expression_rules::hole;
use pc_facts::{Arm, Facts};
use pc_forms::{Expression, Statement, StatementForm};
use pc_name_rules::add_variable_entries;
use pc_sightings::Touched;
use pc_statement_rules::{case, condition, for_statement, handed_on, repetition};
use pc_syntax::{Kind, Sort, Tree};
use std::alloc::{AllocError, Global};

/// What is found at a statement. Only memory can fail.
pub fn statement(
    alloc: Global,
    body: &Body,
    going: &mut Going,
    node: &Statement,
) -> Result<Facts, AllocError>
    requires { body.now.block.0 < length body.now.names.now.chains }
    ensures { IfOk result (λ f. Resolves body.now going.old going.new node.now f) }
{
    let mut own = Touched::new(alloc);
    let found = walk(alloc, body, going, &mut own, node)?;
    Ok(found)
}

/// The same with an index of the first variables of the log.
#[cycle(statements)]
fn walk(
    alloc: Global,
    body: &Body,
    going: &mut Going,
    own: &mut Touched,
    node: &Statement,
) -> Result<Facts, AllocError>
    requires { body.now.block.0 < length body.now.names.now.chains }
    ensures { IfOk result (λ f. Walks body.now going.old going.new own.old own.new node.now f) }
{
    match node.form() {
        StatementForm::Empty => Ok(Facts::plain(alloc, Kind::Empty)),
        StatementForm::Hole => Ok(hole(alloc, Sort::Statement)),
        StatementForm::Assign { target, value } => {
            let found = assign(alloc, body, going, &target, &value)?;
            Ok(found)
        }
        StatementForm::Proc { name, args } => {
            let found = called(alloc, body, going, name, args)?;
            Ok(found)
        }
        StatementForm::Compound { stmts } => {
            let stmts = statements(alloc, body, going, own, stmts.tree())?;
            let kids = single(alloc, stmts)?;
            let found = handed_on(alloc, Kind::Compound, kids)?;
            Ok(found)
        }
        StatementForm::If {
            condition: test,
            body: inner,
        } => {
            let test = expression(alloc, body, going, &test)?;
            let inner = walk(alloc, body, going, own, &inner)?;
            let kids = single(alloc, inner)?;
            let found = condition(alloc, body.types, Kind::If, test, kids)?;
            Ok(found)
        }
        StatementForm::Ifelse {
            condition: test,
            body: inner,
            otherwise,
        } => {
            let test = expression(alloc, body, going, &test)?;
            let inner = walk(alloc, body, going, own, &inner)?;
            let otherwise = walk(alloc, body, going, own, &otherwise)?;
            let kids = pair(alloc, inner, otherwise)?;
            let found = condition(alloc, body.types, Kind::Ifelse, test, kids)?;
            Ok(found)
        }
        StatementForm::While {
            condition: test,
            body: inner,
        } => {
            let test = expression(alloc, body, going, &test)?;
            let inner = walk(alloc, body, going, own, &inner)?;
            let kids = single(alloc, inner)?;
            let found = condition(alloc, body.types, Kind::While, test, kids)?;
            Ok(found)
        }
        StatementForm::Repeat {
            stmts,
            condition: test,
        } => {
            let stmts = statements(alloc, body, going, own, stmts.tree())?;
            let test = expression(alloc, body, going, &test)?;
            let found = repetition(alloc, body.types, stmts, test)?;
            Ok(found)
        }
        StatementForm::For {
            control,
            first,
            last,
            body: inner,
            ..
        } => {
            let found = counted(alloc, body, going, own, control, &first, &last, &inner)?;
            Ok(found)
        }
        StatementForm::With {
            records,
            body: inner,
        } => {
            let found = with(alloc, body, going, own, records, &inner)?;
            Ok(found)
        }
        StatementForm::Case { selector, arms } => {
            let found = cased(alloc, body, going, own, &selector, arms)?;
            Ok(found)
        }
    }
}

/// What is found at a list of statements.
#[cycle(statements)]
fn statements(
    alloc: Global,
    body: &Body,
    going: &mut Going,
    own: &mut Touched,
    list: &Tree,
) -> Result<Facts, AllocError>
    requires block { body.now.block.0 < length body.now.names.now.chains }
    requires list { has class.Stmts list.now.kind ≡ true }
    ensures { IfOk result (λ f. Walks body.now going.old going.new own.old own.new list.now f) }
{
    let mut kids = Vec::new(alloc);
    for kid in list.kid_slice() {
        let one = walk(alloc, body, going, own, &Statement::new(kid))?;
        kids.push(one)?;
    }
    let found = handed_on(alloc, Kind::Stmts, kids)?;
    Ok(found)
}

/// What is found at a with, given its accesses and its statement, inside of which their records are open.
#[cycle(statements)]
fn with(
    alloc: Global,
    body: &Body,
    going: &mut Going,
    own: &mut Touched,
    records: &Tree,
    inner: &Statement,
) -> Result<Facts, AllocError>
    requires block { body.now.block.0 < length body.now.names.now.chains }
    requires list { has class.Accesses records.now.kind ≡ true }
    requires inner { is_body inner.now.kind ≡ true }
    ensures { IfOk result (λ f. WalksKind body.now going.old going.new own.old own.new kind.With (records.now ∷ inner.now ∷ []) f) }
{
    let outer = going.opened.len();
    let opening = accesses(alloc, body, going, records)?;
    let records = opening.finish(alloc);
    let inner = walk(alloc, body, going, own, inner)?;
    going.opened.truncate(outer);
    let found = handed_two(alloc, Kind::With, records, inner)?;
    Ok(found)
}

/// What is found at a for statement, given its control variable, its bounds and its statement.
#[cycle(statements)]
fn counted(
    alloc: Global,
    body: &Body,
    going: &mut Going,
    own: &mut Touched,
    control: &Tree,
    first: &Expression,
    last: &Expression,
    inner: &Statement,
) -> Result<Facts, AllocError>
    requires block { body.now.block.0 < length body.now.names.now.chains }
    requires name { has class.Name control.now.kind ≡ true }
    requires first { is_body first.now.kind ≡ true }
    requires last { is_body last.now.kind ≡ true }
    ensures { IfOk result (λ f. WalksKind body.now going.old going.new own.old own.new kind.For (control.now ∷ first.now ∷ last.now ∷ inner.now ∷ []) f) }
{
    let named = used_name(body, going, control)?;
    let mut entries = Vec::new(alloc);
    add_variable_entries(alloc, &mut entries, control.word(), named)?;
    let first = expression(alloc, body, going, first)?;
    let last = expression(alloc, body, going, last)?;
    let mark = going.touched.len();
    let inner = walk(alloc, body, going, own, inner)?;
    catch_up(own, going.touched.as_slice())?;
    let name = number_of(body.names, &mut going.small, control.word())?;
    let inside = is_changed_inside(named.hole, body.inside, body.mark, body.owner, name);
    let by_body = is_changed_since(own, mark, body.owner, name);
    let found = for_statement(
        alloc,
        body.types,
        control.word(),
        named,
        entries,
        inside,
        by_body,
        body.owner,
        first,
        last,
        inner,
    )?;
    add_variable(&mut going.touched, variable_of(named.sighting))?;
    Ok(found)
}

/// What is found at a case statement, given its expression and its arms.
#[cycle(statements)]
fn cased(
    alloc: Global,
    body: &Body,
    going: &mut Going,
    own: &mut Touched,
    selector: &Expression,
    list: &Tree,
) -> Result<Facts, AllocError>
    requires block { body.now.block.0 < length body.now.names.now.chains }
    requires selector { is_body selector.now.kind ≡ true }
    requires list { has class.Arms list.now.kind ≡ true }
    ensures { IfOk result (λ f. WalksKind body.now going.old going.new own.old own.new kind.Case (selector.now ∷ list.now ∷ []) f) }
{
    let selector = expression(alloc, body, going, selector)?;
    let arms = arms_of(alloc, body, going, own, list)?;
    let (kids, labels) = parted(alloc, arms)?;
    let at = handed_on(alloc, Kind::Arms, kids)?;
    let found = case(
        alloc,
        body.types,
        going.texts.as_slice(),
        selector,
        labels,
        at,
    )?;
    Ok(found)
}

/// What is found at the arms of a case statement.
#[cycle(statements)]
fn arms_of(
    alloc: Global,
    body: &Body,
    going: &mut Going,
    own: &mut Touched,
    list: &Tree,
) -> Result<Vec<Arm>, AllocError>
    requires block { body.now.block.0 < length body.now.names.now.chains }
    requires list { has class.Arms list.now.kind ≡ true }
    ensures { IfOk result (λ gs. WalkAs ShowsArm body.now going.old going.new own.old own.new (kids_of list.now) gs.items) }
{
    let mut found = Vec::new(alloc);
    for kid in list.kid_slice() {
        let one = arm(alloc, body, going, own, kid)?;
        found.push(one)?;
    }
    Ok(found)
}

/// What is found at an arm, or at a hole in its place.
#[cycle(statements)]
fn arm(
    alloc: Global,
    body: &Body,
    going: &mut Going,
    own: &mut Touched,
    node: &Tree,
) -> Result<Arm, AllocError>
    requires block { body.now.block.0 < length body.now.names.now.chains }
    requires arm { has class.Arm node.now.kind ≡ true }
    ensures { IfOk result (λ g. WalksAs ShowsArm body.now going.old going.new own.old own.new node.now g) }
{
    match node.kind() {
        Kind::Arm => {
            let (list, inner) = arm_parts(node);
            let labels = labels_of(alloc, body, going, list)?;
            let inner = walk(alloc, body, going, own, &inner)?;
            let at = handed_two(alloc, Kind::Arm, labels.at, inner)?;
            Ok(Arm {
                at,
                labels: labels.values,
            })
        }
        Kind::Hole(sort) => Ok(Arm {
            at: hole(alloc, sort),
            labels: Vec::new(alloc),
        }),
        _ => unreachable!(),
    }
}
