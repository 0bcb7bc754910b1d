//! Expressions (ISO 7185, 6.7).

ghost use Rattle.std.specs.Prelude.{◌≡◌, ◌<◌, length, true, IfOk};
ghost use Rattle.pc_syntax.specs.Classes.{has};
ghost use Rattle.pc_syntax.specs.Plain.{kids_of};
ghost use Rattle.pc_syntax.specs.declared.class.Class.TheVariants as class;
ghost use Rattle.pc_bodies.specs.Resolved.{Resolves, ResolvesRow, ResolveAs, ResolvesAs};
ghost use Rattle.pc_bodies.specs.Held.{ShowsHeld};
ghost use Rattle.pc_facts.specs.Shows.{ShowsArgument};

use crate::body::{Body, Going};
use crate::names::used_name;
use crate::parts::{ends, function_signature, is_hole, parts, reference_name, with_width};
use pc_access_rules::{dereference, index, reference, select};
use pc_call_rules::call;
use pc_expression_rules::{
    hole, negation, nil, number, parentheses, product, relation, set_constructor, signed, sum, text,
};
use pc_facts::{Argument, Facts, Member, Sighting};
use pc_forms::{Expression, ExpressionForm};
use pc_name_rules::{Allowed, add_name_entries};
use pc_syntax::{Kind, Sort, Tree};
use std::alloc::{AllocError, Global};

/// What is found at an expression. Only memory can fail.
#[cycle(expressions)]
pub fn expression(
    alloc: Global,
    body: &Body,
    going: &mut Going,
    node: &Expression,
) -> Result<Facts, AllocError>
    requires { body.now.block.0 < length body.now.names.now.chains }
    ensures { IfOk result (λ f. Resolves body.now going.old going.new node.now f) }
{
    match node.form() {
        ExpressionForm::Ref { name } => {
            let named = used_name(body, going, name)?;
            let found = reference(
                alloc,
                body.types,
                name.word(),
                named,
                body.own_function,
                body.signatures,
            )?;
            Ok(found)
        }
        ExpressionForm::Index { array, indexes } => {
            let array = expression(alloc, body, going, &array)?;
            let indexes = expressions(alloc, body, going, indexes)?;
            let found = index(alloc, body.types, array, indexes)?;
            Ok(found)
        }
        ExpressionForm::Select { whole, field } => {
            let whole = expression(alloc, body, going, &whole)?;
            let found = select(alloc, body.types, whole, field.word(), is_hole(field))?;
            Ok(found)
        }
        ExpressionForm::Deref { pointer } => {
            let pointer = expression(alloc, body, going, &pointer)?;
            let found = dereference(alloc, body.types, pointer)?;
            Ok(found)
        }
        ExpressionForm::Setcon { members } => {
            let members = members_of(alloc, body, going, members)?;
            let found = set_constructor(alloc, body.types, members)?;
            Ok(found)
        }
        ExpressionForm::Number { word } => {
            let found = number(alloc, body.types, word)?;
            Ok(found)
        }
        ExpressionForm::Text { word } => {
            let found = text(alloc, body.types, word)?;
            Ok(found)
        }
        ExpressionForm::Nil => Ok(nil(alloc, body.types)),
        ExpressionForm::Hole => Ok(hole(alloc, Sort::Expression)),
        ExpressionForm::Call { name, args } => {
            let named = used_name(body, going, name)?;
            let args = arguments_of(alloc, body, going, args)?;
            let mut entries = Vec::new(alloc);
            add_name_entries(alloc, &mut entries, name.word(), named, Allowed::Function)?;
            let signature = function_signature(body.signatures, named.sighting);
            let found = call(
                alloc,
                body.types,
                named,
                entries,
                signature,
                args,
                &mut going.touched,
            )?;
            Ok(found)
        }
        ExpressionForm::Parens { inner } => {
            let inner = expression(alloc, body, going, &inner)?;
            let found = parentheses(alloc, inner)?;
            Ok(found)
        }
        ExpressionForm::Not { operand } => {
            let operand = expression(alloc, body, going, &operand)?;
            let found = negation(alloc, body.types, operand)?;
            Ok(found)
        }
        ExpressionForm::Sign { operand, .. } => {
            let operand = expression(alloc, body, going, &operand)?;
            let found = signed(alloc, body.types, operand)?;
            Ok(found)
        }
        ExpressionForm::Mul {
            left,
            operator,
            right,
        } => {
            let left = expression(alloc, body, going, &left)?;
            let right = expression(alloc, body, going, &right)?;
            let found = product(alloc, body.types, operator, left, right)?;
            Ok(found)
        }
        ExpressionForm::Add {
            left,
            operator,
            right,
        } => {
            let left = expression(alloc, body, going, &left)?;
            let right = expression(alloc, body, going, &right)?;
            let found = sum(alloc, body.types, operator, left, right)?;
            Ok(found)
        }
        ExpressionForm::Rel {
            left,
            operator,
            right,
        } => {
            let left = expression(alloc, body, going, &left)?;
            let right = expression(alloc, body, going, &right)?;
            let found = relation(alloc, body.types, operator, left, right)?;
            Ok(found)
        }
    }
}

/// What is found at the expressions of a list of indexes.
#[cycle(expressions)]
fn expressions(
    alloc: Global,
    body: &Body,
    going: &mut Going,
    list: &Tree,
) -> Result<Vec<Facts>, AllocError>
    requires block { body.now.block.0 < length body.now.names.now.chains }
    requires list { has class.Exprs list.now.kind ≡ true }
    ensures { IfOk result (λ fs. ResolvesRow body.now going.old going.new (kids_of list.now) fs.items) }
{
    let mut found = Vec::new(alloc);
    for kid in list.kid_slice() {
        let one = expression(alloc, body, going, &Expression::new(kid))?;
        found.push(one)?;
    }
    Ok(found)
}

/// What is found at the members of a set constructor.
#[cycle(expressions)]
fn members_of(
    alloc: Global,
    body: &Body,
    going: &mut Going,
    list: &Tree,
) -> Result<Vec<Member>, AllocError>
    requires block { body.now.block.0 < length body.now.names.now.chains }
    requires list { has class.Members list.now.kind ≡ true }
    ensures { IfOk result (λ ms. ResolveAs ShowsHeld body.now going.old going.new (kids_of list.now) ms.items) }
{
    let mut found = Vec::new(alloc);
    for kid in list.kid_slice() {
        let one = member(alloc, body, going, kid)?;
        found.push(one)?;
    }
    Ok(found)
}

/// What is found at a member of a set constructor.
#[cycle(expressions)]
fn member(alloc: Global, body: &Body, going: &mut Going, node: &Tree) -> Result<Member, AllocError>
    requires block { body.now.block.0 < length body.now.names.now.chains }
    requires member { has class.Member node.now.kind ≡ true }
    ensures { IfOk result (λ m. ResolvesAs ShowsHeld body.now going.old going.new node.now m) }
{
    match node.kind() {
        Kind::Span => {
            let (low, high) = ends(node);
            let low = expression(alloc, body, going, &low)?;
            let high = expression(alloc, body, going, &high)?;
            Ok(Member::Span(low, high))
        }
        _ => {
            let one = expression(alloc, body, going, &Expression::new(node))?;
            Ok(Member::One(one))
        }
    }
}

/// What is found at the arguments of a function's call, which are expressions.
#[cycle(expressions)]
fn arguments_of(
    alloc: Global,
    body: &Body,
    going: &mut Going,
    list: &Tree,
) -> Result<Vec<Argument>, AllocError>
    requires block { body.now.block.0 < length body.now.names.now.chains }
    requires list { has class.Exprs list.now.kind ≡ true }
    ensures { IfOk result (λ gs. ResolveAs ShowsArgument body.now going.old going.new (kids_of list.now) gs.items) }
{
    let mut found = Vec::new(alloc);
    for kid in list.kid_slice() {
        let one = argument(alloc, body, going, kid)?;
        found.push(one)?;
    }
    Ok(found)
}

/// What is found at an argument of a call, which may have a width. Only memory can fail.
#[cycle(expressions)]
pub fn argument(
    alloc: Global,
    body: &Body,
    going: &mut Going,
    node: &Tree,
) -> Result<Argument, AllocError>
    requires block { body.now.block.0 < length body.now.names.now.chains }
    requires argument { has class.Argument node.now.kind ≡ true }
    ensures { IfOk result (λ g. ResolvesAs ShowsArgument body.now going.old going.new node.now g) }
{
    match node.kind() {
        Kind::Width => {
            let (value, width) = parts(node);
            let value = expression(alloc, body, going, &value)?;
            let width = expression(alloc, body, going, &width)?;
            let first = value.value_type();
            let second = width.value_type();
            let at = with_width(alloc, value, width)?;
            Ok(Argument {
                at,
                name: Sighting::Missing,
                first,
                second,
            })
        }
        Kind::Ref => {
            let at = expression(alloc, body, going, &Expression::new(node))?;
            let named = used_name(body, going, reference_name(node))?;
            Ok(Argument {
                at,
                name: named.sighting,
                first: None,
                second: None,
            })
        }
        _ => {
            let at = expression(alloc, body, going, &Expression::new(node))?;
            Ok(Argument {
                at,
                name: Sighting::Missing,
                first: None,
                second: None,
            })
        }
    }
}

/// What is found at the arguments of a procedure statement. Only memory can fail.
pub fn arguments(
    alloc: Global,
    body: &Body,
    going: &mut Going,
    list: &Tree,
) -> Result<Vec<Argument>, AllocError>
    requires block { body.now.block.0 < length body.now.names.now.chains }
    requires list { has class.Args list.now.kind ≡ true }
    ensures { IfOk result (λ gs. ResolveAs ShowsArgument body.now going.old going.new (kids_of list.now) gs.items) }
{
    let mut found = Vec::new(alloc);
    for kid in list.kid_slice() {
        let one = argument(alloc, body, going, kid)?;
        found.push(one)?;
    }
    Ok(found)
}
