//! Nodes that are known to be expressions.

ghost use Rattle.std.specs.Prelude.{◌≡◌, ◌+◌, ◌≤◌, true, sum_by, Some, None, if◌then◌else◌};
ghost use Rattle.pc_syntax.specs.Classes.{is_expression};
ghost use Rattle.pc_syntax.specs.WellFormed.{size_of, size_limit, IsProper};
ghost use Rattle.pc_forms.specs.Form.{form_of};
ghost use Rattle.pc_forms.specs.FormKids.{kids_in};
ghost use Rattle.pc_forms.specs.ExpressionForms.{seen_expression};

use crate::expression_form::ExpressionForm;
use crate::form::Form;
use crate::view::form_of;
use pc_syntax::{Class, Tree};
use std::marker::Model;

/// An expression, or a hole for one.
#[derive(Drop)]
pub struct Expression<'a> {
    tree: &'a Tree,
}

impl<'a> Model for Expression<'a> {
    ghost use Rattle.std.specs.Prelude.{◌≡◌, true};
    ghost use Rattle.pc_syntax.specs.Plain.{Plain, plain_code};
    ghost use Rattle.pc_syntax.specs.Classes.{is_expression};

    ghost Value = { Plain };

    ghost coded = { plain_code };

    ghost view = { λ e. e.tree.now };

    ghost invariant = { λ e. is_expression e.tree.now.kind ≡ true };
}

impl<'a> Expression<'a> {
    /// The node, which is known to be an expression.
    pub fn new(tree: &'a Tree) -> Expression<'a>
        requires { is_expression tree.now.kind ≡ true }
        ensures { result ≡ tree.now }
    {
        Expression { tree }
    }

    /// The node, where it is an expression.
    pub fn of(tree: &'a Tree) -> Option<Expression<'a>>
        ensures { result ≡ if is_expression tree.now.kind then Some tree.now else None }
    {
        if Class::Expression.has(tree.kind()) {
            Some(Expression { tree })
        } else {
            None
        }
    }

    /// The node.
    pub fn tree(&self) -> &'a Tree
        ensures value { result.now ≡ self.now }
        ensures class { is_expression self.now.kind ≡ true }
    {
        self.tree
    }

    /// What it is, with its parts by their names.
    #[tactic(auto, using(crate::specs::ClassesLaws::wider))]
    pub fn form(&self) -> ExpressionForm<&'a Tree, Expression<'a>, &'a [u8]>
        ensures value { seen_expression result ≡ form_of self.now }
        ensures size { size_of self.now ≡ 1 + sum_by size_of (kids_in (seen_expression result)) }
        ensures small { size_of self.now ≤ size_limit }
        ensures proper { IsProper self.now }
    {
        match form_of(self.tree()) {
            Form::Ref { name } => ExpressionForm::Ref { name },
            Form::Index { array, indexes } => ExpressionForm::Index {
                array: Expression::new(array),
                indexes,
            },
            Form::Select { whole, field } => ExpressionForm::Select {
                whole: Expression::new(whole),
                field,
            },
            Form::Deref { pointer } => ExpressionForm::Deref {
                pointer: Expression::new(pointer),
            },
            Form::Number { word } => ExpressionForm::Number { word },
            Form::Text { word } => ExpressionForm::Text { word },
            Form::Nil => ExpressionForm::Nil,
            Form::Call { name, args } => ExpressionForm::Call { name, args },
            Form::Parens { inner } => ExpressionForm::Parens {
                inner: Expression::new(inner),
            },
            Form::Not { operand } => ExpressionForm::Not {
                operand: Expression::new(operand),
            },
            Form::Setcon { members } => ExpressionForm::Setcon { members },
            Form::Mul {
                left,
                operator,
                right,
            } => ExpressionForm::Mul {
                left: Expression::new(left),
                operator,
                right: Expression::new(right),
            },
            Form::Add {
                left,
                operator,
                right,
            } => ExpressionForm::Add {
                left: Expression::new(left),
                operator,
                right: Expression::new(right),
            },
            Form::Sign { sign, operand } => ExpressionForm::Sign {
                sign,
                operand: Expression::new(operand),
            },
            Form::Rel {
                left,
                operator,
                right,
            } => ExpressionForm::Rel {
                left: Expression::new(left),
                operator,
                right: Expression::new(right),
            },
            Form::Hole(_) => ExpressionForm::Hole,
            _ => unreachable!(),
        }
    }
}
