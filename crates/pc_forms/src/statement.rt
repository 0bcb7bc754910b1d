//! Nodes that are known to be statements.

ghost use Rattle.std.specs.Prelude.{◌≡◌, ◌+◌, ◌≤◌, true, sum_by, Some, None, if◌then◌else◌};
ghost use Rattle.pc_syntax.specs.Classes.{is_statement};
ghost use Rattle.pc_syntax.specs.WellFormed.{size_of, size_limit, IsProper};
ghost use Rattle.pc_forms.specs.Form.{form_of};
ghost use Rattle.pc_forms.specs.FormKids.{kids_in};
ghost use Rattle.pc_forms.specs.StatementForms.{seen_statement};

use crate::expression::Expression;
use crate::form::Form;
use crate::statement_form::StatementForm;
use crate::statements::Statements;
use crate::view::form_of;
use pc_syntax::{Class, Tree};
use std::marker::Model;

/// A statement, or a hole for one.
#[derive(Drop)]
pub struct Statement<'a> {
    tree: &'a Tree,
}

impl<'a> Model for Statement<'a> {
    ghost use Rattle.std.specs.Prelude.{◌≡◌, true};
    ghost use Rattle.pc_syntax.specs.Plain.{Plain, plain_code};
    ghost use Rattle.pc_syntax.specs.Classes.{is_statement};

    ghost Value = { Plain };

    ghost coded = { plain_code };

    ghost view = { λ s. s.tree.now };

    ghost invariant = { λ s. is_statement s.tree.now.kind ≡ true };
}

impl<'a> Statement<'a> {
    /// The node, which is known to be a statement.
    pub fn new(tree: &'a Tree) -> Statement<'a>
        requires { is_statement tree.now.kind ≡ true }
        ensures { result ≡ tree.now }
    {
        Statement { tree }
    }

    /// The node, where it is a statement.
    pub fn of(tree: &'a Tree) -> Option<Statement<'a>>
        ensures { result ≡ if is_statement tree.now.kind then Some tree.now else None }
    {
        if Class::Statement.has(tree.kind()) {
            Some(Statement { tree })
        } else {
            None
        }
    }

    /// The node.
    pub fn tree(&self) -> &'a Tree
        ensures value { result.now ≡ self.now }
        ensures class { is_statement self.now.kind ≡ true }
    {
        self.tree
    }

    /// What it is, with its parts by their names.
    #[tactic(auto, using(crate::specs::ClassesLaws::wider))]
    pub fn form(&self) -> StatementForm<&'a Tree, Expression<'a>, Statement<'a>, Statements<'a>>
        ensures value { seen_statement result ≡ form_of self.now }
        ensures size { size_of self.now ≡ 1 + sum_by size_of (kids_in (seen_statement result)) }
        ensures small { size_of self.now ≤ size_limit }
        ensures proper { IsProper self.now }
    {
        match form_of(self.tree()) {
            Form::Empty => StatementForm::Empty,
            Form::Assign { target, value } => StatementForm::Assign {
                target: Expression::new(target),
                value: Expression::new(value),
            },
            Form::Proc { name, args } => StatementForm::Proc { name, args },
            Form::Compound { stmts } => StatementForm::Compound {
                stmts: Statements::new(stmts),
            },
            Form::If { condition, body } => StatementForm::If {
                condition: Expression::new(condition),
                body: Statement::new(body),
            },
            Form::Ifelse {
                condition,
                body,
                otherwise,
            } => StatementForm::Ifelse {
                condition: Expression::new(condition),
                body: Statement::new(body),
                otherwise: Statement::new(otherwise),
            },
            Form::Case { selector, arms } => StatementForm::Case {
                selector: Expression::new(selector),
                arms,
            },
            Form::Repeat { stmts, condition } => StatementForm::Repeat {
                stmts: Statements::new(stmts),
                condition: Expression::new(condition),
            },
            Form::While { condition, body } => StatementForm::While {
                condition: Expression::new(condition),
                body: Statement::new(body),
            },
            Form::For {
                control,
                first,
                downwards,
                last,
                body,
            } => StatementForm::For {
                control,
                first: Expression::new(first),
                downwards,
                last: Expression::new(last),
                body: Statement::new(body),
            },
            Form::With { records, body } => StatementForm::With {
                records,
                body: Statement::new(body),
            },
            Form::Hole(_) => StatementForm::Hole,
            _ => unreachable!(),
        }
    }
}
