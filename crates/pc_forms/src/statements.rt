//! Lists of statements.

ghost use Rattle.std.specs.Prelude.{◌≡◌, ◌+◌, ◌<◌, ◌≤◌, true, length, get_or, sum_by};
ghost use Rattle.pc_syntax.specs.Classes.{is_stmts, is_statement};
ghost use Rattle.pc_syntax.specs.Plain.{kids_of};
ghost use Rattle.pc_syntax.specs.WellFormed.{size_of, size_limit, IsProper};
ghost use Rattle.pc_forms.specs.FormClasses.{Every};

use crate::form::Form;
use crate::statement::Statement;
use crate::view::form_of;
use pc_syntax::Tree;
use std::marker::Model;

/// The node of a list of statements, as it stands in a compound statement and in a `repeat`.
#[derive(Drop)]
pub struct Statements<'a> {
    tree: &'a Tree,
}

impl<'a> Model for Statements<'a> {
    ghost use Rattle.std.specs.Prelude.{◌≡◌, true};
    ghost use Rattle.pc_syntax.specs.Plain.{Plain, plain_code};
    ghost use Rattle.pc_syntax.specs.Classes.{is_stmts};

    ghost Value = { Plain };

    ghost coded = { plain_code };

    ghost view = { λ s. s.tree.now };

    ghost invariant = { λ s. is_stmts s.tree.now.kind ≡ true };
}

impl<'a> Statements<'a> {
    /// The node, which is known to be a list of statements.
    pub fn new(tree: &'a Tree) -> Statements<'a>
        requires { is_stmts tree.now.kind ≡ true }
        ensures { result ≡ tree.now }
    {
        Statements { tree }
    }

    /// The node.
    pub fn tree(&self) -> &'a Tree
        ensures value { result.now ≡ self.now }
        ensures class { is_stmts self.now.kind ≡ true }
    {
        self.tree
    }

    /// How many statements there are.
    pub fn len(&self) -> usize
        ensures value { result ≡ length (kids_of self.now) }
        ensures size { size_of self.now ≡ 1 + sum_by size_of (kids_of self.now) }
        ensures small { size_of self.now ≤ size_limit }
        ensures proper { IsProper self.now }
    {
        self.kids().len()
    }

    /// The statement with a number, from 0; a step to it in a path has one more.
    pub fn at(&self, i: usize) -> Statement<'a>
        requires within { i < length (kids_of self.now) }
        ensures value { result ≡ get_or (kids_of self.now) i result }
        ensures smaller { size_of result + 1 ≤ size_of self.now }
    {
        Statement::new(&self.kids()[i])
    }

    /// Its statements, as trees.
    fn kids(&self) -> &'a [Tree]
        ensures value { result.now ≡ kids_of self.now }
        ensures classes { Every (λ k. is_statement k.kind ≡ true) result.now }
        ensures size { size_of self.now ≡ 1 + sum_by size_of (kids_of self.now) }
        ensures small { size_of self.now ≤ size_limit }
        ensures proper { IsProper self.now }
    {
        match form_of(self.tree()) {
            Form::Stmts(kids) => kids,
            _ => unreachable!(),
        }
    }
}
