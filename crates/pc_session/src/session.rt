//! A session, and what each command does to it.

ghost use Rattle.std.specs.Prelude.{◌≡◌, Err, IfOk};
ghost use Rattle.pc_syntax.specs.Plain.{Plain};
ghost use Rattle.pc_session.specs.Commands.{IsEdited, Edits, IsUndone, IsRedone, shown};
ghost use Rattle.pc_session.specs.Editing.{Writes, Retypes, Puts, Adds, Fills, Cuts};
ghost use Rattle.pc_session.specs.PlainSession.{opening};
ghost use Rattle.pc_session.specs.Trees.{IsProgram, Trees, edited};

use crate::accepted::Accepted;
use crate::declarations::declarations;
use crate::editing::{with_added_template, with_template, with_text, without_node};
use crate::error_list::error_list;
use crate::history::History;
use crate::load::{program_of, with_range};
use crate::made::Made;
use pc_command::{Refusal, ViewName};
use pc_pretty::{Range, print};
use pc_syntax::{Path, Sort, Steps, Tree, hole};
use pc_views::tree_view;
use std::alloc::{AllocError, Global};
use std::marker::Model;
use std::sync::ledger::Ledger;

/// A session: the program as a tree, with undo and redo, and the count of the steps that it has made.
/// A command that is refused changes nothing. So far none makes a step.
#[derive(Drop)]
pub struct Session {
    history: History,
    count: u64,
    count_before: u64,
}

impl Model for Session {
    ghost use Rattle.pc_session.specs.PlainSession.{Sessions, sessions_code, sessions_of};

    ghost Value = { Sessions };

    ghost coded = { sessions_code };

    ghost view = { λ s. sessions_of s.history s.count s.count_before };
}

impl Session {
    /// The session at the start, whose program is `?program`.
    pub fn new(alloc: Global) -> Result<Session, AllocError>
        ensures now { IfOk result (λ session. session.now ≡ opening) }
        ensures before { IfOk result (λ session. session.before ≡ opening) }
    {
        let tree = hole(alloc, Sort::Program)?;
        let history = History::new(alloc, tree)?;
        Ok(Session {
            history,
            count: 0,
            count_before: 0,
        })
    }

    /// How many steps it has made.
    pub fn count(&self) -> u64
        ensures { result ≡ self.now.now.count }
    {
        self.count
    }

    /// Its program. As every tree it is well formed and within the limits, and each tree that undo and redo give is a program too.
    pub fn tree(&self) -> &Tree
        ensures now { result.now ≡ self.now.now.trees.tree }
        ensures program { IsProgram result.now }
    {
        self.history.tree()
    }

    /// Makes the program that the text writes the session's. The first of these refusals that applies: `Lex` where the text
    /// spells no symbols, with its first fault; `NotFit` where it writes no program, with the number of one of its symbols, from
    /// 1, or one more than it has; `TooDeep` and `TooLarge` with the numbers of its program; no other refusal but `NoMemory`.
    pub fn load<L: Ledger>(
        &mut self,
        alloc: Global,
        text: &[u8],
        work: &mut Steps<L>,
    ) -> Result<Accepted, Refusal>
        ensures now { Edits (Writes text.now) self.old.now result self.new.now }
        ensures before { self.new.before ≡ self.old.now }
    {
        match program_of(alloc, text, work) {
            Ok(made) => self.edit(made),
            Err(refusal) => self.refuse(refusal),
        }
    }

    /// Puts the template with a name in the place of the node at a path. The first of these refusals that applies:
    /// `NoPlace` where there is no such node; `NoTemplate` where there is no template of that name; `NotFit(0)` where it
    /// doesn't fit there, as in the place of a list; `TooDeep` and `TooLarge` with the numbers of the whole new tree.
    pub fn put<L: Ledger>(
        &mut self,
        alloc: Global,
        path: &Path,
        template: &[u8],
        work: &mut Steps<L>,
    ) -> Result<Accepted, Refusal>
        ensures now { Edits (Puts path.now template.now) self.old.now result self.new.now }
        ensures before { self.new.before ≡ self.old.now }
    {
        let _ = &work;
        match with_template(alloc, self.tree(), path, template) {
            Ok(made) => self.edit(made),
            Err(refusal) => self.refuse(refusal),
        }
    }

    /// Adds the template with a name as element `k`, from 1, of the list at a path. The first of these refusals that applies:
    /// `NoPlace` where there is no list at the path, or `k` isn't from 1 to one more than its length; then those of `put`.
    pub fn add<L: Ledger>(
        &mut self,
        alloc: Global,
        path: &Path,
        k: u32,
        template: &[u8],
        work: &mut Steps<L>,
    ) -> Result<Accepted, Refusal>
        ensures now { Edits (Adds path.now k template.now) self.old.now result self.new.now }
        ensures before { self.new.before ≡ self.old.now }
    {
        let _ = &work;
        match with_added_template(alloc, self.tree(), path, k, template) {
            Ok(made) => self.edit(made),
            Err(refusal) => self.refuse(refusal),
        }
    }

    /// Puts the tree that the text writes in the place of the node at a path, read as a tree of that node's sort. The first of
    /// these refusals that applies: `NoPlace` where there is no such node; `Lex` where the text spells no symbols, with its first
    /// fault; `NotFit(0)` where the node is a list; `NotFit` where the text writes no tree of the sort, with the number of one of
    /// its symbols, from 1, or one more than it has; `NotFit(0)` where the tree is within the limits and doesn't fit there;
    /// `TooDeep` and `TooLarge` with the numbers of the whole new tree, also where that of the text alone is over a limit.
    pub fn fill<L: Ledger>(
        &mut self,
        alloc: Global,
        path: &Path,
        text: &[u8],
        work: &mut Steps<L>,
    ) -> Result<Accepted, Refusal>
        ensures now { Edits (Fills path.now text.now) self.old.now result self.new.now }
        ensures before { self.new.before ≡ self.old.now }
    {
        match with_text(alloc, self.tree(), path, text, work) {
            Ok(made) => self.edit(made),
            Err(refusal) => self.refuse(refusal),
        }
    }

    /// Puts the text in the place of a range of the program's printed text, and makes the program that the whole then writes the
    /// session's. `BadRange` where an end of the range isn't in that text, or the end precedes the start; then the refusals of
    /// `load`, of the whole text.
    pub fn retype<L: Ledger>(
        &mut self,
        alloc: Global,
        range: &Range,
        text: &[u8],
        work: &mut Steps<L>,
    ) -> Result<Accepted, Refusal>
        ensures now { Edits (Retypes range.now text.now) self.old.now result self.new.now }
        ensures before { self.new.before ≡ self.old.now }
    {
        match with_range(alloc, self.tree(), range, text, work) {
            Ok(made) => self.edit(made),
            Err(refusal) => self.refuse(refusal),
        }
    }

    /// Cuts the node at a path: an element that its list can spare goes, and any other node is to be written anew.
    /// `NoPlace` where there is no such node; no other refusal but `NoMemory`.
    pub fn cut<L: Ledger>(
        &mut self,
        alloc: Global,
        path: &Path,
        work: &mut Steps<L>,
    ) -> Result<Accepted, Refusal>
        ensures now { Edits (Cuts path.now) self.old.now result self.new.now }
        ensures before { self.new.before ≡ self.old.now }
    {
        let _ = &work;
        match without_node(alloc, self.tree(), path) {
            Ok(made) => self.edit(made),
            Err(refusal) => self.refuse(refusal),
        }
    }

    /// Undoes the last edit, and answers the count. Only `NothingToUndo` may come, where no edit is left.
    pub fn undo<L: Ledger>(&mut self, work: &mut Steps<L>) -> Result<u64, Refusal>
        ensures now { IsUndone self.old.now result self.new.now }
        ensures before { self.new.before ≡ self.old.now }
        ensures gives_back { (s : Trees) (t : Plain) → self.old.now.trees ≡ edited s t → (self.new.now.trees.tree ≡ s.tree) × (self.new.now.trees.earlier ≡ s.earlier) }
    {
        let _ = &work;
        self.count_before = self.count;
        if self.history.undo() {
            Ok(self.count)
        } else {
            Err(Refusal::NothingToUndo)
        }
    }

    /// Makes the edit again that was undone last, and answers the count. Only `NothingToRedo` may
    /// come, where none is left: an edit leaves none.
    pub fn redo<L: Ledger>(&mut self, work: &mut Steps<L>) -> Result<u64, Refusal>
        ensures now { IsRedone self.old.now result self.new.now }
        ensures before { self.new.before ≡ self.old.now }
    {
        let _ = &work;
        self.count_before = self.count;
        if self.history.redo() {
            Ok(self.count)
        } else {
            Err(Refusal::NothingToRedo)
        }
    }

    /// The text of a view. Only memory can fail, and for those of declarations and of errors also the resolver where it has no more numbers.
    pub fn show<L: Ledger>(
        &mut self,
        alloc: Global,
        name: &ViewName,
        work: &mut Steps<L>,
    ) -> Result<Vec<u8>, AllocError>
        ensures text { IfOk result (λ text. text.items ≡ shown name.now self.old.now) }
        ensures same { self.new ≡ self.old }
    {
        let _ = &work;
        match name {
            ViewName::Syntax => print(alloc, self.tree()),
            ViewName::Nodes => tree_view(alloc, self.tree()),
            ViewName::Decls => declarations(alloc, self.tree()),
            ViewName::Errors => error_list(alloc, self.tree()),
        }
    }

    /// Takes back what the last command did, of those that may change the session. It takes no memory.
    pub fn revert(&mut self)
        ensures now { self.new.now ≡ self.old.before }
        ensures before { self.new.before ≡ self.old.before }
    {
        self.history.revert();
        self.count = self.count_before;
    }

    /// Forgets what was before, so that `revert` takes nothing back. It takes no memory.
    pub fn settle(&mut self)
        ensures now { self.new.now ≡ self.old.now }
        ensures before { self.new.before ≡ self.old.now }
    {
        self.history.settle();
        self.count_before = self.count;
    }

    // An edit that is refused so.
    fn refuse(&mut self, refusal: Refusal) -> Result<Accepted, Refusal>
        ensures result { result ≡ Err refusal }
        ensures now { self.new.now ≡ self.old.now }
        ensures before { self.new.before ≡ self.old.now }
    {
        self.settle();
        Err(refusal)
    }

    // An edit that makes this program.
    fn edit(&mut self, made: Made) -> Result<Accepted, Refusal>
        requires { IsProgram made.tree }
        ensures now { IsEdited self.old.now made result self.new.now }
        ensures before { self.new.before ≡ self.old.now }
    {
        self.count_before = self.count;
        if self.history.edit(made.tree).is_err() {
            return Err(Refusal::NoMemory);
        }
        Ok(Accepted {
            count: self.count,
            dropped: made.dropped,
        })
    }
}
