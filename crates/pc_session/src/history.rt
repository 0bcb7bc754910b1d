//! The trees of a session, with undo and redo.

ghost use Rattle.std.specs.Prelude.{◌≡◌, ◌<◌, [], ◌∷◌, length, IfOk, MatchResult};
ghost use Rattle.pc_syntax.specs.Plain.{Plain};
ghost use Rattle.pc_session.specs.Trees.{IsProgram, edited, GoesBack, GoesOn};
ghost use Rattle.pc_session.specs.Line.{settled, IsPlaced};

use pc_syntax::Tree;
use std::alloc::{AllocError, Global};
use std::marker::Model;

// What the last call that may change a history did.
#[derive(Clone, Copy)]
enum Last {
    // An edit put its tree at the place, and what stood there at the end of the line.
    Edited,
    // Before it this was the place.
    Moved(usize),
}

/// The trees that a session has had, in a line, and the place of its own, from 0.
#[derive(Drop)]
pub struct History {
    line: Vec<Tree>,
    place: usize,
    last: Last,
}

impl Model for History {
    ghost use Rattle.pc_session.specs.Trees.{Histories, histories_code};

    ghost Value = { Histories };

    ghost coded = { histories_code };

    ghost use Rattle.pc_session.specs.Line.{histories_of, IsLine};

    ghost view = { λ h. histories_of h.last h.line.items h.place };

    ghost invariant = { λ h. IsLine h.last h.line.items h.place };
}

impl History {
    /// The history that begins with this tree.
    pub fn new(alloc: Global, tree: Tree) -> Result<History, AllocError>
        requires program { IsProgram tree }
        ensures now { IfOk result (λ history. history.now ≡ record { earlier = []; tree = tree; undone = [] }) }
        ensures before { IfOk result (λ history. history.before ≡ history.now) }
    {
        let mut line = Vec::new(alloc);
        line.push(tree)?;
        Ok(History {
            line,
            place: 0,
            last: Last::Moved(0),
        })
    }

    /// The tree now, which is a program.
    pub fn tree(&self) -> &Tree
        ensures now { result.now ≡ self.now.now.tree }
        ensures program { IsProgram result.now }
    {
        &self.line[self.place]
    }

    /// An edit that gives this program. Only memory can fail.
    pub fn edit(&mut self, tree: Tree) -> Result<(), AllocError>
        requires program { IsProgram tree }
        ensures now { MatchResult result (λ _. self.new.now ≡ edited self.old.now tree) (λ _. self.new.now ≡ self.old.now) }
        ensures before { self.new.before ≡ self.old.now }
    {
        settle(&mut self.line, &mut self.last, self.place);
        let end = self.line.len();
        self.line.push(tree)?;
        let place = self.place + 1;
        self.line.swap(place, end);
        self.place = place;
        self.last = Last::Edited;
        Ok(())
    }

    /// Undoes the last edit, if there is one.
    pub fn undo(&mut self) -> bool
        ensures now { GoesBack self.old.now result self.new.now }
        ensures before { self.new.before ≡ self.old.now }
    {
        settle(&mut self.line, &mut self.last, self.place);
        if self.place == 0 {
            return false;
        }
        self.place -= 1;
        true
    }

    /// Makes the next undone edit again, if there is one.
    pub fn redo(&mut self) -> bool
        ensures now { GoesOn self.old.now result self.new.now }
        ensures before { self.new.before ≡ self.old.now }
    {
        settle(&mut self.line, &mut self.last, self.place);
        if self.place + 1 == self.line.len() {
            return false;
        }
        self.place += 1;
        true
    }

    /// Goes back to what was before the last call that may have changed something.
    pub fn revert(&mut self)
        ensures now { self.new.now ≡ self.old.before }
        ensures before { self.new.before ≡ self.old.before }
    {
        match self.last {
            Last::Edited => {
                let _ = self.line.swap_remove(self.place);
                self.place -= 1;
                self.last = Last::Moved(self.place);
            }
            Last::Moved(from) => self.place = from,
        }
    }

    /// Forgets what was before.
    pub fn settle(&mut self)
        ensures now { self.new.now ≡ self.old.now }
        ensures before { self.new.before ≡ self.old.now }
    {
        settle(&mut self.line, &mut self.last, self.place);
    }
}

// Drops what is only kept to go back, and remembers the place instead.
fn settle(line: &mut Vec<Tree>, last: &mut Last, place: usize)
    requires { IsPlaced last.old line.old.items place }
    ensures line { line.new.items ≡ settled last.old line.old.items place }
    ensures last { last.new ≡ Last.Moved place }
{
    if let Last::Edited = *last {
        line.truncate(place + 1);
    }
    *last = Last::Moved(place);
}
