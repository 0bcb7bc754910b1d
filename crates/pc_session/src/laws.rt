//! Laws of the definitions.

ghost use Rattle.pc_session.specs.LoadingLaws.{OneWritten, OneDropped, OneFault, WrittenFits, WrittenIsFaultless, MisfitIsFaultless};
ghost use Rattle.pc_session.specs.TreesLaws.{OneUndo, OneRedo};
ghost use Rattle.pc_session.specs.CommandsLaws.{OneLoad, OnePut, OneAdd, OneFill, OneRetype, OneCut, OneUndone, OneRedone, OneShown};

use pc_parse::one_number;

/// The three answers to a text that is read as a tree of a class exclude each other: it has such a tree, or it is a misfit, or
/// it spells no symbols. A text has at most one such tree, one number of comments that the tree doesn't keep, and one first fault.
pub fn one_answer()
    ensures written { OneWritten }
    ensures dropped { OneDropped }
    ensures fault { OneFault }
    ensures fits { WrittenFits }
    ensures faultless { WrittenIsFaultless }
    ensures misfit { MisfitIsFaultless }
{}

/// What undo and redo give is determined: so redo after undo gives back what was before.
pub fn undo_and_redo()
    ensures undo { OneUndo }
    ensures redo { OneRedo }
{}

/// What is answered to a `load` is determined, want of memory aside, and so is the session that it leaves.
pub fn one_load()
    ensures { OneLoad }
{
    one_number();
}

/// What is answered to a `put` is determined, want of memory aside, and so is the session that it leaves.
pub fn one_put()
    ensures { OnePut }
{}

/// What is answered to an `add` is determined, want of memory aside, and so is the session that it leaves.
pub fn one_add()
    ensures { OneAdd }
{}

/// What is answered to a `fill` is determined, want of memory aside, and so is the session that it leaves.
pub fn one_fill()
    ensures { OneFill }
{
    one_number();
}

/// What is answered to a `retype` is determined, want of memory aside, and so is the session that it leaves.
pub fn one_retype()
    ensures { OneRetype }
{
    one_number();
}

/// What is answered to a `cut` is determined, want of memory aside, and so is the session that it leaves.
pub fn one_cut()
    ensures { OneCut }
{}

/// What is answered to an `undo` is determined, want of memory aside, and so is the session that it leaves.
pub fn one_undo()
    ensures { OneUndone }
{}

/// What is answered to a `redo` is determined, want of memory aside, and so is the session that it leaves.
pub fn one_redo()
    ensures { OneRedone }
{}

/// What is answered to a `show` is determined, want of memory aside.
pub fn one_show()
    ensures { OneShown }
{}
