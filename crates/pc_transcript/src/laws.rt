//! Laws of the definitions.

ghost use Rattle.pc_transcript.specs.ReplyLaws.{OneReply};

use pc_session::{one_add, one_cut, one_fill, one_load, one_put, one_redo, one_retype, one_undo};

/// What is answered to a command is determined, want of memory aside: so each wider command answers for itself.
pub fn one_reply()
    ensures { OneReply }
{
    one_load();
    one_put();
    one_add();
    one_fill();
    one_retype();
    one_cut();
    one_undo();
    one_redo();
}
