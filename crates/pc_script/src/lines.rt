// The lines of a script.
ghost use Rattle.std.specs.Prelude.{◌≡◌, ◌+◌, ◌++◌, ◌∷◌, [], ◌≤◌, take, OnOk, OnErr, IfOk, IsErrOf, Err, vec_len};
ghost use Rattle.std.specs.Str.Lines.{strip_carriage_return};
ghost use Rattle.pc_script.specs.Ahead.{Takes};
ghost use Rattle.pc_script.specs.Causes.{StopHasCause};
ghost use Rattle.pc_script.specs.Reading.{Took, Fails};
ghost use Rattle.pc_script.specs.Intake.{lines_of, has_ended, allowance, LowersAt, EndsAt};
ghost use Rattle.pc_command.specs.Form.{line_limit};
ghost use Rattle.pc_script.specs.Script.{shortened};

use crate::ahead::{Next, Stop};
use crate::intake::Intake;
use pc_command::LINE_LEN;
use pc_syntax::Word;
use pc_world::Source;
use std::alloc::Global;

// One byte more than tells that a line is too long, since the last may be a carriage return that doesn't count.
const KEPT: usize = LINE_LEN + 2;

/// The next line of the script, without its line end. The last line may lack the line end.
pub(crate) fn next_line<S: Source>(
    alloc: Global,
    intake: &mut Intake,
    source: &mut S,
) -> Result<Next<Word>, Stop>
    ensures ok { IfOk result (λ next. Took (lines_of intake.old (S.left source.old)) (lines_of intake.new (S.left source.new)) (Takes next)) }
    ensures stopped { IsErrOf result Stop.ReadFailed → Fails (lines_of intake.old (S.left source.old)) (S.left source.new) }
    ensures ended { IfOk result (EndsAt (has_ended intake.new)) }
    ensures falls { IfOk result (LowersAt (allowance intake.old) (allowance intake.new)) }
    ensures cause { StopHasCause (S.faults source.old) (S.faults source.new) result }
{
    let mut line = Vec::new(alloc);
    'bytes: loop {
        match intake.next(source)? {
            Next::Item(b'\n') => return Ok(Next::Item(ended(line))),
            Next::Item(byte) => gather(&mut line, byte)?,
            Next::End => {
                if line.is_empty() {
                    return Ok(Next::End);
                }
                return Ok(Next::Item(unended(line)));
            }
            Next::TooMany => return Ok(Next::TooMany),
        }
    }
}

// Adds a byte, where so much of the line is still looked at.
fn gather(line: &mut Vec<u8>, byte: u8) -> Result<(), Stop>
    requires { vec_len line.old ≤ line_limit + 2 }
    ensures ok { OnOk result (line.new.items ≡ take (line_limit + 2) (line.old.items ++ byte ∷ [])) }
    ensures err { OnErr result (result ≡ Err Stop.NoMemory) }
{
    if line.len() >= KEPT {
        return Ok(());
    }
    match line.push(byte) {
        Ok(()) => Ok(()),
        Err(_) => Err(Stop::NoMemory),
    }
}

// The line, without a carriage return at its end.
fn ended(mut line: Vec<u8>) -> Word
    ensures { result ≡ shortened (strip_carriage_return line.items) }
{
    let len = line.len();
    if len == 0 {
        return unended(line);
    }
    if line[len - 1] == b'\r' {
        line.truncate(len - 1);
        return unended(line);
    }
    unended(line)
}

// How many bytes of a line are kept. The number has a name of its own here, since a proof would count a numeral down.
#[tactic(auto, unfolding(pc_command::specs::Form::line_limit))]
pub(crate) fn kept_len() -> usize
    ensures { result ≡ line_limit + 1 }
{
    LINE_LEN + 1
}

// The last line, which no line feed ends.
fn unended(mut line: Vec<u8>) -> Word
    ensures { result ≡ shortened line.items }
{
    line.truncate(kept_len());
    Word::from_vec(line)
}
