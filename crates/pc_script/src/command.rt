// The commands of a script.
ghost use Rattle.std.specs.Prelude.{◌≡◌, ◌++◌, ◌∷◌, [], ◌≤◌, false, Err, OnOk, OnErr, IfOk, IsErrOf, List, ℕ};
ghost use Rattle.pc_script.specs.Ahead.{Takes};
ghost use Rattle.pc_script.specs.Causes.{StopHasCause};
ghost use Rattle.pc_script.specs.Reading.{Took, Fails, over};
ghost use Rattle.pc_script.specs.Intake.{lines_of, commands_of, has_ended, allowance, LowersAt, EndsAt};
ghost use Rattle.pc_command.specs.Form.{is_skipped};
ghost use Rattle.pc_script.specs.Script.{shortened, commands_ahead, command_with, after_line, Between, InText};

use crate::ahead::{Next, Stop};
use crate::given::Given;
use crate::intake::Intake;
use crate::lines::{kept_len, next_line};
use pc_command::{here_word, is_skipped};
use pc_syntax::Word;
use pc_world::Source;
use std::alloc::Global;

/// The next command of the script. Blank lines and lines whose first byte after the spaces is `#` are none.
///
/// `ReadFailed` exactly where a read of the source failed. The source isn't read again once it gave no byte.
pub fn next_command<S: Source>(
    alloc: Global,
    intake: &mut Intake,
    source: &mut S,
) -> Result<Next<Given>, Stop>
    ensures ok { IfOk result (λ next. Took (commands_of intake.old (S.left source.old)) (commands_of intake.new (S.left source.new)) (Takes next)) }
    ensures stopped { IsErrOf result Stop.ReadFailed → Fails (commands_of intake.old (S.left source.old)) (S.left source.new) }
    ensures ended { IfOk result (EndsAt (has_ended intake.new)) }
    ensures falls { IfOk result (LowersAt (allowance intake.old) (allowance intake.new)) }
    ensures cause { StopHasCause (S.faults source.old) (S.faults source.new) result }
{
    'lines: loop {
        match next_line(alloc, intake, source)? {
            Next::Item(line) => {
                if !is_skipped(line.bytes()) {
                    let command = command_at(alloc, intake, source, line)?;
                    return Ok(command);
                }
            }
            Next::End => return Ok(Next::End),
            Next::TooMany => return Ok(Next::TooMany),
        }
    }
}

// The command of a line that is one, with its text.
fn command_at<S: Source>(
    alloc: Global,
    intake: &mut Intake,
    source: &mut S,
    line: Word,
) -> Result<Next<Given>, Stop>
    requires { is_skipped line ≡ false }
    ensures ok { IfOk result (λ next. Took
        (over (after_line line) (lines_of intake.old (S.left source.old)))
        (over (commands_ahead Between) (lines_of intake.new (S.left source.new))) (Takes next)) }
    ensures stopped { IsErrOf result Stop.ReadFailed → Fails (over (after_line line) (lines_of intake.old (S.left source.old))) (S.left source.new) }
    ensures ended { IfOk result (EndsAt (has_ended intake.new)) }
    ensures falls { IfOk result (λ _. allowance intake.new ≤ allowance intake.old) }
    ensures cause { StopHasCause (S.faults source.old) (S.faults source.new) result }
{
    let text = match here_word(line.bytes()) {
        Some(word) => text_until(alloc, intake, source, word)?,
        None => return Ok(Next::Item(Given { line, here: None })),
    };
    match text {
        Next::Item(text) => Ok(Next::Item(Given {
            line,
            here: Some(text),
        })),
        Next::End => Ok(Next::Item(Given { line, here: None })),
        Next::TooMany => Ok(Next::TooMany),
    }
}

// The text up to a line equal to the word. The end is that of the script.
fn text_until<S: Source>(
    alloc: Global,
    intake: &mut Intake,
    source: &mut S,
    word: &[u8],
) -> Result<Next<Word>, Stop>
    ensures ok { IfOk result (λ text. (line : List ℕ) → Took
        (over (commands_ahead (InText line word.now [])) (lines_of intake.old (S.left source.old)))
        (over (commands_ahead Between) (lines_of intake.new (S.left source.new)))
        (Takes (command_with line text))) }
    ensures stopped { IsErrOf result Stop.ReadFailed → (line : List ℕ)
        → Fails (over (commands_ahead (InText line word.now [])) (lines_of intake.old (S.left source.old))) (S.left source.new) }
    ensures falls { IfOk result (λ _. allowance intake.new ≤ allowance intake.old) }
    ensures cause { StopHasCause (S.faults source.old) (S.faults source.new) result }
{
    let mut text = Vec::new(alloc);
    'text: loop {
        match next_line(alloc, intake, source)? {
            Next::Item(line) => {
                if line.bytes() == word {
                    return Ok(Next::Item(Word::from_vec(text)));
                }
                append_line(&mut text, line.bytes())?;
            }
            Next::End => return Ok(Next::End),
            Next::TooMany => return Ok(Next::TooMany),
        }
    }
}

// Adds a line to a text, as far as it is looked at.
fn append_line(text: &mut Vec<u8>, line: &[u8]) -> Result<(), Stop>
    ensures ok { OnOk result (text.new.items ≡ shortened (text.old.items ++ line.now ++ 10 ∷ [])) }
    ensures err { OnErr result (result ≡ Err Stop.NoMemory) }
{
    if text.extend_from_slice(line).is_err() {
        return Err(Stop::NoMemory);
    }
    match text.push(b'\n') {
        Ok(()) => {
            text.truncate(kept_len());
            Ok(())
        }
        Err(_) => Err(Stop::NoMemory),
    }
}
