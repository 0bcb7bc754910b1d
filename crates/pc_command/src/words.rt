//! The words of a line.

ghost use Rattle.std.specs.Prelude.{◌≡◌, ◌∷◌, [], MatchOption};
ghost use Rattle.std.specs.List.{position};
ghost use Rattle.pc_command.specs.Words.{is_space, words_of, unindented, first_word, behind_word};

/// The first word of a line, and what stands behind it and one space. None where the line has no word.
pub fn next_word(line: &[u8]) -> Option<(&[u8], &[u8])>
    ensures { MatchOption result (words_of line.now ≡ []) (λ p. words_of line.now ≡ p.0.now ∷ words_of p.1.now) }
{
    let (word, rest) = first_word(line);
    if word.is_empty() {
        return None;
    }
    Some((word, rest))
}

/// The first word of a line, which is empty where the line has none, and what stands behind it and one space.
#[tactic(auto, unfolding(crate::specs::Words::first_word, crate::specs::Words::behind_word))]
pub fn first_word(line: &[u8]) -> (&[u8], &[u8])
    ensures word { result.0.now ≡ first_word line.now }
    ensures rest { result.1.now ≡ behind_word line.now }
{
    let line = unindented(line);
    match space_at(line) {
        Some(len) => (&line[..len], &line[len + 1..]),
        None => (line, &[]),
    }
}

/// Where the first space stands, from 0.
fn space_at(line: &[u8]) -> Option<usize>
    ensures { result ≡ position is_space line.now }
{
    line.iter().position(|byte| *byte == b' ')
}

/// The line without the spaces at its front.
pub fn unindented(line: &[u8]) -> &[u8]
    ensures { result.now ≡ unindented line.now }
{
    for (i, byte) in line.iter().enumerate() {
        if *byte != b' ' {
            return &line[i..];
        }
    }
    &[]
}
