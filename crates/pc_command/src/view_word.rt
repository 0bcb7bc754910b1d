//! The words that name a view.

ghost use Rattle.std.specs.Prelude.{◌≡◌};
ghost use Rattle.pc_command.specs.Vocabulary.{view_spelling, view_word_of};

/// The word of a view, which may be built or not.
#[derive(Clone, Copy, Debug, PartialEq, Eq)]
pub enum ViewWord {
    Syntax,
    Tree,
    Ns,
    Flow,
    Decls,
    Uses,
    Expr,
    Errors,
    Stack,
    Io,
    Status,
}

const VIEW_WORDS: [ViewWord; 11] = [
    ViewWord::Syntax,
    ViewWord::Tree,
    ViewWord::Ns,
    ViewWord::Flow,
    ViewWord::Decls,
    ViewWord::Uses,
    ViewWord::Expr,
    ViewWord::Errors,
    ViewWord::Stack,
    ViewWord::Io,
    ViewWord::Status,
];

impl ViewWord {
    /// The view word that is written so.
    #[tactic(auto, unfolding(crate::specs::Vocabulary::view_word_of, crate::specs::Vocabulary::view_words))]
    pub fn read(bytes: &[u8]) -> Option<ViewWord>
        ensures { result ≡ view_word_of bytes.now }
    {
        VIEW_WORDS
            .iter()
            .copied()
            .find(|word| word.spelling() == bytes)
    }

    /// How the word is written.
    pub fn spelling(self) -> &'static [u8]
        ensures { result.now ≡ view_spelling self }
    {
        match self {
            ViewWord::Syntax => b"syntax",
            ViewWord::Tree => b"tree",
            ViewWord::Ns => b"ns",
            ViewWord::Flow => b"flow",
            ViewWord::Decls => b"decls",
            ViewWord::Uses => b"uses",
            ViewWord::Expr => b"expr",
            ViewWord::Errors => b"errors",
            ViewWord::Stack => b"stack",
            ViewWord::Io => b"io",
            ViewWord::Status => b"status",
        }
    }
}
