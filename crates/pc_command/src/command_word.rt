//! The words that a command line may begin with.

ghost use Rattle.std.specs.Prelude.{◌≡◌};
ghost use Rattle.pc_command.specs.Vocabulary.{command_spelling, command_word_of};

/// The first word of a command line.
#[derive(Clone, Copy, Debug, PartialEq, Eq)]
pub enum CommandWord {
    Load,
    Open,
    Save,
    Put,
    Add,
    Cut,
    Fill,
    Retype,
    Undo,
    Redo,
    Step,
    Run,
    Back,
    Restart,
    Input,
    Inputln,
    Close,
    Show,
    Watch,
    Unwatch,
}

const COMMAND_WORDS: [CommandWord; 20] = [
    CommandWord::Load,
    CommandWord::Open,
    CommandWord::Save,
    CommandWord::Put,
    CommandWord::Add,
    CommandWord::Cut,
    CommandWord::Fill,
    CommandWord::Retype,
    CommandWord::Undo,
    CommandWord::Redo,
    CommandWord::Step,
    CommandWord::Run,
    CommandWord::Back,
    CommandWord::Restart,
    CommandWord::Input,
    CommandWord::Inputln,
    CommandWord::Close,
    CommandWord::Show,
    CommandWord::Watch,
    CommandWord::Unwatch,
];

impl CommandWord {
    /// The command word that is written so.
    #[tactic(auto, unfolding(crate::specs::Vocabulary::command_word_of, crate::specs::Vocabulary::command_words))]
    pub fn read(bytes: &[u8]) -> Option<CommandWord>
        ensures { result ≡ command_word_of bytes.now }
    {
        COMMAND_WORDS
            .iter()
            .copied()
            .find(|word| word.spelling() == bytes)
    }

    /// How the word is written.
    pub fn spelling(self) -> &'static [u8]
        ensures { result.now ≡ command_spelling self }
    {
        match self {
            CommandWord::Load => b"load",
            CommandWord::Open => b"open",
            CommandWord::Save => b"save",
            CommandWord::Put => b"put",
            CommandWord::Add => b"add",
            CommandWord::Cut => b"cut",
            CommandWord::Fill => b"fill",
            CommandWord::Retype => b"retype",
            CommandWord::Undo => b"undo",
            CommandWord::Redo => b"redo",
            CommandWord::Step => b"step",
            CommandWord::Run => b"run",
            CommandWord::Back => b"back",
            CommandWord::Restart => b"restart",
            CommandWord::Input => b"input",
            CommandWord::Inputln => b"inputln",
            CommandWord::Close => b"close",
            CommandWord::Show => b"show",
            CommandWord::Watch => b"watch",
            CommandWord::Unwatch => b"unwatch",
        }
    }
}
