//! The first words of the console's own commands; events use those of scripts.
ghost use Rattle.std.specs.Prelude.{◌≡◌};
ghost use Rattle.agc_command.specs.Name.{name_named, name_text, usage_text};

/// The first word of a command that is not an event.
#[derive(Clone, Copy, Debug, PartialEq, Eq)]
pub enum CommandName {
    Go,
    Step,
    Over,
    Finish,
    Until,
    Break,
    Breaks,
    Delete,
    Continue,
    Quiet,
    Panel,
    Watch,
    Registers,
    Next,
    Ahead,
    Where,
    Cell,
    Print,
    Channel,
    Writes,
    Back,
    Script,
    Save,
    Help,
    Quit,
}

impl CommandName {
    /// All names, each once, in the order in which `help` lists them.
    pub const ALL: [CommandName; 25] = [
        CommandName::Go,
        CommandName::Step,
        CommandName::Over,
        CommandName::Finish,
        CommandName::Until,
        CommandName::Break,
        CommandName::Breaks,
        CommandName::Delete,
        CommandName::Continue,
        CommandName::Quiet,
        CommandName::Panel,
        CommandName::Watch,
        CommandName::Registers,
        CommandName::Next,
        CommandName::Ahead,
        CommandName::Where,
        CommandName::Cell,
        CommandName::Print,
        CommandName::Channel,
        CommandName::Writes,
        CommandName::Back,
        CommandName::Script,
        CommandName::Save,
        CommandName::Help,
        CommandName::Quit,
    ];

    /// Returns the name that a word spells.
    #[tactic(auto, unfolding(crate::specs::Name::name_named, crate::specs::Name::all_names))]
    pub fn from_word(word: &[u8]) -> Option<CommandName>
        ensures { result ≡ name_named word.now }
    {
        CommandName::ALL
            .iter()
            .copied()
            .find(|name| name.word().as_bytes() == word)
    }

    /// Returns the word.
    #[tactic(auto, unfolding(crate::specs::Name::name_text))]
    pub fn word(self) -> &'static str
        ensures { result.now ≡ name_text self }
    {
        match self {
            CommandName::Go => "go",
            CommandName::Step => "step",
            CommandName::Over => "over",
            CommandName::Finish => "finish",
            CommandName::Until => "until",
            CommandName::Break => "break",
            CommandName::Breaks => "breaks",
            CommandName::Delete => "delete",
            CommandName::Continue => "continue",
            CommandName::Quiet => "quiet",
            CommandName::Panel => "panel",
            CommandName::Watch => "watch",
            CommandName::Registers => "registers",
            CommandName::Next => "next",
            CommandName::Ahead => "ahead",
            CommandName::Where => "where",
            CommandName::Cell => "cell",
            CommandName::Print => "print",
            CommandName::Channel => "channel",
            CommandName::Writes => "writes",
            CommandName::Back => "back",
            CommandName::Script => "script",
            CommandName::Save => "save",
            CommandName::Help => "help",
            CommandName::Quit => "quit",
        }
    }

    /// Returns the syntax of the command.
    #[tactic(auto, unfolding(crate::specs::Name::usage_text))]
    pub fn usage(self) -> &'static str
        ensures { result.now ≡ usage_text self }
    {
        match self {
            CommandName::Go => "go N, or go to C",
            CommandName::Step => "step, or step N [cell PLACE]",
            CommandName::Over => "over [job CELL] [within N]",
            CommandName::Finish => "finish [job CELL] [within N]",
            CommandName::Until =>
                "until PLACE [if CELL < WORD], write CCC or cell PLACE; then [ignore N] [within N]",
            CommandName::Break => {
                "break PLACE [if CELL < WORD], write CCC [WORD], cell PLACE, interrupt NAME or panel [TEXT]"
            }
            CommandName::Breaks => "breaks",
            CommandName::Delete => "delete N",
            CommandName::Continue => "continue [ignore N] [within N]",
            CommandName::Quiet => "quiet, or quiet off",
            CommandName::Panel => "panel",
            CommandName::Watch => "watch PLACE, or watch SPEC",
            CommandName::Registers => "registers",
            CommandName::Next => "next",
            CommandName::Ahead => "ahead, or ahead N",
            CommandName::Where => "where",
            CommandName::Cell => "cell PLACE, or cell PLACE N",
            CommandName::Print => "print PLACE, or print PLACE N",
            CommandName::Channel => "channel CCC",
            CommandName::Writes => "writes",
            CommandName::Back => {
                "back [list] C, step [N], over or finish [job CELL], or until PLACE [if CELL < WORD], write CCC [WORD], cell PLACE, interrupt [NAME] or panel; after until [ignore N]"
            }
            CommandName::Script => "script",
            CommandName::Save => "save FILE",
            CommandName::Help => "help",
            CommandName::Quit => "quit",
        }
    }
}
