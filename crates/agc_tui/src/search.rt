//! The searches in time: which byte types which, and what each looks for.
ghost use Rattle.std.specs.Prelude.{◌≡◌};
ghost use Rattle.agc_session.specs.Condition.{IsConditionInRange};
ghost use Rattle.agc_tui.specs.Search.{condition_of, search_of};

use agc_session::Condition;

/// What a search looks for.
#[derive(Clone, Copy, Debug, PartialEq, Eq)]
pub enum Target {
    /// The service of an interrupt.
    Interrupt,
    /// A channel write.
    Write,
    /// A change of the panel.
    Panel,
}

/// A way in time.
#[derive(Clone, Copy, Debug, PartialEq, Eq)]
pub enum Way {
    Ahead,
    Back,
}

/// A search in time.
#[derive(Clone, Copy, Debug, PartialEq, Eq)]
pub enum Search {
    /// Forward, to just after the next one.
    Next(Target),
    /// Back, to the beginning of the last one before now.
    Previous(Target),
}

impl Target {
    /// Returns the condition that stands for it.
    pub fn condition(self) -> Condition
        ensures value { result ≡ condition_of self }
        ensures range { IsConditionInRange result }
    {
        match self {
            Target::Interrupt => Condition::Interrupt(None),
            Target::Write => Condition::Write {
                channel: None,
                word: None,
            },
            Target::Panel => Condition::Panel,
        }
    }
}

impl Search {
    /// Returns the search that a byte types: `u` interrupt, `w` channel write, `d` the panel; in capitals, back.
    #[tactic(auto, unfolding(crate::specs::Search::search_of))]
    pub fn from_byte(byte: u8) -> Option<Search>
        ensures { result ≡ search_of byte }
    {
        match byte {
            b'u' => Some(Search::Next(Target::Interrupt)),
            b'w' => Some(Search::Next(Target::Write)),
            b'd' => Some(Search::Next(Target::Panel)),
            b'U' => Some(Search::Previous(Target::Interrupt)),
            b'W' => Some(Search::Previous(Target::Write)),
            b'D' => Some(Search::Previous(Target::Panel)),
            _ => None,
        }
    }
}
