//! The keys of the DSKY's keyboard: their names and their codes.
ghost use Rattle.std.specs.Prelude.{◌≡◌, IfSome};
ghost use Rattle.agc_word.specs.Number.{number_from_pattern};
ghost use Rattle.agc_script.specs.Key.{name_of, code_of, key_named};

use agc_word::Narrow;

/// A key of the keyboard with a code. PRO has no code: it is a separate switch in channel 32 octal.
#[derive(Clone, Copy, Debug, PartialEq, Eq)]
pub enum Key {
    Zero,
    One,
    Two,
    Three,
    Four,
    Five,
    Six,
    Seven,
    Eight,
    Nine,
    Verb,
    Noun,
    Reset,
    KeyRelease,
    Plus,
    Minus,
    Enter,
    Clear,
}

impl Key {
    /// Every key, once.
    pub const ALL: [Key; 18] = [
        Key::Zero,
        Key::One,
        Key::Two,
        Key::Three,
        Key::Four,
        Key::Five,
        Key::Six,
        Key::Seven,
        Key::Eight,
        Key::Nine,
        Key::Verb,
        Key::Noun,
        Key::Reset,
        Key::KeyRelease,
        Key::Plus,
        Key::Minus,
        Key::Enter,
        Key::Clear,
    ];

    /// Returns the key with this name, as scripts write it; names are in capitals.
    #[tactic(auto, unfolding(crate::specs::Key::key_named, crate::specs::Key::all_keys))]
    pub fn from_name(name: &[u8]) -> Option<Key>
        ensures key { result ≡ key_named name.now }
        ensures named { IfSome result (λ key. name_of key ≡ name.now) }
    {
        Key::ALL
            .iter()
            .copied()
            .find(|key| key.name().as_bytes() == name)
    }

    /// Returns the name that scripts use.
    #[tactic(auto, unfolding(crate::specs::Key::name_of, crate::specs::Key::key_named, crate::specs::Key::all_keys))]
    pub fn name(self) -> &'static str
        ensures name { result.now ≡ name_of self }
        ensures back { key_named result.now ≡ Some self }
    {
        match self {
            Key::Zero => "0",
            Key::One => "1",
            Key::Two => "2",
            Key::Three => "3",
            Key::Four => "4",
            Key::Five => "5",
            Key::Six => "6",
            Key::Seven => "7",
            Key::Eight => "8",
            Key::Nine => "9",
            Key::Verb => "VERB",
            Key::Noun => "NOUN",
            Key::Reset => "RSET",
            Key::KeyRelease => "KEYREL",
            Key::Plus => "+",
            Key::Minus => "-",
            Key::Enter => "ENTR",
            Key::Clear => "CLR",
        }
    }

    /// Returns the code that the key puts into channel 15 octal, five bits.
    #[tactic(auto, unfolding(crate::specs::Key::code_of))]
    pub fn code(self) -> Narrow
        ensures { result ≡ number_from_pattern 15 (code_of self) }
    {
        let bits = match self {
            Key::Zero => 0o20,
            Key::One => 0o1,
            Key::Two => 0o2,
            Key::Three => 0o3,
            Key::Four => 0o4,
            Key::Five => 0o5,
            Key::Six => 0o6,
            Key::Seven => 0o7,
            Key::Eight => 0o10,
            Key::Nine => 0o11,
            Key::Verb => 0o21,
            Key::Noun => 0o37,
            Key::Reset => 0o22,
            Key::KeyRelease => 0o31,
            Key::Plus => 0o32,
            Key::Minus => 0o33,
            Key::Enter => 0o34,
            Key::Clear => 0o36,
        };
        Narrow::with_bits(bits)
    }
}
