//! Classes of characters.
ghost use Rattle.wy_value.specs.Characters as characters;

use wy_reading::Class;

/// A class of characters, by what the grammar of argument texts asks of a first character.
#[derive(Clone, Copy)]
pub enum Character {
    Space,
    Digit,
    /// What a name begins with, and what it goes on with.
    Start,
    Part,
    /// What an array or a record begins with.
    Open,
    /// What a number begins with.
    Number,
    /// What a value begins with.
    Value,
    Is(char),
}

impl Class<char> for Character {
    ghost use Rattle.wy_value.specs.Characters as characters;

    ghost has = { characters.has };

    fn has(&self, c: char) -> bool {
        match self {
            Character::Space => c == ' ',
            Character::Digit => c.is_ascii_digit(),
            Character::Start => wy_data::is_start(c),
            Character::Part => wy_data::is_part(c),
            Character::Open => c == '[' || c == '{',
            Character::Number => c.is_ascii_digit() || c == '-',
            Character::Value => {
                c.is_ascii_digit() || matches!(c, '-' | 'n' | 't' | 'f' | '[' | '{')
            }
            Character::Is(d) => c == *d,
        }
    }
}
