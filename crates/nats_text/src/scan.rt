//! One walk over the bytes of a subject or a pattern. It takes no memory.
ghost use Rattle.std.specs.Prelude.{◌≡◌, ◌≤◌, IsTrue, MatchOption};
ghost use Rattle.nats_text.specs.Places.{IsBadPlace};
ghost use Rattle.nats_text.specs.Scan.{is_text, token_after, after_dot, longer, token_need, character_after, first_byte, character_need, front_after, need};
ghost use Rattle.nats_text.specs.Text.{is_subject_byte};

/// The greatest length of a subject and of a pattern in bytes.
const MAX_TEXT_LEN: usize = 1024;

/// What is read.
#[derive(Clone, Copy)]
pub(crate) enum Kind {
    Subject,
    Pattern,
}

/// What was read of the token in which a walk stands.
#[derive(Clone, Copy)]
enum Token {
    Empty,
    /// The byte `*` alone.
    Star,
    /// The byte `>` alone.
    Tail,
    Literal,
}

/// What is still to come of the character in which a walk stands: so many bytes from 0x80 to 0xBF,
/// or what may follow the first byte that the name says (the Unicode Standard, table 3-7).
#[derive(Clone, Copy)]
enum Character {
    Whole,
    One,
    Two,
    Three,
    AfterE0,
    AfterEd,
    AfterF0,
    AfterF4,
}

/// Where a walk stands.
#[derive(Clone, Copy)]
struct Front {
    token: Token,
    character: Character,
}

impl Token {
    // One more byte of a text.
    fn after(self, kind: Kind, byte: u8) -> Option<Token>
        ensures { result ≡ token_after kind self byte }
    {
        if byte == b'.' {
            self.after_dot(kind)
        } else if is_subject_byte(byte) {
            Some(self.longer(byte))
        } else {
            None
        }
    }

    fn after_dot(self, kind: Kind) -> Option<Token>
        ensures { result ≡ after_dot kind self }
    {
        match (self, kind) {
            (Token::Literal, _) | (Token::Star, Kind::Pattern) => Some(Token::Empty),
            _ => None,
        }
    }

    fn longer(self, byte: u8) -> Token
        ensures { result ≡ longer self byte }
    {
        match (self, byte) {
            (Token::Empty, b'*') => Token::Star,
            (Token::Empty, b'>') => Token::Tail,
            _ => Token::Literal,
        }
    }

    // How many bytes the token needs at least.
    fn need(self, kind: Kind) -> usize
        ensures { result ≡ token_need kind self }
    {
        match (self, kind) {
            (Token::Empty, _) | (Token::Star | Token::Tail, Kind::Subject) => 1,
            _ => 0,
        }
    }
}

fn is_subject_byte(b: u8) -> bool
    ensures { result ≡ is_subject_byte b }
{
    b > 32 && b != 127
}

impl Character {
    // One more byte of a text.
    fn after(self, byte: u8) -> Option<Character>
        ensures { result ≡ character_after self byte }
    {
        match (self, byte) {
            (Character::Whole, _) => Character::first(byte),
            (Character::One, 0x80..=0xBF) => Some(Character::Whole),
            (Character::Two, 0x80..=0xBF) => Some(Character::One),
            (Character::Three, 0x80..=0xBF) => Some(Character::Two),
            (Character::AfterE0, 0xA0..=0xBF) => Some(Character::One),
            (Character::AfterEd, 0x80..=0x9F) => Some(Character::One),
            (Character::AfterF0, 0x90..=0xBF) => Some(Character::Two),
            (Character::AfterF4, 0x80..=0x8F) => Some(Character::Two),
            _ => None,
        }
    }

    fn first(byte: u8) -> Option<Character>
        ensures { result ≡ first_byte byte }
    {
        match byte {
            0x00..=0x7F => Some(Character::Whole),
            0xC2..=0xDF => Some(Character::One),
            0xE0 => Some(Character::AfterE0),
            0xED => Some(Character::AfterEd),
            0xE1..=0xEF => Some(Character::Two),
            0xF0 => Some(Character::AfterF0),
            0xF4 => Some(Character::AfterF4),
            0xF1..=0xF3 => Some(Character::Three),
            _ => None,
        }
    }

    // How many bytes the character needs.
    fn need(self) -> usize
        ensures { result ≡ character_need self }
    {
        match self {
            Character::Whole => 0,
            Character::One => 1,
            Character::Two | Character::AfterE0 | Character::AfterEd => 2,
            Character::Three | Character::AfterF0 | Character::AfterF4 => 3,
        }
    }
}

impl Front {
    const START: Front = Front {
        token: Token::Empty,
        character: Character::Whole,
    };

    // One more byte behind `read` others, where a text begins with these.
    fn after(self, kind: Kind, read: usize, byte: u8) -> Option<Front>
        requires { read ≤ MAX_TEXT_LEN }
        ensures { result ≡ front_after kind read self byte }
    {
        let next = Front {
            token: self.token.after(kind, byte)?,
            character: self.character.after(byte)?,
        };
        if read + 1 + next.need(kind) <= MAX_TEXT_LEN {
            Some(next)
        } else {
            None
        }
    }

    // How many bytes the text needs at least.
    fn need(self, kind: Kind) -> usize
        ensures { result ≡ need kind self }
    {
        self.token.need(kind).max(self.character.need())
    }
}

/// Where the bytes stop being the beginning of a text of this kind, or end too early.
pub(crate) fn bad_place(kind: Kind, bytes: &[u8]) -> Option<usize>
    ensures { MatchOption result (IsTrue (is_text kind bytes.now)) (IsBadPlace (is_text kind) bytes.now) }
{
    let mut front = Front::START;
    for (place, byte) in bytes.iter().enumerate() {
        match front.after(kind, place, *byte) {
            Some(next) => front = next,
            None => return Some(place),
        }
    }
    if front.need(kind) == 0 {
        None
    } else {
        Some(bytes.len())
    }
}
