// The tokens of Oberon-0 (Wirth, Compiler Construction, chapter 6).

/// What a token is. A number has its value; the name of an identifier is the text that its token
/// spans.
#[derive(Clone, Copy, Debug, PartialEq, Eq)]
pub enum Kind {
    Ident,
    /// From 0 to 2147483647: the source has no sign in a number.
    Number(i32),
    KwArray,
    KwBegin,
    KwConst,
    KwDiv,
    KwDo,
    KwElse,
    KwElsif,
    KwEnd,
    KwIf,
    KwMod,
    KwModule,
    KwOf,
    KwOr,
    KwProcedure,
    KwRecord,
    KwRepeat,
    KwThen,
    KwType,
    KwUntil,
    KwVar,
    KwWhile,
    Period,
    Comma,
    Semicolon,
    Colon,
    Becomes,
    LeftParen,
    RightParen,
    LeftBracket,
    RightBracket,
    Tilde,
    Times,
    Amp,
    Plus,
    Minus,
    Equal,
    Unequal,
    Less,
    LessEqual,
    Greater,
    GreaterEqual,
}

impl Kind {
    ghost use Rattle.std.specs.Prelude.{◌≡◌, ◌≢◌, MatchBool};
    ghost use Rattle.ob_syntax.specs.Kinds.{kind_number, kind_value};

    /// Whether two kinds are the same, and of the same value where they are numbers.
    pub fn is(self, other: Kind) -> bool
        ensures { MatchBool result (self ≡ other) (self ≢ other) }
    {
        if self.number() != other.number() {
            return false;
        }
        self.value() == other.value()
    }

    /// The place in the list of all kinds.
    fn number(self) -> u8
        ensures { result ≡ kind_number self }
    {
        match self {
            Kind::Ident => 0,
            Kind::Number(_) => 1,
            Kind::KwArray => 2,
            Kind::KwBegin => 3,
            Kind::KwConst => 4,
            Kind::KwDiv => 5,
            Kind::KwDo => 6,
            Kind::KwElse => 7,
            Kind::KwElsif => 8,
            Kind::KwEnd => 9,
            Kind::KwIf => 10,
            Kind::KwMod => 11,
            Kind::KwModule => 12,
            Kind::KwOf => 13,
            Kind::KwOr => 14,
            Kind::KwProcedure => 15,
            Kind::KwRecord => 16,
            Kind::KwRepeat => 17,
            Kind::KwThen => 18,
            Kind::KwType => 19,
            Kind::KwUntil => 20,
            Kind::KwVar => 21,
            Kind::KwWhile => 22,
            Kind::Period => 23,
            Kind::Comma => 24,
            Kind::Semicolon => 25,
            Kind::Colon => 26,
            Kind::Becomes => 27,
            Kind::LeftParen => 28,
            Kind::RightParen => 29,
            Kind::LeftBracket => 30,
            Kind::RightBracket => 31,
            Kind::Tilde => 32,
            Kind::Times => 33,
            Kind::Amp => 34,
            Kind::Plus => 35,
            Kind::Minus => 36,
            Kind::Equal => 37,
            Kind::Unequal => 38,
            Kind::Less => 39,
            Kind::LessEqual => 40,
            Kind::Greater => 41,
            Kind::GreaterEqual => 42,
        }
    }

    /// The value of a number; 0 of what is none.
    fn value(self) -> i32
        ensures { result ≡ kind_value self }
    {
        match self {
            Kind::Number(value) => value,
            _ => 0,
        }
    }
}

/// A token: its kind, and its place in the source as the number of its first byte and of the byte
/// behind its last, both from 0.
#[derive(Clone, Copy, Debug, PartialEq, Eq)]
pub struct Token {
    pub kind: Kind,
    pub from: u32,
    pub to: u32,
}
