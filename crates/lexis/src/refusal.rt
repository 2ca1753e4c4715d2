// Why a text or an operation is refused. An answer has the number; 0 is acceptance.
ghost use Rattle.std.specs.Prelude.{◌≡◌};
ghost use Rattle.lexis.specs.Refusal.{refusal_number};

#[derive(Clone, Copy, PartialEq, Eq, PartialOrd, Ord)]
pub enum Refusal {
    // A lent table or work area is too short.
    ShortRoom = 1,
    // The text is too long.
    LongText = 2,
    // A byte begins no token.
    NoToken = 3,
    // A number is misspelt.
    Misspelt = 4,
    // A string is unclosed or holds a byte outside 32 to 126.
    BadString = 5,
    // A name, string or number is too long.
    TooLong = 6,
    // A number is out of range.
    OutOfRange = 7,
    // There are too many tokens.
    TooManyTokens = 8,
    // No valid text has this token here.
    Syntax = 9,
    // A bracket more than may be open.
    Bracket = 10,
    // The version is not spelt `1.0`.
    WrongVersion = 11,
    // A count is above its size.
    OverSize = 12,
    // A name is repeated where it may not be.
    RepeatedName = 13,
    // A default does not fit its parameter.
    BadDefault = 14,
    // An operation is not declared.
    Undeclared = 15,
    // A positional argument stands where none may.
    Misplaced = 16,
    // A named argument is unknown or already bound.
    Misnamed = 17,
    // A bound argument does not fit its parameter.
    Misfit = 18,
    // A parameter without default is not bound.
    Unbound = 19,
    // A left side does not match the results.
    Unmatched = 20,
    // An identifier is assigned again.
    AssignedAgain = 21,
    // An identifier is used and not assigned by an earlier call.
    UnassignedUse = 22,
    // An input is not assigned by `external`, or another identifier is.
    Misfed = 23,
    // An output is never assigned.
    UnassignedOutput = 24,
    // The canonical text has too many bytes or tokens.
    OverLimits = 25,
    // The output is shorter than the canonical text.
    ShortOutput = 26,
    // There are not as many numbers as calls.
    WrongLength = 41,
    // A number is that of no call.
    NoSuchCall = 42,
    // A number stands at an earlier place too.
    RepeatedCall = 43,
    // A call uses an identifier whose assigning call stands at no earlier place.
    EarlyUse = 44,
}

impl Refusal {
    // The number of a refusal. A method and no `From`: at a call its name says which number is meant.
    pub fn number(self) -> u32
        ensures { result ≡ refusal_number self }
    {
        self as u32
    }
}

// The first fault of a text: why it is refused, and the position.
#[derive(Clone, Copy)]
pub struct Fault {
    pub refusal: Refusal,
    pub at: u32,
}
