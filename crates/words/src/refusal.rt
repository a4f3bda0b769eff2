// What a call answers, or why it is refused (document 01, "Numbers a caller may get back").
ghost use Rattle.std.specs.Prelude.{◌≡◌, ℕ};
ghost use Rattle.words.specs.Refusal.{refusal_number, numbered_of, accept, refuse};

// A name for each of the paper's numbers, which is its discriminant.
#[derive(Clone, Copy, PartialEq, Eq)]
pub enum Refusal {
    // an address over 30, a link not configured, or a store lent to the call too short
    NotReady = 1,
    // submit with no accepted Reset
    NoAcceptedReset = 2,
    // a block, or a size asked about, of 0 bytes or over the link's largest
    BadSize = 3,
    TransferOpen = 4,
    // 254 transfers
    TransfersSpent = 5,
    // a descriptor, request or confirmation
    NotTwoWords = 6,
    ReservedBits = 7,
    // Reset with another field wrong
    BadReset = 8,
    // Mode or SA not the link's
    OtherLink = 9,
    // on a 1024 link
    Over1024 = 10,
    // on a 4096 link
    Over4096 = 11,
    // no Reset seen yet, or count 0 without Reset
    NoReset = 12,
    // the count equals last handled
    LastHandled = 13,
    // an earlier block is still in hand
    HandFull = 14,
    // Verified Length not met
    WrongLength = 15,
    NothingToTake = 16,
    // a take buffer shorter than the block
    ShortBuffer = 17,
    // an outcome told when no message is asked for
    NothingAsked = 18,
    // a data message of 0 or over 32 words, or to a subaddress the link does not use
    BadMessage = 19,
    // a configuration outside the ranges, or a store too short
    BadConfiguration = 20,
}

impl From<Refusal> for u8 {
    ghost from_gives = { λ refusal n. n ≡ refusal_number refusal };

    fn from(refusal: Refusal) -> u8 {
        refusal as u8
    }
}

// Why a call is refused: one of the paper's by its name, or any number.
pub trait Numbered: Copy + From<Refusal> {
    ghost number: { Self → ℕ };

    fn number(self) -> u8
        ensures { result ≡ number self };
}

impl Numbered for Refusal {
    ghost number = { refusal_number };

    fn number(self) -> u8 {
        u8::from(self)
    }
}

impl Numbered for u8 {
    ghost number = { λ n. n };

    fn number(self) -> u8 {
        self
    }
}

// The number of an answer, 0 where it is accepted.
pub fn number<E: Numbered>(answer: Result<(), E>) -> u8
    ensures { result ≡ numbered_of E.number answer }
{
    match answer {
        Ok(()) => 0,
        Err(refusal) => refusal.number(),
    }
}

// A state, and what the call answered.
#[derive(Clone, Copy)]
pub struct Stepped<S, T, E = Refusal> {
    pub state: S,
    pub answer: Result<T, E>,
}

pub fn accept<S>(state: S) -> Stepped<S, ()>
    ensures { result ≡ accept state }
{
    Stepped {
        state,
        answer: Ok(()),
    }
}

pub fn refuse<S, T, E: Numbered>(refusal: E, state: S) -> Stepped<S, T, E>
    ensures { result ≡ refuse refusal state }
{
    Stepped {
        state,
        answer: Err(refusal),
    }
}
