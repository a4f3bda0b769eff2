// The reading of a status word (document 01, "Words on the bus"; 001 clause 6.2.1.2.5).
ghost use Rattle.std.specs.Prelude.{◌≡◌};
ghost use Rattle.words.specs.Status.{is_done, outcome_of};

// What became of a message, as far as the controller can tell.
#[derive(Clone, Copy)]
pub enum Outcome {
    Done,
    NoReply,
}

impl Outcome {
    pub fn is_done(self) -> bool
        ensures { result ≡ is_done self }
    {
        match self {
            Outcome::Done => true,
            Outcome::NoReply => false,
        }
    }
}

// The status word, if one came, the terminal's address, the words asked of the terminal and those that came.
#[tactic(auto, unfolding(crate::specs::Status::outcome_of, crate::specs::Status::status_outcome))]
pub fn read_status(
    status: Option<u16>,
    address: u8,
    words_asked: usize,
    words_came: usize,
) -> Outcome
    ensures { result ≡ outcome_of status address words_asked words_came }
{
    let Some(status) = status else {
        return Outcome::NoReply;
    };
    if status / 2048 != u16::from(address) {
        return Outcome::NoReply;
    }
    if status / 1024 % 2 == 1 {
        return Outcome::NoReply;
    }
    if status / 8 % 2 == 1 {
        return Outcome::NoReply;
    }
    if words_came != words_asked {
        return Outcome::NoReply;
    }
    Outcome::Done
}
