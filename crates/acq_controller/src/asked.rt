// The message that the controller asks for, and its words (document 01, "The two machines", "Acquisition").
ghost use Rattle.std.specs.Prelude.{◌≡◌, length};
ghost use Rattle.std.proofs.lemmas.List.Edits.{sets};
ghost use Rattle.words.specs.Control.{list_of};
ghost use Rattle.acq_controller.specs.Asked.{part_message, asked_of, words_asked, message_of, buffer_asked};

use crate::state::{Controller, Phase};
use words::control::Words;
use words::link::Link;
use words::message::Message;
use words::refusal::Refusal;

// A read of 28T, the two words of a confirmation, and those of the Reset command.
const TO_REQUEST: Message = Message::Transmit {
    subaddress: 28,
    words: 2,
};

const TO_CONFIRMATION: Message = Message::Receive {
    subaddress: 28,
    words: 2,
};

const TO_COMMAND: Message = Message::Receive {
    subaddress: 1,
    words: 2,
};

// A part of the block, with the words that it has.
fn part_message(link: Link, size: u16, part: u16) -> Message
    ensures { result ≡ part_message link size part }
{
    Message::Transmit {
        subaddress: words::cutting::message_subaddress(link, part),
        words: words::cutting::message_words(size, part),
    }
}

// The message asked for, if any.
#[tactic(auto, unfolding(crate::specs::Asked::asked_of))]
pub fn asked_for(c: Controller) -> Option<Message>
    ensures { result ≡ asked_of c }
{
    match c.phase {
        Phase::Idle => None,
        Phase::Polling | Phase::PollingDue | Phase::Checking(_) => Some(TO_REQUEST),
        Phase::Fetching(attempt) => { Some(part_message(c.link, attempt.block.size, attempt.part)) }
        Phase::Confirming(_) | Phase::ConfirmingReset => Some(TO_CONFIRMATION),
        Phase::Commanding => Some(TO_COMMAND),
    }
}

// The words that go with it; a read has none.
pub fn words_asked(c: Controller) -> Option<Words>
    ensures { result ≡ words_asked c }
{
    match c.phase {
        Phase::Confirming(words) => Some(words),
        Phase::ConfirmingReset => Some(words::control::reset_words()),
        Phase::Commanding => Some(words::command::command_words()),
        Phase::Idle
        | Phase::Polling
        | Phase::PollingDue
        | Phase::Fetching(_)
        | Phase::Checking(_) => None,
    }
}

// The message asked for, with its words in the start of a lent buffer, which has room for any message.
#[tactic(auto, unfolding(crate::specs::Asked::message_of, crate::specs::Asked::buffer_asked))]
pub fn message(c: Controller, out: &mut [u16]) -> Result<Option<Message>, Refusal>
    ensures result { result ≡ message_of c (length out.old) }
    ensures words { out.new ≡ buffer_asked c out.old }
{
    if !words::link::is_configured(c.link) || out.len() < 32 {
        return Err(Refusal::NotReady);
    }
    if let Some(words) = words_asked(c) {
        out[0] = words.first;
        out[1] = words.second;
    }
    Ok(asked_for(c))
}
