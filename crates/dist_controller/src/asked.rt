// The message that the controller asks for (document 01, "The two machines").
ghost use Rattle.std.specs.Prelude.{◌≡◌};
ghost use Rattle.dist_controller.specs.Asked.{transfer_message, last_of, asked_of};

use crate::state::{Controller, Phase};
use words::link::Link;
use words::message::Message;

// The two words of a descriptor, and a read of those of a confirmation.
const TO_DESCRIPTOR: Message = Message::Receive {
    subaddress: 27,
    words: 2,
};

const TO_CONFIRMATION: Message = Message::Transmit {
    subaddress: 27,
    words: 2,
};

// Message i of a transfer, from 0: its data messages, the descriptor, then reads of 27T.
#[tactic(auto, unfolding(crate::specs::Asked::transfer_message))]
pub fn transfer_message(link: Link, size: u16, i: u16) -> Message
    ensures { result ≡ transfer_message link size i }
{
    let n = words::cutting::messages(size);
    if i < n {
        return Message::Receive {
            subaddress: words::cutting::message_subaddress(link, i),
            words: words::cutting::message_words(size, i),
        };
    }
    if i == n {
        return TO_DESCRIPTOR;
    }
    TO_CONFIRMATION
}

// The number, from 0, of the last of `gone` messages.
#[tactic(auto, unfolding(crate::specs::Asked::last_of))]
pub fn last(gone: u16) -> u16
    ensures { result ≡ last_of gone }
{
    gone.saturating_sub(1)
}

// The message asked for, if any.
#[tactic(auto, unfolding(crate::specs::Asked::asked_of))]
pub fn asked_for(c: Controller) -> Option<Message>
    ensures { result ≡ asked_of c }
{
    match c.phase {
        Phase::Idle | Phase::Waiting | Phase::ResetWaiting => None,
        Phase::Sending | Phase::CutSending => {
            let i = last(c.transfer.gone);
            Some(transfer_message(c.link, c.transfer.size, i))
        }
        Phase::Resetting | Phase::CutResetting => Some(TO_DESCRIPTOR),
        Phase::Reading | Phase::ResetReading | Phase::CutReading => Some(TO_CONFIRMATION),
    }
}
