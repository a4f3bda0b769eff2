// The controller is told the outcome of the message that it asked for (document 01, "Acquisition").
ghost use Rattle.std.specs.Prelude.{◌≡◌, length};
ghost use Rattle.acq_controller.specs.Told.{short_of, told_of, store_told, hand_told};

use crate::data::{check, fetch};
use crate::request::{due, polled};
use crate::state::{Controller, Phase};
use words::link::{Link, block_store, is_short, message_store};
use words::refusal::{Refusal, Stepped, accept, refuse};
use words::status::Outcome;

// Whether the link is not configured, or a lent store is too short for it.
#[tactic(auto, unfolding(crate::specs::Told::short_of))]
pub fn stores_short(link: Link, store: usize, hand: usize) -> bool
    ensures { result ≡ short_of link store hand }
{
    is_short(link, message_store(link), store) || hand < block_store(link)
}

// What was sent in answer, or as a command, needs no outcome: the next frame's read shows what came of it.
#[tactic(auto, unfolding(crate::specs::Told::told_of, crate::specs::Told::store_told, crate::specs::Told::hand_told))]
pub fn told(
    c: Controller,
    outcome: Outcome,
    words: &[u16],
    store: &mut [u8],
    hand: &mut [u8],
) -> Stepped<Controller, ()>
    ensures result { result ≡ told_of c outcome words.now (length store.old) (length hand.old) }
    ensures bytes { (store.new ≡ store_told c outcome words.now store.old (length hand.old))
        × (hand.new ≡ hand_told c outcome words.now store.old hand.old) }
{
    if stores_short(c.link, store.len(), hand.len()) {
        return refuse(Refusal::NotReady, c);
    }
    match c.phase {
        Phase::Idle => refuse(Refusal::NothingAsked, c),
        Phase::Polling => polled(c, outcome, words),
        Phase::PollingDue => due(c, outcome, words),
        Phase::Fetching(attempt) => accept(fetch(c, attempt, outcome, words, store, hand)),
        Phase::Checking(attempt) => accept(check(c, attempt, outcome, words, store, hand)),
        Phase::Confirming(_) | Phase::ConfirmingReset | Phase::Commanding => accept(Controller {
            phase: Phase::Idle,
            ..c
        }),
    }
}
