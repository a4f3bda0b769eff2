// The parts of a block, and the second read (document 01, "Acquisition").
ghost use Rattle.std.specs.Prelude.{◌≡◌, length};
ghost use Rattle.acq_controller.specs.Data.{part_lost, next_of, fetched_of, zeros_written, checked_of, store_fetched, hand_ended, ended_of, fetching_of, checking_of};

use crate::request::lost;
use crate::state::{Attempt, Block, Controller, Phase, failed, held, reset_seen};
use words::control::{Control, Descriptor, Quality};
use words::count::AcquisitionCount;
use words::link::Link;
use words::refusal::Refusal;
use words::status::Outcome;

// What a message of an attempt leads to.
#[derive(Clone, Copy)]
pub enum Ending {
    Goes(Phase),
    Held,
    Failed,
    Reset,
}

// Whether a part is lost: no reply, or not as many words as it has.
fn part_lost(attempt: Attempt, outcome: Outcome, came: usize) -> bool
    ensures { result ≡ part_lost attempt outcome came }
{
    let asked = words::cutting::message_words(attempt.block.size, attempt.part);
    lost(outcome, came, usize::from(asked))
}

// After a part: the next one, then with Verified Length the second read.
#[tactic(auto, unfolding(crate::specs::Data::next_of))]
fn next(attempt: Attempt) -> Ending
    ensures { result ≡ next_of attempt }
{
    let part = attempt.part.saturating_add(1);
    if part < words::cutting::messages(attempt.block.size) {
        return Ending::Goes(Phase::Fetching(Attempt { part, ..attempt }));
    }
    match attempt.quality {
        Quality::BestEffort => Ending::Held,
        Quality::Verified => Ending::Goes(Phase::Checking(attempt)),
    }
}

// A part with no reply ends a Verified Length attempt.
#[tactic(auto, unfolding(crate::specs::Data::fetched_of))]
fn fetched(attempt: Attempt, outcome: Outcome, came: usize) -> Ending
    ensures { result ≡ fetched_of attempt outcome came }
{
    if part_lost(attempt, outcome, came) {
        return match attempt.quality {
            Quality::BestEffort => next(attempt),
            Quality::Verified => Ending::Failed,
        };
    }
    next(attempt)
}

// Zeros in the stead of a part.
#[tactic(auto, using(crate::proofs::Zeros::zeros_put))]
fn put_zeros(attempt: Attempt, store: &mut [u8])
    ensures { store.new ≡ zeros_written attempt store.old }
{
    let n = words::cutting::message_words(attempt.block.size, attempt.part);
    let zeros = [0u16; 32];
    let at = 64 * usize::from(attempt.part);
    stores::writer::write_message(store, at, &zeros[..usize::from(n)]);
}

// The words of a part go into its place of the message store; Best Effort puts zeros for one with no reply.
#[tactic(auto, unfolding(crate::specs::Data::store_fetched))]
fn put_part(attempt: Attempt, outcome: Outcome, words: &[u16], store: &mut [u8])
    ensures { store.new ≡ store_fetched attempt outcome words.now store.old }
{
    if !part_lost(attempt, outcome, words.len()) {
        stores::writer::write_message(store, 64 * usize::from(attempt.part), words);
        return;
    }
    match attempt.quality {
        Quality::Verified => {}
        Quality::BestEffort => put_zeros(attempt, store),
    }
}

// The second read: a Reset, the same request, or a failure.
#[tactic(auto, unfolding(crate::specs::Data::checked_of))]
fn checked(link: Link, attempt: Attempt, outcome: Outcome, words: &[u16]) -> Ending
    ensures { result ≡ checked_of link attempt outcome words.now }
{
    let [first, second] = *words else {
        return Ending::Failed;
    };
    if !outcome.is_done() {
        return Ending::Failed;
    }
    let read: Result<Option<Descriptor<AcquisitionCount>>, Refusal> = words::reading::read_request(
        words, link,
    );
    if let Ok(Some(Control::Reset)) = read {
        return Ending::Reset;
    }
    if first == attempt.request.first && second == attempt.request.second {
        return Ending::Held;
    }
    Ending::Failed
}

// A block that is held goes from the message store into the hand.
fn put_hand(ending: Ending, size: u16, store: &[u8], hand: &mut [u8])
    ensures { hand.new ≡ hand_ended ending size store.now hand.old }
{
    match ending {
        Ending::Held => stores::copies::copy_bytes(store, hand, usize::from(size)),
        Ending::Goes(_) | Ending::Failed | Ending::Reset => {}
    }
}

// After `gone` messages of an attempt.
fn ended(c: Controller, block: Block, ending: Ending, gone: u16) -> Controller
    ensures { result ≡ ended_of block ending gone c }
{
    match ending {
        Ending::Goes(phase) => Controller { phase, ..c },
        Ending::Held => held(c, block, gone),
        Ending::Failed => failed(c, block, gone),
        Ending::Reset => reset_seen(c),
    }
}

// A part was told. With the first read, part k is message k + 2 of the transfer.
#[tactic(auto, unfolding(crate::specs::Data::fetching_of))]
pub fn fetch(
    c: Controller,
    attempt: Attempt,
    outcome: Outcome,
    words: &[u16],
    store: &mut [u8],
    hand: &mut [u8],
) -> Controller
    ensures result { result ≡ fetching_of c attempt outcome (length words.now) }
    ensures bytes { (store.new ≡ store_fetched attempt outcome words.now store.old)
        × (hand.new ≡ hand_ended (fetched_of attempt outcome (length words.now)) attempt.block.size
        (store_fetched attempt outcome words.now store.old) hand.old) }
{
    put_part(attempt, outcome, words, store);
    let ending = fetched(attempt, outcome, words.len());
    put_hand(ending, attempt.block.size, store, hand);
    ended(c, attempt.block, ending, attempt.part.saturating_add(2))
}

// The second read was told: message k + 2 of a block of k parts.
#[tactic(auto, unfolding(crate::specs::Data::checking_of))]
pub fn check(
    c: Controller,
    attempt: Attempt,
    outcome: Outcome,
    words: &[u16],
    store: &[u8],
    hand: &mut [u8],
) -> Controller
    ensures result { result ≡ checking_of c attempt outcome words.now }
    ensures bytes { hand.new ≡ hand_ended (checked_of c.link attempt outcome words.now) attempt.block.size store.now hand.old }
{
    let ending = checked(c.link, attempt, outcome, words);
    put_hand(ending, attempt.block.size, store, hand);
    let gone = words::cutting::messages(attempt.block.size).saturating_add(2);
    ended(c, attempt.block, ending, gone)
}
