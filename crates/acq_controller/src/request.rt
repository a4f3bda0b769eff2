// The first read of 28T (document 01, "Acquisition", "Numbers a caller may get back").
ghost use Rattle.std.specs.Prelude.{◌≡◌, length};
ghost use Rattle.acq_controller.specs.Request.{lost_of, passed_of, again_of, begun_of, requested_of, read_of, unread_of, polled_of, due_confirmed, due_of};

use crate::state::{Attempt, Block, Controller, Handled, Phase, confirming, reset_seen};
use words::control::{Control, Words, acquisition_confirmation_words};
use words::refusal::{Refusal, Stepped, accept, refuse};
use words::status::Outcome;

// Too few words, or too many, are no reply.
pub fn lost(outcome: Outcome, came: usize, asked: usize) -> bool
    ensures { result ≡ lost_of outcome came asked }
{
    !outcome.is_done() || came != asked
}

// A done read that brings nothing: with no Reset seen yet the command follows.
#[tactic(auto, unfolding(crate::specs::Request::passed_of))]
fn passed(c: Controller) -> Controller
    ensures { result ≡ passed_of c }
{
    let phase = if c.seen {
        Phase::Idle
    } else {
        Phase::Commanding
    };
    Controller { phase, ..c }
}

// The confirmation of the last handled block once more, as first sent.
fn again(c: Controller, block: Block, error: bool) -> Controller
    ensures { result ≡ again_of block error c }
{
    let words = acquisition_confirmation_words(c.link, block.size, error, block.count);
    Controller {
        phase: Phase::Confirming(words),
        ..c
    }
}

// A new count: its first part is asked for.
fn begun(c: Controller, attempt: Attempt) -> Controller
    ensures { result ≡ begun_of attempt c }
{
    Controller {
        phase: Phase::Fetching(attempt),
        ..c
    }
}

// Refusals 12 to 14, the lowest first, or a new count.
#[tactic(auto, unfolding(crate::specs::Request::requested_of))]
fn requested(c: Controller, attempt: Attempt) -> Stepped<Controller, ()>
    ensures { result ≡ requested_of attempt c }
{
    if !c.seen {
        return refuse(Refusal::NoReset, passed(c));
    }
    let count = attempt.block.count;
    match c.handled {
        Handled::Nothing => accept(begun(c, attempt)),
        Handled::Held(block) => {
            if count.same(block.count) {
                return refuse(Refusal::LastHandled, passed(c));
            }
            refuse(Refusal::HandFull, passed(c))
        }
        Handled::Taken(block) => {
            if count.same(block.count) {
                return refuse(Refusal::LastHandled, again(c, block, false));
            }
            accept(begun(c, attempt))
        }
        Handled::Failed(block) => {
            if count.same(block.count) {
                return refuse(Refusal::LastHandled, again(c, block, true));
            }
            accept(begun(c, attempt))
        }
    }
}

// What the words of 28T lead to, which are `request`.
#[tactic(auto, unfolding(crate::specs::Request::read_of))]
fn read(c: Controller, words: &[u16], request: Words) -> Stepped<Controller, ()>
    ensures { result ≡ read_of c words.now request }
{
    match words::reading::read_request(words, c.link) {
        Err(refusal) => refuse(refusal, passed(c)),
        Ok(None) => accept(passed(c)),
        Ok(Some(Control::Reset)) => accept(reset_seen(c)),
        Ok(
            Some(
                Control::Block {
                    size,
                    mark: quality,
                    count,
                },
            ),
        ) => {
            let block = Block { size, count };
            requested(
                c,
                Attempt {
                    request,
                    quality,
                    block,
                    part: 0,
                },
            )
        }
    }
}

// No reply: nothing follows. A done read of another number of words is refusal 6 besides.
fn unread(c: Controller, outcome: Outcome) -> Stepped<Controller, ()>
    ensures { result ≡ unread_of outcome c }
{
    let idle = Controller {
        phase: Phase::Idle,
        ..c
    };
    match outcome {
        Outcome::Done => refuse(Refusal::NotTwoWords, idle),
        Outcome::NoReply => accept(idle),
    }
}

// The first read was told, with nothing due behind it.
#[tactic(auto, unfolding(crate::specs::Request::polled_of))]
pub fn polled(c: Controller, outcome: Outcome, words: &[u16]) -> Stepped<Controller, ()>
    ensures { result ≡ polled_of c outcome words.now }
{
    let [first, second] = *words else {
        return unread(c, outcome);
    };
    if !outcome.is_done() {
        return unread(c, outcome);
    }
    read(c, words, Words { first, second })
}

// The confirmation that was due.
fn due_confirmed(c: Controller) -> Controller
    ensures { result ≡ due_confirmed c }
{
    match c.handled {
        Handled::Taken(block) => confirming(c, block, false),
        Handled::Failed(block) => confirming(c, block, true),
        Handled::Nothing | Handled::Held(_) => Controller {
            phase: Phase::Idle,
            ..c
        },
    }
}

// The first read was told, a confirmation being due: it goes in lieu of what the read would bring, a Reset excepted.
#[tactic(auto, unfolding(crate::specs::Request::due_of))]
pub fn due(c: Controller, outcome: Outcome, words: &[u16]) -> Stepped<Controller, ()>
    ensures { result ≡ due_of c outcome words.now }
{
    let s = polled(c, outcome, words);
    match s.state.phase {
        Phase::ConfirmingReset => s,
        Phase::Idle
        | Phase::Polling
        | Phase::PollingDue
        | Phase::Fetching(_)
        | Phase::Checking(_)
        | Phase::Confirming(_)
        | Phase::Commanding => Stepped {
            state: due_confirmed(c),
            answer: s.answer,
        },
    }
}
