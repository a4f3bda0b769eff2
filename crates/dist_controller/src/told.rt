// The controller is told the outcome of the message that it asked for (document 01, "Distribution").
ghost use Rattle.std.specs.Prelude.{◌≡◌};
ghost use Rattle.dist_controller.specs.Told.{stops_of, age_now, overdue_of, told_now, sent_of, lost_of, confirmation_found, finding_of};
ghost use Rattle.dist_controller.specs.Told.{confirmed_of, unanswered_of, read_of, accepted_of, not_shown, reset_read_of, reset_sent_of, told_reading, told_reset_reading, told_cut_reading, told_of};

use crate::state::{
    Clock, Controller, Fate, Finding, Phase, Standing, ended, one_more, with_finding,
};
use words::control::{Confirmation, Control, Quality};
use words::count::DistributionCount;
use words::refusal::{Refusal, Stepped, accept, refuse};
use words::status::Outcome;

// A data message with no reply ends a Verified Length transfer.
#[tactic(auto, unfolding(crate::specs::Told::stops_of))]
fn stops(quality: Quality, outcome: Outcome) -> bool
    ensures { result ≡ stops_of quality outcome }
{
    match quality {
        Quality::BestEffort => false,
        Quality::Verified => !outcome.is_done(),
    }
}

// The age of the descriptor's outcome.
pub fn age_now(c: Controller) -> u16
    ensures { result ≡ age_now c }
{
    words::tick::age(c.clock.tick, c.clock.since)
}

// Whether the confirmation window is over.
#[tactic(auto, unfolding(crate::specs::Told::overdue_of))]
fn overdue(c: Controller) -> bool
    ensures { result ≡ overdue_of c }
{
    u16::from(c.link.window) <= age_now(c)
}

// Age counts from now.
fn told_now(c: Controller, phase: Phase) -> Controller
    ensures { result ≡ told_now phase c }
{
    let clock = Clock {
        since: c.clock.tick,
        ..c.clock
    };
    Controller { clock, phase, ..c }
}

// A data message or the descriptor was told.
#[tactic(auto, unfolding(crate::specs::Told::sent_of))]
fn sent(c: Controller, outcome: Outcome) -> Controller
    ensures { result ≡ sent_of c outcome }
{
    if words::cutting::messages(c.transfer.size) < c.transfer.gone {
        return told_now(c, Phase::Waiting);
    }
    if stops(c.transfer.quality, outcome) {
        return ended(c, Some(Fate::Abandoned), Phase::Idle);
    }
    one_more(c, Phase::Sending)
}

// A read that brought another number of words than two is as good as none.
#[tactic(auto, unfolding(crate::specs::Told::lost_of))]
fn lost(outcome: Outcome, words: &[u16]) -> bool
    ensures { result ≡ lost_of outcome words.now }
{
    !outcome.is_done() || words.len() != 2
}

// What the words of 27T mean to the transfer that waits for a count, if one does.
#[tactic(auto, unfolding(crate::specs::Told::confirmation_found))]
fn confirmation_found(
    confirmation: Result<Confirmation<DistributionCount>, Refusal>,
    waited: Option<DistributionCount>,
) -> Finding
    ensures { result ≡ confirmation_found confirmation waited }
{
    match confirmation {
        Err(_) => Finding::Other,
        Ok(Control::Reset) => Finding::Reset,
        Ok(
            Control::Block {
                size: _,
                mark: error,
                count: shown,
            },
        ) => {
            let Some(count) = waited else {
                return Finding::Other;
            };
            if !shown.same(count) {
                return Finding::Other;
            }
            if error {
                return Finding::Refused;
            }
            Finding::Confirmed
        }
    }
}

#[tactic(auto, unfolding(crate::specs::Told::finding_of))]
fn finding(
    c: Controller,
    waited: Option<DistributionCount>,
    outcome: Outcome,
    words: &[u16],
) -> Finding
    ensures { result ≡ finding_of c waited outcome words.now }
{
    if lost(outcome, words) {
        return Finding::Lost;
    }
    let confirmation = words::reading::read_confirmation(words, c.link);
    confirmation_found(confirmation, waited)
}

// Present count without error: no transfers are spent.
fn confirmed(c: Controller) -> Controller
    ensures { result ≡ confirmed_of c }
{
    let standing = Standing {
        spent: 0,
        ..c.standing
    };
    ended(
        Controller { standing, ..c },
        Some(Fate::Confirmed),
        Phase::Idle,
    )
}

// No answer yet: 27T is read again next frame, until the window is over.
#[tactic(auto, unfolding(crate::specs::Told::unanswered_of))]
fn unanswered(c: Controller) -> Controller
    ensures { result ≡ unanswered_of c }
{
    if overdue(c) {
        return ended(c, Some(Fate::Unconfirmed), Phase::Idle);
    }
    Controller {
        phase: Phase::Waiting,
        ..c
    }
}

// 27T was read for the open transfer.
#[tactic(auto, unfolding(crate::specs::Told::read_of))]
fn read(c: Controller, found: Finding) -> Controller
    ensures { result ≡ read_of c found }
{
    match found {
        Finding::Confirmed => confirmed(c),
        Finding::Refused => ended(c, Some(Fate::Refused), Phase::Idle),
        Finding::Reset | Finding::Other | Finding::Lost => unanswered(c),
    }
}

// The Reset is accepted: counts start again.
fn accepted(c: Controller) -> Controller
    ensures { result ≡ accepted_of c }
{
    let standing = Standing {
        accepted: true,
        count: DistributionCount(0),
        spent: 0,
    };
    Controller {
        standing,
        phase: Phase::Idle,
        ..c
    }
}

// No Reset shown yet; without it at the end of the window it is not accepted.
#[tactic(auto, unfolding(crate::specs::Told::not_shown))]
fn not_shown(c: Controller) -> Controller
    ensures { result ≡ not_shown c }
{
    let phase = if overdue(c) {
        Phase::Idle
    } else {
        Phase::ResetWaiting
    };
    Controller { phase, ..c }
}

// 27T was read for the Reset.
#[tactic(auto, unfolding(crate::specs::Told::reset_read_of))]
fn reset_read(c: Controller, found: Finding) -> Controller
    ensures { result ≡ reset_read_of c found }
{
    match found {
        Finding::Reset => accepted(c),
        Finding::Confirmed | Finding::Refused | Finding::Other | Finding::Lost => not_shown(c),
    }
}

// The Reset descriptor was told: only one that was done can be accepted.
#[tactic(auto, unfolding(crate::specs::Told::reset_sent_of))]
fn reset_sent(c: Controller, outcome: Outcome) -> Controller
    ensures { result ≡ reset_sent_of c outcome }
{
    if !outcome.is_done() {
        return Controller {
            phase: Phase::Idle,
            ..c
        };
    }
    told_now(c, Phase::ResetWaiting)
}

// A read of 27T was told, for the open transfer.
#[tactic(auto, unfolding(crate::specs::Told::told_reading))]
fn told_reading(c: Controller, outcome: Outcome, words: &[u16]) -> Controller
    ensures { result ≡ told_reading c outcome words.now }
{
    let found = finding(c, Some(c.standing.count), outcome, words);
    read(with_finding(c, Some(found)), found)
}

// A read of 27T was told, for the Reset.
#[tactic(auto, unfolding(crate::specs::Told::told_reset_reading))]
fn told_reset_reading(c: Controller, outcome: Outcome, words: &[u16]) -> Controller
    ensures { result ≡ told_reset_reading c outcome words.now }
{
    let found = finding(c, None, outcome, words);
    reset_read(with_finding(c, Some(found)), found)
}

// A read that a Reset cut was told: the Reset's turn.
#[tactic(auto, unfolding(crate::specs::Told::told_cut_reading))]
fn told_cut_reading(c: Controller, outcome: Outcome, words: &[u16]) -> Controller
    ensures { result ≡ told_cut_reading c outcome words.now }
{
    let found = finding(c, None, outcome, words);
    Controller {
        phase: Phase::Resetting,
        ..with_finding(c, Some(found))
    }
}

// 18: an outcome told when no message is asked for.
#[tactic(auto, unfolding(crate::specs::Told::told_of))]
pub fn told(c: Controller, outcome: Outcome, words: &[u16]) -> Stepped<Controller, ()>
    ensures { result ≡ told_of c outcome words.now }
{
    if !words::link::is_configured(c.link) {
        return refuse(Refusal::NotReady, c);
    }
    match c.phase {
        Phase::Idle | Phase::Waiting | Phase::ResetWaiting => refuse(Refusal::NothingAsked, c),
        Phase::Sending => accept(sent(c, outcome)),
        Phase::Resetting => accept(reset_sent(c, outcome)),
        Phase::CutSending | Phase::CutResetting => accept(Controller {
            phase: Phase::Resetting,
            ..c
        }),
        Phase::Reading => accept(told_reading(c, outcome, words)),
        Phase::ResetReading => accept(told_reset_reading(c, outcome, words)),
        Phase::CutReading => accept(told_cut_reading(c, outcome, words)),
    }
}
