// What the controller keeps of one link, and the changes that its events are made of.
ghost use Rattle.std.specs.Prelude.{◌≡◌};
ghost use Rattle.dist_controller.specs.State.{is_open, fresh_of, one_more, with_finding, ended_of};

use words::control::Quality;
use words::count::DistributionCount;
use words::link::Link;

// Where the controller stands. The last three: a Reset was asked for while such a message was out, which is told first, without effect.
#[derive(Clone, Copy)]
pub enum Phase {
    Idle,
    Sending,
    Waiting,
    Reading,
    Resetting,
    ResetWaiting,
    ResetReading,
    CutSending,
    CutReading,
    CutResetting,
}

// What became of the transfer that was started last.
#[derive(Clone, Copy)]
pub enum Fate {
    Open,
    Confirmed,
    Refused,
    Unconfirmed,
    Abandoned,
}

// What the last read of 27T found.
#[derive(Clone, Copy)]
pub enum Finding {
    Reset,
    Confirmed,
    Refused,
    Other,
    Lost,
}

// The transfer that was started last; `gone` counts the messages that it asked for.
#[derive(Clone, Copy)]
pub struct Transfer {
    pub size: u16,
    pub quality: Quality,
    pub gone: u16,
    pub fate: Option<Fate>,
}

// The present tick, and the one at which the descriptor's outcome was told.
#[derive(Clone, Copy)]
pub struct Clock {
    pub tick: u16,
    pub since: u16,
}

// Whether a Reset is accepted, the last count taken, and the transfers started since the last confirmed block or accepted Reset.
#[derive(Clone, Copy)]
pub struct Standing {
    pub accepted: bool,
    pub count: DistributionCount,
    pub spent: u8,
}

#[derive(Clone, Copy)]
pub struct Controller {
    pub link: Link,
    pub clock: Clock,
    pub standing: Standing,
    pub phase: Phase,
    pub transfer: Transfer,
    pub found: Option<Finding>,
}

// Nothing open or asked for, and no Reset accepted.
pub fn fresh(link: Link, tick: u16) -> Controller
    ensures { result ≡ fresh_of link tick }
{
    Controller {
        link,
        clock: Clock { tick, since: 0 },
        standing: Standing {
            accepted: false,
            count: DistributionCount(0),
            spent: 0,
        },
        phase: Phase::Idle,
        transfer: Transfer {
            size: 0,
            quality: Quality::BestEffort,
            gone: 0,
            fate: None,
        },
        found: None,
    }
}

// One more message of the transfer is asked for. Their count stops at the last number that it has.
#[tactic(auto, unfolding(crate::specs::State::counted_of))]
pub fn one_more(c: Controller, phase: Phase) -> Controller
    ensures { result ≡ one_more phase c }
{
    let transfer = Transfer {
        gone: c.transfer.gone.saturating_add(1),
        ..c.transfer
    };
    Controller {
        transfer,
        phase,
        ..c
    }
}

// What the last read of 27T found.
pub fn with_finding(c: Controller, found: Option<Finding>) -> Controller
    ensures { result ≡ with_finding found c }
{
    Controller { found, ..c }
}

// The transfer's fate is known.
pub fn ended(c: Controller, fate: Option<Fate>, phase: Phase) -> Controller
    ensures { result ≡ ended_of fate phase c }
{
    let transfer = Transfer { fate, ..c.transfer };
    Controller {
        transfer,
        phase,
        ..c
    }
}

// Whether a transfer is open.
pub fn is_open(phase: Phase) -> bool
    ensures { result ≡ is_open phase }
{
    match phase {
        Phase::Sending | Phase::Waiting | Phase::Reading => true,
        Phase::Idle
        | Phase::Resetting
        | Phase::ResetWaiting
        | Phase::ResetReading
        | Phase::CutSending
        | Phase::CutReading
        | Phase::CutResetting => false,
    }
}
