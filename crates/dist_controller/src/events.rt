// The controller's other events: a frame begins, a Reset is asked for, the controller restarts.
ghost use Rattle.std.specs.Prelude.{◌≡◌};
ghost use Rattle.dist_controller.specs.Events.{ticked_of, due_of, ask_again, frame_of, cut_of, voided_of, cut_transfer, reset_of, restart_of};

use crate::state::{Clock, Controller, Fate, Phase, Standing, ended, fresh, is_open, one_more};
use crate::told::age_now;
use words::refusal::{Refusal, Stepped, accept, refuse};

// The tick moves.
fn ticked(c: Controller) -> Controller
    ensures { result ≡ ticked_of c }
{
    let clock = Clock {
        tick: words::tick::next_tick(c.clock.tick),
        ..c.clock
    };
    Controller { clock, ..c }
}

// Whether 27T may be read: from age 2.
#[tactic(auto, unfolding(crate::specs::Events::due_of))]
fn due(c: Controller) -> bool
    ensures { result ≡ due_of c }
{
    2 <= age_now(c)
}

// At a tick with nothing asked, a waiting transfer or Reset reads 27T.
#[tactic(auto, unfolding(crate::specs::Events::ask_again))]
fn ask_again(c: Controller) -> Controller
    ensures { result ≡ ask_again c }
{
    if !due(c) {
        return c;
    }
    match c.phase {
        Phase::Waiting => one_more(c, Phase::Reading),
        Phase::ResetWaiting => Controller {
            phase: Phase::ResetReading,
            ..c
        },
        Phase::Idle
        | Phase::Sending
        | Phase::Reading
        | Phase::Resetting
        | Phase::ResetReading
        | Phase::CutSending
        | Phase::CutReading
        | Phase::CutResetting => c,
    }
}

// A frame begins.
#[tactic(auto, unfolding(crate::specs::Events::frame_of))]
pub fn frame(c: Controller) -> Stepped<Controller, ()>
    ensures { result ≡ frame_of c }
{
    if !words::link::is_configured(c.link) {
        return refuse(Refusal::NotReady, c);
    }
    accept(ask_again(ticked(c)))
}

// Where a Reset leads: at once to its descriptor, or, with a message out, to that message's outcome first.
fn cut(phase: Phase) -> Phase
    ensures { result ≡ cut_of phase }
{
    match phase {
        Phase::Idle | Phase::Waiting | Phase::ResetWaiting => Phase::Resetting,
        Phase::Sending | Phase::CutSending => Phase::CutSending,
        Phase::Reading | Phase::ResetReading | Phase::CutReading => Phase::CutReading,
        Phase::Resetting | Phase::CutResetting => Phase::CutResetting,
    }
}

// An earlier acceptance is void.
fn voided(c: Controller, phase: Phase) -> Controller
    ensures { result ≡ voided_of phase c }
{
    let standing = Standing {
        accepted: false,
        ..c.standing
    };
    Controller {
        standing,
        phase,
        ..c
    }
}

// An open transfer is abandoned at once.
#[tactic(auto, unfolding(crate::specs::Events::cut_transfer))]
fn cut_transfer(c: Controller, phase: Phase) -> Controller
    ensures { result ≡ cut_transfer phase c }
{
    if is_open(c.phase) {
        return ended(c, Some(Fate::Abandoned), phase);
    }
    Controller { phase, ..c }
}

// A Reset is asked for.
#[tactic(auto, unfolding(crate::specs::Events::reset_of))]
pub fn reset(c: Controller) -> Stepped<Controller, ()>
    ensures { result ≡ reset_of c }
{
    if !words::link::is_configured(c.link) {
        return refuse(Refusal::NotReady, c);
    }
    let phase = cut(c.phase);
    accept(voided(cut_transfer(c, phase), phase))
}

// The controller restarts: all but configuration and tick is fresh.
#[tactic(auto, unfolding(crate::specs::Events::restart_of))]
pub fn restart(c: Controller) -> Stepped<Controller, ()>
    ensures { result ≡ restart_of c }
{
    if !words::link::is_configured(c.link) {
        return refuse(Refusal::NotReady, c);
    }
    accept(fresh(c.link, c.clock.tick))
}
