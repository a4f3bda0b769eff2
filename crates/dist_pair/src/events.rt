// What either end's host does: configuring, submission, Reset, frame, take, restart of either end.
ghost use Rattle.std.specs.Prelude.{◌≡◌, length};
ghost use Rattle.dist_controller.specs.Report.{report_of};
ghost use Rattle.dist_pair.specs.Events.{controller_stepped, moved_of, terminal_stepped, submit_of, block_after, reset_of, frame_of, controller_restarted, terminal_restarted, places_restarted, take_of, buffer_after, configure_of, places_configured};

use crate::state::{Flight, Pair};
use dist_controller::report::Report;
use dist_controller::state::Controller;
use dist_terminal::state::Terminal;
use words::control::Quality;
use words::link::Settings;
use words::refusal::{Refusal, Stepped, accept, refuse};

// An event of the controller's host leaves the message asked for where it is.
fn controller_stepped(p: Pair, s: Stepped<Controller, ()>) -> Stepped<Pair, ()>
    ensures { result ≡ controller_stepped s p }
{
    Stepped {
        state: Pair {
            controller: s.state,
            ..p
        },
        answer: s.answer,
    }
}

// After a step that leaves its message behind, the next message, if one is asked for, has not arrived.
pub(crate) fn moved(p: Pair, s: Stepped<Controller, ()>) -> Stepped<Pair, ()>
    ensures { result ≡ moved_of s p }
{
    if let Err(refusal) = s.answer {
        return refuse(refusal, p);
    }
    accept(Pair {
        controller: s.state,
        flight: Flight::NotArrived,
        ..p
    })
}

// What the terminal answered stands, also where it refused.
pub(crate) fn terminal_stepped<T>(
    p: Pair,
    s: Stepped<Terminal, T>,
    flight: Flight,
) -> Stepped<Pair, T>
    ensures { result ≡ terminal_stepped s flight p }
{
    Stepped {
        state: Pair {
            terminal: s.state,
            flight,
            ..p
        },
        answer: s.answer,
    }
}

#[tactic(auto, unfolding(crate::specs::Events::submit_of))]
pub fn submit(p: Pair, quality: Quality, block: &[u8], store: &mut [u8]) -> Stepped<Pair, ()>
    ensures result { result ≡ submit_of p quality block.now (length store.old) }
    ensures bytes { store.new ≡ block_after p block.now store.old }
{
    let s = dist_controller::submit::submit(p.controller, quality, block, store);
    controller_stepped(p, s)
}

#[tactic(auto, unfolding(crate::specs::Events::reset_of))]
pub fn reset(p: Pair) -> Stepped<Pair, ()>
    ensures { result ≡ reset_of p }
{
    controller_stepped(p, dist_controller::events::reset(p.controller))
}

#[tactic(auto, unfolding(crate::specs::Events::frame_of))]
pub fn frame(p: Pair) -> Stepped<Pair, ()>
    ensures { result ≡ frame_of p }
{
    controller_stepped(p, dist_controller::events::frame(p.controller))
}

// A restarted controller's message is gone, with what was caught.
#[tactic(auto, unfolding(crate::specs::Events::controller_restarted))]
pub fn restart_controller(p: Pair) -> Stepped<Pair, ()>
    ensures { result ≡ controller_restarted p }
{
    moved(p, dist_controller::events::restart(p.controller))
}

// After a terminal's restart the controller's message stays asked for.
#[tactic(auto, unfolding(crate::specs::Events::terminal_restarted))]
pub fn restart_terminal(p: Pair, places: &mut [u8]) -> Stepped<Pair, ()>
    ensures result { result ≡ terminal_restarted p (length places.old) }
    ensures bytes { places.new ≡ places_restarted p places.old }
{
    let s = dist_terminal::calls::restart(p.terminal, places);
    terminal_stepped(p, s, p.flight)
}

#[tactic(auto, unfolding(crate::specs::Events::take_of))]
pub fn take_block(p: Pair, hand: &[u8], buffer: &mut [u8]) -> Stepped<Pair, u16>
    ensures result { result ≡ take_of p (length hand.now) (length buffer.old) }
    ensures bytes { buffer.new ≡ buffer_after p hand.now buffer.old }
{
    let s = dist_terminal::take::take_block(p.terminal, hand, buffer);
    terminal_stepped(p, s, p.flight)
}

// Both ends are configured alike, or neither is.
#[tactic(auto, unfolding(crate::specs::Events::configure_of, crate::specs::Events::places_configured))]
pub fn configure(
    p: Pair,
    settings: Settings,
    store: usize,
    places: &mut [u8],
    hand: usize,
) -> Stepped<Pair, ()>
    ensures result { result ≡ configure_of p settings store (length places.old) hand }
    ensures bytes { places.new ≡ places_configured p settings store places.old hand }
{
    let s = dist_controller::report::configure(p.controller, settings, store);
    if let Err(refusal) = s.answer {
        return refuse(refusal, p);
    }
    let t = dist_terminal::calls::configure(p.terminal, settings, places, hand);
    if let Err(refusal) = t.answer {
        return refuse(refusal, p);
    }
    accept(Pair {
        controller: s.state,
        terminal: t.state,
        flight: Flight::NotArrived,
    })
}

// What the controller tells its application.
pub fn report_of(p: Pair) -> Result<Report, Refusal>
    ensures { result ≡ report_of p.controller }
{
    dist_controller::report::report_of(p.controller)
}
