// What either end's host does: configuring, placing, Reset, frame, take, restart of either end.
ghost use Rattle.std.specs.Prelude.{◌≡◌, length};
ghost use Rattle.acq_controller.specs.Report as ControllerReport;
ghost use Rattle.acq_terminal.specs.Calls as TerminalCalls;
ghost use Rattle.acq_pair.specs.Events.{controller_stepped, moved_of, terminal_stepped, place_of, block_after, reset_of, frame_of, controller_restarted, terminal_restarted, take_of, buffer_after, configure_of};

use crate::state::{Flight, Pair};
use acq_controller::report::Report as Received;
use acq_controller::state::Controller;
use acq_terminal::calls::Report as Sent;
use acq_terminal::state::Terminal;
use words::control::Quality;
use words::link::Settings;
use words::refusal::{Refusal, Stepped, accept, refuse};

// An event of the controller's host leaves the message asked for where it is.
fn controller_stepped<T>(p: Pair, s: Stepped<Controller, T>) -> Stepped<Pair, T>
    ensures { result ≡ controller_stepped s p }
{
    Stepped {
        state: Pair {
            controller: s.state,
            ..p
        },
        answer: s.answer,
    }
}

// After a step that leaves its message behind, the next message, if one is asked for, has not arrived.
fn moved(p: Pair, s: Stepped<Controller, ()>) -> Stepped<Pair, ()>
    ensures { result ≡ moved_of s p }
{
    if let Err(refusal) = s.answer {
        return refuse(refusal, p);
    }
    accept(Pair {
        controller: s.state,
        flight: Flight::NotArrived,
        ..p
    })
}

// What the terminal answered stands, also where it refused.
pub(crate) fn terminal_stepped(
    p: Pair,
    s: Stepped<Terminal, ()>,
    flight: Flight,
) -> Stepped<Pair, ()>
    ensures { result ≡ terminal_stepped s flight p }
{
    Stepped {
        state: Pair {
            terminal: s.state,
            flight,
            ..p
        },
        answer: s.answer,
    }
}

#[tactic(auto, unfolding(crate::specs::Events::place_of))]
pub fn place(p: Pair, quality: Quality, block: &[u8], store: &mut [u8]) -> Stepped<Pair, ()>
    ensures result { result ≡ place_of p quality block.now (length store.old) }
    ensures bytes { store.new ≡ block_after p block.now store.old }
{
    let s = acq_terminal::place::place(p.terminal, quality, block, store);
    terminal_stepped(p, s, p.flight)
}

// The terminal's application asks for a Reset.
#[tactic(auto, unfolding(crate::specs::Events::reset_of))]
pub fn reset(p: Pair) -> Stepped<Pair, ()>
    ensures { result ≡ reset_of p }
{
    terminal_stepped(p, acq_terminal::calls::reset(p.terminal), p.flight)
}

#[tactic(auto, unfolding(crate::specs::Events::frame_of))]
pub fn frame(p: Pair) -> Stepped<Pair, ()>
    ensures { result ≡ frame_of p }
{
    controller_stepped(p, acq_controller::events::frame(p.controller))
}

// A restarted controller's message is gone, with what was caught.
#[tactic(auto, unfolding(crate::specs::Events::controller_restarted))]
pub fn restart_controller(p: Pair) -> Stepped<Pair, ()>
    ensures { result ≡ controller_restarted p }
{
    moved(p, acq_controller::events::restart(p.controller))
}

// A message on its way stays there.
#[tactic(auto, unfolding(crate::specs::Events::terminal_restarted))]
pub fn restart_terminal(p: Pair) -> Stepped<Pair, ()>
    ensures { result ≡ terminal_restarted p }
{
    terminal_stepped(p, acq_terminal::calls::restart(p.terminal), p.flight)
}

#[tactic(auto, unfolding(crate::specs::Events::take_of))]
pub fn take_block(p: Pair, hand: &[u8], buffer: &mut [u8]) -> Stepped<Pair, u16>
    ensures result { result ≡ take_of p (length hand.now) (length buffer.old) }
    ensures bytes { buffer.new ≡ buffer_after p hand.now buffer.old }
{
    let s = acq_controller::events::take_block(p.controller, hand, buffer);
    controller_stepped(p, s)
}

// Both ends are configured alike, or neither is.
#[tactic(auto, unfolding(crate::specs::Events::configure_of))]
pub fn configure(
    p: Pair,
    settings: Settings,
    block_store: usize,
    store: usize,
    hand: usize,
) -> Stepped<Pair, ()>
    ensures { result ≡ configure_of p settings block_store store hand }
{
    let s = acq_controller::report::configure(p.controller, settings, store, hand);
    if let Err(refusal) = s.answer {
        return refuse(refusal, p);
    }
    let t = acq_terminal::calls::configure(p.terminal, settings, block_store);
    if let Err(refusal) = t.answer {
        return refuse(refusal, p);
    }
    accept(Pair {
        controller: s.state,
        terminal: t.state,
        flight: Flight::NotArrived,
    })
}

// What the controller tells its application.
pub fn received(p: Pair) -> Result<Received, Refusal>
    ensures { result ≡ ControllerReport.report_of p.controller }
{
    acq_controller::report::report_of(p.controller)
}

// What the terminal tells its application.
pub fn sent(p: Pair) -> Result<Sent, Refusal>
    ensures { result ≡ TerminalCalls.report_of p.terminal }
{
    acq_terminal::calls::report_of(p.terminal)
}
