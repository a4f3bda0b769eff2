// The controller's other events: a frame begins, the application takes the block in hand, the controller restarts.
ghost use Rattle.std.specs.Prelude.{◌≡◌, length};
ghost use Rattle.acq_controller.specs.Events.{counted_in, poll_of, frame_of, restart_of, taken_of, take_of, buffer_after};

use crate::state::{Block, Controller, Fate, Handled, Phase, Transfer, confirming, fresh};
use words::link::{block_store, is_short};
use words::refusal::{Refusal, Stepped, accept, refuse};

// With a block in hand a read counts for that block.
fn counted(handled: Handled, gone: u16) -> u16
    ensures { result ≡ counted_in handled gone }
{
    match handled {
        Handled::Held(_) => gone.saturating_add(1),
        Handled::Nothing | Handled::Taken(_) | Handled::Failed(_) => gone,
    }
}

// With nothing out, 28T is read.
fn poll(c: Controller) -> Controller
    ensures { result ≡ poll_of c }
{
    match c.phase {
        Phase::Idle => Controller {
            phase: Phase::Polling,
            transfer: Transfer {
                gone: counted(c.handled, c.transfer.gone),
                ..c.transfer
            },
            ..c
        },
        Phase::Polling
        | Phase::PollingDue
        | Phase::Fetching(_)
        | Phase::Checking(_)
        | Phase::Confirming(_)
        | Phase::ConfirmingReset
        | Phase::Commanding => c,
    }
}

// A frame begins.
#[tactic(auto, unfolding(crate::specs::Events::frame_of))]
pub fn frame(c: Controller) -> Stepped<Controller, ()>
    ensures { result ≡ frame_of c }
{
    if !words::link::is_configured(c.link) {
        return refuse(Refusal::NotReady, c);
    }
    let tick = words::tick::next_tick(c.tick);
    accept(poll(Controller { tick, ..c }))
}

// A restart keeps configuration and tick; the message asked for is gone.
#[tactic(auto, unfolding(crate::specs::Events::restart_of))]
pub fn restart(c: Controller) -> Stepped<Controller, ()>
    ensures { result ≡ restart_of c }
{
    if !words::link::is_configured(c.link) {
        return refuse(Refusal::NotReady, c);
    }
    accept(fresh(c.link, c.tick))
}

// The confirmation is asked for now, or waits for a first read that is out.
fn taken(c: Controller, block: Block) -> Controller
    ensures { result ≡ taken_of block c }
{
    let transfer = Transfer {
        fate: Some(Fate::Taken),
        ..c.transfer
    };
    let handled = Handled::Taken(block);
    let after = Controller {
        handled,
        transfer,
        ..c
    };
    match c.phase {
        Phase::Idle => confirming(after, block, false),
        Phase::Polling => Controller {
            phase: Phase::PollingDue,
            ..after
        },
        Phase::PollingDue
        | Phase::Fetching(_)
        | Phase::Checking(_)
        | Phase::Confirming(_)
        | Phase::ConfirmingReset
        | Phase::Commanding => after,
    }
}

// Taking a block delivers it, and answers its size; bytes of the buffer past the block stay.
#[tactic(auto, unfolding(crate::specs::Events::take_of, crate::specs::Events::buffer_after))]
pub fn take_block(c: Controller, hand: &[u8], buffer: &mut [u8]) -> Stepped<Controller, u16>
    ensures result { result ≡ take_of c (length hand.now) (length buffer.old) }
    ensures bytes { buffer.new ≡ buffer_after c hand.now buffer.old }
{
    if is_short(c.link, block_store(c.link), hand.len()) {
        return refuse(Refusal::NotReady, c);
    }
    let Handled::Held(block) = c.handled else {
        return refuse(Refusal::NothingToTake, c);
    };
    let size = usize::from(block.size);
    if buffer.len() < size {
        return refuse(Refusal::ShortBuffer, c);
    }
    stores::copies::copy_bytes(hand, buffer, size);
    Stepped {
        state: taken(c, block),
        answer: Ok(block.size),
    }
}
