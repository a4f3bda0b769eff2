// What the controller keeps of one link, and the changes that its events are made of.
ghost use Rattle.std.specs.Prelude.{◌≡◌};
ghost use Rattle.acq_controller.specs.State.{fresh_of, with_transfer, confirming_of, reset_seen, held_of, failed_of};

use words::control::{Quality, Words, acquisition_confirmation_words};
use words::count::AcquisitionCount;
use words::link::{Link, Mode, mode_of};

// A block that was handled, as its confirmation names it.
#[derive(Clone, Copy)]
pub struct Block {
    pub size: u16,
    pub count: AcquisitionCount,
}

// The last handled block: its bytes are in the hand, were taken, or could not be had. None after a Reset.
#[derive(Clone, Copy)]
pub enum Handled {
    Nothing,
    Held(Block),
    Taken(Block),
    Failed(Block),
}

// A block that is being read: its request, as 28T showed it and what that says, and the part asked for, from 0.
#[derive(Clone, Copy)]
pub struct Attempt {
    pub request: Words,
    pub quality: Quality,
    pub block: Block,
    pub part: u16,
}

// What is asked for: nothing; the first read of 28T, behind which a confirmation may be due; a part of the block; the second read;
// a confirmation, with its words; the reset confirmation; the Reset command.
#[derive(Clone, Copy)]
pub enum Phase {
    Idle,
    Polling,
    PollingDue,
    Fetching(Attempt),
    Checking(Attempt),
    Confirming(Words),
    ConfirmingReset,
    Commanding,
}

// What became of the transfer that was held or failed last.
#[derive(Clone, Copy)]
pub enum Fate {
    Held,
    Taken,
    Failed,
    Reset,
}

// The transfer that was held or failed last. `gone` counts the messages that it asked for before its first confirmation;
// `closed`: that was asked for too.
#[derive(Clone, Copy)]
pub struct Transfer {
    pub size: u16,
    pub gone: u16,
    pub closed: bool,
    pub fate: Option<Fate>,
}

#[derive(Clone, Copy)]
pub struct Controller {
    pub link: Link,
    pub tick: u16,
    pub seen: bool,
    pub handled: Handled,
    pub phase: Phase,
    pub transfer: Transfer,
}

// No Reset seen, nothing handled or asked for.
pub fn fresh(link: Link, tick: u16) -> Controller
    ensures { result ≡ fresh_of link tick }
{
    Controller {
        link,
        tick,
        seen: false,
        handled: Handled::Nothing,
        phase: Phase::Idle,
        transfer: Transfer {
            size: 0,
            gone: 0,
            closed: false,
            fate: None,
        },
    }
}

// The first confirmation of a transfer: its last message.
pub fn confirming(c: Controller, block: Block, error: bool) -> Controller
    ensures { result ≡ confirming_of block error c }
{
    let words = acquisition_confirmation_words(c.link, block.size, error, block.count);
    Controller {
        phase: Phase::Confirming(words),
        transfer: Transfer {
            closed: true,
            ..c.transfer
        },
        ..c
    }
}

// A Reset was read: what is held, a confirmation due and last handled go, and the reset confirmation is asked for.
pub fn reset_seen(c: Controller) -> Controller
    ensures { result ≡ reset_seen c }
{
    let fate = match c.handled {
        Handled::Held(_) => Some(Fate::Reset),
        Handled::Nothing | Handled::Taken(_) | Handled::Failed(_) => c.transfer.fate,
    };
    Controller {
        seen: true,
        handled: Handled::Nothing,
        phase: Phase::ConfirmingReset,
        transfer: Transfer { fate, ..c.transfer },
        ..c
    }
}

// A block that was read goes into the hand, after `gone` messages.
pub fn held(c: Controller, block: Block, gone: u16) -> Controller
    ensures { result ≡ held_of block gone c }
{
    Controller {
        handled: Handled::Held(block),
        phase: Phase::Idle,
        transfer: Transfer {
            size: block.size,
            gone,
            closed: false,
            fate: Some(Fate::Held),
        },
        ..c
    }
}

// A block that could not be had, after `gone` messages: mode 0 tries again, mode 1 gives it up.
pub fn failed(c: Controller, block: Block, gone: u16) -> Controller
    ensures { result ≡ failed_of block gone c }
{
    match mode_of(c.link) {
        Mode::Zero => Controller {
            phase: Phase::Idle,
            ..c
        },
        Mode::One => {
            let transfer = Transfer {
                size: block.size,
                gone,
                closed: false,
                fate: Some(Fate::Failed),
            };
            let handled = Handled::Failed(block);
            confirming(
                Controller {
                    handled,
                    transfer,
                    ..c
                },
                block,
                true,
            )
        }
    }
}
