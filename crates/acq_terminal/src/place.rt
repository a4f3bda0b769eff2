// A block is placed, with its request (document 01, "Acquisition").
ghost use Rattle.std.specs.Prelude.{◌≡◌, length};
ghost use Rattle.acq_terminal.specs.Place.{room_answer_of, place_answer_of, placed_of, place_of, store_after};

use crate::state::{Fate, Placed, Stage, Terminal};
use words::control::Quality;
use words::link::{block_store, is_short};
use words::refusal::{Refusal, Stepped, accept, refuse};

// 4: an earlier block is open.
fn room_answer(stage: Stage) -> Result<(), Refusal>
    ensures { result ≡ room_answer_of stage }
{
    match stage {
        Stage::Open(_) => Err(Refusal::TransferOpen),
        Stage::Silent | Stage::Asking | Stage::Ready => Ok(()),
    }
}

// Refusals 1 to 4, the lowest first.
#[tactic(auto, unfolding(crate::specs::Place::place_answer_of))]
fn place_answer(t: Terminal, size: usize, store: usize) -> Result<(), Refusal>
    ensures { result ≡ place_answer_of t size store }
{
    if is_short(t.link, block_store(t.link), store) {
        return Err(Refusal::NotReady);
    }
    match t.stage {
        Stage::Silent | Stage::Asking => Err(Refusal::NoAcceptedReset),
        Stage::Ready | Stage::Open(_) => {
            words::cutting::size_answer(t.link, size)?;
            room_answer(t.stage)
        }
    }
}

// The block takes the next count; mode 1 begins at its first part.
fn placed(t: Terminal, quality: Quality, size: u16) -> Terminal
    ensures { result ≡ placed_of quality size t }
{
    Terminal {
        stage: Stage::Open(Placed {
            size,
            quality,
            part: 0,
        }),
        count: t.count.next(),
        fate: Some(Fate::Open),
        ..t
    }
}

// A block is placed; where it is accepted it is written, message by message, into the lent store.
#[tactic(auto, unfolding(crate::specs::Place::place_of, crate::specs::Place::store_after))]
pub fn place(t: Terminal, quality: Quality, block: &[u8], store: &mut [u8]) -> Stepped<Terminal, ()>
    ensures result { result ≡ place_of t quality block.now (length store.old) }
    ensures bytes { store.new ≡ store_after t block.now store.old }
{
    if let Err(refusal) = place_answer(t, block.len(), store.len()) {
        return refuse(refusal, t);
    }
    stores::copies::store_block(store, block);
    accept(placed(t, quality, block.len() as u16))
}
