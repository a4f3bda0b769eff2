// A block is submitted (document 01, "Distribution").
ghost use Rattle.std.specs.Prelude.{◌≡◌, length};
ghost use Rattle.dist_controller.specs.Submit.{room_answer_of, one_more_spent, submit_answer_of, started_of, submit_of, store_after};

use crate::state::{Controller, Fate, Phase, Standing, Transfer, is_open};
use words::control::Quality;
use words::link::{block_store, is_short};
use words::refusal::{Refusal, Stepped, accept, refuse};

// 4 and 5: a transfer is open, or 254 are spent.
#[tactic(auto, unfolding(crate::specs::Submit::room_answer_of))]
fn room_answer(c: Controller) -> Result<(), Refusal>
    ensures { result ≡ room_answer_of c }
{
    if is_open(c.phase) {
        return Err(Refusal::TransferOpen);
    }
    if 254 <= c.standing.spent {
        return Err(Refusal::TransfersSpent);
    }
    Ok(())
}

// Refusals 1 to 5, the lowest first.
#[tactic(auto, unfolding(crate::specs::Submit::submit_answer_of, crate::specs::Submit::short_of, words::specs::Link::short_of))]
fn submit_answer(c: Controller, size: usize, store: usize) -> Result<(), Refusal>
    ensures { result ≡ submit_answer_of c size store }
{
    if is_short(c.link, block_store(c.link), store) {
        return Err(Refusal::NotReady);
    }
    if !c.standing.accepted {
        return Err(Refusal::NoAcceptedReset);
    }
    words::cutting::size_answer(c.link, size)?;
    room_answer(c)
}

// Below 254 this is one more; the byte never runs over.
#[tactic(auto, unfolding(crate::specs::Submit::one_more_spent))]
fn one_more_spent(spent: u8) -> u8
    ensures { result ≡ one_more_spent spent }
{
    if 254 <= spent { spent } else { spent + 1 }
}

// A transfer takes the next count and asks for its first data message at once.
#[tactic(auto, unfolding(crate::specs::Submit::started_of))]
fn started(c: Controller, quality: Quality, size: u16) -> Controller
    ensures { result ≡ started_of quality size c }
{
    let standing = Standing {
        count: c.standing.count.next(),
        spent: one_more_spent(c.standing.spent),
        ..c.standing
    };
    Controller {
        standing,
        phase: Phase::Sending,
        transfer: Transfer {
            size,
            quality,
            gone: 1,
            fate: Some(Fate::Open),
        },
        ..c
    }
}

// A block is submitted; where it is accepted it is written, message by message, into the lent store.
#[tactic(auto, unfolding(crate::specs::Submit::submit_of, crate::specs::Submit::store_after))]
pub fn submit(
    c: Controller,
    quality: Quality,
    block: &[u8],
    store: &mut [u8],
) -> Stepped<Controller, ()>
    ensures result { result ≡ submit_of c quality block.now (length store.old) }
    ensures bytes { store.new ≡ store_after c block.now store.old }
{
    if let Err(refusal) = submit_answer(c, block.len(), store.len()) {
        return refuse(refusal, c);
    }
    stores::copies::store_block(store, block);
    accept(started(c, quality, block.len() as u16))
}
