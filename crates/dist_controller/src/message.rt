// The message asked for with its words, out of the lent block store into a lent buffer (document 01, "The two machines").
ghost use Rattle.std.specs.Prelude.{◌≡◌, ◌≤◌, length};
ghost use Rattle.std.proofs.lemmas.List.Edits.{sets};
ghost use Rattle.words.specs.Control.{list_of};
ghost use Rattle.dist_controller.specs.Message.{transfer_words, words_asked, words_count, words_after, message_of, buffer_after};

use crate::asked::{asked_for, last};
use crate::state::{Controller, Phase};
use words::control::Words;
use words::link::{block_store, is_short};
use words::message::Message;
use words::refusal::Refusal;

fn put_two(out: &mut [u16; 32], words: Words) -> usize
    ensures { (result ≡ 2) × (out.new ≡ sets out.old 0 (list_of words)) }
{
    out[0] = words.first;
    out[1] = words.second;
    2
}

// The words of the transfer's last message: a part of the block, or the descriptor; a read has none.
#[tactic(auto, unfolding(crate::specs::Message::transfer_words_at, stores::specs::Reading::message_read_of, stores::specs::Reading::read_of))]
fn put_transfer_words(c: Controller, store: &[u8], out: &mut [u16; 32]) -> usize
    ensures { (result ≡ length (transfer_words c store.now))
        × (out.new ≡ sets out.old 0 (transfer_words c store.now)) }
{
    let size = c.transfer.size;
    let i = last(c.transfer.gone);
    let n = words::cutting::messages(size);
    if i < n {
        return stores::reader::read_message(store, usize::from(size), usize::from(i), out);
    }
    if n < i {
        return 0;
    }
    put_two(
        out,
        words::control::descriptor_words(c.link, size, c.transfer.quality, c.standing.count),
    )
}

#[tactic(auto, unfolding(crate::specs::Message::words_asked))]
fn put_words(c: Controller, store: &[u8], out: &mut [u16; 32]) -> usize
    ensures { (result ≡ length (words_asked c store.now))
        × (out.new ≡ sets out.old 0 (words_asked c store.now)) }
{
    match c.phase {
        Phase::Sending | Phase::CutSending => put_transfer_words(c, store, out),
        Phase::Resetting | Phase::CutResetting => put_two(out, words::control::reset_words()),
        Phase::Idle
        | Phase::Waiting
        | Phase::Reading
        | Phase::ResetWaiting
        | Phase::ResetReading
        | Phase::CutReading => 0,
    }
}

// The words of the message asked for, and how many; none where the buffer has no room for any message.
#[tactic(auto, using(crate::proofs::Counted::front), unfolding(crate::specs::Message::words_after, crate::specs::Message::words_count))]
pub fn words_asked(c: Controller, store: &[u8], out: &mut [u16]) -> usize
    ensures { (result ≡ words_count c store.now (length out.old))
        × (out.new ≡ words_after c store.now out.old) }
{
    let Some(room) = out.first_chunk_mut::<32>() else {
        return 0;
    };
    put_words(c, store, room)
}

// The buffer has room for any message, or it is too short.
#[tactic(auto, using(crate::proofs::Counted::front), unfolding(crate::specs::Message::buffer_after, crate::specs::Message::message_of, crate::specs::Submit::short_of, words::specs::Link::short_of))]
pub fn message(c: Controller, store: &[u8], out: &mut [u16]) -> Result<Option<Message>, Refusal>
    ensures result { result ≡ message_of c (length store.now) (length out.old) }
    ensures words { out.new ≡ buffer_after c store.now out.old }
{
    if is_short(c.link, block_store(c.link), store.len()) {
        return Err(Refusal::NotReady);
    }
    let Some(room) = out.first_chunk_mut::<32>() else {
        return Err(Refusal::NotReady);
    };
    put_words(c, store, room);
    Ok(asked_for(c))
}
