// A line is answered: the event that it names happens to the link, and its answer is put on the page.
ghost use Rattle.std.specs.Prelude.{◌≡◌, length};
ghost use Rattle.blockrun_lines.specs.Lines.{numbered_text};
ghost use Rattle.blockrun_lines.specs.Answers.{take_line_text, found_of, send_line, send_block, carried_of, places_carried, hand_carried, message_text};
ghost use Rattle.blockrun_lines.specs.Answers.{bus_pair, bus_text, bus_places, bus_hand};
ghost use Rattle.std.proofs.lemmas.List.Edits.{sets};
ghost use Rattle.blockrun_text.specs.Pages.{put};
ghost use Rattle.blockrun_text.specs.Hex.{block_of};
ghost use Rattle.dist_pair.specs.Events as Events;

use crate::print::{put_answer, put_found, put_no, put_sent, put_taken};
use blockrun_text::parse::Way;
use blockrun_text::print::Page;
use dist_controller::state::Finding;
use dist_pair::state::Pair;
use words::control::Quality;
use words::message::Message;
use words::refusal::{Numbered, Refusal, Stepped};

// An event with nothing more to say than its number.
pub fn stepped<E: Numbered>(
    s: Stepped<Pair, (), E>,
    pair: &mut Pair,
    number: u64,
    page: &mut Page<'_>,
)
    ensures pair { pair.new ≡ s.state }
    ensures page { page.new ≡ put page.old (numbered_text E.number number s.answer) }
{
    *pair = s.state;
    put_answer(page, number, s.answer);
}

// `take`: the bytes, by way of the lent room.
#[tactic(auto, unfolding(crate::specs::Answers::take_line_text))]
pub fn take_line(pair: &mut Pair, number: u64, hand: &[u8], room: &mut [u8], page: &mut Page<'_>)
    ensures pair { pair.new ≡ (Events.take_of pair.old (length hand.now) (length room.old)).state }
    ensures bytes { room.new ≡ Events.buffer_after pair.old hand.now room.old }
    ensures page { page.new ≡ put page.old (take_line_text pair.old number hand.now room.old) }
{
    let s = dist_pair::events::take_block(*pair, hand, room);
    *pair = s.state;
    match s.answer {
        Err(refusal) => put_no(page, number, refusal as u8),
        Ok(size) => {
            let n = usize::from(size).min(room.len());
            put_taken(page, number, &room[..n]);
        }
    }
}

// `send`: the block of a hex field, by way of the lent room.
#[tactic(auto, unfolding(blockrun_text::specs::Hex::block_size_of, crate::specs::Answers::send_line, crate::specs::Answers::send_block))]
pub fn send_line(
    p: Pair,
    quality: Quality,
    line: &[u8],
    from: usize,
    digits: usize,
    room: &mut [u8],
    store: &mut [u8],
) -> Stepped<Pair, ()>
    ensures result { result ≡ send_line p quality line.now from digits room.old (length store.old) }
    ensures bytes { (room.new ≡ sets room.old 0 (block_of line.now from digits))
        × (store.new ≡ Events.block_after p (send_block line.now from digits room.old) store.old) }
{
    let n = blockrun_text::parse::read_block(line, from, digits, room);
    dist_pair::events::submit(p, quality, &room[..n], store)
}

// What the last read of 27T found.
#[tactic(auto, unfolding(crate::specs::Answers::found_of))]
pub fn found_of(p: Pair) -> Option<Finding>
    ensures { result ≡ found_of p }
{
    dist_pair::events::report_of(p).ok()?.found
}

// What the bus does with the message asked for: it arrives and is told done, arrives and its reply is lost, or does not arrive.
pub fn carried(
    p: Pair,
    way: Way,
    store: &[u8],
    places: &mut [u8],
    hand: &mut [u8],
) -> Stepped<Pair, ()>
    ensures result { result ≡ carried_of p way store.now (length places.old) (length hand.old) }
    ensures bytes { (places.new ≡ places_carried p way store.now places.old (length hand.old))
        × (hand.new ≡ hand_carried p way store.now places.old hand.old) }
{
    match way {
        Way::Done => {
            let arrived = dist_pair::bus::arrive(p, store, places, hand);
            dist_pair::bus::told_done(arrived.state)
        }
        Way::ReplyLost => {
            let arrived = dist_pair::bus::arrive(p, store, places, hand);
            dist_pair::bus::told_no_reply(arrived.state)
        }
        Way::NotArrived => dist_pair::bus::told_no_reply(p),
    }
}

// The message that was asked for, with its words, or what its read found.
fn put_message(
    asked: Option<Message>,
    words: &[u16],
    found: Option<Finding>,
    number: u64,
    page: &mut Page<'_>,
)
    ensures { page.new ≡ put page.old (message_text number asked words.now found) }
{
    match asked {
        None => put_no(page, number, Refusal::NothingAsked as u8),
        Some(Message::Transmit { .. }) => put_found(page, number, found),
        Some(
            Message::Receive {
                subaddress,
                words: n,
            },
        ) => {
            let sent = usize::from(n).min(words.len());
            put_sent(page, number, subaddress, &words[..sent])
        }
    }
}

// `bus`: the message asked for fares so on the bus.
#[tactic(auto, unfolding(crate::specs::Answers::bus_pair, crate::specs::Answers::bus_text, crate::specs::Answers::bus_places, crate::specs::Answers::bus_hand))]
pub fn bus_line(
    pair: &mut Pair,
    way: Way,
    number: u64,
    store: &[u8],
    places: &mut [u8],
    hand: &mut [u8],
    page: &mut Page<'_>,
)
    ensures pair { pair.new ≡ bus_pair pair.old way store.now (length places.old) (length hand.old) }
    ensures bytes { (places.new ≡ bus_places pair.old way store.now places.old (length hand.old))
        × (hand.new ≡ bus_hand pair.old way store.now places.old hand.old) }
    ensures page { page.new ≡ put page.old (bus_text pair.old way number store.now (length places.old) (length hand.old)) }
{
    let mut words = [0u16; 32];
    match dist_pair::bus::message(*pair, store, &mut words) {
        Err(refusal) => put_no(page, number, refusal as u8),
        Ok(asked) => {
            let s = carried(*pair, way, store, places, hand);
            *pair = s.state;
            put_message(asked, &words, found_of(s.state), number, page);
        }
    }
}
