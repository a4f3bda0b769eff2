// The bus: the message asked for arrives, at most once, and its outcome is told (document 01, "The two machines").
ghost use Rattle.std.specs.Prelude.{◌≡◌, length};
ghost use Rattle.dist_controller.specs.Message as Asked;
ghost use Rattle.dist_pair.specs.Bus.{lent_short, receive_of, places_received, hand_received, caught_of, has_arrived};
ghost use Rattle.dist_pair.specs.Bus.{arrive_of, places_after, hand_after, tell_of, told_done, told_no_reply};

use crate::events::{moved, terminal_stepped};
use crate::state::{Flight, Pair};
use words::link::{block_store, is_short};
use words::message::Message;
use words::refusal::{Refusal, Stepped, accept, refuse};
use words::status::Outcome;

// Whether the link is not configured at either end, or a store is lent too short.
#[tactic(auto, unfolding(crate::specs::Bus::lent_short, dist_controller::specs::Submit::short_of, words::specs::Link::short_of))]
fn lent_short(p: Pair, store: usize, places: usize, hand: usize) -> bool
    ensures { result ≡ lent_short p store places hand }
{
    is_short(p.controller.link, block_store(p.controller.link), store)
        || dist_terminal::descriptor::stores_short(p.terminal.link, places, hand)
}

// The message's words reach the terminal, which acts at once.
#[tactic(auto, unfolding(dist_controller::specs::Message::words_count, crate::specs::Bus::hand_received, crate::specs::Bus::places_received, crate::specs::Bus::receive_of, dist_controller::specs::Message::words_after))]
fn deliver(
    p: Pair,
    subaddress: u8,
    store: &[u8],
    places: &mut [u8],
    hand: &mut [u8],
) -> Stepped<Pair, ()>
    ensures result { result ≡ receive_of p subaddress store.now (length places.old) (length hand.old) }
    ensures bytes { (places.new ≡ places_received p subaddress store.now places.old (length hand.old))
        × (hand.new ≡ hand_received p subaddress store.now places.old hand.old) }
{
    let mut words = [0u16; 32];
    let n = dist_controller::message::words_asked(p.controller, store, &mut words);
    let s = dist_terminal::calls::receive(p.terminal, subaddress, &words[0..n], places, hand);
    terminal_stepped(p, s, Flight::Arrived)
}

// Of a read the words of 27T are caught at the terminal.
fn catch(p: Pair) -> Stepped<Pair, ()>
    ensures { result ≡ caught_of p }
{
    accept(Pair {
        flight: Flight::Caught(p.terminal.shown),
        ..p
    })
}

fn has_arrived(flight: Flight) -> bool
    ensures { result ≡ has_arrived flight }
{
    match flight {
        Flight::NotArrived => false,
        Flight::Arrived | Flight::Caught(_) => true,
    }
}

// 18: no message is asked for, or it arrived already.
#[tactic(auto, unfolding(crate::specs::Bus::arrive_of, crate::specs::Bus::hand_after, crate::specs::Bus::places_after))]
pub fn arrive(p: Pair, store: &[u8], places: &mut [u8], hand: &mut [u8]) -> Stepped<Pair, ()>
    ensures result { result ≡ arrive_of p store.now (length places.old) (length hand.old) }
    ensures bytes { (places.new ≡ places_after p store.now places.old (length hand.old))
        × (hand.new ≡ hand_after p store.now places.old hand.old) }
{
    if lent_short(p, store.len(), places.len(), hand.len()) {
        return refuse(Refusal::NotReady, p);
    }
    if has_arrived(p.flight) {
        return refuse(Refusal::NothingAsked, p);
    }
    match dist_controller::asked::asked_for(p.controller) {
        None => refuse(Refusal::NothingAsked, p),
        Some(Message::Transmit { .. }) => catch(p),
        Some(Message::Receive { subaddress, .. }) => deliver(p, subaddress, store, places, hand),
    }
}

// The outcome is told; the next message, if one is asked for, has not arrived.
#[tactic(auto, unfolding(crate::specs::Bus::tell_of))]
fn tell(p: Pair, outcome: Outcome, words: &[u16]) -> Stepped<Pair, ()>
    ensures { result ≡ tell_of p outcome words.now }
{
    moved(p, dist_controller::told::told(p.controller, outcome, words))
}

// Done: only of a message that arrived, with what was caught.
#[tactic(auto, unfolding(crate::specs::Bus::told_done))]
pub fn told_done(p: Pair) -> Stepped<Pair, ()>
    ensures { result ≡ told_done p }
{
    if !words::link::is_configured(p.controller.link) {
        return refuse(Refusal::NotReady, p);
    }
    match p.flight {
        Flight::NotArrived => refuse(Refusal::NothingAsked, p),
        Flight::Arrived => tell(p, Outcome::Done, &[]),
        Flight::Caught(shown) => tell(p, Outcome::Done, &[shown.first, shown.second]),
    }
}

// No reply: the message arrived or not.
#[tactic(auto, unfolding(crate::specs::Bus::told_no_reply))]
pub fn told_no_reply(p: Pair) -> Stepped<Pair, ()>
    ensures { result ≡ told_no_reply p }
{
    tell(p, Outcome::NoReply, &[])
}

// The message asked for, with its words in the lent buffer.
pub fn message(p: Pair, store: &[u8], out: &mut [u16]) -> Result<Option<Message>, Refusal>
    ensures result { result ≡ Asked.message_of p.controller (length store.now) (length out.old) }
    ensures words { out.new ≡ Asked.buffer_after p.controller store.now out.old }
{
    dist_controller::message::message(p.controller, store, out)
}
