// The bus: the message asked for arrives, at most once, and its outcome is told (document 01, "The two machines").
ghost use Rattle.std.specs.Prelude.{◌≡◌, length};
ghost use Rattle.acq_controller.specs.Asked as Asked;
ghost use Rattle.acq_controller.specs.Told as Told;
ghost use Rattle.acq_pair.specs.Bus.{arriving_short, has_arrived, receive_of, catch_of, arrive_of, tell_of, told_done, store_done, hand_done, told_no_reply, store_no_reply, hand_no_reply};

use crate::events::terminal_stepped;
use crate::state::{Flight, Pair, Reply};
use words::link::{block_store, is_configured, is_short};
use words::message::Message;
use words::refusal::{Refusal, Stepped, refuse};
use words::status::Outcome;

// Whether the link is not configured at either end, or the block store is lent too short.
#[tactic(auto, unfolding(crate::specs::Bus::arriving_short))]
fn arriving_short(p: Pair, store: usize) -> bool
    ensures { result ≡ arriving_short p store }
{
    !is_configured(p.controller.link)
        || is_short(p.terminal.link, block_store(p.terminal.link), store)
}

fn has_arrived(flight: Flight) -> bool
    ensures { result ≡ has_arrived flight }
{
    match flight {
        Flight::NotArrived => false,
        Flight::Arrived | Flight::Caught(_) => true,
    }
}

// The message's words reach the terminal, which acts at once.
#[tactic(auto, unfolding(crate::specs::Bus::receive_of))]
fn deliver(p: Pair, subaddress: u8) -> Stepped<Pair, ()>
    ensures { result ≡ receive_of p subaddress }
{
    let s = match acq_controller::asked::words_asked(p.controller) {
        None => acq_terminal::receive::receive(p.terminal, subaddress, &[]),
        Some(words) => acq_terminal::receive::receive(
            p.terminal,
            subaddress,
            &[words.first, words.second],
        ),
    };
    terminal_stepped(p, s, Flight::Arrived)
}

// Of a read the words are caught at the terminal; one that it refuses has none.
#[tactic(auto, unfolding(crate::specs::Bus::catch_of))]
fn catch(p: Pair, subaddress: u8, count: u16, store: &[u8]) -> Stepped<Pair, ()>
    ensures { result ≡ catch_of p subaddress count store.now }
{
    let mut words = [0u16; 32];
    let s = acq_terminal::transmit::transmit(
        p.terminal,
        subaddress,
        usize::from(count),
        store,
        &mut words,
    );
    let flight = match s.answer {
        Ok(()) => Flight::Caught(Reply { words, count }),
        Err(_) => Flight::Arrived,
    };
    terminal_stepped(p, s, flight)
}

// 18: no message is asked for, or it arrived already.
#[tactic(auto, unfolding(crate::specs::Bus::arrive_of))]
pub fn arrive(p: Pair, store: &[u8]) -> Stepped<Pair, ()>
    ensures { result ≡ arrive_of p store.now }
{
    if arriving_short(p, store.len()) {
        return refuse(Refusal::NotReady, p);
    }
    if has_arrived(p.flight) {
        return refuse(Refusal::NothingAsked, p);
    }
    match acq_controller::asked::asked_for(p.controller) {
        None => refuse(Refusal::NothingAsked, p),
        Some(Message::Receive { subaddress, .. }) => deliver(p, subaddress),
        Some(
            Message::Transmit {
                subaddress,
                words: count,
            },
        ) => catch(p, subaddress, count, store),
    }
}

// The outcome is told; what the controller answered stands. The next message, if one is asked for, has not arrived.
#[tactic(auto, unfolding(crate::specs::Bus::tell_of))]
fn tell(
    p: Pair,
    outcome: Outcome,
    words: &[u16],
    store: &mut [u8],
    hand: &mut [u8],
) -> Stepped<Pair, ()>
    ensures result { result ≡ tell_of p outcome words.now (length store.old) (length hand.old) }
    ensures bytes { (store.new ≡ Told.store_told p.controller outcome words.now store.old (length hand.old))
        × (hand.new ≡ Told.hand_told p.controller outcome words.now store.old hand.old) }
{
    let s = acq_controller::told::told(p.controller, outcome, words, store, hand);
    Stepped {
        state: Pair {
            controller: s.state,
            flight: Flight::NotArrived,
            ..p
        },
        answer: s.answer,
    }
}

// Done: only of a message that arrived, with what was caught.
#[tactic(auto, unfolding(crate::specs::Bus::told_done, crate::specs::Bus::store_done, crate::specs::Bus::hand_done))]
pub fn told_done(p: Pair, store: &mut [u8], hand: &mut [u8]) -> Stepped<Pair, ()>
    ensures result { result ≡ told_done p (length store.old) (length hand.old) }
    ensures bytes { (store.new ≡ store_done p store.old (length hand.old))
        × (hand.new ≡ hand_done p store.old hand.old) }
{
    if acq_controller::told::stores_short(p.controller.link, store.len(), hand.len()) {
        return refuse(Refusal::NotReady, p);
    }
    match p.flight {
        Flight::NotArrived => refuse(Refusal::NothingAsked, p),
        Flight::Arrived => tell(p, Outcome::Done, &[], store, hand),
        Flight::Caught(reply) => {
            let count = usize::from(reply.count).min(32);
            tell(p, Outcome::Done, &reply.words[..count], store, hand)
        }
    }
}

// No reply: the message arrived or not.
#[tactic(auto, unfolding(crate::specs::Bus::told_no_reply, crate::specs::Bus::store_no_reply, crate::specs::Bus::hand_no_reply))]
pub fn told_no_reply(p: Pair, store: &mut [u8], hand: &mut [u8]) -> Stepped<Pair, ()>
    ensures result { result ≡ told_no_reply p (length store.old) (length hand.old) }
    ensures bytes { (store.new ≡ store_no_reply p store.old (length hand.old))
        × (hand.new ≡ hand_no_reply p store.old hand.old) }
{
    if acq_controller::told::stores_short(p.controller.link, store.len(), hand.len()) {
        return refuse(Refusal::NotReady, p);
    }
    match acq_controller::asked::asked_for(p.controller) {
        None => refuse(Refusal::NothingAsked, p),
        Some(_) => tell(p, Outcome::NoReply, &[], store, hand),
    }
}

// The message asked for, with its words in the lent buffer.
pub fn message(p: Pair, out: &mut [u16]) -> Result<Option<Message>, Refusal>
    ensures result { result ≡ Asked.message_of p.controller (length out.old) }
    ensures words { out.new ≡ Asked.buffer_asked p.controller out.old }
{
    acq_controller::asked::message(p.controller, out)
}
