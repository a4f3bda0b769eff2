// The link is configured, the terminal restarts, a message arrives (document 01, "The two machines", "Distribution").
ghost use Rattle.std.specs.Prelude.{◌≡◌, ◌≤◌, length};
ghost use Rattle.words.specs.Link.{message_store_of, no_link};
ghost use Rattle.dist_terminal.specs.State.{fresh_of};
ghost use Rattle.dist_terminal.specs.Calls.{emptied, restart_of, store_restarted, unfit_of, configuring_of, store_configured, receive_of, store_received, hand_received};

use crate::data::data;
use crate::descriptor::{descriptor, stores_short};
use crate::state::{Terminal, fresh};
use words::link::{Link, Settings, block_store, is_short, message_store};
use words::refusal::{Refusal, Stepped, accept, refuse};

// The places are zero.
#[tactic(auto, using(crate::proofs::Filling::places_zeroed))]
fn empty_places(link: Link, store: &mut [u8])
    requires { message_store_of link ≤ length store.old }
    ensures { store.new ≡ emptied link store.old }
{
    stores::copies::zero_bytes(&mut store[..message_store(link)]);
}

// A restart keeps the configuration; all else is fresh.
#[tactic(auto, using(crate::proofs::Ready::restarts), unfolding(crate::specs::Calls::restart_of, crate::specs::Calls::store_restarted, crate::specs::Data::store_short, words::specs::Link::short_of))]
pub fn restart(t: Terminal, store: &mut [u8]) -> Stepped<Terminal, ()>
    ensures result { result ≡ restart_of t (length store.old) }
    ensures bytes { store.new ≡ store_restarted t store.old }
{
    if is_short(t.link, message_store(t.link), store.len()) {
        return refuse(Refusal::NotReady, t);
    }
    empty_places(t.link, store);
    accept(fresh(t.link))
}

// Whether a link's stores are lent too short for it.
#[tactic(auto, unfolding(crate::specs::Calls::unfit_of))]
fn unfit(link: Link, store: usize, hand: usize) -> bool
    ensures { result ≡ unfit_of link store hand }
{
    store < message_store(link) || hand < block_store(link)
}

// A terminal whose link is not set up.
pub fn unconfigured() -> Terminal
    ensures { result ≡ fresh_of no_link }
{
    fresh(words::link::no_link())
}

// A new run, or refusal 20, which leaves an earlier run as it was: a number outside its range, or a store too short.
#[tactic(auto, using(crate::proofs::Ready::fits), unfolding(crate::specs::Calls::configuring_of, crate::specs::Calls::store_configured))]
pub fn configure(
    t: Terminal,
    settings: Settings,
    store: &mut [u8],
    hand: usize,
) -> Stepped<Terminal, ()>
    ensures result { result ≡ configuring_of t settings (length store.old) hand }
    ensures bytes { store.new ≡ store_configured settings store.old hand }
{
    let link = match words::link::configure(settings) {
        Err(refusal) => return refuse(refusal, t),
        Ok(link) => link,
    };
    if unfit(link, store.len(), hand) {
        return refuse(Refusal::BadConfiguration, t);
    }
    empty_places(link, store);
    accept(fresh(link))
}

// A message to a receive subaddress: 27 has the descriptor, others data.
#[tactic(auto, unfolding(crate::specs::Calls::hand_received, crate::specs::Calls::receive_of, crate::specs::Calls::store_received))]
pub fn receive(
    t: Terminal,
    subaddress: u8,
    words: &[u16],
    store: &mut [u8],
    hand: &mut [u8],
) -> Stepped<Terminal, ()>
    ensures result { result ≡ receive_of t subaddress words.now (length store.old) (length hand.old) }
    ensures bytes { (store.new ≡ store_received t subaddress words.now store.old (length hand.old))
        × (hand.new ≡ hand_received t subaddress words.now store.old hand.old) }
{
    if stores_short(t.link, store.len(), hand.len()) {
        return refuse(Refusal::NotReady, t);
    }
    if subaddress == 27 {
        return descriptor(t, words, store, hand);
    }
    data(t, subaddress, words, store)
}
