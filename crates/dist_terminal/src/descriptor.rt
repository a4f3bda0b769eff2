// A descriptor arrives: a Reset, a refusal, or a block that goes from the places into the hand (document 01, "Distribution").
ghost use Rattle.std.specs.Prelude.{◌≡◌, ◌≤◌, length, Err};
ghost use Rattle.std.proofs.lemmas.List.Edits.{sets};
ghost use Rattle.dist_terminal.specs.Descriptor.{short, unmet_of, refusal_of, judged_of, failed_of, held_of, taken_of};
ghost use Rattle.dist_terminal.specs.Descriptor.{block_step, descriptor_of, hand_after};
ghost use Rattle.words.specs.Link.{message_store_of};

use crate::length::length_met;
use crate::state::{Held, Terminal, after_reset, cleared, handled};
use words::control::{Control, Quality, distribution_confirmation_words};
use words::link::{Link, Mode, block_store, is_short, message_store, mode_of};
use words::refusal::{Refusal, Stepped, accept, refuse};

// Why a block is not accepted: refusals 12 to 15.
#[derive(Clone, Copy)]
pub enum Misfit {
    NoReset,
    Again,
    HandFull,
    WrongLength,
}

impl From<Misfit> for Refusal {
    ghost from_gives = { λ misfit refusal. refusal ≡ refusal_of misfit };

    fn from(misfit: Misfit) -> Refusal {
        match misfit {
            Misfit::NoReset => Refusal::NoReset,
            Misfit::Again => Refusal::LastHandled,
            Misfit::HandFull => Refusal::HandFull,
            Misfit::WrongLength => Refusal::WrongLength,
        }
    }
}

// Whether the link is not configured, or a lent store is too short for it.
#[tactic(auto, unfolding(crate::specs::Descriptor::short, crate::specs::Data::store_short, words::specs::Link::short_of))]
pub fn stores_short(link: Link, store: usize, hand: usize) -> bool
    ensures { result ≡ short link store hand }
{
    is_short(link, message_store(link), store) || hand < block_store(link)
}

// Best Effort is always met.
#[tactic(auto, unfolding(crate::specs::Descriptor::unmet_of))]
fn unmet(t: Terminal, size: u16, quality: Quality) -> bool
    ensures { result ≡ unmet_of t size quality }
{
    match quality {
        Quality::BestEffort => false,
        Quality::Verified => !length_met(t, size),
    }
}

// Tests 12 to 15, the lowest first.
#[tactic(auto, unfolding(crate::specs::Descriptor::judged_of))]
fn judge(t: Terminal, block: Held, quality: Quality) -> Result<(), Misfit>
    ensures { result ≡ judged_of t block.size quality block.count }
{
    if !t.seen {
        return Err(Misfit::NoReset);
    }
    if block.count.same(t.handled) {
        return Err(Misfit::Again);
    }
    if t.hand.is_some() {
        return Err(Misfit::HandFull);
    }
    if unmet(t, block.size, quality) {
        return Err(Misfit::WrongLength);
    }
    Ok(())
}

// 15 sets last handled and writes the error in 27T.
fn failed(t: Terminal, block: Held) -> Terminal
    ensures { result ≡ failed_of block.size block.count t }
{
    Terminal {
        shown: distribution_confirmation_words(t.link, block.size, true, block.count),
        ..handled(t, block.count)
    }
}

// An accepted block is held in hand, apart from the places.
fn held(t: Terminal, block: Held) -> Terminal
    ensures { result ≡ held_of block.size block.count t }
{
    Terminal {
        hand: Some(block),
        ..handled(t, block.count)
    }
}

// A block that is not accepted.
fn turned_away(t: Terminal, block: Held, misfit: Misfit) -> Stepped<Terminal, ()>
    ensures { result ≡ block_step (Err misfit) t block.size block.count }
{
    let left = match misfit {
        Misfit::NoReset => t,
        Misfit::Again => cleared(t),
        Misfit::HandFull => cleared(t),
        Misfit::WrongLength => failed(t, block),
    };
    refuse(Refusal::from(misfit), left)
}

// The block that the places hold. In mode 1 it is the first that came, and zero where nothing came.
#[tactic(auto, using(crate::proofs::Filling::copied, crate::proofs::Filling::filled_all), unfolding(crate::specs::Descriptor::taken_of, words::specs::Link::message_store_of))]
fn fill_hand(t: Terminal, store: &[u8], hand: &mut [u8])
    requires small { length hand.old ≤ 4096 }
    requires room { message_store_of t.link ≤ length store.now }
    ensures { hand.new ≡ sets hand.old 0 (taken_of t (length hand.old) store.now) }
{
    match mode_of(t.link) {
        Mode::Zero => stores::copies::copy_bytes(store, hand, hand.len()),
        Mode::One => {
            let came = hand.len().min(2 * usize::from(t.received));
            stores::copies::copy_bytes(store, hand, came);
            stores::copies::zero_bytes(&mut hand[came..]);
        }
    }
}

// Refusals 1 and 6 to 15.
#[tactic(auto, using(crate::proofs::Ready::small, crate::proofs::Ready::within, crate::proofs::Ready::room, crate::proofs::Filling::first_part, crate::proofs::Filling::lent), unfolding(crate::specs::Descriptor::descriptor_of, crate::specs::Descriptor::hand_after))]
pub fn descriptor(
    t: Terminal,
    words: &[u16],
    store: &[u8],
    hand: &mut [u8],
) -> Stepped<Terminal, ()>
    ensures result { result ≡ descriptor_of t words.now (length store.now) (length hand.old) }
    ensures bytes { hand.new ≡ hand_after t words.now store.now hand.old }
{
    if stores_short(t.link, store.len(), hand.len()) {
        return refuse(Refusal::NotReady, t);
    }
    let (block, quality) = match words::reading::read_descriptor(words, t.link) {
        Err(refusal) => return refuse(refusal, t),
        Ok(Control::Reset) => return accept(after_reset(t)),
        Ok(Control::Block { size, mark, count }) => (Held { size, count }, mark),
    };
    if let Err(misfit) = judge(t, block, quality) {
        return turned_away(t, block, misfit);
    }
    fill_hand(t, store, &mut hand[..usize::from(block.size)]);
    accept(held(t, block))
}
