// A data message arrives: it is stored in its place and marked, or, in mode 1, appended (document 01, "Distribution").
ghost use Rattle.std.specs.Prelude.{◌≡◌, ◌*◌, ◌-◌, length, take};
ghost use Rattle.stores.specs.Writing.{message_written_of};
ghost use Rattle.dist_terminal.specs.Data.{marked_with, received_after, answer_of, data_of, store_after};

use crate::state::{Marks, Terminal};
use words::link::{Mode, is_short, message_store, mode_of};
use words::refusal::{Refusal, Stepped, accept, refuse};

// The mark of a subaddress, with its number of words. One past 26 has no place.
fn marked_with(marks: Marks, subaddress: u8, n: u8) -> Marks
    ensures { result ≡ marked_with marks subaddress n }
{
    let places = stores::marks::mark(marks.places, subaddress);
    let place = usize::from(subaddress.saturating_sub(11));
    if 16 <= place {
        return Marks { places, ..marks };
    }
    let mut words = marks.words;
    words[place] = n;
    Marks { places, words }
}

// Mode 1's words received, after n more; past the 2048th they only stay too many.
#[tactic(auto, unfolding(crate::specs::Data::received_after))]
fn received_after(received: u16, n: usize) -> u16
    ensures { result ≡ received_after received n }
{
    usize::from(received).saturating_add(n).min(2049) as u16
}

// A message of mode 0 overwrites the start of its place.
fn place(store: &mut [u8], subaddress: u8, words: &[u16])
    ensures { store.new ≡ message_written_of store.old (64 * (subaddress - 11)) words.now }
{
    let at = 64 * usize::from(subaddress.saturating_sub(11));
    stores::writer::write_message(store, at, words);
}

// A message of mode 1 goes after what was received; words past the 2048th are not kept.
fn append(store: &mut [u8], received: u16, words: &[u16])
    ensures { store.new ≡ message_written_of store.old (2 * received) (take (2048 - received) words.now) }
{
    let room = 2048u16.saturating_sub(received);
    let kept = words.len().min(usize::from(room));
    stores::writer::write_message(store, 2 * usize::from(received), &words[..kept]);
}

// Refusals 1 and 19.
#[tactic(auto, unfolding(crate::specs::Data::answer_of, crate::specs::Data::store_short, words::specs::Link::short_of))]
fn answer(t: Terminal, subaddress: u8, n: usize, store: usize) -> Result<(), Refusal>
    ensures { result ≡ answer_of t subaddress n store }
{
    if is_short(t.link, message_store(t.link), store) {
        return Err(Refusal::NotReady);
    }
    words::cutting::data_answer(t.link, subaddress, n)
}

#[tactic(auto, using(crate::proofs::Arriving::few, crate::proofs::Arriving::placed, crate::proofs::Arriving::appended), unfolding(crate::specs::Data::data_of, crate::specs::Data::store_after, crate::specs::Data::noted_of, crate::specs::Data::placed_of))]
pub fn data(t: Terminal, subaddress: u8, words: &[u16], store: &mut [u8]) -> Stepped<Terminal, ()>
    ensures result { result ≡ data_of t subaddress (length words.now) (length store.old) }
    ensures bytes { store.new ≡ store_after t subaddress words.now store.old }
{
    if let Err(refusal) = answer(t, subaddress, words.len(), store.len()) {
        return refuse(refusal, t);
    }
    match mode_of(t.link) {
        Mode::Zero => {
            place(store, subaddress, words);
            let marks = marked_with(t.marks, subaddress, words.len() as u8);
            accept(Terminal { marks, ..t })
        }
        Mode::One => {
            append(store, t.received, words);
            let received = received_after(t.received, words.len());
            accept(Terminal { received, ..t })
        }
    }
}
