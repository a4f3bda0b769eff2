// Verified Length, and the question for a size (document 01, "Distribution").
ghost use Rattle.std.specs.Prelude.{◌≡◌};
ghost use Rattle.dist_terminal.specs.Length.{place_met, places_met, length_met, question_of};

use crate::state::{Marks, Terminal};
use words::link::{Mode, mode_of};
use words::refusal::Refusal;

// Whether place k was last written with the words that message k of the size has, since marks were cleared.
#[tactic(auto, unfolding(crate::specs::Length::place_met, stores::specs::Marks::is_marked_of, stores::specs::Marks::has_mark))]
fn place_met(marks: Marks, size: u16, k: u16) -> bool
    ensures { result ≡ place_met marks size k }
{
    if 16 <= k {
        return false;
    }
    stores::marks::is_marked(marks.places, 11 + k as u8)
        && u16::from(marks.words[usize::from(k)]) == words::cutting::message_words(size, k)
}

// Whether each of the first n places is as the size wants it; others are ignored.
fn places_met(marks: Marks, size: u16, n: u16) -> bool
    ensures { result ≡ places_met marks size 0 n }
{
    (0..n).all(|k| place_met(marks, size, k))
}

// Whether Verified Length holds for a block of the size.
#[tactic(auto, unfolding(crate::specs::Length::length_met))]
pub fn length_met(t: Terminal, size: u16) -> bool
    ensures { result ≡ length_met t size }
{
    match mode_of(t.link) {
        Mode::Zero => places_met(t.marks, size, words::cutting::messages(size)),
        Mode::One => t.received == size.div_ceil(2),
    }
}

// The number of marked subaddresses, and the lowest one missing of those that the size needs.
#[derive(Clone, Copy)]
pub struct Marked {
    pub marked: u8,
    pub missing: Option<u8>,
}

#[tactic(auto, using(crate::proofs::Lengths::asked), unfolding(crate::specs::Length::question_of))]
pub fn question_of(t: Terminal, size: usize) -> Result<Marked, Refusal>
    ensures { result ≡ question_of t size }
{
    if !words::link::is_configured(t.link) {
        return Err(Refusal::NotReady);
    }
    words::cutting::size_answer(t.link, size)?;
    match mode_of(t.link) {
        Mode::Zero => {
            let places = t.marks.places;
            let needed = words::cutting::messages(size as u16);
            Ok(Marked {
                marked: stores::marks::marked(places),
                missing: stores::marks::lowest_missing(places, needed),
            })
        }
        Mode::One => Ok(Marked {
            marked: 0,
            missing: None,
        }),
    }
}
