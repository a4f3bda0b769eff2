// The application takes the block in hand, and 27T is transmitted (document 01, "Distribution").
ghost use Rattle.std.specs.Prelude.{◌≡◌, length};
ghost use Rattle.dist_terminal.specs.Take.{delivered_of, take_of, buffer_after, transmit_of, shown_after};

use crate::state::{Held, Terminal};
use words::control::distribution_confirmation_words;
use words::link::{block_store, is_short};
use words::refusal::{Refusal, Stepped, refuse};

// The hand is empty, and 27T shows the block's count without error.
fn delivered(t: Terminal, held: Held) -> Terminal
    ensures { result ≡ delivered_of held.size held.count t }
{
    Terminal {
        hand: None,
        shown: distribution_confirmation_words(t.link, held.size, false, held.count),
        ..t
    }
}

// Taking a block delivers it, and answers its size; bytes of the buffer past the block stay.
#[tactic(auto, unfolding(crate::specs::Take::buffer_after, crate::specs::Take::take_of, crate::specs::Take::hand_short, words::specs::Link::short_of))]
pub fn take_block(t: Terminal, hand: &[u8], buffer: &mut [u8]) -> Stepped<Terminal, u16>
    ensures result { result ≡ take_of t (length hand.now) (length buffer.old) }
    ensures bytes { buffer.new ≡ buffer_after t hand.now buffer.old }
{
    if is_short(t.link, block_store(t.link), hand.len()) {
        return refuse(Refusal::NotReady, t);
    }
    let Some(held) = t.hand else {
        return refuse(Refusal::NothingToTake, t);
    };
    let size = usize::from(held.size);
    if buffer.len() < size {
        return refuse(Refusal::ShortBuffer, t);
    }
    stores::copies::copy_bytes(hand, buffer, size);
    Stepped {
        state: delivered(t, held),
        answer: Ok(held.size),
    }
}

// 27T is transmitted into a lent buffer; any number of words but two is refusal 6.
#[tactic(auto, unfolding(crate::specs::Take::shown_after, crate::specs::Take::transmit_of))]
pub fn transmit(t: Terminal, asked: usize, out: &mut [u16]) -> Result<(), Refusal>
    ensures result { result ≡ transmit_of t asked (length out.old) }
    ensures words { out.new ≡ shown_after t asked out.old }
{
    if !words::link::is_configured(t.link) || out.len() < 2 {
        return Err(Refusal::NotReady);
    }
    if asked != 2 {
        return Err(Refusal::NotTwoWords);
    }
    out[0] = t.shown.first;
    out[1] = t.shown.second;
    Ok(())
}
