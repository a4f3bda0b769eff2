// A block is cut into 64-byte messages, the last one shorter (document 01, "Words on the bus"; 001 clauses 8.6.1.1 g to l, 8.6.2.2 g to l).
ghost use Rattle.std.specs.Prelude.{◌≡◌};
ghost use Rattle.words.specs.Cutting.{size_answer_of, messages_of, message_words_of, message_subaddress_of, uses_of, data_answer_of};

use crate::link::{Link, Mode, mode_of};
use crate::refusal::Refusal;

// Refusal 3: a block, or a size asked about, of 0 bytes or over the link's largest.
#[tactic(auto, unfolding(crate::specs::Cutting::size_answer_of))]
pub fn size_answer(link: Link, size: usize) -> Result<(), Refusal>
    ensures { result ≡ size_answer_of link size }
{
    if size == 0 || usize::from(link.largest) < size {
        return Err(Refusal::BadSize);
    }
    Ok(())
}

// How many messages a block of `size` bytes has.
#[tactic(auto, unfolding(crate::specs::Cutting::messages_of))]
pub fn messages(size: u16) -> u16
    ensures { result ≡ messages_of size }
{
    size.div_ceil(64)
}

// How many words message k has, from 0; none past the last.
#[tactic(auto, unfolding(crate::specs::Cutting::message_words_of))]
pub fn message_words(size: u16, k: u16) -> u16
    ensures { result ≡ message_words_of size k }
{
    if size / 64 < k {
        return 0;
    }
    ((size - 64 * k).min(64) + 1) / 2
}

// Where message k goes, or comes from; 0 where mode 0 has no such subaddress.
#[tactic(auto, unfolding(crate::specs::Cutting::message_subaddress_of))]
pub fn message_subaddress(link: Link, k: u16) -> u8
    ensures { result ≡ message_subaddress_of link k }
{
    match mode_of(link) {
        Mode::One => link.subaddress,
        Mode::Zero => {
            if 16 <= k {
                return 0;
            }
            11 + k as u8
        }
    }
}

// Whether the link's data messages use a subaddress.
#[tactic(auto, unfolding(crate::specs::Cutting::uses_of))]
fn uses(link: Link, subaddress: u8) -> bool
    ensures { result ≡ uses_of link subaddress }
{
    match mode_of(link) {
        Mode::Zero => (11..=26).contains(&subaddress),
        Mode::One => subaddress == link.subaddress,
    }
}

// Refusal 19: a data message of 0 or over 32 words, or to a subaddress the link does not use.
#[tactic(auto, unfolding(crate::specs::Cutting::data_answer_of))]
pub fn data_answer(link: Link, subaddress: u8, words: usize) -> Result<(), Refusal>
    ensures { result ≡ data_answer_of link subaddress words }
{
    if !(1..=32).contains(&words) || !uses(link, subaddress) {
        return Err(Refusal::BadMessage);
    }
    Ok(())
}
