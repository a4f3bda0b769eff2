// The word reader (document 01, "Words on the bus"): the words of a block's messages, an odd end filled up.
ghost use Rattle.std.specs.Prelude.{◌≡◌, length};
ghost use Rattle.stores.specs.Reading.{read_of, words_read_of, message_read_of, message_words_read_of};

use crate::whole::{put_words, words_of};

// As many words as out has room for, an odd end filled up.
#[tactic(auto, unfolding(crate::specs::Reading::read_of, crate::specs::Reading::words_read_of))]
fn read_some(part: &[u8], out: &mut [u16]) -> usize
    ensures { (result ≡ words_read_of (length out.old) (length part.now))
        × (out.new ≡ read_of out.old part.now) }
{
    let n = out.len().min(part.len() / 2);
    put_words(&part[..2 * n], &mut out[..n]);
    if n < out.len() && 2 * n < part.len() {
        // the filler octet that we send is 0
        out[n] = u16::from_be_bytes([part[2 * n], 0]);
        return n + 1;
    }
    n
}

// Reads the bytes of part as words into the start of out, first byte high, and says how many. The rest of out stays.
#[tactic(auto, unfolding(crate::specs::Reading::read_of, crate::specs::Reading::words_read_of))]
pub fn read_words(part: &[u8], out: &mut [u16]) -> usize
    ensures { (result ≡ words_read_of (length out.old) (length part.now))
        × (out.new ≡ read_of out.old part.now) }
{
    // a whole message, which most are, in moves of many bytes
    if let Some(message) = part.as_array()
        && let Some(room) = out.first_chunk_mut()
    {
        *room = words_of(*message);
        return 32;
    }
    read_some(part, out)
}

// The words of message k, from 0, of the block of `size` bytes at the start of `block`: into the start of out, and how many.
#[tactic(auto, unfolding(crate::specs::Reading::message_read_of, crate::specs::Reading::message_words_read_of, crate::specs::Reading::read_of, crate::specs::Reading::words_read_of, words::specs::Bytes::words_of))]
pub fn read_message(block: &[u8], size: usize, k: usize, out: &mut [u16]) -> usize
    ensures { (result ≡ message_words_read_of (length out.old) block.now size k)
        × (out.new ≡ message_read_of out.old block.now size k) }
{
    let held = size.min(block.len());
    if held / 64 < k {
        return 0;
    }
    let at = 64 * k;
    let end = at + usize::min(64, held - at);
    read_words(&block[at..end], out)
}
