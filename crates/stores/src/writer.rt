// The word writer (document 01, "Words on the bus"): each message is written into its place inside the lent block store.
ghost use Rattle.std.specs.Prelude.{◌≡◌, length};
ghost use Rattle.stores.specs.Writing.{written_of, words_written_of, message_written_of, message_words_written_of};

use crate::whole::{bytes_of, put_bytes};

// As many words as fit.
#[tactic(auto, unfolding(crate::specs::Writing::written_of, crate::specs::Writing::words_written_of))]
fn write_some(part: &mut [u8], words: &[u16]) -> usize
    ensures { (result ≡ words_written_of (length part.old) (length words.now))
        × (part.new ≡ written_of part.old words.now) }
{
    let n = words.len().min(part.len() / 2);
    put_bytes(&words[..n], &mut part[..2 * n]);
    n
}

// Writes as many words as fit into the start of part, first byte high, and says how many. The rest of part stays.
#[tactic(auto, unfolding(crate::specs::Writing::written_of, crate::specs::Writing::words_written_of))]
pub fn write_words(part: &mut [u8], words: &[u16]) -> usize
    ensures { (result ≡ words_written_of (length part.old) (length words.now))
        × (part.new ≡ written_of part.old words.now) }
{
    let fitting = &words[..words.len().min(part.len() / 2)];
    // a whole message, which most are, in moves of many bytes
    if let Some(message) = fitting.as_array()
        && let Some(place) = part.first_chunk_mut()
    {
        *place = bytes_of(*message);
        return 32;
    }
    write_some(part, fitting)
}

// Writes a message into its place, the 64 bytes from byte `at` of the store on, and says how many words it was.
// What is past the place's end, or past the store's, is not written.
#[tactic(auto, unfolding(crate::specs::Writing::message_written_of, crate::specs::Writing::message_words_written_of, crate::specs::Writing::room_of, words::specs::Bytes::bytes_of, crate::specs::Writing::written_of, crate::specs::Writing::words_written_of))]
pub fn write_message(store: &mut [u8], at: usize, words: &[u16]) -> usize
    ensures { (result ≡ message_words_written_of (length store.old) at (length words.now))
        × (store.new ≡ message_written_of store.old at words.now) }
{
    if store.len() < at {
        return 0;
    }
    let end = at + usize::min(64, store.len() - at);
    write_words(&mut store[at..end], words)
}
