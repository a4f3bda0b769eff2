// Blocks carried whole (document 01, "The two machines": the caller lends all storage).
ghost use Rattle.std.specs.Prelude.{◌≡◌, ◌*◌, ◌≤◌, length};
ghost use Rattle.words.specs.Bytes.{words_of};
ghost use Rattle.words.specs.Cutting.{part_of};
ghost use Rattle.stores.specs.Writing.{message_written_of};
ghost use Rattle.stores.specs.Copying.{stored_of, copied_of, zeros_of};

use crate::reader::read_message;
use crate::writer::write_message;

// Message k of a block goes by way of the words on the bus to its place in the store.
#[tactic(auto, unfolding(crate::specs::Reading::message_words_read_of, crate::specs::Reading::words_read_of, crate::specs::Reading::message_read_of, crate::specs::Reading::read_of, words::specs::Cutting::part_of))]
fn carry_message(store: &mut [u8], block: &[u8], k: usize)
    requires { 64 * k ≤ length block.now }
    ensures { store.new ≡ message_written_of store.old (64 * k) (words_of (part_of block.now k)) }
{
    let mut words = [0u16; 32];
    let n = read_message(block, block.len(), k, &mut words);
    write_message(store, 64 * k, &words[..n]);
}

// A sender's block goes message by message into the lent store. What does not fit is not stored; the rest of the store stays.
#[tactic(auto, unfolding(crate::specs::Copying::stored_of, crate::specs::Writing::written_of))]
pub fn store_block(store: &mut [u8], block: &[u8])
    ensures { store.new ≡ stored_of store.old block.now }
{
    for k in 0..block.len().div_ceil(64) {
        carry_message(store, block, k);
    }
}

// Copies the first n bytes of src, at most the largest block's 4096, to the start of dst. The rest of dst stays.
#[tactic(auto, unfolding(crate::specs::Copying::copied_of))]
pub fn copy_bytes(src: &[u8], dst: &mut [u8], n: usize)
    ensures { dst.new ≡ copied_of src.now dst.old n }
{
    let m = n.min(4096).min(src.len()).min(dst.len());
    dst[..m].copy_from_slice(&src[..m]);
}

// Puts zeros into all of part.
#[tactic(auto, unfolding(crate::specs::Copying::zeros_of))]
pub fn zero_bytes(part: &mut [u8])
    ensures { part.new ≡ zeros_of (length part.old) }
{
    part.fill(0);
}
