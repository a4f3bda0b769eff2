// The word writer and the word reader as C calls, in an archive by themselves: what bench/words_speed.sh measures.
#![tactic(auto)]

ghost use Rattle.std.specs.Prelude.{◌≡◌, length};
ghost use Rattle.stores.specs.Writing.{message_written_of, message_words_written_of};
ghost use Rattle.stores.specs.Reading.{message_read_of, message_words_read_of};

#[unsafe(no_mangle)]
pub extern "C" fn stores_write_64(store: &mut [u8], at: usize, words: &[u16]) -> usize
    ensures { (result ≡ message_words_written_of (length store.old) at (length words.now))
        × (store.new ≡ message_written_of store.old at words.now) }
{
    stores::writer::write_message(store, at, words)
}

#[unsafe(no_mangle)]
pub extern "C" fn stores_read_64(block: &[u8], size: usize, k: usize, out: &mut [u16]) -> usize
    ensures { (result ≡ message_words_read_of (length out.old) block.now size k)
        × (out.new ≡ message_read_of out.old block.now size k) }
{
    stores::reader::read_message(block, size, k, out)
}
