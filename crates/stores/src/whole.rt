// Words to bytes and back, first byte high: in lent memory, and a whole message of 32 words or 64 bytes as an array by value.
// What is in a local overlaps nothing, so there the loops become moves of many bytes at once.
ghost use Rattle.std.specs.Prelude.{◌≡◌, ◌*◌, length};
ghost use Rattle.words.specs.Bytes.{bytes_of, words_of};

// The bytes of words, into all of part. By place: of chunks_exact_mut no clause says what the slice holds afterwards.
pub(crate) fn put_bytes(words: &[u16], part: &mut [u8])
    requires { length part.old ≡ 2 * length words.now }
    ensures { part.new ≡ bytes_of words.now }
{
    for (i, word) in words.iter().enumerate() {
        let [high, low] = word.to_be_bytes();
        part[2 * i] = high;
        part[2 * i + 1] = low;
    }
}

// The words of bytes, into all of out.
pub(crate) fn put_words(bytes: &[u8], out: &mut [u16])
    requires { length bytes.now ≡ 2 * length out.old }
    ensures { out.new ≡ words_of bytes.now }
{
    for (i, word) in out.iter_mut().enumerate() {
        *word = u16::from_be_bytes([bytes[2 * i], bytes[2 * i + 1]]);
    }
}

// The bytes of 32 words.
pub fn bytes_of(words: [u16; 32]) -> [u8; 64]
    ensures { result ≡ bytes_of words }
{
    let mut bytes = [0u8; 64];
    put_bytes(&words, &mut bytes);
    bytes
}

// The words of 64 bytes.
pub fn words_of(bytes: [u8; 64]) -> [u16; 32]
    ensures { result ≡ words_of bytes }
{
    let mut words = [0u16; 32];
    put_words(&bytes, &mut words);
    words
}
