// The parts of an answer, put on a page.
ghost use Rattle.std.specs.Prelude.{◌≡◌, ◌≤◌, ℕ, List, [], ◌∷◌, length, set};
ghost use Rattle.std.proofs.lemmas.List.Edits.{sets};
ghost use Rattle.std.specs.List.{flat_map};
ghost use Rattle.blockrun_text.specs.Printing.{hex_of, word_of, words_of, decimal_of};
ghost use Rattle.blockrun_text.specs.Pages.{put};

use crate::hex::last_digit;

// How many digits a number has.
#[tactic(auto, using(crate::proofs::Digits::count_by_log))]
fn digit_count(n: u64) -> usize
    ensures { result ≡ length (decimal_of n) }
{
    n.checked_ilog10().unwrap_or(0) as usize + 1
}

// The byte in place i, where that is inside. Nothing is proved of what a `get_mut` or a reversed `iter_mut` leaves.
fn put_byte(room: &mut [u8], i: usize, byte: u8)
    ensures { room.new ≡ set room.old i byte }
{
    if i < room.len() {
        room[i] = byte;
    }
}

// A number's digits, the last one first, as many as fit: says how many there are.
#[tactic(auto, using(crate::proofs::Digits::put_last_first, crate::proofs::Digits::put_all))]
fn put_digits(room: &mut [u8], n: u64) -> usize
    ensures { (result ≡ length (decimal_of n)) × (room.new ≡ sets room.old 0 (decimal_of n)) }
{
    let size = digit_count(n);
    let mut rest = n;
    for i in (0..size).rev() {
        put_byte(room, i, b'0' + (rest % 10) as u8);
        rest /= 10;
    }
    size
}

// A lent buffer that is written from byte `at` on. What does not fit is not written. Each put leaves `at` behind what it put,
// at most at the buffer's length, so puts follow on each other.
#[derive(Drop)]
pub struct Page<'a> {
    pub bytes: &'a mut [u8],
    pub at: usize,
}

impl Page<'_> {
    // All of text, as much as fits. A text that fits is stored at once where its length is known.
    #[tactic(auto, using(crate::proofs::Pages::put_whole, crate::proofs::Pages::put_part))]
    pub fn put_text(&mut self, text: &[u8])
        ensures { self.new ≡ put self.old text.now }
    {
        let at = self.at.min(self.bytes.len());
        let room = self.bytes.len() - at;
        if room < text.len() {
            self.bytes[at..].copy_from_slice(&text[..room]);
            self.at = at + room;
            return;
        }
        let end = at + text.len();
        self.bytes[at..end].copy_from_slice(text);
        self.at = end;
    }

    // A number in decimal, with no leading zero.
    #[tactic(auto, using(crate::proofs::Pages::put_behind))]
    pub fn put_decimal(&mut self, n: u64)
        ensures { self.new ≡ put self.old (decimal_of n) }
    {
        let at = self.at.min(self.bytes.len());
        let room = self.bytes.len() - at;
        let size = put_digits(&mut self.bytes[at..], n);
        self.at = at + size.min(room);
    }

    // Each item behind the last one.
    #[tactic(auto, using(crate::proofs::Pages::put_none))]
    fn put_each<T: Shown>(&mut self, items: &[T])
        ensures { self.new ≡ put self.old (flat_map T.text items.now) }
    {
        self.at = self.at.min(self.bytes.len());
        for item in items {
            item.put_on(self);
        }
    }

    // Two digits a byte.
    #[tactic(auto, using(crate::proofs::Putting::hex_each))]
    pub fn put_hex_bytes(&mut self, bytes: &[u8])
        ensures { self.new ≡ put self.old (hex_of bytes.now) }
    {
        self.put_each(bytes);
    }

    // Four digits.
    pub fn put_hex_word(&mut self, word: u16)
        ensures { self.new ≡ put self.old (word_of word) }
    {
        self.put_text(&[
            last_digit(word / 4096),
            last_digit(word / 256),
            last_digit(word / 16),
            last_digit(word),
        ]);
    }

    // A tab and four digits for each word.
    #[tactic(auto, using(crate::proofs::Putting::words_each))]
    pub fn put_words(&mut self, words: &[u16])
        ensures { self.new ≡ put self.old (words_of words.now) }
    {
        self.put_each(words);
    }
}

// An item of a list, as an answer shows it.
trait Shown: Copy {
    ghost text: { Self → List ℕ };

    fn put_on(self, page: &mut Page<'_>)
        ensures { page.new ≡ put page.old (text self) };
}

impl Shown for u8 {
    ghost text = { λ byte. hex_of (byte ∷ []) };

    #[tactic(auto, unfolding(crate::specs::Printing::hex_of))]
    fn put_on(self, page: &mut Page<'_>) {
        let n = u16::from(self);
        page.put_text(&[last_digit(n / 16), last_digit(n)]);
    }
}

impl Shown for u16 {
    ghost text = { λ word. words_of (word ∷ []) };

    #[tactic(auto, using(crate::proofs::Pages::puts_law), unfolding(crate::specs::Printing::words_of))]
    fn put_on(self, page: &mut Page<'_>) {
        page.put_text(b"\t");
        page.put_hex_word(self);
    }
}
