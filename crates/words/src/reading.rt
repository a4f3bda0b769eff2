// What the words of a message say: refusals 6 to 12, the lowest first (document 01, "Numbers a caller may get back").
ghost use Rattle.std.specs.Prelude.{◌≡◌};
ghost use Rattle.words.specs.Reading.{size_of, over_of, plain_of, control_of, read_of, sized_of, nothing_yet_of};
ghost use Rattle.words.specs.Reading.{read_descriptor_of, read_request_of, read_confirmation_of};

use crate::control::{Confirmation, Control, Descriptor, Quality, Words};
use crate::count::BlockCount;
use crate::link::Link;
use crate::refusal::Refusal;

// SIZE: 12 bits, 0 reads as 4096.
#[tactic(auto, unfolding(crate::specs::Reading::size_of))]
fn size_field(first: u16) -> u16
    ensures { result ≡ size_of first }
{
    let size = first % 4096;
    if size == 0 { 4096 } else { size }
}

// Refusal 9, and what words without Reset say.
#[tactic(auto, unfolding(crate::specs::Reading::plain_of))]
fn plain(words: Words, link: Link) -> Result<Control<bool, u8>, Refusal>
    ensures { result ≡ plain_of words link }
{
    if words.second / 8192 % 2 != u16::from(link.mode) {
        return Err(Refusal::OtherLink);
    }
    if words.second / 256 % 32 != u16::from(link.subaddress) {
        return Err(Refusal::OtherLink);
    }
    Ok(Control::Block {
        size: size_field(words.first),
        mark: words.second / 32768 == 1,
        count: (words.second % 256) as u8,
    })
}

// Refusals 7 to 9, the lowest first; a well-formed Reset skips 9.
#[tactic(auto, unfolding(crate::specs::Reading::control_of))]
fn control(words: Words, link: Link) -> Result<Control<bool, u8>, Refusal>
    ensures { result ≡ control_of words link }
{
    if words.first / 4096 != 0 {
        return Err(Refusal::ReservedBits);
    }
    if words.second / 16384 % 2 != 1 {
        return plain(words, link);
    }
    if words.first != 0 {
        return Err(Refusal::BadReset);
    }
    if words.second != 0x4B00 {
        return Err(Refusal::BadReset);
    }
    Ok(Control::Reset)
}

// Refusals 6 to 9 for the words of a message.
#[tactic(auto, unfolding(crate::specs::Reading::read_of))]
fn read(words: &[u16], link: Link) -> Result<Control<bool, u8>, Refusal>
    ensures { result ≡ read_of words.now link }
{
    let [first, second] = *words else {
        return Err(Refusal::NotTwoWords);
    };
    control(Words { first, second }, link)
}

// A size over `limit`, on a link whose largest block is `limit`.
#[tactic(auto, unfolding(crate::specs::Reading::over_of))]
fn over(largest: u16, limit: u16, size: u16) -> bool
    ensures { result ≡ over_of largest limit size }
{
    largest == limit && limit < size
}

// Refusals 10 to 12 of a descriptor or a request, whose words passed 6 to 9.
#[tactic(auto, unfolding(crate::specs::Reading::sized_of))]
fn sized(control: Control<bool, u8>, link: Link) -> Result<Control<bool, u8>, Refusal>
    ensures { result ≡ sized_of control link }
{
    let Control::Block { size, count, .. } = control else {
        return Ok(Control::Reset);
    };
    if over(link.largest, 1024, size) {
        return Err(Refusal::Over1024);
    }
    if over(link.largest, 4096, size) {
        return Err(Refusal::Over4096);
    }
    if count == 0 {
        return Err(Refusal::NoReset);
    }
    Ok(control)
}

// What a message to SA 27R says.
#[tactic(auto, unfolding(crate::specs::Reading::read_descriptor_of))]
pub fn read_descriptor<C: BlockCount>(words: &[u16], link: Link) -> Result<Descriptor<C>, Refusal>
    ensures { result ≡ read_descriptor_of C.counted words.now link }
{
    let control = sized(read(words, link)?, link)?;
    match control {
        Control::Reset => Ok(Control::Reset),
        Control::Block { size, mark, count } => Ok(Control::Block {
            size,
            mark: Quality::from(mark),
            count: C::counted(count),
        }),
    }
}

// Whether two words are both zero.
#[tactic(auto, unfolding(crate::specs::Reading::nothing_yet_of))]
fn nothing_yet(words: &[u16]) -> bool
    ensures { result ≡ nothing_yet_of words.now }
{
    matches!(words, [0, 0])
}

// What a read of 28T says; two zero words are no request yet.
#[tactic(auto, unfolding(crate::specs::Reading::read_request_of))]
pub fn read_request<C: BlockCount>(
    words: &[u16],
    link: Link,
) -> Result<Option<Descriptor<C>>, Refusal>
    ensures { result ≡ read_request_of C.counted words.now link }
{
    if nothing_yet(words) {
        return Ok(None);
    }
    Ok(Some(read_descriptor(words, link)?))
}

// What a read of 27T, or a message to SA 28R, says.
#[tactic(auto, unfolding(crate::specs::Reading::read_confirmation_of))]
pub fn read_confirmation<C: BlockCount>(
    words: &[u16],
    link: Link,
) -> Result<Confirmation<C>, Refusal>
    ensures { result ≡ read_confirmation_of C.counted words.now link }
{
    match read(words, link)? {
        Control::Reset => Ok(Control::Reset),
        Control::Block { size, mark, count } => Ok(Control::Block {
            size,
            mark,
            count: C::counted(count),
        }),
    }
}
