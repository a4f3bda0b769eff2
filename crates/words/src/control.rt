// The two words of a descriptor, a request and a confirmation: one layout for Tables 8-3, 8-4, 8-5 and 8-6.
ghost use Rattle.std.specs.Prelude.{◌≡◌};
ghost use Rattle.words.specs.Control.{bit_of, verified_of, quality_of, made_of, reset_words, block_words, confirmation_words};
ghost use Rattle.words.specs.Control.{descriptor_words, request_words, distribution_confirmation_words, acquisition_confirmation_words};

use crate::count::{AcquisitionCount, BlockCount, DistributionCount};
use crate::link::Link;

#[derive(Clone, Copy)]
pub struct Words {
    pub first: u16,
    pub second: u16,
}

// QoS: 1 is Verified Length, 0 is Best Effort.
#[derive(Clone, Copy)]
pub enum Quality {
    BestEffort,
    Verified,
}

// What two words say, whichever the table. The mark is the top bit of the second word, the count the last byte.
#[derive(Clone, Copy)]
pub enum Control<M, C> {
    Reset,
    Block { size: u16, mark: M, count: C },
}

// Tables 8-3 and 8-6: the mark is QoS.
pub type Descriptor<C> = Control<Quality, C>;

// Tables 8-4 and 8-5: the mark is Error.
pub type Confirmation<C> = Control<bool, C>;

impl From<Quality> for bool {
    ghost from_gives = { λ quality verified. verified ≡ verified_of quality };

    fn from(quality: Quality) -> bool {
        match quality {
            Quality::BestEffort => false,
            Quality::Verified => true,
        }
    }
}

impl From<bool> for Quality {
    ghost from_gives = { λ verified quality. quality ≡ quality_of verified };

    fn from(verified: bool) -> Quality {
        if verified {
            return Quality::Verified;
        }
        Quality::BestEffort
    }
}

// The words of a link's block.
#[tactic(auto, unfolding(crate::specs::Control::made_of))]
fn made(link: Link, size: u16, mark: bool, count: u8) -> Words
    ensures { result ≡ made_of link size mark count }
{
    let mode = u16::from(link.mode % 2);
    let subaddress = u16::from(link.subaddress % 32);
    Words {
        first: size % 4096,
        second: u16::from(mark) * 32768 + mode * 8192 + subaddress * 256 + u16::from(count),
    }
}

// Tables 8-3 and 8-6: of a block that is offered.
pub fn block_words<C: BlockCount>(link: Link, size: u16, quality: Quality, count: C) -> Words
    ensures { result ≡ block_words link size quality (C.number count) }
{
    made(link, size, bool::from(quality), count.number())
}

// Tables 8-4 and 8-5: of a block that was handled.
pub fn confirmation_words<C: BlockCount>(link: Link, size: u16, error: bool, count: C) -> Words
    ensures { result ≡ confirmation_words link size error (C.number count) }
{
    made(link, size, error, count.number())
}

// Table 8-3.
pub fn descriptor_words(link: Link, size: u16, quality: Quality, count: DistributionCount) -> Words
    ensures { result ≡ descriptor_words link size quality count }
{
    block_words::<DistributionCount>(link, size, quality, count)
}

// Table 8-6.
pub fn request_words(link: Link, size: u16, quality: Quality, count: AcquisitionCount) -> Words
    ensures { result ≡ request_words link size quality count }
{
    block_words::<AcquisitionCount>(link, size, quality, count)
}

// Table 8-4.
pub fn distribution_confirmation_words(
    link: Link,
    size: u16,
    error: bool,
    count: DistributionCount,
) -> Words
    ensures { result ≡ distribution_confirmation_words link size error count }
{
    confirmation_words::<DistributionCount>(link, size, error, count)
}

// Table 8-5.
pub fn acquisition_confirmation_words(
    link: Link,
    size: u16,
    error: bool,
    count: AcquisitionCount,
) -> Words
    ensures { result ≡ acquisition_confirmation_words link size error count }
{
    confirmation_words::<AcquisitionCount>(link, size, error, count)
}

// A Reset in any of the four tables: SIZE, QoS or Error, Mode and count 0, and SA 11.
pub fn reset_words() -> Words
    ensures { result ≡ reset_words }
{
    Words {
        first: 0,
        second: 0x4B00,
    }
}
