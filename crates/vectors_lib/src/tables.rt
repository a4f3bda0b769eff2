// Tables 8-3 to 8-6: every single-bit change of the descriptors of document 01, "Pairs at the edges", and what is made.
ghost use Rattle.std.specs.Prelude.{◌≡◌, ◌^◌, ◌/◌, ◌%◌, ◌<◌, ◌≤◌};
ghost use Rattle.std.specs.Int.Bits.{bit_xor};

use crate::print::{Answer, ONE, Pair, ZERO};
use std::fmt::Display;
use std::io::Write;
use std::{fmt, io};
use words::control::{Control, Quality, Words};
use words::count::{AcquisitionCount, BlockCount, DistributionCount};
use words::link::Link;
use words::refusal::Refusal;
use words::{control, reading};

// What the top bit of the second word says.
trait Mark: Copy {
    fn name(self) -> &'static str;
}

impl Mark for Quality {
    fn name(self) -> &'static str {
        match self {
            Quality::BestEffort => "b",
            Quality::Verified => "v",
        }
    }
}

impl Mark for bool {
    fn name(self) -> &'static str {
        if self { "error" } else { "good" }
    }
}

// What the words of a descriptor or a confirmation say.
#[derive(Clone, Copy)]
struct Said<M, C>(Control<M, C>);

impl<M: Mark, C: BlockCount + Copy> Display for Said<M, C> {
    fn fmt<W: fmt::Write>(&self, f: &mut fmt::Formatter<W>) -> fmt::Result {
        match self.0 {
            Control::Reset => write!(f, "reset"),
            Control::Block { size, mark, count } => {
                write!(f, "block\t{size}\t{}\t{}", mark.name(), count.number())
            }
        }
    }
}

// What the words of a request say, if there is one yet.
#[derive(Clone, Copy)]
struct Asked<C>(Option<Control<Quality, C>>);

impl<C: BlockCount + Copy> Display for Asked<C> {
    fn fmt<W: fmt::Write>(&self, f: &mut fmt::Formatter<W>) -> fmt::Result {
        match self.0 {
            None => write!(f, "nothing"),
            Some(asked) => write!(f, "{}", Said(asked)),
        }
    }
}

// Whose reading a vector is for: the first field of its line, and what the words say.
trait Table {
    type Found: Display + Copy;

    const NAME: &'static str;

    fn read(words: &[u16], link: Link) -> Result<Self::Found, Refusal>;
}

struct Descriptor;

impl Table for Descriptor {
    type Found = Said<Quality, DistributionCount>;

    const NAME: &'static str = "descriptor";

    fn read(words: &[u16], link: Link) -> Result<Self::Found, Refusal> {
        reading::read_descriptor(words, link).map(Said)
    }
}

struct Request;

impl Table for Request {
    type Found = Asked<AcquisitionCount>;

    const NAME: &'static str = "request";

    fn read(words: &[u16], link: Link) -> Result<Self::Found, Refusal> {
        reading::read_request(words, link).map(Asked)
    }
}

struct Distribution;

impl Table for Distribution {
    type Found = Said<bool, DistributionCount>;

    const NAME: &'static str = "confirmation27";

    fn read(words: &[u16], link: Link) -> Result<Self::Found, Refusal> {
        reading::read_confirmation(words, link).map(Said)
    }
}

struct Acquisition;

impl Table for Acquisition {
    type Found = Said<bool, AcquisitionCount>;

    const NAME: &'static str = "confirmation28";

    fn read(words: &[u16], link: Link) -> Result<Self::Found, Refusal> {
        reading::read_confirmation(words, link).map(Said)
    }
}

fn line<T: Table>(out: &mut impl Write, link: Link, words: Words) -> io::Result<()> {
    let read = T::read(&[words.first, words.second], link);
    writeln!(out, "{}\t{}\t{}", T::NAME, Pair(words), Answer(read))
}

// Two words with one bit changed. Bit 0 is the lowest of the second word.
fn flipped(words: Words, bit: u32) -> Words
    requires { bit < 32 }
    ensures first { result.first ≡ bit_xor words.first (2 ^ bit / 65536) }
    ensures second { result.second ≡ bit_xor words.second (2 ^ bit % 65536) }
{
    let mask = 1u32 << bit;
    Words {
        first: words.first ^ (mask >> 16) as u16,
        second: words.second ^ (mask & 0xFFFF) as u16,
    }
}

// The words as they are, and with each of the lowest `bits` bits changed, the most significant first.
fn flips<T: Table>(out: &mut impl Write, link: Link, words: Words, bits: u32) -> io::Result<()>
    requires { bits ≤ 32 }
{
    line::<T>(out, link, words)?;
    for bit in (0..bits).rev() {
        line::<T>(out, link, flipped(words, bit))?;
    }
    Ok(())
}

// Descriptors (a) to (d), and two of them in the other tables, which read the first word as the descriptor's.
fn changes(out: &mut impl Write) -> io::Result<()> {
    let (b, d) = ((ZERO, 0x0041, 0x0B01), (ONE, 0x0000, 0xB407));
    for (link, first, second) in [(ZERO, 0x0000, 0x4B00), b, (ZERO, 0x0400, 0x8BFE), d] {
        flips::<Descriptor>(out, link, Words { first, second }, 32)?;
    }
    for (link, first, second) in [b, d] {
        let words = Words { first, second };
        flips::<Request>(out, link, words, 16)?;
        flips::<Distribution>(out, link, words, 16)?;
        flips::<Acquisition>(out, link, words, 16)?;
    }
    Ok(())
}

// Words that no single change of (a) to (d) gives, in every table.
// The last two: a first word alone, and a size over a link of mode 1 that has 1024 bytes.
fn edges(out: &mut impl Write) -> io::Result<()> {
    let narrow = Link {
        largest: 1024,
        ..ONE
    };
    let edges = [
        (ZERO, 0x0000, 0x0000),
        (ONE, 0x0000, 0x4B00),
        (ZERO, 0xFFFF, 0xFFFF),
        (ZERO, 0x0041, 0x0000),
        (narrow, 0x0401, 0xB407),
    ];
    for (link, first, second) in edges {
        let words = Words { first, second };
        line::<Descriptor>(out, link, words)?;
        line::<Request>(out, link, words)?;
        line::<Distribution>(out, link, words)?;
        line::<Acquisition>(out, link, words)?;
    }
    Ok(())
}

// The words of a block's descriptor and request, and of its two confirmations.
fn made(
    out: &mut impl Write,
    link: Link,
    size: u16,
    quality: Quality,
    count: u8,
) -> io::Result<()> {
    let there = DistributionCount(count);
    let back = AcquisitionCount(count);
    let error = bool::from(quality);
    let tables = [
        ("8-3", control::descriptor_words(link, size, quality, there)),
        ("8-6", control::request_words(link, size, quality, back)),
        (
            "8-4",
            control::distribution_confirmation_words(link, size, error, there),
        ),
        (
            "8-5",
            control::acquisition_confirmation_words(link, size, error, back),
        ),
    ];
    for (table, words) in tables {
        writeln!(out, "made\t{table}\t{}", Pair(words))?;
    }
    Ok(())
}

// (a) to (d) as they are made.
fn makes(out: &mut impl Write) -> io::Result<()> {
    writeln!(out, "made\treset\t{}", Pair(control::reset_words()))?;
    made(out, ZERO, 65, Quality::BestEffort, 1)?;
    made(out, ZERO, 1024, Quality::Verified, 254)?;
    made(out, ONE, 4096, Quality::Verified, 7)
}

// A message of any number of words.
fn lengths(out: &mut impl Write) -> io::Result<()> {
    let words = [0x0041, 0x0B01, 0x0000];
    for length in 0..=words.len() {
        let read = Descriptor::read(&words[..length], ZERO);
        writeln!(out, "words\t{length}\t{}", Answer(read))?;
    }
    Ok(())
}

pub fn all(out: &mut impl Write) -> io::Result<()> {
    changes(out)?;
    edges(out)?;
    makes(out)?;
    lengths(out)
}
