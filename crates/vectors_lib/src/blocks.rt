// Blocks: what sizes are taken, how a block is cut, and which count comes next.
use crate::print::{ONE, ZERO, taken};
use std::io;
use std::io::Write;
use words::count::{AcquisitionCount, DistributionCount};
use words::cutting;
use words::refusal::number;

// Whether each of the two links takes the size, in words and as a number.
fn asked_line(out: &mut impl Write, size: usize) -> io::Result<()> {
    let zero = cutting::size_answer(ZERO, size);
    let one = cutting::size_answer(ONE, size);
    writeln!(
        out,
        "asked\t{size}\t{}\t{}\t{}\t{}",
        taken(zero),
        taken(one),
        number(zero),
        number(one),
    )
}

fn size_line(out: &mut impl Write, size: u16) -> io::Result<()> {
    let messages = cutting::messages(size);
    let last = messages.saturating_sub(1);
    writeln!(
        out,
        "size\t{size}\t{}\t{}\t{messages}\t{}\t{}\t{}\t{}",
        taken(cutting::size_answer(ZERO, usize::from(size))),
        taken(cutting::size_answer(ONE, usize::from(size))),
        cutting::message_words(size, 0),
        cutting::message_words(size, last),
        cutting::message_subaddress(ZERO, last),
        cutting::message_subaddress(ONE, last),
    )
}

// A byte less than whole messages, whole messages, and a byte more.
fn sizes(out: &mut impl Write) -> io::Result<()> {
    for whole in (64..=4096).step_by(64) {
        for size in [whole - 1, whole, whole + 1] {
            size_line(out, size)?;
        }
    }
    Ok(())
}

fn counts(out: &mut impl Write) -> io::Result<()> {
    for n in 0..=255 {
        let there = DistributionCount(n).next();
        let back = AcquisitionCount(n).next();
        writeln!(out, "count\t{n}\t{}\t{}", there.0, back.0)?;
    }
    Ok(())
}

fn verdict(same: bool) -> &'static str {
    if same { "same" } else { "other" }
}

fn same_line(out: &mut impl Write, a: u8, b: u8) -> io::Result<()> {
    let there = DistributionCount(a).same(DistributionCount(b));
    let back = AcquisitionCount(a).same(AcquisitionCount(b));
    writeln!(
        out,
        "same\t{a}\t{b}\t{}\t{}",
        verdict(there),
        verdict(back),
    )
}

// The last size asked about is 1 in its low sixteen bits.
pub fn all(out: &mut impl Write) -> io::Result<()> {
    for size in [0, 1024, 1025, 65536, 65537] {
        asked_line(out, size)?;
    }
    size_line(out, 1)?;
    sizes(out)?;
    counts(out)?;
    for (a, b) in [(0, 0), (0, 255), (1, 129), (255, 1), (255, 255)] {
        same_line(out, a, b)?;
    }
    Ok(())
}
