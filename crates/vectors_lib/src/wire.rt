// What a message brought: status words, data messages, the Reset command; and the tick.
use crate::print::{Answer, ONE, Pair, ZERO, taken};
use std::fmt::Display;
use std::io::Write;
use std::{fmt, io};
use words::command::Command;
use words::status::Outcome;
use words::{command, cutting, status, tick};

// A status word, if one came.
#[derive(Clone, Copy)]
struct Status(Option<u16>);

impl Display for Status {
    fn fmt<W: fmt::Write>(&self, f: &mut fmt::Formatter<W>) -> fmt::Result {
        match self.0 {
            Some(status) => write!(f, "{status:04X}"),
            None => write!(f, "none"),
        }
    }
}

fn status_line(
    out: &mut impl Write,
    status: Option<u16>,
    asked: usize,
    came: usize,
) -> io::Result<()> {
    let outcome = match status::read_status(status, 5, asked, came) {
        Outcome::Done => "done",
        Outcome::NoReply => "lost",
    };
    writeln!(
        out,
        "status\t{}\t{asked}\t{came}\t{outcome}",
        Status(status)
    )
}

fn status_pair(out: &mut impl Write, status: u16) -> io::Result<()> {
    status_line(out, Some(status), 2, 2)?;
    status_line(out, Some(status), 2, 1)
}

// A status word as it is, with each bit changed, the most significant first, and with other counts of words.
// At the end no status word, though the words came.
fn statuses(out: &mut impl Write, good: u16) -> io::Result<()> {
    status_pair(out, good)?;
    for bit in (0..16u32).rev() {
        status_pair(out, good ^ (1 << bit))?;
    }
    status_line(out, Some(good), 0, 0)?;
    status_line(out, Some(good), 2, 3)?;
    status_line(out, None, 2, 2)
}

fn ticks(out: &mut impl Write) -> io::Result<()> {
    for tick in [0, 1, 65534, 65535] {
        writeln!(out, "tick\t{tick}\t{}", tick::next_tick(tick))?;
    }
    Ok(())
}

fn ages(out: &mut impl Write) -> io::Result<()> {
    let pairs = [
        (0, 0),
        (7, 5),
        (5, 7),
        (65535, 65533),
        (0, 65535),
        (1, 65535),
        (0, 65534),
        (15, 65535),
        (65535, 0),
        (65535, 65535),
        (65534, 65535),
    ];
    for (tick, since) in pairs {
        writeln!(out, "age\t{tick}\t{since}\t{}", tick::age(tick, since))?;
    }
    Ok(())
}

fn command_line(out: &mut impl Write, words: &[u16], second: u16) -> io::Result<()> {
    let read = command::read_command(words).map(|command| match command {
        Command::Reset => "reset",
        Command::Other => "other",
    });
    writeln!(
        out,
        "command\t{}\t{second:04X}\t{}",
        words.len(),
        Answer(read)
    )
}

// Message lengths at the edges, with one second word; all other words have every bit set.
fn command_lengths(out: &mut impl Write, second: u16) -> io::Result<()> {
    let mut words = [0xFFFF; 33];
    words[1] = second;
    for length in [0, 1, 2, 3, 32, 33] {
        command_line(out, &words[..length], second)?;
    }
    Ok(())
}

// The bit alone, all bits but it, both, and nothing.
fn commands(out: &mut impl Write) -> io::Result<()> {
    writeln!(out, "made\t8-10\t{}", Pair(command::command_words()))?;
    for second in [0x0001, 0xFFFE, 0xFFFF, 0x0000] {
        command_lengths(out, second)?;
    }
    Ok(())
}

fn data(out: &mut impl Write) -> io::Result<()> {
    for link in [ZERO, ONE] {
        for subaddress in [10, 11, 20, 26, 27] {
            for words in [0, 1, 32, 33] {
                let answer = taken(cutting::data_answer(link, subaddress, words));
                writeln!(out, "data\t{}\t{subaddress}\t{words}\t{answer}", link.mode)?;
            }
        }
    }
    Ok(())
}

// 2800 is address 5 in the top five bits, and nothing else.
pub fn all(out: &mut impl Write) -> io::Result<()> {
    statuses(out, 0x2800)?;
    ticks(out)?;
    ages(out)?;
    commands(out)?;
    data(out)
}
