// Configurations: each number at its range's ends and just outside, in both modes, and past the width that a link keeps.
use crate::print::{Answer, ONE, ZERO};
use std::fmt::Display;
use std::io::Write;
use std::{fmt, io};
use words::link;
use words::link::{Link, Settings};

// The five numbers, in the order of a configuration.
#[derive(Clone, Copy)]
struct Numbers(Settings);

impl Display for Numbers {
    fn fmt<W: fmt::Write>(&self, f: &mut fmt::Formatter<W>) -> fmt::Result {
        let Settings {
            address,
            mode,
            subaddress,
            largest,
            window,
        } = self.0;
        write!(f, "{address}\t{mode}\t{subaddress}\t{largest}\t{window}")
    }
}

// What a configured link keeps, and the storage it asks for.
#[derive(Clone, Copy)]
struct Kept(Link);

impl Display for Kept {
    fn fmt<W: fmt::Write>(&self, f: &mut fmt::Formatter<W>) -> fmt::Result {
        let numbers = Numbers(Settings::from(self.0));
        let message_store = link::message_store(self.0);
        let block_store = link::block_store(self.0);
        write!(f, "ok\t{numbers}\t{message_store}\t{block_store}")
    }
}

fn line(out: &mut impl Write, settings: Settings) -> io::Result<()> {
    let made = link::configure(settings).map(Kept);
    writeln!(out, "link\t{}\t{}", Numbers(settings), Answer(made))
}

// One number changed at a time.
fn around(out: &mut impl Write, base: Settings) -> io::Result<()> {
    for address in [0, 30, 31, 256] {
        line(out, Settings { address, ..base })?;
    }
    for mode in [0, 1, 2, 256, 257] {
        line(out, Settings { mode, ..base })?;
    }
    for subaddress in [0, 10, 11, 12, 26, 27, 267] {
        line(out, Settings { subaddress, ..base })?;
    }
    for largest in [0, 1023, 1024, 1025, 4095, 4096, 4097, 66560, 69632] {
        line(out, Settings { largest, ..base })?;
    }
    for window in [1, 2, 16, 17, 258, 4294967295] {
        line(out, Settings { window, ..base })?;
    }
    Ok(())
}

// The same test over what a link holds.
fn held_line(out: &mut impl Write, link: Link) -> io::Result<()> {
    let numbers = Numbers(Settings::from(link));
    let verdict = if link::is_configured(link) {
        "link"
    } else {
        "none"
    };
    writeln!(out, "held\t{numbers}\t{verdict}")
}

// A record of zeros, as storage is before configuring, is no link.
fn held(out: &mut impl Write) -> io::Result<()> {
    let zeros = Link {
        address: 0,
        mode: 0,
        subaddress: 0,
        largest: 0,
        window: 0,
    };
    let wide = Link {
        largest: 4096,
        ..ZERO
    };
    let far = Link { address: 31, ..ONE };
    for link in [ZERO, ONE, zeros, wide, far] {
        held_line(out, link)?;
    }
    Ok(())
}

pub fn all(out: &mut impl Write) -> io::Result<()> {
    for base in [ZERO, ONE] {
        around(out, Settings::from(base))?;
    }
    held(out)
}
