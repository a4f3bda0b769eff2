// What several files write: two links, two words, and an answer.
ghost use Rattle.std.specs.Prelude.{◌≡◌, Err, IfErr, IfOk, IsOk, Some};
ghost use Rattle.vectors_lib.specs.Line.{pair_text};

use std::fmt;
use std::fmt::Display;
use words::control::Words;
use words::link::Link;
use words::refusal::Refusal;

// The link of descriptors (a), (b) and (c) of document 01.
pub const ZERO: Link = Link {
    address: 5,
    mode: 0,
    subaddress: 11,
    largest: 1024,
    window: 2,
};

// The link of descriptor (d).
pub const ONE: Link = Link {
    address: 5,
    mode: 1,
    subaddress: 20,
    largest: 4096,
    window: 2,
};

// Two words, in hexadecimal.
#[derive(Clone, Copy)]
pub struct Pair(pub Words);

impl Display for Pair {
    ghost output = { λ pair. Some (pair_text pair.0) };

    fn fmt<W: fmt::Write>(&self, f: &mut fmt::Formatter<W>) -> fmt::Result {
        write!(f, "{:04X}\t{:04X}", self.0.first, self.0.second)
    }
}

// What was found, or the number of the refusal.
#[derive(Clone, Copy)]
pub struct Answer<T>(pub Result<T, Refusal>);

impl<T: Display> Display for Answer<T> {
    fn fmt<W: fmt::Write>(&self, f: &mut fmt::Formatter<W>) -> fmt::Result {
        match &self.0 {
            Ok(found) => write!(f, "{found}"),
            Err(refusal) => write!(f, "no\t{}", *refusal as u8),
        }
    }
}

// An answer with nothing to find: `ok`, or the refusal.
pub fn taken(answer: Result<(), Refusal>) -> Answer<&'static str>
    ensures refused { IfErr answer (λ refusal. result.0 ≡ Err refusal) }
    ensures accepted { IfOk answer (λ _. IsOk result.0) }
{
    Answer(answer.map(|()| "ok"))
}
