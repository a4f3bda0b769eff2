// Vectors for the crate `words`: what it makes, reads, cuts and judges is run on inputs at its edges, and the answer is written,
// a line to a vector, tab-parted. What each line must be is worked out apart from this code, by tests/vectors.py.
// No contract says what is written, but of two words (`print::Pair`): the functions here are proved safe and ending, and the lines are compared.
#![tactic(auto)]

mod blocks;
mod configuring;
mod print;
mod tables;
mod wire;

use std::io;
use std::io::Write;

// Every vector, in the order of the files.
pub fn run(out: &mut impl Write) -> io::Result<()> {
    tables::all(out)?;
    blocks::all(out)?;
    wire::all(out)?;
    configuring::all(out)
}
