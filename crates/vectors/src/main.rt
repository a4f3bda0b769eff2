// Runs the vectors of `words`; `stdout` has what they must give, written by tests/vectors.py.
#![tactic(auto)]

use std::io;

fn main(rt: HostRuntime) -> io::Result<()> {
    vectors_lib::run(&mut rt.stdout())
}
