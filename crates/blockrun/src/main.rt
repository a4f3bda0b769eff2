// blockrun: both ends of one distribution link, driven by tab-parted lines on standard input (document 01, "Pairs at the edges").
#![tactic(auto)]

mod turns;

use std::io;

fn main(rt: HostRuntime) -> io::Result<()> {
    turns::answer_input(&mut rt.stdin(), &mut rt.stdout())
}
