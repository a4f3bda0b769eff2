// Both ends, and how far the message asked for has come.
ghost use Rattle.std.specs.Prelude.{◌≡◌};
ghost use Rattle.acq_pair.specs.State.{unconfigured};

use acq_controller::state::Controller;
use acq_terminal::state::Terminal;

// The words of a read, caught at the terminal: the first `count` of them.
#[derive(Clone, Copy)]
pub struct Reply {
    pub words: [u16; 32],
    pub count: u16,
}

// The message asked for has not arrived; it arrived; or it was a read and its words were caught at the terminal.
// With nothing asked for it is the first.
#[derive(Clone, Copy)]
pub enum Flight {
    NotArrived,
    Arrived,
    Caught(Reply),
}

#[derive(Clone, Copy)]
pub struct Pair {
    pub controller: Controller,
    pub terminal: Terminal,
    pub flight: Flight,
}

// A link that is not set up.
pub fn unconfigured() -> Pair
    ensures { result ≡ unconfigured }
{
    Pair {
        controller: acq_controller::report::unconfigured(),
        terminal: acq_terminal::calls::unconfigured(),
        flight: Flight::NotArrived,
    }
}
