// Both ends, and how far the message asked for has come.
ghost use Rattle.std.specs.Prelude.{◌≡◌};
ghost use Rattle.dist_pair.specs.State.{unconfigured};

use dist_controller::state::Controller;
use dist_terminal::state::Terminal;
use words::control::Words;

// The message asked for has not arrived; it arrived; or it was a read and its words were caught at the terminal.
// With nothing asked for it is the first.
#[derive(Clone, Copy)]
pub enum Flight {
    NotArrived,
    Arrived,
    Caught(Words),
}

#[derive(Clone, Copy)]
pub struct Pair {
    pub controller: Controller,
    pub terminal: Terminal,
    pub flight: Flight,
}

// A link that is not set up.
pub fn unconfigured() -> Pair
    ensures { result ≡ unconfigured }
{
    Pair {
        controller: dist_controller::report::unconfigured(),
        terminal: dist_terminal::calls::unconfigured(),
        flight: Flight::NotArrived,
    }
}
