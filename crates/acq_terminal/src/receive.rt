// A message arrives: a confirmation at 28R, or a command at SA 1R (document 01, "Acquisition").
ghost use Rattle.std.specs.Prelude.{◌≡◌};
ghost use Rattle.acq_terminal.specs.Receive.{confirmed_of, judged_of, confirmation_of, command_of, receive_of};

use crate::state::{Fate, Stage, Terminal, accepted, asking, ended};
use words::command::Command;
use words::control::{Confirmation, Control};
use words::count::AcquisitionCount;
use words::refusal::{Refusal, Stepped, accept, refuse};

// A confirmation with the open block's count ends it.
fn confirmed(t: Terminal, error: bool, count: AcquisitionCount) -> Terminal
    ensures { result ≡ confirmed_of error count t }
{
    match t.stage {
        Stage::Open(_) => {
            if !count.same(t.count) {
                return t;
            }
            if error {
                return ended(t, Fate::Failed);
            }
            ended(t, Fate::Confirmed)
        }
        Stage::Silent | Stage::Asking | Stage::Ready => t,
    }
}

// The reset confirmation accepts a Reset request that stands.
fn judged(t: Terminal, confirmation: Confirmation<AcquisitionCount>) -> Terminal
    ensures { result ≡ judged_of confirmation t }
{
    match confirmation {
        Control::Reset => match t.stage {
            Stage::Asking => accepted(t),
            Stage::Silent | Stage::Ready | Stage::Open(_) => t,
        },
        Control::Block {
            size: _,
            mark: error,
            count,
        } => confirmed(t, error, count),
    }
}

// A message to 28R: refusals 6 to 9.
#[tactic(auto, unfolding(crate::specs::Receive::confirmation_of))]
fn confirmation(t: Terminal, words: &[u16]) -> Stepped<Terminal, ()>
    ensures { result ≡ confirmation_of t words.now }
{
    match words::reading::read_confirmation(words, t.link) {
        Err(refusal) => refuse(refusal, t),
        Ok(confirmation) => accept(judged(t, confirmation)),
    }
}

// A message to SA 1R: the Reset command is a Reset request, made at once.
#[tactic(auto, unfolding(crate::specs::Receive::command_of))]
fn command(t: Terminal, words: &[u16]) -> Stepped<Terminal, ()>
    ensures { result ≡ command_of t words.now }
{
    match words::command::read_command(words) {
        Err(refusal) => refuse(refusal, t),
        Ok(Command::Reset) => accept(asking(t)),
        Ok(Command::Other) => accept(t),
    }
}

// A message to a receive subaddress.
#[tactic(auto, unfolding(crate::specs::Receive::receive_of))]
pub fn receive(t: Terminal, subaddress: u8, words: &[u16]) -> Stepped<Terminal, ()>
    ensures { result ≡ receive_of t subaddress words.now }
{
    if !words::link::is_configured(t.link) {
        return refuse(Refusal::NotReady, t);
    }
    match subaddress {
        28 => confirmation(t, words),
        1 => command(t, words),
        _ => refuse(Refusal::BadMessage, t),
    }
}
