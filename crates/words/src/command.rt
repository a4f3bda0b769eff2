// The Reset command of the acquisition protocol, a message to SA 1R (001 Tables 8-9 and 8-10, clause 8.7.3 h).
ghost use Rattle.std.specs.Prelude.{◌≡◌};
ghost use Rattle.words.specs.Command.{command_words, read_command_of};

use crate::control::Words;
use crate::refusal::Refusal;

// What a message to SA 1R means to the acquisition protocol.
#[derive(Clone, Copy)]
pub enum Command {
    Reset,
    Other,
}

// What the controller sends.
pub fn command_words() -> Words
    ensures { result ≡ command_words }
{
    Words {
        first: 0,
        second: 1,
    }
}

// The second word is the Reset Services command, and its bit 15 is this protocol's; the rest is for others to read.
#[tactic(auto, unfolding(crate::specs::Command::read_command_of))]
pub fn read_command(words: &[u16]) -> Result<Command, Refusal>
    ensures { result ≡ read_command_of words.now }
{
    if !(1..=32).contains(&words.len()) {
        return Err(Refusal::BadMessage);
    }
    if words.len() < 2 {
        return Ok(Command::Other);
    }
    if words[1] % 2 == 1 {
        return Ok(Command::Reset);
    }
    Ok(Command::Other)
}
