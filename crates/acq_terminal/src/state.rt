// What the terminal keeps of one link, and the changes that its events are made of.
ghost use Rattle.std.specs.Prelude.{◌≡◌};
ghost use Rattle.acq_terminal.specs.State.{fresh_of, asking_of, accepted_of, ended_of};

use words::control::Quality;
use words::count::AcquisitionCount;
use words::link::Link;

// The block that is placed; `part` is the message that mode 1 transmits next, from 0.
#[derive(Clone, Copy)]
pub struct Placed {
    pub size: u16,
    pub quality: Quality,
    pub part: u16,
}

// Where the terminal stands: no Reset asked for, one asked for, one accepted with nothing open, or a block placed.
#[derive(Clone, Copy)]
pub enum Stage {
    Silent,
    Asking,
    Ready,
    Open(Placed),
}

// What became of the block that was placed last.
#[derive(Clone, Copy)]
pub enum Fate {
    Open,
    Confirmed,
    Failed,
    Reset,
}

// `count` is the last one taken, 0 after a Reset.
#[derive(Clone, Copy)]
pub struct Terminal {
    pub link: Link,
    pub stage: Stage,
    pub count: AcquisitionCount,
    pub fate: Option<Fate>,
}

// No Reset asked for, nothing placed.
pub fn fresh(link: Link) -> Terminal
    ensures { result ≡ fresh_of link }
{
    Terminal {
        link,
        stage: Stage::Silent,
        count: AcquisitionCount(0),
        fate: None,
    }
}

// A Reset request stands. A block that was open ends by it.
pub fn asking(t: Terminal) -> Terminal
    ensures { result ≡ asking_of t }
{
    let fate = match t.stage {
        Stage::Open(_) => Some(Fate::Reset),
        Stage::Silent | Stage::Asking | Stage::Ready => t.fate,
    };
    Terminal {
        stage: Stage::Asking,
        fate,
        ..t
    }
}

// The Reset is accepted: counts start again.
pub fn accepted(t: Terminal) -> Terminal
    ensures { result ≡ accepted_of t }
{
    Terminal {
        stage: Stage::Ready,
        count: AcquisitionCount(0),
        ..t
    }
}

// The open block's fate is known.
pub fn ended(t: Terminal, fate: Fate) -> Terminal
    ensures { result ≡ ended_of fate t }
{
    Terminal {
        stage: Stage::Ready,
        fate: Some(fate),
        ..t
    }
}
