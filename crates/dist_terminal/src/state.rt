// What the terminal keeps of its link, and the changes that its events are made of.
ghost use Rattle.std.specs.Prelude.{◌≡◌};
ghost use Rattle.dist_terminal.specs.State.{fresh_of, cleared_of, with_hand, reset_of};

use words::control::Words;
use words::count::DistributionCount;
use words::link::Link;

// A block to hold, as its descriptor has it. One in hand has its bytes in the lent hand.
#[derive(Clone, Copy)]
pub struct Held {
    pub size: u16,
    pub count: DistributionCount,
}

// Which subaddresses were written since marks were last cleared, and with how many words each was written last.
#[derive(Clone, Copy)]
pub struct Marks {
    pub places: u16,
    pub words: [u8; 16],
}

// `seen`: a Reset was seen. `handled`: the last handled count. `shown`: the words of 27T. `received`: mode 1's words since marks were
// cleared, 2049 standing for any number that is too many.
#[derive(Clone, Copy)]
pub struct Terminal {
    pub link: Link,
    pub seen: bool,
    pub handled: DistributionCount,
    pub hand: Option<Held>,
    pub shown: Words,
    pub marks: Marks,
    pub received: u16,
}

// No Reset seen, nothing held, 27T zero.
pub fn fresh(link: Link) -> Terminal
    ensures { result ≡ fresh_of link }
{
    Terminal {
        link,
        seen: false,
        handled: DistributionCount(0),
        hand: None,
        shown: Words {
            first: 0,
            second: 0,
        },
        marks: Marks {
            places: 0,
            words: [0; 16],
        },
        received: 0,
    }
}

// Marks are cleared: old word counts mean nothing any more, so they stay as they are.
pub fn cleared(t: Terminal) -> Terminal
    ensures { result ≡ cleared_of t }
{
    Terminal {
        marks: Marks {
            places: 0,
            ..t.marks
        },
        received: 0,
        ..t
    }
}

// A count is handled, by a refusal 15 or a block that is accepted, and marks are cleared.
pub(crate) fn handled(t: Terminal, count: DistributionCount) -> Terminal
    ensures { result ≡ with_hand count t.hand t.shown (cleared_of t) }
{
    Terminal {
        handled: count,
        ..cleared(t)
    }
}

// A Reset: seen, the hand and the marks dropped, last handled 0, and 27T shows it.
pub fn after_reset(t: Terminal) -> Terminal
    ensures { result ≡ reset_of t }
{
    Terminal {
        seen: true,
        hand: None,
        shown: words::control::reset_words(),
        ..handled(t, DistributionCount(0))
    }
}
