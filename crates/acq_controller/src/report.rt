// A link is configured, and what the controller tells its application (document 01, "Acquisition").
ghost use Rattle.std.specs.Prelude.{◌≡◌};
ghost use Rattle.words.specs.Link.{no_link};
ghost use Rattle.acq_controller.specs.State.{fresh_of};
ghost use Rattle.acq_controller.specs.Report.{configuring_of, messages_of, report_of};

use crate::state::{Controller, Fate, fresh};
use words::link::{Settings, block_store, message_store};
use words::refusal::{Refusal, Stepped, accept, refuse};

// The fate of the transfer that was held or failed last, the messages that it asked for, and whether a Reset was seen.
#[derive(Clone, Copy)]
pub struct Report {
    pub fate: Option<Fate>,
    pub messages: u16,
    pub seen: bool,
}

// A controller whose link is not set up.
pub fn unconfigured() -> Controller
    ensures { result ≡ fresh_of no_link 0 }
{
    fresh(words::link::no_link(), 0)
}

// A new run, or refusal 20, which leaves an earlier run as it was: a number outside its range, or a store too short.
#[tactic(auto, unfolding(crate::specs::Report::configuring_of))]
pub fn configure(
    c: Controller,
    settings: Settings,
    store: usize,
    hand: usize,
) -> Stepped<Controller, ()>
    ensures { result ≡ configuring_of c settings store hand }
{
    match words::link::configure(settings) {
        Err(refusal) => refuse(refusal, c),
        Ok(link) => {
            if store < message_store(link) || hand < block_store(link) {
                return refuse(Refusal::BadConfiguration, c);
            }
            accept(fresh(link, 0))
        }
    }
}

// Its messages, the first confirmation with them.
#[tactic(auto, using(crate::proofs::Listed::listed), unfolding(crate::specs::Report::messages_of))]
fn messages(c: Controller) -> u16
    ensures { result ≡ messages_of c }
{
    if c.transfer.closed {
        return c.transfer.gone.saturating_add(1);
    }
    c.transfer.gone
}

#[tactic(auto, unfolding(crate::specs::Report::report_of))]
pub fn report_of(c: Controller) -> Result<Report, Refusal>
    ensures { result ≡ report_of c }
{
    if !words::link::is_configured(c.link) {
        return Err(Refusal::NotReady);
    }
    Ok(Report {
        fate: c.transfer.fate,
        messages: messages(c),
        seen: c.seen,
    })
}
