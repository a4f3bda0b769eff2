// A link is configured, the terminal restarts or asks for a Reset, and what it tells its application (document 01, "Acquisition").
ghost use Rattle.std.specs.Prelude.{◌≡◌};
ghost use Rattle.words.specs.Link.{no_link};
ghost use Rattle.acq_terminal.specs.State.{fresh_of};
ghost use Rattle.acq_terminal.specs.Calls.{configuring_of, restart_of, reset_of, acceptance_of, report_of};

use crate::state::{Fate, Stage, Terminal, asking, fresh};
use words::link::Settings;
use words::refusal::{Refusal, Stepped, accept, refuse};

// Where the Reset stands.
#[derive(Clone, Copy)]
pub enum Acceptance {
    NotAsked,
    Pending,
    Accepted,
}

// The fate of the block that was placed last, and where the Reset stands.
#[derive(Clone, Copy)]
pub struct Report {
    pub fate: Option<Fate>,
    pub acceptance: Acceptance,
}

// A terminal whose link is not set up.
pub fn unconfigured() -> Terminal
    ensures { result ≡ fresh_of no_link }
{
    fresh(words::link::no_link())
}

// A new run, or refusal 20, which leaves an earlier run as it was: a number outside its range, or the block store too short.
#[tactic(auto, unfolding(crate::specs::Calls::configuring_of))]
pub fn configure(t: Terminal, settings: Settings, store: usize) -> Stepped<Terminal, ()>
    ensures { result ≡ configuring_of t settings store }
{
    match words::link::configure(settings) {
        Err(refusal) => refuse(refusal, t),
        Ok(link) => {
            if store < words::link::block_store(link) {
                return refuse(Refusal::BadConfiguration, t);
            }
            accept(fresh(link))
        }
    }
}

// A restart keeps the configuration; all else is fresh.
#[tactic(auto, unfolding(crate::specs::Calls::restart_of))]
pub fn restart(t: Terminal) -> Stepped<Terminal, ()>
    ensures { result ≡ restart_of t }
{
    if !words::link::is_configured(t.link) {
        return refuse(Refusal::NotReady, t);
    }
    accept(fresh(t.link))
}

// The application asks for a Reset.
#[tactic(auto, unfolding(crate::specs::Calls::reset_of))]
pub fn reset(t: Terminal) -> Stepped<Terminal, ()>
    ensures { result ≡ reset_of t }
{
    if !words::link::is_configured(t.link) {
        return refuse(Refusal::NotReady, t);
    }
    accept(asking(t))
}

fn acceptance_of(stage: Stage) -> Acceptance
    ensures { result ≡ acceptance_of stage }
{
    match stage {
        Stage::Silent => Acceptance::NotAsked,
        Stage::Asking => Acceptance::Pending,
        Stage::Ready | Stage::Open(_) => Acceptance::Accepted,
    }
}

#[tactic(auto, unfolding(crate::specs::Calls::report_of))]
pub fn report_of(t: Terminal) -> Result<Report, Refusal>
    ensures { result ≡ report_of t }
{
    if !words::link::is_configured(t.link) {
        return Err(Refusal::NotReady);
    }
    Ok(Report {
        fate: t.fate,
        acceptance: acceptance_of(t.stage),
    })
}
