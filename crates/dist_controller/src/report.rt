// A link is configured, and what the controller tells its application (document 01, "Distribution").
ghost use Rattle.std.specs.Prelude.{◌≡◌};
ghost use Rattle.words.specs.Link.{no_link};
ghost use Rattle.dist_controller.specs.State.{fresh_of};
ghost use Rattle.dist_controller.specs.Report.{configuring_of, acceptance_of, report_of};

use crate::state::{Controller, Fate, Finding, Phase, fresh};
use words::link::Settings;
use words::refusal::{Refusal, Stepped, accept, refuse};

// Where the last Reset stands.
#[derive(Clone, Copy)]
pub enum Acceptance {
    Pending,
    Accepted,
    NotAccepted,
}

// The fate of the transfer that was started last, the messages it asked for, what the last read found, and where the Reset stands.
#[derive(Clone, Copy)]
pub struct Report {
    pub fate: Option<Fate>,
    pub messages: u16,
    pub found: Option<Finding>,
    pub acceptance: Acceptance,
}

// A controller whose link is not set up.
pub fn unconfigured() -> Controller
    ensures { result ≡ fresh_of no_link 0 }
{
    fresh(words::link::no_link(), 0)
}

// A new run, or refusal 20, which leaves an earlier run as it was: a number outside its range, or the block store too short.
#[tactic(auto, unfolding(crate::specs::Report::configuring_of))]
pub fn configure(c: Controller, settings: Settings, store: usize) -> Stepped<Controller, ()>
    ensures { result ≡ configuring_of c settings store }
{
    match words::link::configure(settings) {
        Err(refusal) => refuse(refusal, c),
        Ok(link) => {
            if store < words::link::block_store(link) {
                return refuse(Refusal::BadConfiguration, c);
            }
            accept(fresh(link, 0))
        }
    }
}

#[tactic(auto, unfolding(crate::specs::Report::acceptance_of))]
fn acceptance_of(phase: Phase, accepted: bool) -> Acceptance
    ensures { result ≡ acceptance_of phase accepted }
{
    if accepted {
        return Acceptance::Accepted;
    }
    match phase {
        Phase::Idle | Phase::Sending | Phase::Waiting | Phase::Reading => Acceptance::NotAccepted,
        Phase::Resetting
        | Phase::ResetWaiting
        | Phase::ResetReading
        | Phase::CutSending
        | Phase::CutReading
        | Phase::CutResetting => Acceptance::Pending,
    }
}

#[tactic(auto, unfolding(crate::specs::Report::report_of))]
pub fn report_of(c: Controller) -> Result<Report, Refusal>
    ensures { result ≡ report_of c }
{
    if !words::link::is_configured(c.link) {
        return Err(Refusal::NotReady);
    }
    Ok(Report {
        fate: c.transfer.fate,
        messages: c.transfer.gone,
        found: c.found,
        acceptance: acceptance_of(c.phase, c.standing.accepted),
    })
}
