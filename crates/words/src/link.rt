// What both ends know of a link (document 01, "The two machines").
ghost use Rattle.std.specs.Prelude.{◌≡◌};
ghost use Rattle.words.specs.Link.{mode_allows, in_ranges, configure_of, no_link, settings_of, configured_of, mode_of, short_of, message_store_of, block_store_of};

use crate::refusal::Refusal;

#[derive(Clone, Copy)]
pub struct Link {
    pub address: u8,
    pub mode: u8,
    pub subaddress: u8,
    pub largest: u16,
    pub window: u8,
}

// Mode 0 has sixteen subaddresses, each with its place; mode 1 has one, whose messages follow on each other.
#[derive(Clone, Copy)]
pub enum Mode {
    Zero,
    One,
}

// The five numbers of a link as a caller gives them, of any size.
#[derive(Clone, Copy)]
pub struct Settings {
    pub address: u32,
    pub mode: u32,
    pub subaddress: u32,
    pub largest: u32,
    pub window: u32,
}

impl From<Link> for Settings {
    ghost from_gives = { λ link settings. settings ≡ settings_of link };

    fn from(link: Link) -> Settings {
        Settings {
            address: u32::from(link.address),
            mode: u32::from(link.mode),
            subaddress: u32::from(link.subaddress),
            largest: u32::from(link.largest),
            window: u32::from(link.window),
        }
    }
}

// Whether a mode has this subaddress and this largest block.
#[tactic(auto, unfolding(crate::specs::Link::mode_allows))]
fn mode_allows(mode: u32, subaddress: u32, largest: u32) -> bool
    ensures { result ≡ mode_allows mode subaddress largest }
{
    match mode {
        0 => subaddress == 11 && largest == 1024,
        1 => 11 <= subaddress && subaddress <= 26 && (largest == 1024 || largest == 4096),
        _ => false,
    }
}

// Whether five numbers are a configuration.
#[tactic(auto, unfolding(crate::specs::Link::in_ranges))]
fn in_ranges(settings: Settings) -> bool
    ensures { result ≡ in_ranges settings }
{
    if 30 < settings.address {
        return false;
    }
    if settings.window < 2 {
        return false;
    }
    if 16 < settings.window {
        return false;
    }
    mode_allows(settings.mode, settings.subaddress, settings.largest)
}

// A link within the ranges.
#[tactic(auto, unfolding(crate::specs::Link::configure_of))]
pub fn configure(settings: Settings) -> Result<Link, Refusal>
    ensures { result ≡ configure_of settings }
{
    if !in_ranges(settings) {
        return Err(Refusal::BadConfiguration);
    }
    Ok(Link {
        address: settings.address as u8,
        mode: settings.mode as u8,
        subaddress: settings.subaddress as u8,
        largest: settings.largest as u16,
        window: settings.window as u8,
    })
}

// No link yet: its numbers are no configuration.
pub fn no_link() -> Link
    ensures { result ≡ no_link }
{
    Link {
        address: 31,
        mode: 0,
        subaddress: 0,
        largest: 0,
        window: 0,
    }
}

// Whether a link's numbers, wherever they come from, are a configuration.
#[tactic(auto, unfolding(crate::specs::Link::configured_of))]
pub fn is_configured(link: Link) -> bool
    ensures { result ≡ configured_of link }
{
    in_ranges(Settings::from(link))
}

// A link's mode. Its number is 0 or 1 where it is configured; any other is taken as 1.
pub fn mode_of(link: Link) -> Mode
    ensures { result ≡ mode_of link }
{
    if link.mode == 0 {
        Mode::Zero
    } else {
        Mode::One
    }
}

// Whether the link is not configured, or less is lent than it needs.
#[tactic(auto, unfolding(crate::specs::Link::short_of))]
pub fn is_short(link: Link, needed: usize, lent: usize) -> bool
    ensures { result ≡ short_of link needed lent }
{
    !is_configured(link) || lent < needed
}

// The bytes of a receiver's message store.
#[tactic(auto, unfolding(crate::specs::Link::message_store_of))]
pub fn message_store(link: Link) -> usize
    ensures { result ≡ message_store_of link }
{
    match mode_of(link) {
        Mode::Zero => 1024,
        Mode::One => 4096,
    }
}

// The bytes of a sender's block store, and of a receiver's hand.
#[tactic(auto, unfolding(crate::specs::Link::block_store_of))]
pub fn block_store(link: Link) -> usize
    ensures { result ≡ block_store_of link }
{
    usize::from(link.largest)
}
