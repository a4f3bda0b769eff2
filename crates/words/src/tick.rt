// The frame tick, a 16-bit number, 0 after 65535 (document 01, "The two machines").
ghost use Rattle.std.specs.Prelude.{◌≡◌};
ghost use Rattle.words.specs.Tick.{next_tick, age_of};

#[tactic(auto, unfolding(crate::specs::Tick::next_tick))]
pub fn next_tick(tick: u16) -> u16
    ensures { result ≡ next_tick tick }
{
    tick.wrapping_add(1)
}

// How many frames ago, on the circle, the tick was `since`.
#[tactic(auto, unfolding(crate::specs::Tick::age_of))]
pub fn age(tick: u16, since: u16) -> u16
    ensures { result ≡ age_of tick since }
{
    tick.wrapping_sub(since)
}
