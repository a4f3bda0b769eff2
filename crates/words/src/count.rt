// The block counts of the two directions, kept apart (document 01, "Words on the bus").
ghost use Rattle.std.specs.Prelude.{◌≡◌, ℕ};
ghost use Rattle.words.specs.Count.{next_number, distribution_count, next_distribution, same_distribution, acquisition_count, next_acquisition, same_acquisition};

// The step from one count to the next: 1 to 255, then 1 again. 0, the Reset's, comes before 1.
#[tactic(auto, unfolding(crate::specs::Count::next_number))]
fn next_number(n: u8) -> u8
    ensures { result ≡ next_number n }
{
    n % 255 + 1
}

// The byte that stands for a direction's count in a control word. Each direction has its own successor and comparison
// (document 01, "Where each form goes"), so these are not shared.
pub trait BlockCount {
    ghost number: { Self → ℕ };

    ghost counted: { ℕ → Self };

    fn number(self) -> u8
        ensures { result ≡ number self };

    fn counted(n: u8) -> Self
        ensures { result ≡ counted n };
}

// The count of Tables 8-3 and 8-4.
#[derive(Clone, Copy)]
pub struct DistributionCount(pub u8);

impl DistributionCount {
    pub fn next(self) -> DistributionCount
        ensures { result ≡ next_distribution self }
    {
        DistributionCount(next_number(self.0))
    }

    pub fn same(self, other: DistributionCount) -> bool
        ensures { result ≡ same_distribution self other }
    {
        self.0 == other.0
    }
}

impl BlockCount for DistributionCount {
    ghost number = { λ c. c.0 };

    ghost counted = { distribution_count };

    fn number(self) -> u8 {
        self.0
    }

    fn counted(n: u8) -> DistributionCount {
        DistributionCount(n)
    }
}

// The count of Tables 8-5 and 8-6.
#[derive(Clone, Copy)]
pub struct AcquisitionCount(pub u8);

impl AcquisitionCount {
    pub fn next(self) -> AcquisitionCount
        ensures { result ≡ next_acquisition self }
    {
        AcquisitionCount(next_number(self.0))
    }

    pub fn same(self, other: AcquisitionCount) -> bool
        ensures { result ≡ same_acquisition self other }
    {
        self.0 == other.0
    }
}

impl BlockCount for AcquisitionCount {
    ghost number = { λ c. c.0 };

    ghost counted = { acquisition_count };

    fn number(self) -> u8 {
        self.0
    }

    fn counted(n: u8) -> AcquisitionCount {
        AcquisitionCount(n)
    }
}
