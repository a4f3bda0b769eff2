// Decimal numbers in a line.
ghost use Rattle.std.specs.Prelude.{◌≡◌};
ghost use Rattle.blockrun_text.specs.Numbers.{number_at, number_after};

// A number, and the place behind its digits.
#[derive(Clone, Copy)]
pub struct Number {
    pub value: u32,
    pub end: usize,
}

// Numbers may be of any length, so a value stops at this one, which is out of every range.
const OVER: u32 = 100_000;

// The digits from `from` on, to a tab or the end. Another byte, or no digit, is no number.
#[tactic(auto, using(crate::proofs::Reading::no_number, crate::proofs::Reading::number_to_tab, crate::proofs::Reading::none_to_tab, crate::proofs::Reading::too_low, crate::proofs::Reading::too_high, crate::proofs::Reading::next_digit, crate::proofs::Reading::number_to_end, crate::proofs::Reading::none_to_end), unfolding(crate::specs::Numbers::number_at))]
pub fn number_at(line: &[u8], from: usize) -> Option<Number>
    ensures { result ≡ number_at line.now from }
{
    let mut value: Option<u32> = None;
    for (i, byte) in line.get(from..)?.iter().enumerate() {
        match *byte {
            b'\t' => {
                return Some(Number {
                    value: value?,
                    end: from + i,
                });
            }
            b'0'..=b'9' => {
                let digit = u32::from(*byte - b'0');
                value = Some((value.unwrap_or(0) * 10 + digit).min(OVER));
            }
            _ => return None,
        }
    }
    Some(Number {
        value: value?,
        end: line.len(),
    })
}

// The number behind the tab at which the last one ended.
#[tactic(auto, unfolding(crate::specs::Numbers::number_after))]
pub fn number_after(line: &[u8], last: Number) -> Option<Number>
    ensures { result ≡ number_after line.now last }
{
    if line.len() <= last.end {
        return None;
    }
    number_at(line, last.end + 1)
}
