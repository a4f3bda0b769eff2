// Sixteen marks in one u16 (document 01, "Distribution": which subaddresses were written). Subaddress 11 is the lowest bit.
ghost use Rattle.std.specs.Prelude.{◌≡◌};
ghost use Rattle.std.specs.Option.{unwrap_or};
ghost use Rattle.stores.specs.Marks.{has_mark, mark_of, is_marked_of, marked_of, missing_of, lowest_missing_of};

// Whether a subaddress can be marked.
#[tactic(auto, unfolding(crate::specs::Marks::has_mark))]
fn has_mark(subaddress: u8) -> bool
    ensures { result ≡ has_mark subaddress }
{
    (11..=26).contains(&subaddress)
}

// The marks with that of a subaddress. One outside 11 to 26 changes nothing.
#[tactic(auto, using(crate::proofs::Marking::inside, crate::proofs::Marking::bit_set), unfolding(crate::specs::Marks::mark_of))]
pub fn mark(marks: u16, subaddress: u8) -> u16
    ensures { result ≡ mark_of marks subaddress }
{
    if !has_mark(subaddress) {
        return marks;
    }
    marks | (1 << (subaddress - 11))
}

// Whether a subaddress is marked.
#[tactic(auto, using(crate::proofs::Marking::inside, crate::proofs::Marking::bit_read), unfolding(crate::specs::Marks::is_marked_of))]
pub fn is_marked(marks: u16, subaddress: u8) -> bool
    ensures { result ≡ is_marked_of marks subaddress }
{
    has_mark(subaddress) && (marks >> (subaddress - 11)) % 2 == 1
}

// How many are marked.
#[tactic(auto, using(crate::proofs::Marking::bits_counted))]
pub fn marked(marks: u16) -> u8
    ensures { result ≡ marked_of marks }
{
    marks.count_ones() as u8
}

// The lowest subaddress of the first `needed` that has no mark. There are sixteen.
#[tactic(auto, using(crate::proofs::Marking::missing_there, crate::proofs::Marking::missing_nowhere))]
pub fn lowest_missing(marks: u16, needed: u16) -> Option<u8>
    ensures subaddress { result ≡ missing_of marks needed }
    ensures or_zero { unwrap_or result 0 ≡ lowest_missing_of marks needed }
{
    let place = (!marks).trailing_zeros();
    if place < u32::from(needed.min(16)) {
        return Some(11 + place as u8);
    }
    None
}
