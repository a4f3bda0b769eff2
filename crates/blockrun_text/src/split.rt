// Where a line ends.
ghost use Rattle.std.specs.Prelude.{◌≡◌, ◌≤◌, ◌<◌, length, drop, eqb, position, IfSome};
ghost use Rattle.blockrun_text.specs.Splitting.{newline_of};
ghost use Rattle.blockrun_text.specs.Forms.{starts_with, frame_line};

fn first_newline(bytes: &[u8]) -> Option<usize>
    ensures { result ≡ position (λ x. eqb x 10) bytes.now }
{
    bytes.iter().position(|b| *b == b'\n')
}

// The place of the first newline at or after `from`.
#[tactic(auto, using(crate::proofs::Reading::newline_at, crate::proofs::Reading::newline_none), unfolding(crate::specs::Splitting::newline_of, crate::specs::Splitting::end_of))]
pub fn line_end(buffer: &[u8], from: usize) -> Option<usize>
    ensures place { result ≡ newline_of buffer.now from }
    ensures inside { IfSome result (λ end. (from ≤ end) × (end < length buffer.now)) }
{
    let size = first_newline(buffer.get(from..)?)?;
    Some(from + size)
}

// Whether the line at `from` is a whole `frame`, seen without a search for its end: an idle link has no other lines.
#[tactic(auto, unfolding(crate::specs::Forms::starts_with))]
pub fn frame_at(buffer: &[u8], from: usize) -> bool
    ensures { result ≡ starts_with frame_line (drop from buffer.now) }
{
    matches!(
        buffer.get(from..),
        Some([b'f', b'r', b'a', b'm', b'e', b'\n', ..])
    )
}
