// A line of blockrun's input, and the block that one carries.
ghost use Rattle.std.specs.Prelude.{◌≡◌, min, ◌/◌, length};
ghost use Rattle.std.specs.List.{list_all};
ghost use Rattle.std.specs.Option.{is_some};
ghost use Rattle.std.proofs.lemmas.List.Edits.{sets};
ghost use Rattle.blockrun_text.specs.Forms.{line_of, fields_of, bus_of, send_of, link_of};
ghost use Rattle.blockrun_text.specs.Hex.{digit_read, bytes_of, block_of, block_size_of};

use crate::hex;
use crate::number::{number_after, number_at};
use words::control::Quality;
use words::link::Settings;

// How a message fares on the bus.
#[derive(Clone, Copy)]
pub enum Way {
    Done,
    ReplyLost,
    NotArrived,
}

// The forms of a line. A block stands in its line from `at` on, `digits` long.
#[derive(Clone, Copy)]
pub enum Line {
    Link(Settings),
    Reset,
    Frame,
    Take,
    Send {
        quality: Quality,
        at: usize,
        digits: usize,
    },
    Bus(Way),
}

// What became of a message on the bus.
#[tactic(auto, unfolding(crate::specs::Forms::bus_of, crate::specs::Forms::is_text, crate::specs::Forms::starts_with))]
fn read_bus(line: &[u8]) -> Option<Line>
    ensures { result ≡ bus_of line.now }
{
    match line {
        b"bus\td" => Some(Line::Bus(Way::Done)),
        b"bus\tr" => Some(Line::Bus(Way::ReplyLost)),
        b"bus\tn" => Some(Line::Bus(Way::NotArrived)),
        _ => None,
    }
}

fn all_digits(bytes: &[u8]) -> bool
    ensures { result ≡ list_all (λ x. is_some (digit_read x)) bytes.now }
{
    bytes.iter().all(|b| hex::digit_value(*b).is_some())
}

// The hex of a block stands behind the seven bytes of its form.
#[tactic(auto, using(crate::proofs::Reading::short_block, crate::proofs::Reading::odd_block, crate::proofs::Reading::a_block, crate::proofs::Reading::no_block))]
fn read_send(quality: Quality, line: &[u8]) -> Option<Line>
    ensures { result ≡ send_of quality line.now }
{
    let hex = line.get(7..)?;
    let digits = hex.len();
    if digits % 2 != 0 {
        return None;
    }
    if !all_digits(hex) {
        return None;
    }
    Some(Line::Send {
        quality,
        at: 7,
        digits,
    })
}

// The first of the five numbers is behind the form's five bytes, the last one ends the line.
#[tactic(auto, unfolding(crate::specs::Forms::link_of, crate::specs::Forms::five_of))]
fn read_link(line: &[u8]) -> Option<Line>
    ensures { result ≡ link_of line.now }
{
    let address = number_at(line, 5)?;
    let mode = number_after(line, address)?;
    let subaddress = number_after(line, mode)?;
    let largest = number_after(line, subaddress)?;
    let window = number_after(line, largest)?;
    if window.end != line.len() {
        return None;
    }
    Some(Line::Link(Settings {
        address: address.value,
        mode: mode.value,
        subaddress: subaddress.value,
        largest: largest.value,
        window: window.value,
    }))
}

// A line with fields behind the word that it begins with.
fn read_fields(line: &[u8]) -> Option<Line>
    ensures { result ≡ fields_of line.now }
{
    if line.starts_with(b"send\tv\t") {
        return read_send(Quality::Verified, line);
    }
    if line.starts_with(b"send\tb\t") {
        return read_send(Quality::BestEffort, line);
    }
    if line.starts_with(b"link\t") {
        return read_link(line);
    }
    read_bus(line)
}

// The form of a line, without its newline.
#[tactic(auto, unfolding(crate::specs::Forms::line_of, crate::specs::Forms::is_text, crate::specs::Forms::starts_with))]
pub fn read_line(line: &[u8]) -> Option<Line>
    ensures { result ≡ line_of line.now }
{
    match line {
        b"reset" => Some(Line::Reset),
        b"frame" => Some(Line::Frame),
        b"take" => Some(Line::Take),
        _ => read_fields(line),
    }
}

#[tactic(auto, using(crate::proofs::Reading::length_bytes_of, crate::proofs::Reading::filled))]
fn read_digits(digits: &[u8], out: &mut [u8]) -> usize
    ensures { (result ≡ min (length out.old) (length digits.now / 2))
        × (out.new ≡ sets out.old 0 (bytes_of digits.now)) }
{
    let n = out.len().min(digits.len() / 2);
    for (i, byte) in out[..n].iter_mut().enumerate() {
        *byte = hex::byte_of(digits[2 * i], digits[2 * i + 1]);
    }
    n
}

// The bytes of a hex field, `digits` long from `at` on, into the start of out, as many as fit: says how many.
#[tactic(auto, unfolding(crate::specs::Hex::block_size_of))]
pub fn read_block(line: &[u8], at: usize, digits: usize, out: &mut [u8]) -> usize
    ensures { (result ≡ block_size_of line.now at digits (length out.old))
        × (out.new ≡ sets out.old 0 (block_of line.now at digits)) }
{
    let Some(rest) = line.get(at..) else {
        return 0;
    };
    read_digits(&rest[..digits.min(rest.len())], out)
}
