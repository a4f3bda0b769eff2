// A message is transmitted: 28T, or a part of the block (document 01, "Acquisition").
ghost use Rattle.std.specs.Prelude.{◌≡◌, ◌≤◌, length};
ghost use Rattle.std.proofs.lemmas.List.Edits.{sets};
ghost use Rattle.words.specs.Control.{list_of};
ghost use Rattle.acq_terminal.specs.Transmit.{shown_of, part_sent, sent_of, next_part, moved_of, answer_of, transmit_of, buffer_after};

use crate::state::{Placed, Stage, Terminal};
use words::control::Words;
use words::link::{Link, Mode, block_store, is_short, mode_of};
use words::refusal::{Refusal, Stepped, accept, refuse};

// What 28T shows: the open block's request, or the Reset request that stands.
fn shown(t: Terminal) -> Words
    ensures { result ≡ shown_of t }
{
    match t.stage {
        Stage::Open(placed) => {
            words::control::request_words(t.link, placed.size, placed.quality, t.count)
        }
        Stage::Asking => words::control::reset_words(),
        Stage::Silent | Stage::Ready => Words {
            first: 0,
            second: 0,
        },
    }
}

// Which part is transmitted: that of the subaddress, or in mode 1 the next one.
#[tactic(auto, unfolding(crate::specs::Transmit::part_sent))]
fn part_sent(link: Link, subaddress: u8, placed: Placed) -> u16
    ensures { result ≡ part_sent link subaddress placed }
{
    match mode_of(link) {
        Mode::Zero => u16::from(subaddress.saturating_sub(11)),
        Mode::One => placed.part,
    }
}

// The part's words, and zeros up to the buffer's end.
#[tactic(auto, unfolding(crate::specs::Transmit::sent_of, stores::specs::Reading::message_read_of, stores::specs::Reading::read_of))]
fn put_part(t: Terminal, subaddress: u8, store: &[u8], out: &mut [u16])
    ensures { out.new ≡ sent_of t subaddress (length out.old) store.now }
{
    out.fill(0);
    if let Stage::Open(placed) = t.stage {
        let k = part_sent(t.link, subaddress, placed);
        stores::reader::read_message(store, usize::from(placed.size), usize::from(k), out);
    }
}

// The same into the start of a longer buffer.
#[tactic(auto, using(crate::proofs::Sending::front))]
fn put_data(t: Terminal, subaddress: u8, asked: usize, store: &[u8], out: &mut [u16])
    requires { asked ≤ length out.old }
    ensures { out.new ≡ sets out.old 0 (sent_of t subaddress asked store.now) }
{
    put_part(t, subaddress, store, &mut out[..asked]);
}

// The open block moves to its next part, and stays past the last.
fn next_part(placed: Placed) -> Placed
    ensures { result ≡ next_part placed }
{
    let part = words::cutting::messages(placed.size).min(placed.part.saturating_add(1));
    Placed { part, ..placed }
}

// After a message of data: in mode 1 the next part follows.
#[tactic(auto, unfolding(crate::specs::Transmit::moved_of))]
fn moved(t: Terminal) -> Terminal
    ensures { result ≡ moved_of t }
{
    match mode_of(t.link) {
        Mode::Zero => t,
        Mode::One => match t.stage {
            Stage::Open(placed) => Terminal {
                stage: Stage::Open(next_part(placed)),
                ..t
            },
            Stage::Silent | Stage::Asking | Stage::Ready => t,
        },
    }
}

// 19 of a data message, 6 of 28T; the store and the buffer were found long enough.
#[tactic(auto, unfolding(crate::specs::Transmit::answer_of))]
fn answer(link: Link, subaddress: u8, asked: usize) -> Result<(), Refusal>
    ensures { result ≡ answer_of link subaddress asked }
{
    if subaddress != 28 {
        return words::cutting::data_answer(link, subaddress, asked);
    }
    if asked != 2 {
        return Err(Refusal::NotTwoWords);
    }
    Ok(())
}

// `asked` words of a transmit subaddress go into the start of a lent buffer, which has room for any message.
#[tactic(auto, unfolding(crate::specs::Transmit::transmit_of, crate::specs::Transmit::buffer_after))]
pub fn transmit(
    t: Terminal,
    subaddress: u8,
    asked: usize,
    store: &[u8],
    out: &mut [u16],
) -> Stepped<Terminal, ()>
    ensures result { result ≡ transmit_of t subaddress asked (length store.now) (length out.old) }
    ensures words { out.new ≡ buffer_after t subaddress asked store.now out.old }
{
    if is_short(t.link, block_store(t.link), store.len()) || out.len() < 32 {
        return refuse(Refusal::NotReady, t);
    }
    if let Err(refusal) = answer(t.link, subaddress, asked) {
        return refuse(refusal, t);
    }
    if subaddress == 28 {
        let words = shown(t);
        out[0] = words.first;
        out[1] = words.second;
        return accept(t);
    }
    put_data(t, subaddress, asked, store, out);
    accept(moved(t))
}
