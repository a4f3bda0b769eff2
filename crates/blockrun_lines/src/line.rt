// A whole line of input is read and answered.
ghost use Rattle.std.specs.Prelude.{◌≡◌};
ghost use Rattle.blockrun_text.specs.Forms.{line_of};
ghost use Rattle.blockrun_text.specs.Pages.{put};
ghost use Rattle.blockrun_lines.specs.Lines.{answer_text, no_text};
ghost use Rattle.dist_pair.specs.Events as Events;
ghost use Rattle.blockrun_lines.specs.Answering.{lent, line_pair, line_text, line_store, line_places, line_hand, line_room};

use crate::answer::{bus_line, send_line, stepped, take_line};
use crate::print::{put_answer, put_no};
use blockrun_text::parse::{Line, read_line};
use blockrun_text::print::Page;
use dist_pair::state::Pair;

// A line of another form does nothing.
pub fn other_line(number: u64, page: &mut Page<'_>)
    ensures { page.new ≡ put page.old (no_text number 0) }
{
    put_no(page, number, 0);
}

// `frame`: not by way of `stepped`, so that the link is not moved while the answer is put.
pub fn frame_line(pair: &mut Pair, number: u64, page: &mut Page<'_>)
    ensures pair { pair.new ≡ (Events.frame_of pair.old).state }
    ensures page { page.new ≡ put page.old (answer_text number (Events.frame_of pair.old).answer) }
{
    let s = dist_pair::events::frame(*pair);
    *pair = s.state;
    put_answer(page, number, s.answer);
}

// The form is tested before the link.
pub fn answer_line(
    pair: &mut Pair,
    number: u64,
    line: &[u8],
    store: &mut [u8],
    places: &mut [u8],
    hand: &mut [u8],
    room: &mut [u8],
    page: &mut Page<'_>,
)
    ensures pair { pair.new ≡ line_pair (line_of line.now) pair.old line.now (lent store.old places.old hand.old room.old) }
    ensures bytes { (store.new ≡ line_store (line_of line.now) pair.old line.now (lent store.old places.old hand.old room.old))
        × ((places.new ≡ line_places (line_of line.now) pair.old (lent store.old places.old hand.old room.old))
        × ((hand.new ≡ line_hand (line_of line.now) pair.old (lent store.old places.old hand.old room.old))
        × (room.new ≡ line_room (line_of line.now) pair.old line.now (lent store.old places.old hand.old room.old)))) }
    ensures page { page.new ≡ put page.old
        (line_text (line_of line.now) pair.old number line.now (lent store.old places.old hand.old room.old)) }
{
    let Some(read) = read_line(line) else {
        other_line(number, page);
        return;
    };
    match read {
        Line::Link(settings) => {
            let s = dist_pair::events::configure(*pair, settings, store.len(), places, hand.len());
            stepped(s, pair, number, page);
        }
        Line::Reset => stepped(dist_pair::events::reset(*pair), pair, number, page),
        Line::Frame => frame_line(pair, number, page),
        Line::Take => take_line(pair, number, hand, room, page),
        Line::Send {
            quality,
            at: from,
            digits,
        } => {
            let s = send_line(*pair, quality, line, from, digits, room, store);
            stepped(s, pair, number, page);
        }
        Line::Bus(way) => bus_line(pair, way, number, store, places, hand, page),
    }
}
