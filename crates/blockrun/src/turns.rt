// Input of any length through a buffer: what one read brought is answered by one write, so that a person sees each answer at once.
// A line over 16384 bytes is of another form; it is passed over and loses nothing behind it.
// A read or a write that fails ends the program with its error.
ghost use Rattle.std.specs.Prelude.{◌≡◌, ◌+◌, ◌-◌, ◌≤◌, cond, nat_lt, length, IfOk};
ghost use Rattle.std.proofs.lemmas.List.Edits.{sets};
ghost use Rattle.blockrun_text.specs.Printing.{behind};
ghost use Rattle.blockrun_lines.specs.Lines.{answer_text};
ghost use Rattle.blockrun_lines.specs.Answering.{lent};
ghost use Rattle.blockrun.specs.Turns.{pair_after, answer_to};
ghost use Rattle.dist_pair.specs.Events as Events;

use blockrun_text::print::Page;
use dist_pair::state::Pair;
use std::io;
use std::io::{Read, Write};

// Answers that wait to be written: `at` bytes.
#[derive(Drop)]
struct Answers {
    bytes: [u8; 65536],
    at: usize,
    ghost inside: { at ≤ 65536 },
}

impl Answers {
    // Afterwards none waits.
    fn write(&mut self, output: &mut impl Write) -> io::Result<()>
        ensures { IfOk result (λ _. self.new.at ≡ 0) }
    {
        output.write_all(&self.bytes[..self.at])?;
        output.flush()?;
        self.at = 0;
        Ok(())
    }

    // No answer is longer than 16384 bytes: with less room than that the buffer is written first.
    fn make_room(&mut self, output: &mut impl Write) -> io::Result<()> {
        if 16384 <= self.bytes.len() - self.at {
            return Ok(());
        }
        self.write(output)
    }
}

// The link with what is lent to it, the number of the last line, and the answers.
#[derive(Drop)]
struct Run {
    pair: Pair,
    store: [u8; 4096],
    places: [u8; 4096],
    hand: [u8; 4096],
    room: [u8; 8192],
    number: u64,
    answers: Answers,
}

impl Run {
    // The next line's number, and room for its answer.
    fn next_line(&mut self, output: &mut impl Write) -> io::Result<()> {
        self.number = self.number.wrapping_add(1);
        self.answers.make_room(output)
    }

    // A line that is a whole `frame`.
    #[tactic(auto, unfolding(blockrun_text::specs::Pages::put))]
    fn put_frame(&mut self)
        ensures pair { self.new.pair ≡ (Events.frame_of self.old.pair).state }
        ensures place { self.new.answers.at
            ≡ behind 65536 self.old.answers.at (length (answer_text self.old.number (Events.frame_of self.old.pair).answer)) }
        ensures bytes { self.new.answers.bytes
            ≡ sets self.old.answers.bytes self.old.answers.at (answer_text self.old.number (Events.frame_of self.old.pair).answer) }
    {
        let mut page = Page {
            bytes: &mut self.answers.bytes,
            at: self.answers.at,
        };
        blockrun_lines::line::frame_line(&mut self.pair, self.number, &mut page);
        self.answers.at = page.at;
    }

    fn answer_frame(&mut self, output: &mut impl Write) -> io::Result<()> {
        self.next_line(output)?;
        self.put_frame();
        Ok(())
    }

    // One line, whole or, where `long`, only its end.
    #[tactic(auto, unfolding(blockrun_text::specs::Pages::put))]
    fn put_line(&mut self, line: &[u8], long: bool)
        ensures pair { self.new.pair ≡ pair_after long self.old.pair line.now
            (lent self.old.store self.old.places self.old.hand self.old.room) }
        ensures place { self.new.answers.at ≡ behind 65536 self.old.answers.at (length
            (answer_to long self.old.pair self.old.number line.now
            (lent self.old.store self.old.places self.old.hand self.old.room))) }
        ensures bytes { self.new.answers.bytes ≡ sets self.old.answers.bytes self.old.answers.at
            (answer_to long self.old.pair self.old.number line.now
            (lent self.old.store self.old.places self.old.hand self.old.room)) }
    {
        let mut page = Page {
            bytes: &mut self.answers.bytes,
            at: self.answers.at,
        };
        if long || 16384 < line.len() {
            blockrun_lines::line::other_line(self.number, &mut page);
        } else {
            blockrun_lines::line::answer_line(
                &mut self.pair,
                self.number,
                line,
                &mut self.store,
                &mut self.places,
                &mut self.hand,
                &mut self.room,
                &mut page,
            );
        }
        self.answers.at = page.at;
    }

    fn answer_line(&mut self, line: &[u8], long: bool, output: &mut impl Write) -> io::Result<()> {
        self.next_line(output)?;
        self.put_line(line, long);
        Ok(())
    }

    // Each whole line of `lines` is answered; the rest is what has no newline yet.
    #[tactic(auto, using(blockrun_text::proofs::Uses::frame_inside))]
    fn answer_lines(
        &mut self,
        lines: &[u8],
        mut long: bool,
        output: &mut impl Write,
    ) -> io::Result<Rest>
        ensures { IfOk result (λ rest. rest.from ≤ length lines.now) }
    {
        let mut from: usize = 0;
        while from < lines.len() {
            if !long && blockrun_text::split::frame_at(lines, from) {
                self.answer_frame(output)?;
                from += 6;
                continue;
            }
            let Some(end) = blockrun_text::split::line_end(lines, from) else {
                break;
            };
            self.answer_line(&lines[from..end], long, output)?;
            long = false;
            from = end + 1;
        }
        Ok(Rest { from, long })
    }
}

// Where an unfinished line begins; `long`: its start was passed over.
#[derive(Clone, Copy)]
struct Rest {
    from: usize,
    long: bool,
}

// `have` bytes of an unfinished line; `long`: its start was passed over.
#[derive(Drop)]
struct Held {
    bytes: [u8; 32768],
    have: usize,
    long: bool,
    ghost inside: { have ≤ 32768 },
}

impl Held {
    // Where what is to be answered ends, after a read of `got` bytes. At the end of input an unfinished line is a line:
    // it is given its newline.
    fn closed(&mut self, got: usize) -> usize
        requires { self.old.have + got ≤ 32768 }
        ensures { (result ≤ 32768) × (self.new.have ≡ self.old.have) }
    {
        if 0 < got {
            return self.have + got;
        }
        if self.bytes.len() <= self.have {
            return self.have;
        }
        if self.have == 0 && !self.long {
            return 0;
        }
        self.bytes[self.have] = b'\n';
        self.have + 1
    }

    // An unfinished line goes to the front, or is passed over where it is too long.
    fn keep(&mut self, rest: Rest, to: usize)
        requires { (rest.from ≤ to) × (to ≤ 32768) }
        ensures { self.new.have ≡ cond (nat_lt 16384 (to - rest.from)) 0 (to - rest.from) }
    {
        let size = to - rest.from;
        if 16384 < size {
            self.have = 0;
            self.long = true;
            return;
        }
        self.bytes.copy_within(rest.from..to, 0);
        self.have = size;
        self.long = rest.long;
    }
}

// One read, its whole lines, one write; whether the input ended.
fn turn(
    run: &mut Run,
    held: &mut Held,
    input: &mut impl Read,
    output: &mut impl Write,
) -> io::Result<bool>
    ensures { IfOk result (λ _. run.new.answers.at ≡ 0) }
{
    let have = held.have;
    let got = input.read(&mut held.bytes[have..])?;
    let to = held.closed(got);
    let rest = run.answer_lines(&held.bytes[..to], held.long, output)?;
    held.keep(rest, to);
    run.answers.write(output)?;
    Ok(got == 0)
}

pub fn answer_input(input: &mut impl Read, output: &mut impl Write) -> io::Result<()> {
    let mut held = Held {
        bytes: [0; 32768],
        have: 0,
        long: false,
    };
    let mut run = Run {
        pair: dist_pair::state::unconfigured(),
        store: [0; 4096],
        places: [0; 4096],
        hand: [0; 4096],
        room: [0; 8192],
        number: 0,
        answers: Answers {
            bytes: [0; 65536],
            at: 0,
        },
    };
    for _ in 0..u64::MAX {
        if turn(&mut run, &mut held, input, output)? {
            break;
        }
    }
    Ok(())
}
