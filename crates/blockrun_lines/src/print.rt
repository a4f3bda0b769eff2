// The lines that blockrun writes, each put on a page.
ghost use Rattle.std.specs.Prelude.{◌≡◌};
ghost use Rattle.blockrun_text.specs.Pages.{put};
ghost use Rattle.blockrun_lines.specs.Lines.{start_text, ok_text, no_text, numbered_text, take_text, sent_text, finding_text, found_text};

use blockrun_text::print::Page;
use dist_controller::state::Finding;
use words::refusal::Numbered;

// The line's number and a tab.
#[tactic(auto, using(blockrun_text::proofs::Pages::puts_law), unfolding(crate::specs::Lines::start_text))]
fn put_start(page: &mut Page<'_>, number: u64)
    ensures { page.new ≡ put page.old (start_text number) }
{
    page.put_decimal(number);
    page.put_text(b"\t");
}

// What follows the number is put at once.
#[tactic(auto, using(blockrun_text::proofs::Pages::puts_law), unfolding(crate::specs::Lines::ok_text, crate::specs::Lines::start_text))]
pub fn put_ok(page: &mut Page<'_>, number: u64)
    ensures { page.new ≡ put page.old (ok_text number) }
{
    page.put_decimal(number);
    page.put_text(b"\tok\n");
}

#[tactic(auto, using(blockrun_text::proofs::Pages::puts_law), unfolding(crate::specs::Lines::no_text))]
pub fn put_no(page: &mut Page<'_>, number: u64, refusal: u8)
    ensures { page.new ≡ put page.old (no_text number refusal) }
{
    put_start(page, number);
    page.put_text(b"no\t");
    page.put_decimal(u64::from(refusal));
    page.put_text(b"\n");
}

pub fn put_answer<E: Numbered>(page: &mut Page<'_>, number: u64, answer: Result<(), E>)
    ensures { page.new ≡ put page.old (numbered_text E.number number answer) }
{
    match answer {
        Ok(()) => put_ok(page, number),
        Err(refusal) => put_no(page, number, refusal.number()),
    }
}

// A block that was taken, in hex.
#[tactic(auto, using(blockrun_text::proofs::Pages::puts_law), unfolding(crate::specs::Lines::take_text))]
pub fn put_taken(page: &mut Page<'_>, number: u64, block: &[u8])
    ensures { page.new ≡ put page.old (take_text number block.now) }
{
    put_start(page, number);
    page.put_text(b"ok\t");
    page.put_hex_bytes(block);
    page.put_text(b"\n");
}

// A message to the terminal: R, the subaddress and the words sent.
#[tactic(auto, using(blockrun_text::proofs::Pages::puts_law), unfolding(crate::specs::Lines::sent_text))]
pub fn put_sent(page: &mut Page<'_>, number: u64, subaddress: u8, words: &[u16])
    ensures { page.new ≡ put page.old (sent_text number subaddress words.now) }
{
    put_start(page, number);
    page.put_text(b"ok\tR");
    page.put_decimal(u64::from(subaddress));
    page.put_words(words);
    page.put_text(b"\n");
}

fn put_finding(page: &mut Page<'_>, found: Option<Finding>)
    ensures { page.new ≡ put page.old (finding_text found) }
{
    match found {
        Some(Finding::Reset) => page.put_text(b"reset\n"),
        Some(Finding::Confirmed) => page.put_text(b"confirmed\n"),
        Some(Finding::Refused) => page.put_text(b"refused\n"),
        Some(Finding::Other) => page.put_text(b"other\n"),
        Some(Finding::Lost) => page.put_text(b"lost\n"),
        None => page.put_text(b"none\n"),
    }
}

// A read of 27T: T27 and what it found.
#[tactic(auto, using(blockrun_text::proofs::Pages::puts_law), unfolding(crate::specs::Lines::found_text))]
pub fn put_found(page: &mut Page<'_>, number: u64, found: Option<Finding>)
    ensures { page.new ≡ put page.old (found_text number found) }
{
    put_start(page, number);
    page.put_text(b"ok\tT27\t");
    put_finding(page, found);
}
