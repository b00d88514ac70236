// A session file: where its card ends, and what stands at a place after it.
ghost use Rattle.std.specs.Prelude.{◌≡◌, ◌≤◌, length};
ghost use Rattle.sheet_text.specs.Walk.{is_end, card_end, entry_at};

use crate::Entry;
use rule::Refusal;

// Whether a head is that of an end record. Kinds are numbers here: `Kind` (card_records) names those of a card, and a file has 5 and 6 besides.
fn is_end(kind: usize, len: usize) -> bool
    ensures { result ≡ is_end kind len }
{
    kind == 4 && len == 0
}

// The place after the first end record, and the end of the file if there is none.
pub fn card_end(file: &[u8]) -> usize
    ensures { (result ≡ card_end file.now) × (result ≤ length file.now) }
{
    let n = file.len();
    let mut at: usize = 0;
    // A while: the place moves by the length that was read, which no range counts.
    while at + 4 <= n {
        let len = card_records::u16_at(file, at);
        let kind = card_records::u16_at(file, at + 2);
        if is_end(kind, len) {
            return at + 4;
        }
        at = at + 4 + len;
    }
    n
}

// What stands at a place after the card, if anything does: head (1), kind (2), body present (1).
#[tactic(auto, unfolding(crate::specs::Walk::entry_at, crate::specs::Walk::entry_in))]
pub fn entry_at(file: &[u8], at: usize) -> Result<Option<Entry>, Refusal>
    ensures { result ≡ entry_at file.now at }
{
    let n = file.len();
    if n <= at {
        return Ok(None);
    }
    if n - at < 4 {
        return Err(Refusal::CutShort);
    }
    let len = card_records::u16_at(file, at);
    let kind = card_records::u16_at(file, at + 2);
    let next = at + 4 + len;
    let entry = match kind {
        5 => Entry::Rest(next),
        6 => Entry::Vector(next),
        _ => return Err(Refusal::BadRecord),
    };
    if n < next {
        return Err(Refusal::CutShort);
    }
    Ok(Some(entry))
}
