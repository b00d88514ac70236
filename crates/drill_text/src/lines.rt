// A line as a command.
ghost use Rattle.std.specs.Prelude.{◌≡◌};
ghost use Rattle.drill_text.specs.Lines.{with_one, with_two, with_three, with_four, command_of};

use crate::Command;
use drill_words::{is_hex, is_order, number_of, room_of, word, word_count};

// A line of a name and one word more.
#[tactic(auto, using(text::proofs::Texts::same_is), unfolding(crate::specs::Lines::with_one))]
fn with_one(name: &[u8], a: &[u8]) -> Option<Command>
    ensures { result ≡ with_one name.now a.now }
{
    if name == b"load".as_slice() {
        return is_hex(a).then_some(Command::Load);
    }
    if name == b"rest".as_slice() {
        return is_hex(a).then_some(Command::Rest);
    }
    if name == b"vector".as_slice() {
        return is_hex(a).then_some(Command::Vector);
    }
    if name == b"steps".as_slice() {
        return is_hex(a).then_some(Command::Steps);
    }
    if name == b"records".as_slice() {
        return Some(Command::Records(room_of(a)?));
    }
    if name == b"net".as_slice() {
        return Some(Command::Net(number_of(a)?));
    }
    None
}

// A line of a name and two words more.
#[tactic(auto, using(text::proofs::Texts::same_is), unfolding(crate::specs::Lines::with_two))]
fn with_two(name: &[u8], a: &[u8], b: &[u8]) -> Option<Command>
    ensures { result ≡ with_two name.now a.now b.now }
{
    if name == b"list".as_slice() {
        return Some(Command::List(room_of(a)?, room_of(b)?));
    }
    None
}

// A line of a name and three words more.
#[tactic(auto, using(text::proofs::Texts::same_is), unfolding(crate::specs::Lines::with_three))]
fn with_three(name: &[u8], a: &[u8], b: &[u8], c: &[u8]) -> Option<Command>
    ensures { result ≡ with_three name.now a.now b.now c.now }
{
    if name == b"history".as_slice() {
        return Some(Command::History(room_of(a)?, room_of(b)?, room_of(c)?));
    }
    if name == b"trace".as_slice() {
        return Some(Command::Trace(number_of(a)?, number_of(b)?, room_of(c)?));
    }
    None
}

// A line of a name and four words more.
#[tactic(auto, using(text::proofs::Texts::same_is), unfolding(crate::specs::Lines::with_four))]
fn with_four(name: &[u8], a: &[u8], b: &[u8], c: &[u8], d: &[u8]) -> Option<Command>
    ensures { result ≡ with_four name.now a.now b.now c.now d.now }
{
    if name == b"bench".as_slice() && is_hex(a) && is_order(b) {
        return Some(Command::Bench(number_of(c)?, room_of(d)?));
    }
    None
}

// What a line asks for, by the number of its words.
pub fn command_of(line: &[u8]) -> Option<Command>
    ensures { result ≡ command_of line.now }
{
    if 140000 < line.len() {
        return None;
    }
    let name = word(line, 0);
    match word_count(line) {
        2 => with_one(name, word(line, 1)),
        3 => with_two(name, word(line, 1), word(line, 2)),
        4 => with_three(name, word(line, 1), word(line, 2), word(line, 3)),
        5 => with_four(
            name,
            word(line, 1),
            word(line, 2),
            word(line, 3),
            word(line, 4),
        ),
        _ => None,
    }
}
