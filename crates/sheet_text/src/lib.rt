// The text of a sheet, line by line, into a lent page; and the records of a session file that it is written for.
#![tactic(auto)]

mod files;
mod lines;

pub use files::{card_end, entry_at};
pub use lines::{put_card, put_refused, put_vector};

// A record after the card, with the place of the next one.
#[derive(Clone, Copy)]
pub enum Entry {
    Rest(usize),
    Vector(usize),
}
