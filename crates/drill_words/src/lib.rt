// The words of a line: a line taken apart into its words, and the numbers, bytes and orders that words spell.
#![tactic(auto)]

mod digits;
mod orders;
mod parts;

pub use digits::{hex_into, is_hex, number_of, room_of};
pub use orders::{is_order, order_into};
pub use parts::{word, word_count};
