// Orders: step numbers parted by commas, and `-` where there are none.
ghost use Rattle.std.specs.Prelude.{◌≡◌, ◌<◌, length};
ghost use Rattle.drill_words.specs.Digits.{number_spelled};
ghost use Rattle.drill_words.specs.Filled.{Filled};
ghost use Rattle.drill_words.specs.Orders.{is_order, order_entry, order_spelled};

use crate::digits::{is_dash, number_of};

// Whether a word is an order.
pub fn is_order(word: &[u8]) -> bool
    ensures { result ≡ is_order word.now }
{
    is_dash(word)
        || word
            .split(|b| *b == b',')
            .all(|part| number_of(part).is_some())
}

// An entry of an order: the number, and 65,535 for a larger one.
fn entry_of(word: &[u8]) -> u16
    ensures { result ≡ order_entry (number_spelled word.now) }
{
    number_of(word).map_or(u16::MAX, |n| u16::try_from(n).unwrap_or(u16::MAX))
}

// The entries of an order, put at the start of `out`; how many there are, so they are counted beside the `for`.
pub fn order_into(word: &[u8], out: &mut [u16]) -> usize
    requires { length word.now < length out.old }
    ensures { Filled (order_spelled word.now) out.old out.new result }
{
    if is_dash(word) {
        return 0;
    }
    let mut n: usize = 0;
    for part in word.split(|b| *b == b',') {
        out[n] = entry_of(part);
        n += 1;
    }
    n
}
