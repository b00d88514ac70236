// Digits: a number of decimal digits, bytes of two hexadecimal digits each.
ghost use Rattle.std.specs.Prelude.{◌≡◌, ◌+◌, ◌*◌, ◌/◌, ◌≤◌, ◌<◌, length};
ghost use Rattle.drill_words.specs.Digits.{number_spelled, room_of, is_dash, all_digits, is_hex, nibble_of, byte_of, bytes_of};
ghost use Rattle.drill_words.specs.Filled.{Filled};

// The number that a word's decimal digits spell; no digits at all, another byte, or a number of 2^64 or more spells none.
pub fn number_of(word: &[u8]) -> Option<u64>
    ensures { result ≡ number_spelled word.now }
{
    if word.is_empty() {
        return None;
    }
    let mut value: u64 = 0;
    for b in word {
        let digit = char::from(*b).to_digit(10)?;
        value = value.checked_mul(10)?.checked_add(u64::from(digit))?;
    }
    Some(value)
}

// The length of a room: a number of at most 20,000.
pub fn room_of(word: &[u8]) -> Option<u64>
    ensures { result ≡ room_of word.now }
{
    number_of(word).filter(|n| *n <= 20000)
}

// Whether a word is the one that stands for nothing.
pub fn is_dash(word: &[u8]) -> bool
    ensures { result ≡ is_dash word.now }
{
    word == b"-".as_slice()
}

// Whether every byte of a word is a hexadecimal digit.
fn all_digits(word: &[u8]) -> bool
    ensures { result ≡ all_digits word.now }
{
    word.iter().all(|b| b.is_ascii_hexdigit())
}

// Whether a word is bytes in hex: two digits a byte, and `-` where there are none.
pub fn is_hex(word: &[u8]) -> bool
    ensures { result ≡ is_hex word.now }
{
    is_dash(word) || (!word.is_empty() && word.len() % 2 == 0 && all_digits(word))
}

// A hexadecimal digit's value, and 0 for any other byte.
fn nibble_of(b: u8) -> u32
    ensures { (result ≡ nibble_of b) × (result < 16) }
{
    char::from(b).to_digit(16).unwrap_or(0)
}

// The byte that two digits spell.
fn byte_of(a: u8, b: u8) -> u8
    ensures { result ≡ byte_of a b }
{
    (nibble_of(a) * 16 + nibble_of(b)) as u8
}

// The bytes that a word's digits spell, put at the start of `out`; how many there are, half as many as digits.
pub fn hex_into(word: &[u8], out: &mut [u8]) -> usize
    requires { length word.now ≤ 2 * length out.old + 1 }
    ensures { (result ≡ length word.now / 2) × Filled (bytes_of word.now) out.old out.new result }
{
    let n = word.len() / 2;
    for i in 0..n {
        out[i] = byte_of(word[2 * i], word[2 * i + 1]);
    }
    n
}
