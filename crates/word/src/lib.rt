// Words of 64 bits: bit t of a word is what holds at time t. A set of times is such a word.
#![tactic(auto)]

ghost use Rattle.std.specs.Prelude.{◌≡◌, cond, ℕ, ◌<◌, eqb};
ghost use Rattle.word.specs.Word.{bit, moved_up};

mod pcset;

pub use pcset::PcSet;

// A word moved up by one, with `low` in bit 0.
pub fn up(x: u64, low: bool) -> u64
    ensures { (t : ℕ) → t < 64 → bit result t ≡ moved_up low (bit x) t }
{
    (x << 1) | u64::from(low)
}

// The word whose bits are all b.
pub fn spread(b: bool) -> u64
    ensures { (t : ℕ) → t < 64 → bit result t ≡ b }
{
    if b { u64::MAX } else { 0 }
}

// The word with b in bit t.
pub fn put(w: u64, t: u32, b: bool) -> u64
    requires { t < 64 }
    ensures { (u : ℕ) → u < 64 → bit result u ≡ cond (eqb u t) b (bit w u) }
{
    let m = 1u64 << t;
    if b { w | m } else { w & !m }
}
