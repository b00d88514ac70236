// The nets that are inputs, what is asked of a vector (one byte an input, 0 or 1), and the start of a pass: what stands in the words ahead of it.
#![tactic(auto)]

ghost use Rattle.std.specs.Prelude.{◌≡◌, false, ℕ, ◌<◌, ◌≤◌, length, get_or};
ghost use Rattle.lists.specs.Listed.{listed};
ghost use Rattle.lists.specs.Entries.{every};
ghost use Rattle.word.specs.Word.{bit, word_of};
ghost use Rattle.inputs.specs.Inputs.{byte_fits, input_nets, vector_judged};
ghost use Rattle.inputs.specs.Inner.Starts.{constant_at, tops_of, byte_word, nets_put};

use rule::{Refusal, Verdict};
use std::array;

// A vector byte is 0 or 1: it is below this.
const BYTE_LIMIT: u8 = 2;

// Kinds and types are document 01's numbers here, as a session's arrays and the definitions over them have them: an enum would be made of each entry again.

// The nets that are inputs, in their order, at the front. The place is counted by hand: tried as a zip with `iter_mut`, and the proof did not close.
pub fn input_nets<'a>(kinds: &'a [u8; 256]) -> [u16; 256]
    ensures { result ≡ input_nets kinds.now 256 }
{
    let mut nets = [0u16; 256];
    let mut j: usize = 0;
    for n in 0u16..256 {
        if kinds[usize::from(n)] == 1 {
            nets[j] = n;
            j += 1;
        }
    }
    nets
}

// Whether every byte is 0 or 1.
pub fn bytes_fit(v: &[u8]) -> bool
    ensures { result ≡ every byte_fits v.now }
{
    v.iter().all(|byte| *byte < BYTE_LIMIT)
}

// What every operation that takes a vector asks of it first: 12 where it is not ready, then 10, 11.
pub fn judge(ready: bool, inputs: usize, v: &[u8]) -> Verdict
    ensures { result ≡ vector_judged ready inputs v.now }
{
    if !ready {
        return Err(Refusal::NotReady);
    }
    if v.len() != inputs {
        return Err(Refusal::VectorLength);
    }
    if !bytes_fit(v) {
        return Err(Refusal::VectorByte);
    }
    Ok(())
}

// The value of a net of some kind and type; only a constant has one.
fn constant(kind: u8, ty: u8) -> bool
    ensures { result ≡ constant_at kind ty }
{
    kind == 2 && ty != 0
}

// The values that constants have, net by net.
pub fn constants_of<'a>(kinds: &'a [u8; 256], types: &'a [u8; 256]) -> [bool; 256]
    ensures { result ≡ listed (λ n. constant_at (get_or kinds.now n 0) (get_or types.now n 0)) 256 }
{
    array::from_fn(|n| constant(kinds[n], types[n]))
}

// The word that has a value at every time.
fn flat(value: bool) -> u64
    ensures { result ≡ word_of 64 (λ t. value) }
{
    word::spread(value)
}

// A word a net, its value at every time.
pub fn flats(values: &[bool; 256]) -> [u64; 256]
    ensures { result ≡ listed (λ n. word_of 64 (λ t. get_or values.now n false)) 256 }
{
    array::from_fn(|n| flat(values[n]))
}

// A word's value at time 63.
pub fn top(word: u64) -> bool
    ensures { result ≡ bit word 63 }
{
    let w = word::PcSet { word };
    w.has(63)
}

// The values at time 63.
pub fn tops(words: &[u64; 256]) -> [bool; 256]
    ensures { result ≡ tops_of words.now }
{
    array::from_fn(|n| top(words[n]))
}

// A vector's values in the inputs' words, at every time: the net of input j has byte j. What it asks of the vector and of the inputs' places the engines ask too: a
// struct of the two would be made at each run and taken apart here alone, which is no plainer.
pub fn put_inputs<'a>(words: &mut [u64; 256], inputs: &'a [u16; 256], v: &'a [u8])
    requires { (length v.now ≤ 256) × ((j : ℕ) → get_or inputs.now j 0 < 256) }
    ensures { words.new ≡ nets_put inputs.now (byte_word v.now) (length v.now) words.old }
{
    for (j, byte) in v.iter().enumerate() {
        words[usize::from(inputs[j])] = flat(*byte != 0);
    }
}
