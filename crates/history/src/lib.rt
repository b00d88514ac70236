// What a bench hand asks of a session that ran: the histories with their flags.
#![tactic(auto)]

ghost use Rattle.std.specs.Prelude.{◌≡◌};
ghost use Rattle.word.specs.Word.{bit};
ghost use Rattle.rule.specs.Flag.{changes, flag_of};
ghost use Rattle.session.specs.Good.{Good};
ghost use Rattle.history.specs.Told.{history_of};

use card::Session;
use rule::{Answer, Refusal};
use word::PcSet;

// The number of changes from the before value through time 63, by walking the times.
pub fn changes_of(word: u64, before: bool) -> u32
    ensures { result ≡ changes before (bit word) }
{
    let w = PcSet { word };
    let mut last = before;
    let mut count: u32 = 0;
    for t in 0..64 {
        let value = w.has(t);
        count += u32::from(value ^ last);
        last = value;
    }
    count
}

// The hazard flag: 0 no change, 1 one, 2 two or more with equal ends, 3 three or more with unequal ends.
pub fn flag_of(word: u64, before: bool) -> u8
    ensures { result ≡ flag_of before (bit word) }
{
    match changes_of(word, before) {
        0 => 0,
        1 => 1,
        _ => {
            let w = PcSet { word };
            if before == w.has(63) { 2 } else { 3 }
        }
    }
}

// The histories of the last vector, a word, a before value and a flag a net, into lent room.
pub fn history(s: &Session, words: &mut [u64], befores: &mut [u8], flags: &mut [u8]) -> Answer
    requires { Good s.now }
    ensures { record { answer = result; words = words.new; befores = befores.new; flags = flags.new }
        ≡ history_of s.now words.old befores.old flags.old }
{
    if !s.rested {
        return Err(Refusal::NotReady);
    }
    let n = s.nets;
    if words.len() < n {
        return Err(Refusal::NoRoom);
    }
    if befores.len() < n {
        return Err(Refusal::NoRoom);
    }
    if flags.len() < n {
        return Err(Refusal::NoRoom);
    }
    words[..n].copy_from_slice(&s.words[..n]);
    for i in 0..n {
        befores[i] = u8::from(s.before[i]);
        flags[i] = flag_of(s.words[i], s.before[i]);
    }
    Ok(n)
}
