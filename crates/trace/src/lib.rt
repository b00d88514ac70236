// The trace of a change to its cause.
#![tactic(auto)]

ghost use Rattle.std.specs.Prelude.{◌≡◌, true, false, List, ◌+◌, ◌-◌, ◌<◌, ◌≤◌, length};
ghost use Rattle.std.proofs.lemmas.List.Edits.{sets};
ghost use Rattle.std.specs.Option.{unwrap_or};
ghost use Rattle.std.proofs.Props.{props};
ghost use Rattle.rule.specs.Net.{Net, pins, open_pin};
ghost use Rattle.rule.specs.Cause.{causes};
ghost use Rattle.card_wiring.specs.Layout.{pins_at};
ghost use Rattle.session.specs.Good.{Good};
ghost use Rattle.trace.specs.Traced.{trace_of};
ghost use Rattle.trace.specs.Inner.Caused.{moved_at, Readable, Readable-prop, first_moved, Caused};

use card::Session;
use card_wiring::Wiring;
use rule::{Answer, Refusal};
use word::PcSet;

// What the walk back reads: the last vector's words over the before values, and what each gate's pins name. Each change after time 0 has its cause there.
#[derive(Clone, Copy)]
struct Run<'a> {
    words: &'a [u64; 256],
    before: &'a [bool; 256],
    wiring: Wiring<'a>,
    ghost caused: { Caused words.now before.now wiring.counts.now wiring.places.now } by { Prim.hlevel (props, Readable-prop) },
}

impl<'a> Run<'a> {
    // Whether net n changed at time t.
    fn moved(&self, n: usize, t: u32) -> bool
        requires { (n < 256) × (t < 64) }
        ensures { result ≡ moved_at self.now.before.now self.now.words.now n t }
    {
        let w = PcSet {
            word: self.words[n],
        };
        if t == 0 {
            return w.has(0) ^ self.before[n];
        }
        w.has(t) ^ w.has(t - 1)
    }

    // The same of what a pin names; an open pin never changes.
    fn pin_moved(&self, p: u16, t: u32) -> bool
        requires { (t < 64) × Readable p }
        ensures { result ≡ moved_at self.now.before.now self.now.words.now p t }
    {
        let n = usize::from(p);
        if 256 <= n {
            return false;
        }
        self.moved(n, t)
    }

    // The first pin of gate g that changed at time t.
    fn first_pin(&self, g: usize, t: u32) -> Option<u16>
        requires { (g < 256) × (t < 64) }
        ensures { unwrap_or result open_pin
            ≡ first_moved self.now.words.now self.now.before.now self.now.wiring.counts.now self.now.wiring.places.now g t }
    {
        self.wiring
            .pins(g)
            .iter()
            .copied()
            .find(|p| self.pin_moved(*p, t))
    }

    // A net's cause: it writes its net, and, after time 0, asks its gate.
    #[cycle(gate_cause_net_cause)]
    fn net_cause(&self, n: usize, t: u32, room: &mut [u16], at: usize)
        requires { (n < 256) × (t < 64) × (moved_at self.now.before.now self.now.words.now n t ≡ true) × (at + t < length room.old) }
        ensures { (c : List Net) → pins_at self.now.wiring.counts.now self.now.wiring.places.now ≡ pins c → room.new
            ≡ sets room.old at (causes c (moved_at self.now.before.now self.now.words.now) n t) }
    {
        room[at] = n as u16;
        if 0 < t {
            self.gate_cause(n, t, room, at + 1);
        }
    }

    // A gate's cause: the first pin that changed one unit earlier, and that net's.
    #[cycle(gate_cause_net_cause)]
    fn gate_cause(&self, g: usize, t: u32, room: &mut [u16], at: usize)
        requires { (g < 256) × (0 < t) × (t < 64) × (moved_at self.now.before.now self.now.words.now g t ≡ true) × (at + t ≤ length room.old) }
        ensures { (c : List Net) → pins_at self.now.wiring.counts.now self.now.wiring.places.now ≡ pins c → room.new
            ≡ sets room.old at
            (causes c (moved_at self.now.before.now self.now.words.now)
            (first_moved self.now.words.now self.now.before.now self.now.wiring.counts.now self.now.wiring.places.now g (t - 1)) (t - 1)) }
    {
        if let Some(p) = self.first_pin(g, t - 1) {
            self.net_cause(usize::from(p), t - 1, room, at);
        }
    }
}

// The trace of a change of net n at time t to an input at time 0, t + 1 nets, into lent room.
pub fn trace(s: &Session, n: u64, t: u64, room: &mut [u16]) -> Answer
    requires { Good s.now }
    ensures { record { answer = result; room = room.new } ≡ trace_of s.now n t room.old }
{
    if !s.rested {
        return Err(Refusal::NotReady);
    }
    if s.nets as u64 <= n {
        return Err(Refusal::NoSuchNet);
    }
    if 63 < t {
        return Err(Refusal::NoChange);
    }
    let net = n as usize;
    let time = t as u32;
    let run = Run {
        words: &s.words,
        before: &s.before,
        wiring: s.wiring(),
    };
    if !run.moved(net, time) {
        return Err(Refusal::NoChange);
    }
    let length = t as usize + 1;
    if room.len() < length {
        return Err(Refusal::NoRoom);
    }
    run.net_cause(net, time, room, 0);
    Ok(length)
}
