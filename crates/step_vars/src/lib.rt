// The variables of the steps, kept as words: what a step reads, one step, and the histories that the variables mean.
#![tactic(auto)]

ghost use Rattle.std.specs.Prelude.{◌≡◌, ◌⊎◌, ℕ, ◌<◌, ◌≤◌, length, get_or};
ghost use Rattle.rule.specs.Net.{open_pin};
ghost use Rattle.card_wiring.specs.Inner.Wires.{Gates};
ghost use Rattle.step_vars.specs.Variables.{held_in, read_in, step_in, history_word, histories_from};
ghost use Rattle.step_vars.specs.Inner.Variables.{StepTime, Words, start_in};

use card_wiring::Wiring;
use word::PcSet;

// The variables ahead of all steps: every variable of a net holds its before value, an input's its new one.
pub fn start<'a>(before: &'a [bool; 256], feeds: &'a [u16; 256], v: &'a [u8]) -> [u64; 256]
    requires { (length v.now ≤ 256) × ((j : ℕ) → get_or feeds.now j 0 < 256) }
    ensures { result ≡ start_in before.now feeds.now v.now }
{
    let mut vars = inputs::flats(before);
    inputs::put_inputs(&mut vars, feeds, v);
    vars
}

// What an array has for the variable that a pin is read by at time t, that of its largest element strictly below t: for an open pin `loose`.
pub fn read_at<'a>(words: &[u64; 256], sets: &'a [u64; 256], p: u16, t: u32, loose: bool) -> bool
    requires { (0 < t) × ((p < 256) ⊎ (p ≡ open_pin)) }
    ensures { result ≡ held_in loose words.now (read_in sets.now t p) }
{
    if p == card_wiring::OPEN {
        return loose;
    }
    let n = usize::from(p);
    let set = PcSet { word: sets[n] };
    let held = PcSet { word: words[n] };
    held.has(set.largest_below(t))
}

// What the steps of a card read: its gates' types, its wiring, and its nets' PC-sets.
#[derive(Clone, Copy)]
pub struct Circuit<'a> {
    pub types: &'a [u8; 256],
    pub wiring: Wiring<'a>,
    pub sets: &'a [u64; 256],
}

impl<'a> Circuit<'a> {
    // One step, gate g at time t: whatever the variables hold, its gate's function of those it reads goes into its own variable.
    pub fn step(self, vars: &mut [u64; 256], g: usize, t: u32)
        requires gates { Gates self.types.now self.wiring.counts.now g }
        requires step_time { StepTime t × Words vars.old }
        ensures { vars.new
            ≡ step_in self.entry.types.now self.entry.wiring.counts.now self.entry.wiring.places.now self.entry.sets.now vars.old
            (record { net = g; time = t }) }
    {
        let ty = usize::from(self.types[g]);
        let rule = gate::rule_of(ty);
        let loose = rule::open_value();
        let held = &*vars;
        let all = self
            .wiring
            .gather(ty, rule, g, |p| read_at(held, self.sets, p, t, loose));
        let b = gate::gate_value(rule, all);
        vars[g] = word::put(vars[g], t, b);
    }
}

// The steps of a card by number: step e is that of gate nets[e] at time times[e].
#[derive(Clone, Copy)]
pub struct StepList<'a> {
    pub nets: &'a [u16; 4096],
    pub times: &'a [u8; 4096],
    pub total: usize,

    ghost few: { total ≤ 4096 },
}

impl<'a> StepList<'a> {
    // The gate and the time of step e.
    pub fn step(self, e: usize) -> (usize, u32)
        requires { e < 4096 }
        ensures { (result.0 ≡ get_or self.entry.nets.now e 0) × (result.1 ≡ get_or self.entry.times.now e 0) }
    {
        (usize::from(self.nets[e]), u32::from(self.times[e]))
    }
}

// A net's history from its variables: at each time the variable of the largest element not above it, or of 0. What is known is filled upwards, first from
// the elements to the times next to them, then twice as far with each turn.
pub fn history_from(vars: u64, set: u64) -> u64
    ensures { result ≡ history_word set vars }
{
    let mut known = set | 1;
    let mut v = vars & known;
    for s in [1u32, 2, 4, 8, 16, 32] {
        v |= (v << s) & !known;
        known |= known << s;
    }
    v
}

// The histories of all nets from their variables.
pub fn histories_from<'a>(vars: &'a [u64; 256], sets: &'a [u64; 256]) -> [u64; 256]
    ensures { result ≡ histories_from sets.now vars.now }
{
    std::array::from_fn(|n| history_from(vars[n], sets[n]))
}
