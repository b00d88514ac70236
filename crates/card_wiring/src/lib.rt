// The wiring of a card that is laid out in arrays: counts says how many pins each net has, places what they name, 8 places a net.
#![tactic(auto)]

ghost use Rattle.std.specs.Prelude.{◌≡◌, IfSome, is_some, map, true, ◌⊎◌, ℕ, ◌+◌, ◌-◌, ◌*◌, ◌<◌, ◌≤◌, length, get_or, take};
ghost use Rattle.lists.specs.Entries.{every};
ghost use Rattle.rule.specs.Net.{open_pin, at_pin};
ghost use Rattle.rule.specs.Level.{over};
ghost use Rattle.card_wiring.specs.Layout.{pins_at};
ghost use Rattle.card_wiring.specs.Inner.Wires.{Wires, all_fit, backs, highest, order_of, joined, source_set, sets_along, sizes_of};
ghost use Rattle.card_wiring.specs.Wired.{pin_fits};
ghost use Rattle.card_wiring.specs.Inner.Wired.{as_order, with_gate, set_wired, arrays_wired};

mod gather;

use rule::Refusal;
use std::array;
use word::PcSet;

// The value of a pin that names no net: ffff in a card's bytes and in its arrays, so no Option.
pub const OPEN: u16 = 65535;

// What the pins of net g name.
fn pins_of<'a>(counts: &'a [u8; 256], places: &'a [u16; 2048], g: usize) -> &'a [u16]
    requires narrow { get_or counts.now g 0 ≤ 8 }
    requires g_bound { g < 256 }
    ensures { result.now ≡ pins_at counts.now places.now g }
{
    let first = g * 8;
    &places[first..first + usize::from(counts[g])]
}

// Whether a pin names one of n nets or is open.
fn pin_fits(p: u16, n: usize) -> bool
    ensures { result ≡ pin_fits n p }
{
    usize::from(p) < n || p == OPEN
}

// Whether every pin of net g fits. `Wires` is a clause here, in `all_fit` and in `wire`, and no `Wiring`: the arrays are judged, and may not fit.
fn net_fits<'a>(counts: &'a [u8; 256], places: &'a [u16; 2048], n: usize, g: usize) -> bool
    requires wires { Wires counts.now places.now n }
    requires g_bound { g < 256 }
    ensures { result ≡ every (pin_fits n) (pins_at counts.now places.now g) }
{
    pins_of(counts, places, g).iter().all(|p| pin_fits(*p, n))
}

// Whether every pin fits.
pub fn all_fit<'a>(counts: &'a [u8; 256], places: &'a [u16; 2048], n: usize) -> bool
    requires { Wires counts.now places.now n }
    ensures { result ≡ all_fit counts.now places.now n }
{
    (0..n).all(|g| net_fits(counts, places, n, g))
}

// The wiring of a card of so many nets, in which every pin names one of them or is open.
#[derive(Clone, Copy)]
pub struct Wiring<'a> {
    pub counts: &'a [u8; 256],
    pub places: &'a [u16; 2048],
    pub nets: usize,

    ghost wires: { Wires counts.now places.now nets },

    ghost fits: { all_fit counts.now places.now nets ≡ true },
}

impl<'a> Wiring<'a> {
    // The wiring that the arrays have, if every pin fits; of any arrays that can be gone over (`Wires`).
    fn of(counts: &'a [u8; 256], places: &'a [u16; 2048], nets: usize) -> Option<Wiring<'a>>
        requires { Wires counts.now places.now nets }
        ensures some { is_some result ≡ all_fit counts.now places.now nets }
        ensures same { IfSome result
            (λ w. (w.counts.now ≡ counts.now) × (w.places.now ≡ places.now) × (w.nets ≡ nets)) }
    {
        if !all_fit(counts, places, nets) {
            return None;
        }
        Some(Wiring {
            counts,
            places,
            nets,
        })
    }

    // What the pins of net g name.
    pub fn pins(self, g: usize) -> &'a [u16]
        requires { g < 256 }
        ensures { result.now ≡ pins_at self.entry.counts.now self.entry.places.now g }
    {
        pins_of(self.counts, self.places, g)
    }

    // The gates counted backwards from net g, one more than from its pins; 0 where it has none.
    fn over_pins(self, old: &[u64; 256], g: usize) -> u64
        requires { (g < 256) × ((i : ℕ) → get_or old.now i 0 < 1000) }
        ensures { result ≡ over 1 (map (at_pin 0 (λ (m : ℕ). get_or old.now m 0)) (pins_at self.entry.counts.now self.entry.places.now g)) }
    {
        let mut over: u64 = 0;
        for p in self.pins(g) {
            over = over.max(at_pin(old, *p, 0) + 1);
        }
        over
    }

    // One gate more is followed back from every net. The card's nets alone are gone over, since there are no pins past them: load and every call for C sweep once for
    // each level.
    fn sweep(self, old: &[u64; 256]) -> [u64; 256]
        requires { (i : ℕ) → get_or old.now i 0 < 1000 }
        ensures { (k : ℕ) → old.now ≡ backs (λ (h : ℕ). 1) self.entry.counts.now self.entry.places.now k
            → result ≡ backs (λ (h : ℕ). 1) self.entry.counts.now self.entry.places.now (k + 1) }
    {
        let mut new = [0u64; 256];
        for g in 0..self.nets {
            new[g] = self.over_pins(old, g);
        }
        new
    }

    // The gates counted backwards from every net, followed until nothing changes, at most to one gate more than there are nets.
    pub fn gates_back(self) -> [u64; 256]
        ensures { result ≡ backs (λ (h : ℕ). 1) self.entry.counts.now self.entry.places.now (self.entry.nets + 1) }
    {
        let mut levels = [0u64; 256];
        for _ in 0..=self.nets {
            let next = self.sweep(&levels);
            if levels == next {
                return levels;
            }
            levels = next;
        }
        levels
    }

    // The PC-set of gate g: the union of its pins' sets, each element raised by one.
    fn set_of(self, sets: &[u64; 256], g: usize) -> u64
        requires { g < 256 }
        ensures { result ≡ joined g (map (at_pin 1 (λ (m : ℕ). get_or sets.now m 0)) (pins_at self.entry.counts.now self.entry.places.now g)) }
    {
        let mut all = PcSet { word: 0 };
        for p in self.pins(g) {
            all = all.union(PcSet {
                word: at_pin(sets, *p, 1),
            });
        }
        all.raise().word
    }

    // The PC-set of net g ahead of the gates: {0} for an input or a constant, the nets without pins; else cleared.
    fn source_set(self, g: usize) -> u64
        requires { g < 256 }
        ensures { result ≡ source_set self.entry.counts.now self.entry.nets g }
    {
        u64::from(g < self.nets && self.counts[g] == 0)
    }

    // The PC-sets of all nets: those of inputs and constants, and the gates' along their order.
    pub fn pcsets(self, order: &[u16]) -> [u64; 256]
        requires { (i : ℕ) → get_or order.now i 0 < 256 }
        ensures { result ≡ sets_along self.entry.counts.now self.entry.places.now self.entry.nets order.now }
    {
        let mut sets = array::from_fn(|g| self.source_set(g));
        for g in order {
            let g = usize::from(*g);
            sets[g] = self.set_of(&sets, g);
        }
        sets
    }

    // The gates' order and the PC-sets of a card whose levels are known, or 7.
    fn with_sets(self, levels: &[u64; 256], depth: u64) -> Result<Wired, Refusal>
        requires { depth < 1000 }
        ensures { result
            ≡ set_wired self.entry.counts.now self.entry.places.now self.entry.nets (order_of levels.now self.entry.nets depth) }
    {
        let order = by_level(levels, self.nets, depth);
        let sets = self.pcsets(order.as_slice());
        if 4096 < sizes_of(&sets, order.as_slice()) {
            return Err(Refusal::TooManySteps);
        }
        Ok(Wired {
            gates: order.gates,
            order: order.list,
            sets,
        })
    }
}

// The highest of the first n.
pub fn highest_of(levels: &[u64; 256], n: usize) -> u64
    requires { n ≤ 256 }
    ensures { result ≡ highest levels.now n }
{
    levels[..n].iter().fold(0, |top, level| top.max(*level))
}

// Some gates in order, in an array that every card's fit, with their number beside it: there is no heap.
#[derive(Clone, Copy)]
pub struct Order {
    pub gates: usize,
    pub list: [u16; 256],
}

impl Order {
    fn as_slice(&self) -> &[u16]
        requires { self.now.gates ≤ 256 }
        ensures { result.now ≡ take self.now.gates self.now.list }
    {
        &self.list[..self.gates]
    }

    // Net g at the end.
    fn push(&mut self, g: usize)
        requires { (g < 256) × (self.old.gates < 256) }
        ensures { self.new ≡ with_gate self.old true g }
    {
        self.list[self.gates] = g as u16;
        self.gates += 1;
    }
}

// The nets by level, 1 to depth, then number.
pub fn by_level(levels: &[u64; 256], n: usize, depth: u64) -> Order
    requires { (n ≤ 256) × (depth < 1000) }
    ensures { result ≡ as_order (order_of levels.now n depth) }
{
    let mut order = Order {
        gates: 0,
        list: [0; 256],
    };
    for l in 1..=depth {
        with_level(&mut order, levels, n, l);
    }
    order
}

// The nets of level l at the end of an order, by number.
fn with_level(order: &mut Order, levels: &[u64; 256], n: usize, l: u64)
    requires { (n ≤ 256) × (0 < l) × (order.old ≡ as_order (order_of levels.now n (l - 1))) }
    ensures { order.new ≡ as_order (order_of levels.now n l) }
{
    for g in 0..n {
        if levels[g] == l {
            order.push(g);
        }
    }
}

// The number of steps: the sizes of the gates' sets, added.
pub fn sizes_of(sets: &[u64; 256], order: &[u16]) -> usize
    requires { (length order.now ≤ 256) × ((i : ℕ) → get_or order.now i 0 < 256) }
    ensures { result ≡ sizes_of sets.now order.now }
{
    let mut sum: usize = 0;
    for g in order {
        let set = PcSet {
            word: sets[usize::from(*g)],
        };
        sum += set.size() as usize;
    }
    sum
}

// What an array has for a pin: for an open one, which names no net, `loose`.
pub fn at_pin(xs: &[u64; 256], p: u16, loose: u64) -> u64
    requires { (p < 256) ⊎ (p ≡ open_pin) }
    ensures { result ≡ at_pin loose (λ (m : ℕ). get_or xs.now m 0) p }
{
    if p == OPEN {
        return loose;
    }
    xs[usize::from(p)]
}

#[derive(Clone, Copy)]
pub struct Wired {
    pub gates: usize,
    pub order: [u16; 256],
    pub sets: [u64; 256],
}

// The judgement of a card's wiring: 4, 5, 6, 7; then the order of its gates and their PC-sets.
pub fn wire<'a>(counts: &'a [u8; 256], places: &'a [u16; 2048], n: usize) -> Result<Wired, Refusal>
    requires { Wires counts.now places.now n }
    ensures { result ≡ arrays_wired counts.now places.now n }
{
    let wiring = Wiring::of(counts, places, n).ok_or(Refusal::NoSuchPin)?;
    // Every delay is one unit, so the gates counted backwards are the levels too.
    let levels = wiring.gates_back();
    let depth = highest_of(&levels, n);
    if (n as u64) < depth {
        return Err(Refusal::Looped);
    }
    if 63 < depth {
        return Err(Refusal::TooDeep);
    }
    wiring.with_sets(&levels, depth)
}
