// The step list of a card: by level, then net, then time.
#![tactic(auto)]

ghost use Rattle.std.specs.Prelude.{◌≡◌, [], ◌∷◌, ℕ, ◌+◌, ◌<◌, ◌≤◌, length, get_or};
ghost use Rattle.rule.specs.Steps.{Step};
ghost use Rattle.session.specs.Good.{Good};
ghost use Rattle.step_list.specs.Listing.{list_of};
ghost use Rattle.step_list.specs.Inner.Listing.{times_in, steps_in, gates_in, Holds, Adds};

use card::Session;
use rule::{Answer, Refusal};
use word::PcSet;

// The most steps that a card may have.
pub const MOST: usize = 4096;

// The step of net g at time t goes to place `at` of the list.
fn put_step(nets: &mut [u16; 4096], times: &mut [u8; 4096], at: usize, g: u16, t: u32)
    requires { (t < 64) × (at < 4096) }
    ensures { Adds nets.old times.old at (record { net = g; time = t } ∷ []) nets.new times.new (at + 1) }
{
    nets[at] = g;
    times[at] = t as u8;
}

// The steps of net g, by time, from place `at` of the list on: one for each element of its set.
fn put_net(nets: &mut [u16; 4096], times: &mut [u8; 4096], at: usize, set: u64, g: u16) -> usize
    requires { at + length (times_in set g 63) ≤ 4096 }
    ensures { Adds nets.old times.old at (times_in set g 63) nets.new times.new result }
{
    let all = PcSet { word: set };
    let mut left = all.not_below(1);
    let mut next = at;
    let mut t = left.least();
    // a while, since no form is plainer: the next time is the least that is left of the set, which no range counts
    while t < 64 {
        put_step(nets, times, next, g, t);
        next += 1;
        left = left.without_least();
        t = left.least();
    }
    next
}

// The step list, a net and a time for each step number: by level, then net, then time. Its length is handed back. Two arrays and a number, since there is no
// heap, and document 01 lends two slices of numbers.
pub fn put_list<'a>(
    nets: &mut [u16; 4096],
    times: &mut [u8; 4096],
    sets: &'a [u64; 256],
    order: &'a [u16; 256],
    gates: usize,
) -> usize
    requires gates_bound { (gates ≤ 256) × ((i : ℕ) → get_or order.now i 0 < 256) × (length (steps_in sets.now (gates_in order.now gates)) ≤ 4096) }
    requires nets_len { (length nets.old ≡ 4096) × (length times.old ≡ 4096) }
    ensures { Holds (steps_in sets.now (gates_in order.now gates))
        nets.old times.old nets.new times.new result }
{
    let mut next: usize = 0;
    for i in 0..gates {
        let g = order[i];
        next = put_net(nets, times, next, sets[usize::from(g)], g);
    }
    next
}

// The step list into lent room, nets and times.
pub fn list(s: &Session, nets: &mut [u16], times: &mut [u8]) -> Answer
    requires { Good s.now }
    ensures { record { answer = result; nets = nets.new; times = times.new } ≡ list_of s.now nets.old times.old }
{
    if !s.loaded {
        return Err(Refusal::NotReady);
    }
    let mut step_nets = [0u16; 4096];
    let mut step_times = [0u8; 4096];
    let total = put_list(&mut step_nets, &mut step_times, &s.sets, &s.order, s.gates);
    if nets.len() < total {
        return Err(Refusal::NoRoom);
    }
    if times.len() < total {
        return Err(Refusal::NoRoom);
    }
    nets[..total].copy_from_slice(&step_nets[..total]);
    times[..total].copy_from_slice(&step_times[..total]);
    Ok(total)
}
