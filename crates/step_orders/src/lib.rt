// Orders of the steps: whether one has each step once, and none before one whose value it reads.
#![tactic(auto)]

ghost use Rattle.std.specs.Prelude.{◌≡◌, true, false, ℕ, ◌<◌, ◌≤◌, length, get_or, replicate};
ghost use Rattle.lists.specs.Entries.{every};
ghost use Rattle.step_vars.specs.Variables.{reads_in};
ghost use Rattle.step_orders.specs.Orders.{entries_fit};
ghost use Rattle.step_orders.specs.Inner.Ready.{StepEntry, order_steps, done_of, ready_in, judged_in};

use rule::{Refusal, Verdict};
use step_vars::{Circuit, StepList};

// Whether every entry of an order is a step's number, and none stands twice.
fn entries_fit(order: &[u16], total: usize) -> bool
    requires { total ≤ 4096 }
    ensures { result ≡ entries_fit total order.now }
{
    let mut seen = [false; 4096];
    for &entry in order {
        let e = usize::from(entry);
        if total <= e {
            return false;
        }
        if seen[e] {
            return false;
        }
        seen[e] = true;
    }
    true
}

// Whether all that gate g reads at time t is there: bit u of a net's word in `done` says that its variable of time u is. That of an open pin always is.
fn reads_done(done: &[u64; 256], circuit: Circuit, g: usize, t: u32) -> bool
    requires { (g < 256) × (0 < t) }
    ensures { result
        ≡ every (done_of done.now)
        (reads_in circuit.entry.wiring.counts.now circuit.entry.wiring.places.now circuit.entry.sets.now (record { net = g; time = t })) }
{
    let sets = circuit.sets;
    circuit
        .wiring
        .pins(g)
        .iter()
        .all(|p| step_vars::read_at(done, sets, *p, t, true))
}

// Whether no step of an order stands before one that it reads.
fn order_ready<'a>(circuit: Circuit, list: StepList, order: &'a [u16]) -> bool
    requires { (i : ℕ) → i < length order.now → StepEntry list.nets.now list.times.now (get_or order.now i 0) }
    ensures { result
        ≡ ready_in circuit.entry.wiring.counts.now circuit.entry.wiring.places.now circuit.entry.sets.now (replicate 256 1)
        (order_steps list.entry.nets.now list.entry.times.now order.now) }
{
    let mut done = [1u64; 256];
    for entry in order {
        let (g, t) = list.step(usize::from(*entry));
        if !reads_done(&done, circuit, g, t) {
            return false;
        }
        done[g] = word::put(done[g], t, true);
    }
    true
}

// The judgement of an order: 15, 16, 17.
pub fn judge_order<'a>(circuit: Circuit, list: StepList, order: &'a [u16]) -> Verdict
    requires { (e : ℕ) → e < list.total → StepEntry list.nets.now list.times.now e }
    ensures { result
        ≡ judged_in circuit.entry.wiring.counts.now circuit.entry.wiring.places.now circuit.entry.sets.now
        list.entry.nets.now list.entry.times.now list.entry.total order.now }
{
    if order.len() != list.total {
        return Err(Refusal::OrderLength);
    }
    if !entries_fit(order, list.total) {
        return Err(Refusal::OrderEntry);
    }
    if !order_ready(circuit, list, order) {
        return Err(Refusal::OrderEarly);
    }
    Ok(())
}
