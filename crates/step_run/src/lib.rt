// Steps one after another, along the list or in any order, and a vector by steps.
#![tactic(auto)]

ghost use Rattle.std.specs.Prelude.{◌≡◌, true, ℕ, ◌<◌, ◌≤◌, length, get_or};
ghost use Rattle.rule.specs.Steps.{step_list};
ghost use Rattle.inputs.specs.Inputs.{given};
ghost use Rattle.card.specs.Session.{card_of};
ghost use Rattle.session.specs.Good.{Good};
ghost use Rattle.step_vars.specs.Inner.Variables.{Words};
ghost use Rattle.step_list.specs.Inner.Listing.{steps_named};
ghost use Rattle.step_run.specs.Runs.{ran};
ghost use Rattle.step_run.specs.Inner.Runs.{Doable, ordered_steps, stepped, ran_move};
ghost use Rattle.step_run.specs.Vector.{ran_along, steps_vector_of};

use card::Session;
use rule::Answer;
use step_vars::{Circuit, StepList};

// What a vector by steps leaves: the words of the nets' histories, and how many steps were done.
#[derive(Clone, Copy)]
pub struct Advanced {
    pub words: [u64; 256],
    pub count: usize,
}

// The entries of an order of step numbers, one step after another; the count of the steps done is handed back: "The run counts its steps in the result"
// (document 01), one by one.
pub fn run_order<'a>(
    vars: &mut [u64; 256],
    circuit: Circuit,
    list: StepList,
    order: &'a [u16],
) -> usize
    requires order { ((i : ℕ) → i < length order.now → get_or order.now i 0 < 4096) × Words vars.old }
    requires doable { Doable circuit.types.now circuit.wiring.counts.now (ordered_steps list.nets.now list.times.now order.now (length order.now)) }
    ensures { record { words = vars.new; count = result }
        ≡ ran circuit.entry.types.now circuit.entry.wiring.counts.now circuit.entry.wiring.places.now circuit.entry.sets.now vars.old
        (ordered_steps list.entry.nets.now list.entry.times.now order.now (length order.now)) }
{
    let mut done: usize = 0;
    for entry in order {
        let (net, time) = list.step(usize::from(*entry));
        circuit.step(vars, net, time);
        done += 1;
    }
    done
}

// The steps along the list, counted from 0. It and `run_order` differ in where a step's number comes from, and share the two calls of a turn: one function
// of both would take a closure for the number, and ask of it what the two loops show, which is no plainer.
pub fn run_list(vars: &mut [u64; 256], circuit: Circuit, list: StepList) -> usize
    requires words { Words vars.old }
    requires doable { Doable circuit.types.now circuit.wiring.counts.now (steps_named list.nets.now list.times.now list.total) }
    ensures { record { words = vars.new; count = result }
        ≡ ran circuit.entry.types.now circuit.entry.wiring.counts.now circuit.entry.wiring.places.now circuit.entry.sets.now vars.old
        (steps_named list.entry.nets.now list.entry.times.now list.entry.total) }
{
    let mut done: usize = 0;
    for e in 0..list.total {
        let (net, time) = list.step(e);
        circuit.step(vars, net, time);
        done += 1;
    }
    done
}

// The words that a vector leaves along a list of steps, of words that end in the before values, and the count of the steps done. The variables start with
// the before values and the inputs' new ones.
pub fn advance<'a>(
    words: &'a [u64; 256],
    feeds: &'a [u16; 256],
    circuit: Circuit,
    list: StepList,
    v: &'a [u8],
) -> Advanced
    requires v_len_bound { (length v.now ≤ 256) × ((j : ℕ) → get_or feeds.now j 0 < 256) }
    requires doable { Doable circuit.types.now circuit.wiring.counts.now (steps_named list.nets.now list.times.now list.total) }
    ensures { result
        ≡ stepped feeds.now circuit.entry.types.now circuit.entry.wiring.counts.now circuit.entry.wiring.places.now circuit.entry.sets.now
        (steps_named list.entry.nets.now list.entry.times.now list.entry.total) words.now v.now }
{
    let before = inputs::tops(words);
    let mut vars = step_vars::start(&before, feeds, v);
    let count = run_list(&mut vars, circuit, list);
    let words = step_vars::histories_from(&vars, circuit.sets);
    Advanced { words, count }
}

// A vector that fits, run by steps along the list; the count of the steps done is handed back.
fn run_steps(s: &mut Session, v: &[u8]) -> usize
    requires good { Good s.old }
    requires rested_value { (s.old.rested ≡ true) × (length v.now ≡ s.old.inputs) }
    ensures { record { answer = Ok result; session = s.new }
        ≡ ran_move s.old (ran_along s.old (given s.old.kinds v.now) (step_list (card_of s.old))) }
{
    let mut nets = [0u16; 4096];
    let mut times = [0u8; 4096];
    let total = step_list::put_list(&mut nets, &mut times, &s.sets, &s.order, s.gates);
    let circuit = Circuit {
        types: &s.types,
        wiring: s.wiring(),
        sets: &s.sets,
    };
    let list = StepList {
        nets: &nets,
        times: &times,
        total,
    };
    let left = advance(&s.words, &s.feeds, circuit, list, v);
    let words = left.words;
    s.before = inputs::tops(&s.words);
    s.words = words;
    left.count
}

// A vector by steps.
pub fn vector_steps(s: &mut Session, v: &[u8]) -> Answer
    requires { Good s.old }
    ensures { record { answer = result; session = s.new } ≡ steps_vector_of s.old v.now }
{
    inputs::judge(s.rested, s.inputs, v)?;
    Ok(run_steps(s, v))
}
