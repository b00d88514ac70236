// The bench run: the first steps of an order that was judged, and the byte of each.
#![tactic(auto)]

ghost use Rattle.std.specs.Prelude.{◌≡◌, true, false, cond, ℕ, ◌<◌, ◌≤◌, eqb, length, get_or};
ghost use Rattle.lists.specs.Entries.{some};
ghost use Rattle.lists.specs.Listed.{listed};
ghost use Rattle.lists.specs.Filled.{filled};
ghost use Rattle.word.specs.Word.{bit, val};
ghost use Rattle.inputs.specs.Inputs.{given};
ghost use Rattle.card.specs.Session.{card_of};
ghost use Rattle.session.specs.Good.{Good};
ghost use Rattle.step_orders.specs.Orders.{order_judged};
ghost use Rattle.bench.specs.Inner.Taken.{Taken, byte_in};
ghost use Rattle.bench.specs.Bench.{not_done, bench_done, bench_order, bench_of};

use card::Session;
use rule::{Answer, Refusal};
use step_vars::{Circuit, StepList};
use word::PcSet;

// Which step numbers are among some entries of an order.
fn among(entries: &[u16]) -> [bool; 4096]
    requires { (i : ℕ) → i < length entries.now → get_or entries.now i 0 < 4096 }
    ensures { result ≡ listed (λ e. some (λ x. eqb x e) entries.now) 4096 }
{
    let mut out = [false; 4096];
    for e in entries {
        out[usize::from(*e)] = true;
    }
    out
}

// The byte of a step that was not done: "else 2" (document 01), in lent bytes, so no Option.
const NOT_DONE: u8 = 2;

// The byte of a step: its variable's value if it was done.
#[tactic(auto, unfolding(crate::specs::Bench::not_done))]
fn step_byte(done: bool, word: u64, t: u32) -> u8
    ensures { result ≡ cond done (val (bit word t)) not_done }
{
    if !done {
        return NOT_DONE;
    }
    let w = PcSet { word };
    u8::from(w.has(t))
}

// A byte for each step number, at the front of lent room.
fn put_bytes<'a>(vars: &'a [u64; 256], list: StepList, done: &'a [bool; 4096], room: &mut [u8])
    requires { (list.total ≤ length room.old) × ((e : ℕ) → e < list.total → get_or list.nets.now e 0 < 256) }
    ensures { room.new
        ≡ filled (byte_in vars.now list.entry.nets.now list.entry.times.now done.now) list.entry.total room.old }
{
    for e in 0..list.total {
        let (g, t) = list.step(e);
        room[e] = step_byte(done[e], vars[g], t);
    }
}

// The first entries of an order that was taken are done, one step after another, and each step's byte goes to lent room; the session moves
// only when they are the whole list. The count of the steps done is handed back.
fn do_first<'a>(
    s: &mut Session,
    v: &[u8],
    list: StepList,
    order: &'a [u16],
    first: usize,
    room: &mut [u8],
) -> usize
    requires good { Good s.old }
    requires rested_value { (s.old.rested ≡ true) × (length v.now ≡ s.old.inputs) }
    requires taken { Taken (card_of s.old) list.nets.now list.times.now list.total order.now }
    requires first_le_total { (first ≤ list.total) × (list.total ≤ length room.old) }
    ensures { record { moved = record { answer = Ok result; session = s.new }; room = room.new }
        ≡ bench_done s.old (given s.old.kinds v.now) order.now first room.old }
{
    let before = inputs::tops(&s.words);
    let mut vars = step_vars::start(&before, &s.feeds, v);
    let circuit = Circuit {
        types: &s.types,
        wiring: s.wiring(),
        sets: &s.sets,
    };
    let entries = &order[..first];
    let count = step_run::run_order(&mut vars, circuit, list, entries);
    let done = among(entries);
    put_bytes(&vars, list, &done, room);
    if first < list.total {
        return count;
    }
    let words = step_vars::histories_from(&vars, &s.sets);
    s.before = before;
    s.words = words;
    count
}

// A bench run with a vector that fits: 15, 16, 17, 19, 18; else the first k entries of the order are done.
fn run_bench<'a>(s: &mut Session, v: &[u8], order: &'a [u16], k: u64, room: &mut [u8]) -> Answer
    requires good { Good s.old }
    requires rested_value { (s.old.rested ≡ true) × (length v.now ≡ s.old.inputs) }
    ensures { record { moved = record { answer = result; session = s.new }; room = room.new }
        ≡ bench_order s.old (given s.old.kinds v.now) order.now k room.old (order_judged (card_of s.old) order.now) }
{
    let mut nets = [0u16; 4096];
    let mut times = [0u8; 4096];
    let total = step_list::put_list(&mut nets, &mut times, &s.sets, &s.order, s.gates);
    let list = StepList {
        nets: &nets,
        times: &times,
        total,
    };
    let circuit = Circuit {
        types: &s.types,
        wiring: s.wiring(),
        sets: &s.sets,
    };
    step_orders::judge_order(circuit, list, order)?;
    if (total as u64) < k {
        return Err(Refusal::TooManyAsked);
    }
    if room.len() < total {
        return Err(Refusal::NoRoom);
    }
    Ok(do_first(s, v, list, order, k as usize, room))
}

// A bench run: a vector, an order of step numbers, and how many of its entries to do; a byte for each step number goes to lent room.
pub fn bench(s: &mut Session, v: &[u8], order: &[u16], k: u64, room: &mut [u8]) -> Answer
    requires { Good s.old }
    ensures { record { moved = record { answer = result; session = s.new }; room = room.new } ≡ bench_of s.old v.now order.now k room.old }
{
    inputs::judge(s.rested, s.inputs, v)?;
    run_bench(s, v, order, k, room)
}
