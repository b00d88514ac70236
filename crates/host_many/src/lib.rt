// Many vectors one after another: whether bytes are such, the words of their histories, and what is kept after the last of them.
#![tactic(auto)]

ghost use Rattle.std.specs.Prelude.{◌≡◌, true, ◌+◌, ◌*◌, ◌≤◌, length};
ghost use Rattle.lists.specs.Entries.{every};
ghost use Rattle.rule.specs.Steps.{step_list};
ghost use Rattle.inputs.specs.Inputs.{byte_fits};
ghost use Rattle.session.specs.Good.{Good};
ghost use Rattle.card.specs.Session.{card_of};
ghost use Rattle.card.specs.Held.{HasCard};
ghost use Rattle.step_list.specs.Inner.Listing.{steps_named};
ghost use Rattle.operations.specs.declared.Engine.TheVariants.{Steps};
ghost use Rattle.host_bytes.specs.Layout.{session_length};
ghost use Rattle.host_many.specs.Inner.Words.{words_by};
ghost use Rattle.host_many.specs.Many.{many_by, many_judged, kept_at, kept_many};

use card::Session;
use operations::Engine;
use rule::{Answer, Refusal};
use step_vars::{Circuit, StepList};

// The card's step list where an engine goes along it, made once for many vectors; its length is handed back. A match, as in `run_one`; by fields the list is
// empty and nothing reads it: an Option of it would be asked for each vector.
fn list_for(engine: Engine, s: &Session, nets: &mut [u16; 4096], times: &mut [u8; 4096]) -> usize
    requires held { HasCard s.now }
    requires nets_len { (length nets.old ≡ 4096) × (length times.old ≡ 4096) }
    ensures few { result ≤ 4096 }
    ensures listed { engine ≡ Steps → steps_named nets.new times.new result ≡ step_list (card_of s.now) }
{
    match engine {
        Engine::Fields => 0,
        Engine::Steps => step_list::put_list(nets, times, &s.sets, &s.order, s.gates),
    }
}

// A vector by an engine, in the words that the one before it left; the count that comes with 0 is handed back. Only the words go from one vector to the next, so
// the session is not made again in between.
// a match and no closure: a closure for each engine would have to promise the same equation, and be no plainer
fn run_one(engine: Engine, s: &Session, list: StepList, words: &mut [u64; 256], v: &[u8]) -> usize
    requires held { HasCard s.now × (length v.now ≡ s.now.inputs) × (length words.old ≡ 256) }
    requires listed { engine ≡ Steps → steps_named list.nets.now list.times.now list.total ≡ step_list (card_of s.now) }
    ensures { record { words = words.new; count = result } ≡ words_by engine s.now words.old v.now }
{
    match engine {
        Engine::Fields => {
            fields::advance(words, &s.feeds, &s.types, s.wiring(), s.gate_list(), v);
            0
        }
        Engine::Steps => {
            let circuit = Circuit {
                types: &s.types,
                wiring: s.wiring(),
                sets: &s.sets,
            };
            let left = step_run::advance(words, &s.feeds, circuit, list, v);
            let next = left.words;
            *words = next;
            left.count
        }
    }
}

// Vectors by an engine, one after another, a byte an input each: the words of each history go to lent room, a word a net, and the count that comes with 0 is
// handed back.
pub fn run_many(engine: Engine, s: &Session, vectors: &[u8], k: usize, room: &mut [u64]) -> usize
    requires good { Good s.now }
    requires rested_value { (s.now.rested ≡ true) × (every byte_fits vectors.now ≡ true) }
    requires inputs_in_bounds { (k * s.now.inputs ≤ length vectors.now) × (s.now.nets ≤ 256) × (k * s.now.nets ≤ length room.old) }
    ensures room_after { room.new ≡ (many_by engine s.now vectors.now s.now.inputs k room.old).words }
    ensures value { result ≡ (many_by engine s.now vectors.now s.now.inputs k room.old).count }
{
    let n = s.inputs;
    let nets = s.nets;
    let mut step_nets = [0u16; 4096];
    let mut step_times = [0u8; 4096];
    let total = list_for(engine, s, &mut step_nets, &mut step_times);
    let list = StepList {
        nets: &step_nets,
        times: &step_times,
        total,
    };
    let mut words = s.words;
    let mut count: usize = 0;
    for done in 0..k {
        let from = done * n;
        let at = done * nets;
        count = run_one(engine, s, list, &mut words, &vectors[from..from + n]);
        room[at..at + nets].copy_from_slice(&words[..nets]);
    }
    count
}

// Whether so many bytes are vectors for the session, and there is room for the words: 12, 10, 11, 18, or how many vectors they are.
pub fn judge_many(s: &Session, vectors: &[u8], room: usize) -> Answer
    requires { Good s.now }
    ensures { result ≡ many_judged s.now vectors.now room }
{
    if !s.rested {
        return Err(Refusal::NotReady);
    }
    let n = s.inputs;
    let nets = s.nets;
    if vectors.len() % n != 0 {
        return Err(Refusal::VectorLength);
    }
    if !inputs::bytes_fit(vectors) {
        return Err(Refusal::VectorByte);
    }
    let k = vectors.len() / n;
    if room / nets < k {
        return Err(Refusal::NoRoom);
    }
    Ok(k)
}

// What is kept after vector j of many, of n bytes each.
fn keep_at(b: &mut [u8], engine: Engine, vectors: &[u8], n: usize, j: usize)
    requires { (session_length ≤ length b.old) × (j * n + n ≤ length vectors.now) }
    ensures { b.new ≡ kept_at engine b.old vectors.now n j }
{
    let from = j * n;
    host_bytes::keep_vector(b, engine, &vectors[from..from + n]);
}

// What is kept after many vectors: the last two.
pub fn keep_many(b: &mut [u8], engine: Engine, vectors: &[u8], n: usize, k: usize)
    requires { (session_length ≤ length b.old) × (k * n ≤ length vectors.now) }
    ensures { b.new ≡ kept_many engine b.old vectors.now n k }
{
    if k == 0 {
        return;
    }
    if k == 1 {
        keep_at(b, engine, vectors, n, 0);
        return;
    }
    keep_at(b, engine, vectors, n, k - 2);
    keep_at(b, engine, vectors, n, k - 1);
}
