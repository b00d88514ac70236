// A card at rest, and a vector by fields.
#![tactic(auto)]

ghost use Rattle.std.specs.Prelude.{◌≡◌, true, length};
ghost use Rattle.inputs.specs.Inputs.{given};
ghost use Rattle.session.specs.Good.{Good};
ghost use Rattle.session.specs.Moves.{moved_by, vector_of, rested_by, rest_of};

use card::Session;
use card_wiring::Wiring;
use rule::Answer;

// A vector that fits, run by fields in the session's own words: the last values at 63 are the before values. That it fits is a clause, here and in the other runs:
// a type for it would hold the session too, and be made by `judge` alone, right ahead of the run, which is no plainer.
fn run_fields(s: &mut Session, v: &[u8])
    requires good { Good s.old }
    requires rested_value { (s.old.rested ≡ true) × (length v.now ≡ s.old.inputs) }
    ensures { s.new ≡ moved_by s.old (given s.old.kinds v.now) }
{
    s.before = inputs::tops(&s.words);
    // Not by `wiring` and `gate_list`, which borrow the words too.
    let wiring = Wiring {
        counts: &s.counts,
        places: &s.places,
        nets: s.nets,
    };
    fields::advance(
        &mut s.words,
        &s.feeds,
        &s.types,
        wiring,
        &s.order[..s.gates],
        v,
    );
}

// Every net at its settled value for a vector that fits, from the constants put over cleared words.
fn settle(s: &mut Session, v: &[u8])
    requires good { Good s.old }
    requires loaded_value { (s.old.loaded ≡ true) × (length v.now ≡ s.old.inputs) }
    ensures { s.new ≡ rested_by s.old (given s.old.kinds v.now) }
{
    let constants = inputs::constants_of(&s.kinds, &s.types);
    let mut words = inputs::flats(&constants);
    let held = &*s;
    fields::advance(
        &mut words,
        &held.feeds,
        &held.types,
        held.wiring(),
        held.gate_list(),
        v,
    );
    let before = inputs::tops(&words);
    let flat = inputs::flats(&before);
    s.rested = true;
    s.before = before;
    s.words = flat;
}

// A rest vector. `Good` stays a clause, here and in every operation: see `card::ask_net`.
pub fn rest(s: &mut Session, v: &[u8]) -> Answer
    requires { Good s.old }
    ensures { record { answer = result; session = s.new } ≡ rest_of s.old v.now }
{
    inputs::judge(s.loaded, s.inputs, v)?;
    settle(s, v);
    Ok(0)
}

// A vector by fields.
pub fn vector(s: &mut Session, v: &[u8]) -> Answer
    requires { Good s.old }
    ensures { record { answer = result; session = s.new } ≡ vector_of s.old v.now }
{
    inputs::judge(s.rested, s.inputs, v)?;
    run_fields(s, v);
    Ok(0)
}
