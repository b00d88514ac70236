// Load, rest, vector and history for a host program, on numbers and byte slices; `host_c` has them for C. Between calls the session lives in lent bytes,
// from which each call makes it again. Every call answers the paper's number and the count: number + 256 * count.
#![tactic(auto)]

ghost use Rattle.std.specs.Prelude.{◌≡◌, IfOk};
ghost use Rattle.session.specs.Good.{Good};
ghost use Rattle.operations.specs.declared.Engine.TheVariants.{Fields, Steps};
ghost use Rattle.operations.specs.declared.Move.TheVariants.{Load, Rest, Vector};
ghost use Rattle.host.specs.Calls.{packed, session_in, host_move, host_history};
ghost use Rattle.host.specs.Vectors.{host_vectors};

use card::Session;
use operations::{Engine, Move};
use rule::{Answer, Refusal};

// An answer as one number.
fn pack(answer: Answer) -> u64
    ensures { result ≡ packed answer }
{
    let number = u64::from(rule::number(&answer));
    let count = (answer.unwrap_or(0) % 65536) as u64;
    number + 256 * count
}

// The session that lent bytes hold: 18 where they are too few, 12 where no call left them.
fn session_in(b: &[u8]) -> Result<Session, Refusal>
    ensures value { result ≡ session_in b.now }
    ensures good { IfOk result Good }
{
    if b.len() < host_bytes::SESSION_LENGTH {
        return Err(Refusal::NoRoom);
    }
    host_made::made_again(b).ok_or(Refusal::NotReady)
}

// A call that moves the session: 18, 12, and then as the library's operation. What is left of the bytes is kept where it is done.
fn moved(how: Move, b: &mut [u8], v: &[u8]) -> Answer
    ensures { record { answer = packed result; bytes = b.new } ≡ host_move how b.old v.now }
{
    let mut session = session_in(b)?;
    let count = operations::operate(how, &mut session, v)?;
    host_bytes::keep(b, how, v);
    Ok(count)
}

pub fn krasvome_load(session: &mut [u8], card: &[u8]) -> u64
    ensures { record { answer = result; bytes = session.new } ≡ host_move Load session.old card.now }
{
    pack(moved(Move::Load, session, card))
}

pub fn krasvome_rest(session: &mut [u8], vector: &[u8]) -> u64
    ensures { record { answer = result; bytes = session.new } ≡ host_move Rest session.old vector.now }
{
    pack(moved(Move::Rest, session, vector))
}

pub fn krasvome_vector(session: &mut [u8], vector: &[u8]) -> u64
    ensures { record { answer = result; bytes = session.new } ≡ host_move (Vector Fields) session.old vector.now }
{
    pack(moved(Move::Vector(Engine::Fields), session, vector))
}

pub fn krasvome_steps(session: &mut [u8], vector: &[u8]) -> u64
    ensures { record { answer = result; bytes = session.new } ≡ host_move (Vector Steps) session.old vector.now }
{
    pack(moved(Move::Vector(Engine::Steps), session, vector))
}

// The history of the session that bytes hold: 18, 12, and then as the library's.
fn shown(b: &[u8], words: &mut [u64], befores: &mut [u8], flags: &mut [u8]) -> Answer
    ensures { record { answer = packed result; words = words.new; befores = befores.new; flags = flags.new }
        ≡ host_history b.now words.old befores.old flags.old }
{
    let session = session_in(b)?;
    history::history(&session, words, befores, flags)
}

pub fn krasvome_history(
    session: &[u8],
    words: &mut [u64],
    befores: &mut [u8],
    flags: &mut [u8],
) -> u64
    ensures { record { answer = result; words = words.new; befores = befores.new; flags = flags.new }
        ≡ host_history session.now words.old befores.old flags.old }
{
    pack(shown(session, words, befores, flags))
}

// A call that runs many vectors: 18, 12, and then all of them or none.
fn ran(engine: Engine, b: &mut [u8], vectors: &[u8], words: &mut [u64]) -> Answer
    ensures { record { answer = packed result; bytes = b.new; words = words.new }
        ≡ host_vectors engine b.old vectors.now words.old }
{
    let session = session_in(b)?;
    let k = host_many::judge_many(&session, vectors, words.len())?;
    let count = host_many::run_many(engine, &session, vectors, k, words);
    host_many::keep_many(b, engine, vectors, session.inputs, k);
    Ok(count)
}

pub fn krasvome_vectors(session: &mut [u8], vectors: &[u8], words: &mut [u64]) -> u64
    ensures { record { answer = result; bytes = session.new; words = words.new }
        ≡ host_vectors Fields session.old vectors.now words.old }
{
    pack(ran(Engine::Fields, session, vectors, words))
}

pub fn krasvome_vectors_steps(session: &mut [u8], vectors: &[u8], words: &mut [u64]) -> u64
    ensures { record { answer = result; bytes = session.new; words = words.new }
        ≡ host_vectors Steps session.old vectors.now words.old }
{
    pack(ran(Engine::Steps, session, vectors, words))
}
