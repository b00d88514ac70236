// The operations that move a session: load, rest, and a vector by either engine.
#![tactic(auto)]

ghost use Rattle.std.specs.Prelude.{◌≡◌};
ghost use Rattle.session.specs.Good.{Good};
ghost use Rattle.operations.specs.Operated.{vector_by, operated};

use card::Session;
use rule::Answer;

// "both engines, the step list and the bit-fields" (demand 2)
#[derive(Clone, Copy, Debug, PartialEq, Eq)]
pub enum Engine {
    Fields,
    Steps,
}

#[derive(Clone, Copy, Debug, PartialEq, Eq)]
pub enum Move {
    Load,
    Rest,
    Vector(Engine),
}

// A vector by an engine.
// a match and no closure: an engine is named by the calls for C, by the byte that is kept of it and by `vector_by` (specs/Operated.antt)
pub fn vector_by(engine: Engine, session: &mut Session, v: &[u8]) -> Answer
    requires { Good session.old }
    ensures { record { answer = result; session = session.new } ≡ vector_by engine session.old v.now }
{
    match engine {
        Engine::Fields => session::vector(session, v),
        Engine::Steps => step_run::vector_steps(session, v),
    }
}

// An operation, with the bytes that it is given.
// a match and no closure: the calls for C name the operation, and `operated` (specs/Operated.antt) says what each does
pub fn operate(how: Move, session: &mut Session, given: &[u8]) -> Answer
    requires { Good session.old }
    ensures { record { answer = result; session = session.new } ≡ operated how session.old given.now }
{
    match how {
        Move::Load => card::load(session, given),
        Move::Rest => session::rest(session, given),
        Move::Vector(engine) => vector_by(engine, session, given),
    }
}
