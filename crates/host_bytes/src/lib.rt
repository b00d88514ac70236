// A session in lent bytes: the card's own bytes and the last two vectors, and what is written there after each operation that was done. specs/Layout.antt draws
// what stands where. A slice of zeros is the empty session.
#![tactic(auto)]

ghost use Rattle.std.specs.Prelude.{get_or, ◌≡◌, ◌≤◌, length};
ghost use Rattle.lists.specs.Places.{clear, area};
ghost use Rattle.host_bytes.specs.Layout.{session_length};
ghost use Rattle.host_bytes.specs.Inner.States.{byte_of, state_of, moved_state};
ghost use Rattle.host_bytes.specs.Kept.{kept_card, kept_rest, kept_vector, kept_by};

use operations::{Engine, Move};

// Where the parts stand, and how many bytes a session takes.
pub const OLDER_AT: usize = 3;

pub const LAST_AT: usize = OLDER_AT + 256;

pub const CARD_AT: usize = LAST_AT + 256;

pub const LONGEST_CARD: usize = 5380;

pub const CARD_TO: usize = CARD_AT + LONGEST_CARD;

pub const SESSION_LENGTH: usize = CARD_TO;

// What byte 0 says is kept: nothing, a card, a card at rest, or a card that a vector moved, by which engine.
#[derive(Clone, Copy, Debug, PartialEq, Eq)]
pub enum State {
    Empty = 0,
    Loaded = 1,
    Rested = 2,
    Fields = 3,
    Steps = 4,
}

// A byte that no state has.
#[derive(Clone, Copy, Debug, PartialEq, Eq)]
pub struct NoState;

impl TryFrom<u8> for State {
    type Error = NoState;

    ghost try_from_gives = { λ byte r. r ≡ state_of byte };

    fn try_from(byte: u8) -> Result<State, NoState> {
        match byte {
            0 => Ok(State::Empty),
            1 => Ok(State::Loaded),
            2 => Ok(State::Rested),
            3 => Ok(State::Fields),
            4 => Ok(State::Steps),
            _ => Err(NoState),
        }
    }
}

impl From<State> for u8 {
    ghost from_gives = { λ state byte. byte ≡ byte_of state };

    fn from(state: State) -> u8 {
        state as u8
    }
}

impl From<Engine> for State {
    ghost from_gives = { λ engine state. state ≡ moved_state engine };

    fn from(engine: Engine) -> State {
        match engine {
            Engine::Fields => State::Fields,
            Engine::Steps => State::Steps,
        }
    }
}

// Whether the bytes from one place to another are all 0.
pub fn is_clear(b: &[u8], from: usize, to: usize) -> bool
    requires { to ≤ length b.now }
    ensures { result ≡ clear b.now from to }
{
    b[..to].iter().skip(from).all(|x| *x == 0)
}

// The byte of a list at a place, and 0 past its end.
fn byte_at(v: &[u8], i: usize) -> u8
    ensures { result ≡ get_or v.now i 0 }
{
    v.get(i).copied().unwrap_or(0)
}

// The bytes of a list from one place to another, and 0 past its end. Not by `copy_from_slice`: of what C lends it makes a call of `memmove`, which the archive for C
// would need from outside.
fn put_area(b: &mut [u8], at: usize, to: usize, v: &[u8])
    requires { (at ≤ to) × (to ≤ length b.old) }
    ensures { b.new ≡ area b.old at to v.now }
{
    for i in at..to {
        b[i] = byte_at(v, i - at);
    }
}

// That the bytes are as long as a session is asked in a clause of each function and by no type: `host` tests it once, of the slice that C lends, and one struct over
// `&[u8]` and one over `&mut [u8]` would be made of that slice again for each, which is no plainer.

// A card that was just loaded: its bytes, and no vector.
fn keep_card(b: &mut [u8], card: &[u8])
    requires { session_length ≤ length b.old }
    ensures { b.new ≡ kept_card b.old card.now }
{
    let [low, high, ..] = card.len().to_le_bytes();
    b[..OLDER_AT].copy_from_slice(&[u8::from(State::Loaded), low, high]);
    b[OLDER_AT..CARD_AT].fill(0);
    put_area(b, CARD_AT, CARD_TO, card);
}

// A card that was just rested: the vector, and none before it.
fn keep_rest(b: &mut [u8], v: &[u8])
    requires { session_length ≤ length b.old }
    ensures { b.new ≡ kept_rest b.old v.now }
{
    b[0] = u8::from(State::Rested);
    b[OLDER_AT..LAST_AT].fill(0);
    put_area(b, LAST_AT, CARD_AT, v);
}

// A card that a vector just moved: the vector, and the last one before it.
pub fn keep_vector(b: &mut [u8], engine: Engine, v: &[u8])
    requires { session_length ≤ length b.old }
    ensures { b.new ≡ kept_vector engine b.old v.now }
{
    b[0] = u8::from(State::from(engine));
    b.copy_within(LAST_AT..CARD_AT, OLDER_AT);
    put_area(b, LAST_AT, CARD_AT, v);
}

// What an operation that was done leaves. A match, as in `operations`: the calls for C name the operation, and `kept_by` says what each leaves.
pub fn keep(b: &mut [u8], how: Move, given: &[u8])
    requires { session_length ≤ length b.old }
    ensures { b.new ≡ kept_by how b.old given.now }
{
    match how {
        Move::Load => keep_card(b, given),
        Move::Rest => keep_rest(b, given),
        Move::Vector(engine) => keep_vector(b, engine, given),
    }
}
