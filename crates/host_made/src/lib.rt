// The session that lent bytes hold, made again from the card's own bytes and the last two vectors; or that no call left these bytes.
#![tactic(auto)]

ghost use Rattle.std.specs.Prelude.{◌≡◌, ◌≤◌, length};
ghost use Rattle.session.specs.Good.{Good};
ghost use Rattle.host_bytes.specs.Layout.{longest_card, session_length};
ghost use Rattle.host_made.specs.Made.{fitting, made_plain, made_rested, made_moved, made_card, made_loaded, made_again};

use card::Session;
use host_bytes::{CARD_AT, CARD_TO, LAST_AT, LONGEST_CARD, OLDER_AT, SESSION_LENGTH, State};
use operations::Engine;

// That the bytes are as long as a session is asked in a clause of each function, as in `host_bytes`.

// Whether the two rooms for vectors hold so many bytes each, and zeros past them.
fn rooms_fit(b: &[u8], older: usize, last: usize) -> bool
    requires { (session_length ≤ length b.now) × (older ≤ 256) × (last ≤ 256) }
    ensures { result ≡ fitting b.now older last }
{
    host_bytes::is_clear(b, OLDER_AT + older, LAST_AT)
        && host_bytes::is_clear(b, LAST_AT + last, CARD_AT)
}

// A card made again that was not rested.
fn made_plain(s: Session, b: &[u8]) -> Option<Session>
    requires { session_length ≤ length b.now }
    ensures { result ≡ made_plain b.now s }
{
    rooms_fit(b, 0, 0).then_some(s)
}

// A card at rest made again. That the session is good and its inputs few is a clause of three functions that call one another: a type for it would be made and
// taken apart within one call of `made_again`, which is no plainer.
fn made_rested(mut s: Session, b: &[u8]) -> Option<Session>
    requires good { Good s × (s.inputs ≤ 256) }
    requires session_length_in_bounds { session_length ≤ length b.now }
    ensures { result ≡ made_rested b.now s }
{
    let n = s.inputs;
    if !rooms_fit(b, 0, n) {
        return None;
    }
    session::rest(&mut s, &b[LAST_AT..LAST_AT + n]).ok()?;
    Some(s)
}

// A card that a vector moved, made again by the engine that moved it.
fn made_moved(engine: Engine, mut s: Session, b: &[u8]) -> Option<Session>
    requires good { Good s × (s.inputs ≤ 256) }
    requires session_length_in_bounds { session_length ≤ length b.now }
    ensures { result ≡ made_moved engine b.now s }
{
    let n = s.inputs;
    if !rooms_fit(b, n, n) {
        return None;
    }
    session::rest(&mut s, &b[OLDER_AT..OLDER_AT + n]).ok()?;
    operations::vector_by(engine, &mut s, &b[LAST_AT..LAST_AT + n]).ok()?;
    Some(s)
}

// A card made again, by what byte 0 says of it.
fn made_card(s: Session, b: &[u8]) -> Option<Session>
    requires good { Good s × (s.inputs ≤ 256) }
    requires session_length_in_bounds { session_length ≤ length b.now }
    ensures { result ≡ made_card b.now s }
{
    match State::try_from(b[0]).ok()? {
        State::Empty => None,
        State::Loaded => made_plain(s, b),
        State::Rested => made_rested(s, b),
        State::Fields => made_moved(Engine::Fields, s, b),
        State::Steps => made_moved(Engine::Steps, s, b),
    }
}

// The card's bytes loaded again, into the empty session.
fn made_loaded(b: &[u8], len: usize) -> Option<Session>
    requires { (session_length ≤ length b.now) × (len ≤ longest_card) }
    ensures { result ≡ made_loaded b.now len }
{
    let mut s = card::empty();
    card::load(&mut s, &b[CARD_AT..CARD_AT + len]).ok()?;
    made_card(s, b)
}

// The session that lent bytes hold.
pub fn made_again(b: &[u8]) -> Option<Session>
    requires { session_length ≤ length b.now }
    ensures { result ≡ made_again b.now }
{
    if b[0] == u8::from(State::Empty) {
        return host_bytes::is_clear(b, 0, SESSION_LENGTH).then_some(card::empty());
    }
    let len = card_records::u16_at(b, 1);
    if LONGEST_CARD < len {
        return None;
    }
    if !host_bytes::is_clear(b, CARD_AT + len, CARD_TO) {
        return None;
    }
    made_loaded(b, len)
}
