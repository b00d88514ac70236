// The session, and load: from any bytes at all to a card or a number.
#![tactic(auto)]

ghost use Rattle.std.specs.Prelude.{◌≡◌, ℕ, ◌≤◌, eqb, get_or};
ghost use Rattle.lists.specs.Listed.{listed};
ghost use Rattle.word.specs.Times.{count};
ghost use Rattle.card_wiring.specs.Inner.Wires.{Wires};
ghost use Rattle.card.specs.Session.{none};
ghost use Rattle.card.specs.Load.{load_of};
ghost use Rattle.card.specs.Inner.Arrays.{arrays_concluded, arrays_judged};
ghost use Rattle.card.specs.Held.{HasCard, Carded};
ghost use Rattle.card.specs.Asked.{net_asked, depth_asked, steps_asked};

use card_records::Parsed;
use card_wiring::Wiring;
use rule::{Answer, NetAnswer, NetFacts, Refusal};

// A card, laid out in arrays, its rest and the histories of the last vector. The operations borrow it, and leave it as it stood where they refuse.
// Arrays of fixed size with their numbers beside them, since there is no heap; two flags and no types for the states, since which of them it is in is known at
// run time alone, and every operation takes a session in any.
#[derive(Clone, Copy)]
pub struct Session {
    // A card is loaded; it is rested.
    pub loaded: bool,
    pub rested: bool,
    // How many nets, inputs and gates it has.
    pub nets: usize,
    pub inputs: usize,
    pub gates: usize,
    // A net's kind, its type or constant, its number of pins, and 8 places for what they name.
    pub kinds: [u8; 256],
    pub types: [u8; 256],
    pub counts: [u8; 256],
    pub places: [u16; 2048],
    // The gates by level, then net.
    pub order: [u16; 256],
    // The nets that are inputs, in their order.
    pub feeds: [u16; 256],
    // The PC-sets.
    pub sets: [u64; 256],
    // The values ahead of time 0, and the histories: bit t of a net's word is its value at time t.
    pub before: [bool; 256],
    pub words: [u64; 256],
}

impl Session {
    // The wiring of its card.
    pub fn wiring(&self) -> Wiring
        requires { HasCard self.now }
        ensures { (result.counts.now ≡ self.now.counts) × (result.places.now ≡ self.now.places) × (result.nets ≡ self.now.nets) }
    {
        Wiring {
            counts: &self.counts,
            places: &self.places,
            nets: self.nets,
        }
    }

    // Its card's gates in their order.
    pub fn gate_list(&self) -> &[u16]
        requires { HasCard self.now }
        ensures { result.now ≡ listed (λ (i : ℕ). get_or self.now.order i 0) self.now.gates }
    {
        &self.order[..self.gates]
    }
}

// The empty session.
pub fn empty() -> Session
    ensures { result ≡ none }
{
    Session {
        loaded: false,
        rested: false,
        nets: 0,
        inputs: 0,
        gates: 0,
        kinds: [0; 256],
        types: [0; 256],
        counts: [0; 256],
        places: [0; 2048],
        order: [0; 256],
        feeds: [0; 256],
        sets: [0; 256],
        before: [false; 256],
        words: [0; 256],
    }
}

// How many of the first n nets are inputs: kinds are document 01's numbers in the arrays, as in `inputs`.
pub fn inputs_below(kinds: &[u8; 256], n: usize) -> usize
    requires { n ≤ 256 }
    ensures { result ≡ count (λ g. eqb (get_or kinds.now g 0) 1) n }
{
    kinds[..n].iter().filter(|kind| **kind == 1).count()
}

// A card that was read, with so many inputs: what the wiring's judgement gives, 4, 5, 6, 7; else it replaces the old one, and a count is handed
// back.
fn conclude(session: &mut Session, inputs: usize, card: &Parsed) -> Answer
    requires { Wires card.now.counts card.now.places card.now.nets }
    ensures { record { answer = result; session = session.new }
        ≡ arrays_concluded session.old card.now.nets inputs card.now.nets card.now.kinds card.now.types card.now.counts card.now.places }
{
    let wired = card_wiring::wire(&card.counts, &card.places, card.nets)?;
    let order = wired.order;
    let sets = wired.sets;
    // "not yet rested"; "All 256 fields start cleared when a card is loaded"
    let (rested, words) = (false, [0u64; 256]);
    *session = Session {
        loaded: true,
        rested,
        nets: card.nets,
        inputs,
        gates: wired.gates,
        kinds: card.kinds,
        types: card.types,
        counts: card.counts,
        places: card.places,
        order,
        feeds: inputs::input_nets(&card.kinds),
        sets,
        before: [false; 256],
        words,
    };
    Ok(card.nets)
}

// A card that was read: 9, then 4, 5, 6, 7; else it replaces the old one. `Wires` stays a clause of it and of `conclude`: the arrays are judged, and may not fit.
fn judge(session: &mut Session, card: &Parsed) -> Answer
    requires { Wires card.now.counts card.now.places card.now.nets }
    ensures { record { answer = result; session = session.new }
        ≡ arrays_judged session.old card.now.nets card.now.kinds card.now.types card.now.counts card.now.places }
{
    let inputs = inputs_below(&card.kinds, card.nets);
    if inputs == 0 {
        return Err(Refusal::NoInput);
    }
    conclude(session, inputs, card)
}

// A card from any bytes: it replaces the old one, or is refused and leaves it.
pub fn load(session: &mut Session, bytes: &[u8]) -> Answer
    ensures { record { answer = result; session = session.new } ≡ load_of session.old bytes.now }
{
    let card = card_records::parse(bytes)?;
    judge(session, &card)
}

// A net's level, worked out from the wiring at each asking, and its PC-set. `Carded`, as `Good` in the operations above, stays a clause and is no invariant of a session:
// load takes any, and `asks_nothing` (demands) says what each operation asks.
pub fn ask_net(s: &Session, n: u64) -> NetAnswer
    requires { Carded s.now }
    ensures { result ≡ net_asked s.now n }
{
    if !s.loaded {
        return Err(Refusal::NotReady);
    }
    if s.nets as u64 <= n {
        return Err(Refusal::NoSuchNet);
    }
    let at = n as usize;
    let levels = s.wiring().gates_back();
    Ok(NetFacts {
        level: levels[at],
        word: s.sets[at],
    })
}

// The depth of a session's card; 0 where nothing is loaded.
pub fn depth_of(s: &Session) -> usize
    requires { Carded s.now }
    ensures { result ≡ depth_asked s.now }
{
    if !s.loaded {
        return 0;
    }
    let levels = s.wiring().gates_back();
    card_wiring::highest_of(&levels, s.nets) as usize
}

// The length of its step list; 0 where nothing is loaded.
pub fn steps_of(s: &Session) -> usize
    requires { Carded s.now }
    ensures { result ≡ steps_asked s.now }
{
    if !s.loaded {
        return 0;
    }
    card_wiring::sizes_of(&s.sets, s.gate_list())
}
