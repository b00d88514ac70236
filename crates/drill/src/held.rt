// A session that keeps what the operations ask of it.
ghost use Rattle.std.specs.Prelude.{◌≡◌, ◌≤◌};
ghost use Rattle.card.specs.Asked.{net_asked};
ghost use Rattle.card.specs.Session.{none};
ghost use Rattle.operations.specs.Operated.{operated};
ghost use Rattle.bench.specs.Bench.{bench_of};
ghost use Rattle.history.specs.Told.{history_of};
ghost use Rattle.step_list.specs.Listing.{list_of};
ghost use Rattle.step_records.specs.Records.{records_of};
ghost use Rattle.trace.specs.Traced.{trace_of};
ghost use Rattle.drill.specs.Inner.Rooms.{lent_records, recorded_in};

use card::Session;
use operations::Move;
use rule::{Answer, NetAnswer};
use std::marker::Model;
use step_records::StepRecord;

#[derive(Drop)]
pub struct Held {
    session: Session,
}

impl Model for Held {
    ghost use Rattle.card.specs.declared.Session.{Session};
    ghost use Rattle.drill.specs.Inner.Kept.{Kept};

    ghost Value = { Session };

    ghost view = { λ held. held.session };

    ghost invariant = { λ held. Kept held.session };
}

impl Held {
    // The empty one.
    pub fn new() -> Held
        ensures { result ≡ none }
    {
        Held {
            session: card::empty(),
        }
    }

    pub fn operate(&mut self, how: Move, given: &[u8]) -> Answer
        ensures { record { answer = result; session = self.new } ≡ operated how self.old given.now }
    {
        operations::operate(how, &mut self.session, given)
    }

    pub fn bench(&mut self, v: &[u8], order: &[u16], k: u64, room: &mut [u8]) -> Answer
        ensures { record { moved = record { answer = result; session = self.new }; room = room.new } ≡ bench_of self.old v.now order.now k room.old }
    {
        bench::bench(&mut self.session, v, order, k, room)
    }

    pub fn net(&self, n: u64) -> NetAnswer
        ensures { result ≡ net_asked self.now n }
    {
        card::ask_net(&self.session, n)
    }

    pub fn history(&self, words: &mut [u64], befores: &mut [u8], flags: &mut [u8]) -> Answer
        ensures { record { answer = result; words = words.new; befores = befores.new; flags = flags.new } ≡ history_of self.now words.old befores.old flags.old }
    {
        history::history(&self.session, words, befores, flags)
    }

    pub fn list(&self, nets: &mut [u16], times: &mut [u8]) -> Answer
        ensures { record { answer = result; nets = nets.new; times = times.new } ≡ list_of self.now nets.old times.old }
    {
        step_list::list(&self.session, nets, times)
    }

    pub fn records(&self, room: &mut [StepRecord]) -> Answer
        ensures { record { answer = result; room = room.new } ≡ records_of self.now room.old }
    {
        step_records::list_records(&self.session, room)
    }

    // The step list into the first n of a room of 20,000 records, each of which is 170:170 before the call.
    pub fn record_list(&self, n: usize, room: &mut [StepRecord; 20000]) -> Answer
        requires { (n ≤ 20000) × (room.old ≡ lent_records 20000) }
        ensures { record { answer = result; room = room.new } ≡ recorded_in self.now n }
    {
        self.records(&mut room[..n])
    }

    pub fn trace(&self, n: u64, t: u64, room: &mut [u16]) -> Answer
        ensures { record { answer = result; room = room.new } ≡ trace_of self.now n t room.old }
    {
        trace::trace(&self.session, n, t, room)
    }
}
