// The step list as records of net and time, in a lent slice.
#![tactic(auto)]

ghost use Rattle.std.specs.Prelude.{◌≡◌};
ghost use Rattle.session.specs.Good.{Good};
ghost use Rattle.step_records.specs.Records.{records_of};

use card::Session;
use rule::{Answer, Refusal};

// A step as it goes to the lent place.
#[derive(Clone, Copy, Debug, Default, PartialEq, Eq)]
pub struct StepRecord {
    pub net: u16,
    pub time: u8,
}

// The step list into lent room, a record for each step: 12, 18, or the list's length.
pub fn list_records(s: &Session, room: &mut [StepRecord]) -> Answer
    requires { Good s.now }
    ensures { record { answer = result; room = room.new } ≡ records_of s.now room.old }
{
    if !s.loaded {
        return Err(Refusal::NotReady);
    }
    let mut nets = [0u16; 4096];
    let mut times = [0u8; 4096];
    let total = step_list::put_list(&mut nets, &mut times, &s.sets, &s.order, s.gates);
    if room.len() < total {
        return Err(Refusal::NoRoom);
    }
    for e in 0..total {
        room[e] = StepRecord {
            net: nets[e],
            time: times[e],
        };
    }
    Ok(total)
}
