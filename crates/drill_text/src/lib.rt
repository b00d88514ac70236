// The drill program's lines: a line as a command. `command_of` is total: a line that is no command asks for none.
#![tactic(auto)]

mod lines;

pub use lines::command_of;

// What a line asks for. Bytes stay in the line, as word 1; an order is word 2.
#[derive(Clone, Copy)]
pub enum Command {
    Load,
    Rest,
    Vector,
    Steps,
    // The lengths of the three rooms.
    History(u64, u64, u64),
    // The lengths of the two rooms.
    List(u64, u64),
    // The length of the room.
    Records(u64),
    Net(u64),
    // The net, the time, the length of the room.
    Trace(u64, u64, u64),
    // The number of steps, the length of the room.
    Bench(u64, u64),
}
