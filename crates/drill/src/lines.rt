// Each operation by its line: it is called, and its answer put.
ghost use Rattle.std.specs.Prelude.{[], ◌≤◌, length, get_or};
ghost use Rattle.drill_words.specs.Parts.{words};
ghost use Rattle.drill_words.specs.Digits.{bytes_of};
ghost use Rattle.drill_words.specs.Filled.{Filled};

use crate::answers::{Output, Step};
use crate::held::Held;
use drill_text::Command;
use operations::{Engine, Move};
use std::io;
use step_records::StepRecord;

// What goes on from line to line: the session, room for the bytes of a line, and the answers.
#[derive(Drop)]
pub struct Drill<'a> {
    held: Held,
    bytes: &'a mut [u8; 70000],
    answers: Output<'a>,
}

// The bytes of a line's word 1, put at the start of `bytes`; how many there are. The line's length is a clause of three methods, since `command_of` says it of the
// line that it took, and it goes no further.
fn bytes_of(line: &[u8], bytes: &mut [u8]) -> usize
    requires line_len_bound { length line.now ≤ 140000 }
    requires in_bounds { 70000 ≤ length bytes.old }
    ensures { Filled (bytes_of (get_or (words line.now) 1 [])) bytes.old bytes.new result }
{
    drill_words::hex_into(drill_words::word(line, 1), bytes)
}

impl<'a> Drill<'a> {
    // The empty session.
    pub fn new(bytes: &'a mut [u8; 70000], answers: Output<'a>) -> Drill<'a> {
        Drill {
            held: Held::new(),
            bytes,
            answers,
        }
    }

    // load HEX, rest HEX, vector HEX, steps HEX
    fn move_line(&mut self, how: Move, line: &[u8])
        requires { length line.now ≤ 140000 }
    {
        let bytes = &mut *self.bytes;
        let n = bytes_of(line, bytes);
        let answer = self.held.operate(how, &bytes[..n]);
        self.answers.put_answer(answer);
    }

    // net N
    fn net_line(&mut self, n: u64) {
        let answer = self.held.net(n);
        self.answers.put_net(answer);
    }

    // history WORDS BEFORES FLAGS
    fn history_line(&mut self, a: u64, b: u64, c: u64)
        requires { (a ≤ 20000) × (b ≤ 20000) × (c ≤ 20000) }
    {
        let mut words = [170u64; 20000];
        let mut befores = [170u8; 20000];
        let mut flags = [170u8; 20000];
        let words = &mut words[..a as usize];
        let befores = &mut befores[..b as usize];
        let flags = &mut flags[..c as usize];
        let answer = self.held.history(words, befores, flags);
        self.answers.put_answer(answer);
        self.answers.put_words(words);
        self.answers.put_room(befores, |value| *value);
        self.answers.put_room(flags, |flag| *flag);
    }

    // list NETS TIMES
    fn list_line(&mut self, a: u64, b: u64)
        requires { (a ≤ 20000) × (b ≤ 20000) }
    {
        let mut nets = [170u16; 20000];
        let mut times = [170u8; 20000];
        let nets = &mut nets[..a as usize];
        let times = &mut times[..b as usize];
        let answer = self.held.list(nets, times);
        self.answers.put_answer(answer);
        self.answers.put_room(nets, |net| *net);
        self.answers.put_room(times, |time| *time);
    }

    // records ROOM
    fn records_line(&mut self, n: u64)
        requires { n ≤ 20000 }
    {
        let mut records = [StepRecord {
            net: 170,
            time: 170,
        }; 20000];
        let n = n as usize;
        let answer = self.held.record_list(n, &mut records);
        self.answers.put_answer(answer);
        self.answers.put_room(&records[..n], |step| Step(*step));
    }

    // trace N TIME ROOM
    fn trace_line(&mut self, n: u64, t: u64, k: u64)
        requires { k ≤ 20000 }
    {
        let mut nets = [170u16; 20000];
        let nets = &mut nets[..k as usize];
        let answer = self.held.trace(n, t, nets);
        self.answers.put_answer(answer);
        self.answers.put_room(nets, |net| *net);
    }

    // bench HEX ORDER K ROOM
    fn bench_line(&mut self, line: &[u8], k: u64, room: u64)
        requires line_len_bound { length line.now ≤ 140000 }
        requires room_bound { room ≤ 20000 }
    {
        let mut entries = [0u16; 140001];
        let mut values = [170u8; 20000];
        let values = &mut values[..room as usize];
        let bytes = &mut *self.bytes;
        let n = bytes_of(line, bytes);
        let m = drill_words::order_into(drill_words::word(line, 2), &mut entries);
        let answer = self.held.bench(&bytes[..n], &entries[..m], k, values);
        self.answers.put_answer(answer);
        self.answers.put_room(values, |value| *value);
    }

    // The answer to a line, without its LF. An operation is a method and an arm here: the lines differ in what they carry, so a table of functions is no plainer.
    fn answer(&mut self, line: &[u8]) {
        match drill_text::command_of(line) {
            Some(Command::Load) => self.move_line(Move::Load, line),
            Some(Command::Rest) => self.move_line(Move::Rest, line),
            Some(Command::Vector) => self.move_line(Move::Vector(Engine::Fields), line),
            Some(Command::Steps) => self.move_line(Move::Vector(Engine::Steps), line),
            Some(Command::Bench(k, room)) => self.bench_line(line, k, room),
            Some(Command::List(a, b)) => self.list_line(a, b),
            Some(Command::Records(room)) => self.records_line(room),
            Some(Command::History(a, b, c)) => self.history_line(a, b, c),
            Some(Command::Trace(n, t, k)) => self.trace_line(n, t, k),
            Some(Command::Net(n)) => self.net_line(n),
            None => self.answers.put(b'?'),
        }
    }

    // The answers to a script, a line each; how the writes of them ended.
    pub fn run(&mut self, script: &[u8]) -> io::Result<()> {
        for line in script.split_inclusive(|b| *b == b'\n') {
            self.answer(line.strip_suffix(b"\n").unwrap_or(line));
            self.answers.put(b'\n');
        }
        self.answers.end()
    }
}
