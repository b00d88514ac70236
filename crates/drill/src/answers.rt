// The answers' text, behind a buffer of fixed size, since there is no heap. A write to it cannot fail: how the writes to standard output ended is kept, and said at the end.
ghost use Rattle.std.specs.Prelude.{◌≡◌, ◌+◌, ◌≤◌, set};
ghost use Rattle.drill.specs.Inner.Kept.{slot};

use rule::{Answer, NetAnswer};
use std::fmt::{Display, Write as _};
use std::io::{Stdout, Write as _};
use std::{fmt, io, mem};
use step_records::StepRecord;

// A word, shown in hex.
#[derive(Drop)]
pub struct Hex(pub u64);

impl Display for Hex {
    fn fmt<W: fmt::Write>(&self, f: &mut fmt::Formatter<W>) -> fmt::Result {
        let word = self.0;
        write!(f, "{word:x}")
    }
}

// A step record, shown as net and time.
#[derive(Drop)]
pub struct Step(pub StepRecord);

impl Display for Step {
    fn fmt<W: fmt::Write>(&self, f: &mut fmt::Formatter<W>) -> fmt::Result {
        let net = self.0.net;
        let time = self.0.time;
        write!(f, "{net}:{time}")
    }
}

// Standard output, the first bytes of a room that are still to be written to it, and how the writes ended so far: after one that failed there is none.
#[derive(Drop)]
pub struct Output<'a> {
    to: Stdout,
    room: &'a mut [u8; 8192],
    at: usize,
    ended: io::Result<()>,
    ghost within: { at ≤ 8192 },
}

impl fmt::Write for Output<'_> {
    // Takes all of the text, at once where it fits.
    fn write_str(&mut self, text: &str) -> fmt::Result {
        let bytes = text.as_bytes();
        let at = self.at;
        let n = bytes.len();
        if n <= 8192 - at {
            let room = &mut *self.room;
            room[at..at + n].copy_from_slice(bytes);
            self.at = at + n;
        } else {
            for b in bytes {
                self.put(*b);
            }
        }
        Ok(())
    }
}

impl<'a> Output<'a> {
    // Nothing is written yet.
    pub fn new(to: Stdout, room: &'a mut [u8; 8192]) -> Output<'a> {
        Output {
            to,
            room,
            at: 0,
            ended: Ok(()),
        }
    }

    // Writes out what stands in the room, which counts as empty then.
    fn write_out(&mut self)
        ensures { (self.new.at ≡ 0) × (self.new.room.now ≡ self.old.room.now) }
    {
        let mut to = self.to;
        let so_far = &*self;
        if so_far.ended.is_ok() {
            let room = &*self.room;
            self.ended = to.write_all(&room[..self.at]);
        }
        self.at = 0;
    }

    // One byte; a full room is written out first.
    pub fn put(&mut self, b: u8)
        ensures { (self.new.at ≡ slot self.old.at + 1) × (self.new.room.now ≡ set self.old.room.now (slot self.old.at) b) }
    {
        if self.at == 8192 {
            self.write_out();
        }
        self.room[self.at] = b;
        self.at += 1;
    }

    // Writes out what is left; how the writes ended.
    pub fn end(&mut self) -> io::Result<()> {
        self.write_out();
        mem::replace(&mut self.ended, Ok(()))
    }

    // What an operation answers: its number, and its count, which is 0 for a refusal.
    pub fn put_answer(&mut self, answer: Answer) {
        let number = rule::number(&answer);
        let count = rule::answer_count(answer);
        let _ = write!(self, "{number} {count}");
    }

    // What the question about a net answers, with level and word.
    pub fn put_net(&mut self, answer: NetAnswer) {
        let number = rule::number(&answer);
        let level = rule::net_level(answer);
        let word = Hex(rule::net_word(answer));
        let _ = write!(self, "{number} 0 {level} {word}");
    }

    // A word, in hex.
    fn put_hex(&mut self, n: u64) {
        if n >= 16 {
            self.put_hex(n / 16);
        }
        self.put(b"0123456789abcdef"[(n % 16) as usize]);
    }

    // A lent room of words. By hand, not by `put_room` and `Hex`: by these it takes two and a half to three times as long.
    pub fn put_words(&mut self, room: &[u64]) {
        let _ = write!(self, " |");
        for word in room {
            self.put(b' ');
            self.put_hex(*word);
        }
    }

    // A lent room, entry by entry, each as it is shown.
    pub fn put_room<T, D: Display + Drop, F: Fn(&T) -> D>(&mut self, room: &[T], shown: F)
        requires { F.IsAlwaysCallable shown }
    {
        let _ = write!(self, " |");
        for entry in room {
            let text = shown(entry);
            let _ = write!(self, " {text}");
        }
    }
}
