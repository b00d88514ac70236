// Text, put onto a lent page; and what is read, put into a lent room.
#![tactic(auto)]

mod input;

ghost use Rattle.std.specs.Prelude.{◌≡◌, [], ◌∷◌, ◌+◌, ◌<◌, ◌≤◌, length};

pub use input::fill;

// A lent page, and the place where its text ends so far.
#[derive(Drop)]
pub struct Page<'a> {
    pub out: &'a mut [u8; 20480],
    pub at: usize,
    ghost whole: { length out.now ≡ 20480 },
}

impl<'a> Page<'a> {
    ghost use Rattle.text.specs.Text.{decimal, numbered, named};
    ghost use Rattle.text.specs.Inner.Put.{Puts};

    // A page of which nothing is written yet.
    pub fn new(out: &'a mut [u8; 20480]) -> Page<'a>
        ensures same_room { result.out.ghost_name ≡ out.entry.ghost_name }
        ensures as_it_was { result.out.now ≡ out.old }
        ensures front { result.at ≡ 0 }
    {
        Page { out, at: 0 }
    }

    // One byte.
    pub fn put(&mut self, b: u8)
        requires { self.old.at < 20480 }
        ensures { Puts (b ∷ []) self.old self.new }
    {
        self.out[self.at] = b;
        self.at += 1;
    }

    // The bytes of a word.
    pub fn put_word(&mut self, word: &[u8])
        requires { self.old.at + length word.now ≤ 20480 }
        ensures { Puts word.now self.old self.new }
    {
        let end = self.at + word.len();
        let out = &mut *self.out;
        out[self.at..end].copy_from_slice(word);
        self.at = end;
    }

    // A number, in decimal. By hand, since the contract names the digits that a sheet's theorem speaks of (`decimal`), and a page has no heap to print to.
    pub fn put_decimal(&mut self, n: usize)
        requires { self.old.at + length (decimal n) ≤ 20480 }
        ensures { Puts (decimal n) self.old self.new }
    {
        if n < 10 {
            self.put(b'0' + n as u8);
        } else {
            self.put_decimal(n / 10);
            self.put(b'0' + (n % 10) as u8);
        }
    }

    // A number and the byte after it.
    pub fn put_number(&mut self, n: usize, after: u8)
        requires { self.old.at + length (numbered n after) ≤ 20480 }
        ensures { Puts (numbered n after) self.old self.new }
    {
        self.put_decimal(n);
        self.put(after);
    }

    // A word, a number and the byte after it.
    pub fn put_named(&mut self, word: &[u8], n: usize, after: u8)
        requires { self.old.at + length (named word.now n after) ≤ 20480 }
        ensures { Puts (named word.now n after) self.old self.new }
    {
        self.put_word(word);
        self.put_number(n, after);
    }
}
