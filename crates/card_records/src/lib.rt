// The records of a card, read from bytes, and the card that they mean, laid out in arrays.
#![tactic(auto)]

ghost use Rattle.std.specs.Prelude.{◌≡◌, true, ℕ, ◌+◌, ◌*◌, ◌<◌, ◌≤◌, length};
ghost use Rattle.card_records.specs.Bytes.{u16_at, kind_fits, type_fits, body_fits, net_record, record_read};
ghost use Rattle.card_records.specs.Scan.{fault_of, meaning};
ghost use Rattle.card_records.specs.Inner.Named.{kind_number, kind_named};
ghost use Rattle.card_records.specs.Inner.Reading.{parsed_of, NetHead, laid};

use rule::Refusal;

// What a record is of.
#[derive(Clone, Copy, Debug, PartialEq, Eq)]
enum Kind {
    Input = 1,
    Constant = 2,
    Gate = 3,
    End = 4,
}

// What is wrong with a record.
#[derive(Clone, Copy, Debug, PartialEq, Eq)]
pub enum Fault {
    // The input ends inside its head.
    NoHead,
    // Its kind is unknown, or its length is wrong for the kind.
    BadHead,
    // The input ends inside its body.
    NoBody,
    // The body's contents are wrong; the next record starts there.
    BadBody(usize),
}

// A net's record, in numbers as a session's arrays have them: its kind, a constant's value or a gate's type, where its pins start, how many there are, and where the next record starts.
#[derive(Clone, Copy, Debug, PartialEq, Eq)]
pub struct NetRecord {
    pub kind: u8,
    pub ty: u8,
    pub start: usize,
    pub count: usize,
    pub next: usize,
}

// What stands at a place of the bytes, where nothing is wrong with it.
#[derive(Clone, Copy, Debug, PartialEq, Eq)]
pub enum Record {
    // The end of the card, and the place after it.
    End(usize),
    Net(NetRecord),
}

// A place in the bytes.
#[derive(Clone, Copy, Debug, PartialEq, Eq)]
pub struct Cursor {
    pub at: usize,
}

// Two bytes, the low one first.
fn two_at(s: &[u8], i: usize) -> u16
    requires { i + 1 < length s.now }
    ensures { result ≡ u16_at s.now i }
{
    u16::from_le_bytes([s[i], s[i + 1]])
}

// The number that they are.
pub fn u16_at(s: &[u8], i: usize) -> usize
    requires { i + 1 < length s.now }
    ensures { (result ≡ u16_at s.now i) × (result < 65536) }
{
    usize::from(two_at(s, i))
}

// The kind that a number names; 5 and 6 are unknown here.
impl TryFrom<usize> for Kind {
    type Error = Fault;

    ghost try_from_gives = { λ number kind. kind ≡ kind_named number };

    fn try_from(number: usize) -> Result<Kind, Fault> {
        match number {
            1 => Ok(Kind::Input),
            2 => Ok(Kind::Constant),
            3 => Ok(Kind::Gate),
            4 => Ok(Kind::End),
            _ => Err(Fault::BadHead),
        }
    }
}

impl From<Kind> for u8 {
    ghost from_gives = { λ kind number. number ≡ kind_number kind };

    fn from(kind: Kind) -> u8 {
        kind as u8
    }
}

impl Kind {
    // Whether a body of so many bytes fits the kind.
    fn fits(self, len: usize) -> bool
        ensures { result ≡ kind_fits (kind_number self) len }
    {
        match self {
            Kind::Input | Kind::End => len == 0,
            Kind::Constant => len == 1,
            Kind::Gate => match len {
                3..=17 => len % 2 == 1,
                _ => false,
            },
        }
    }
}

// Whether a gate type is known and may have so many pins. It stays a number, since it indexes the table of `gate`.
fn type_fits(ty: usize, count: usize) -> bool
    ensures { result ≡ type_fits ty count }
{
    match ty {
        0 | 1 => count == 1,
        2..=7 => 2 <= count,
        _ => false,
    }
}

// Whether a body's contents are right for its kind; `first` is its first byte.
fn body_fits(kind: Kind, len: usize, first: u8) -> bool
    requires { kind_fits (kind_number kind) len ≡ true }
    ensures { result ≡ body_fits (kind_number kind) len first }
{
    match kind {
        Kind::Constant => first < 2,
        Kind::Gate => type_fits(usize::from(first), (len - 1) / 2),
        Kind::Input | Kind::End => true,
    }
}

// A net's record, whose body stands at a place; `first` is its first byte.
fn net_record(kind: Kind, len: usize, body: usize, first: u8) -> NetRecord
    requires { NetHead (kind_number kind) len body }
    ensures { result ≡ net_record (kind_number kind) len body first }
{
    let (ty, count) = match kind {
        Kind::Input => (0, 0),
        Kind::Constant | Kind::End => (first, 0),
        Kind::Gate => (first, (len - 1) / 2),
    };
    NetRecord {
        kind: u8::from(kind),
        ty,
        start: body + 1,
        count,
        next: body + len,
    }
}

impl Cursor {
    // The record at the cursor, or what is wrong with it.
    pub fn read(self, s: &[u8]) -> Result<Record, Fault>
        ensures { result ≡ record_read s.now self.at }
    {
        let at = self.at;
        let n = s.len();
        if n < at {
            return Err(Fault::NoHead);
        }
        if n - at < 4 {
            return Err(Fault::NoHead);
        }
        let len = u16_at(s, at);
        let kind = Kind::try_from(u16_at(s, at + 2))?;
        if !kind.fits(len) {
            return Err(Fault::BadHead);
        }
        let body = at + 4;
        if n - body < len {
            return Err(Fault::NoBody);
        }
        let first = s.get(body).copied().unwrap_or(0);
        if !body_fits(kind, len, first) {
            return Err(Fault::BadBody(body + len));
        }
        if kind == Kind::End {
            return Ok(Record::End(body));
        }
        Ok(Record::Net(net_record(kind, len, body, first)))
    }
}

// Why a record that is wrong refuses the card.
impl From<Fault> for Refusal {
    ghost from_gives = { λ f r. r ≡ fault_of f };

    fn from(f: Fault) -> Refusal {
        match f {
            Fault::NoHead | Fault::NoBody => Refusal::CutShort,
            Fault::BadHead | Fault::BadBody(_) => Refusal::BadRecord,
        }
    }
}

// A gate's pins, laid at the 8 places of net n.
fn put_pins(places: &mut [u16; 2048], s: &[u8], n: usize, start: usize, count: usize)
    requires { (n < 256) × (count ≤ 8) × (0 < count → start + 2 * count ≤ length s.now) }
    ensures { places.new ≡ laid places.old (n * 8) (λ (j : ℕ). u16_at s.now (start + 2 * j)) count }
{
    for j in 0..count {
        places[n * 8 + j] = two_at(s, start + 2 * j);
    }
}

// A card that was read: so many nets, each with its kind, its type or constant, its number of pins, and 8 places for what they name.
#[derive(Clone, Copy)]
pub struct Parsed {
    pub nets: usize,
    pub kinds: [u8; 256],
    pub types: [u8; 256],
    pub counts: [u8; 256],
    pub places: [u16; 2048],
}

// The card that the bytes mean, up to its end record and nothing after it.
pub fn parse(s: &[u8]) -> Result<Parsed, Refusal>
    ensures { result ≡ parsed_of (meaning s.now) }
{
    let mut card = Parsed {
        nets: 0,
        kinds: [0; 256],
        types: [0; 256],
        counts: [0; 256],
        places: [0; 2048],
    };
    let mut at: usize = 0;
    // a loop, since no form is plainer: the place moves by what each record takes, which no range counts
    loop {
        let cursor = Cursor { at };
        match cursor.read(s)? {
            Record::End(next) => {
                if next != s.len() {
                    return Err(Refusal::BytesAfter);
                }
                return Ok(card);
            }
            Record::Net(r) => {
                let n = card.nets;
                if n == 256 {
                    return Err(Refusal::TooManyNets);
                }
                card.kinds[n] = r.kind;
                card.types[n] = r.ty;
                card.counts[n] = r.count as u8;
                put_pins(&mut card.places, s, n, r.start, r.count);
                card.nets += 1;
                at = r.next;
            }
        }
    }
}
