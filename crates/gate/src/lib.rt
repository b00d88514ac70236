// What a gate gives of its pins, taken in pin by pin: of one value each, and of one word each, in which bit t is the value at time t.
#![tactic(auto)]

ghost use Rattle.std.specs.Prelude.{◌≡◌, ℕ, ◌<◌};
ghost use Rattle.word.specs.Word.{bit, differ, moved_up};
ghost use Rattle.gate.specs.Inner.Pins.{with_pin};
ghost use Rattle.gate.specs.Gate.{controls, inverts};

mod lane;

pub use lane::Lane;

#[derive(Clone, Copy)]
pub struct Rule {
    pub controlling: bool,
    pub inversion: bool,
}

// Document 002's table, a column of controlling values and one of inversions. The entry of a gate type is the bit of its number; from the left: XNOR XOR, NOR OR,
// NAND AND, NOT BUF. BUF and NOT have AND's and NAND's rows, of which they are what one pin gives; XOR and XNOR have no controlling value, and nothing reads it.
// An array of rows would be laid out in memory again for each gate.
#[derive(Clone, Copy)]
struct Table {
    controlling: u8,
    inversion: u8,
}

const RULES: Table = Table {
    controlling: 0b00_11_00_00,
    inversion: 0b10_10_10_10,
};

// A gate type's row.
pub fn rule_of(ty: usize) -> Rule
    requires { ty < 8 }
    ensures { (result.controlling ≡ controls ty) × (result.inversion ≡ inverts ty) }
{
    Rule {
        controlling: (RULES.controlling >> ty) & 1 == 1,
        inversion: (RULES.inversion >> ty) & 1 == 1,
    }
}

// Pin by pin: what the pins so far come to, with one more, at every time. One pin comes to its own value. A type is its number, which indexes the table
// (document 01): an enum would be made of a number for each gate, and turned back for the table.
pub fn with_pin<V: Lane>(ty: usize, rule: Rule, known: V, pin: V) -> V
    requires { rule.controlling ≡ controls ty }
    ensures { (t : ℕ) → V.at result t ≡ with_pin ty (V.at known t) (V.at pin t) }
{
    if 5 < ty {
        return known ^ pin;
    }
    if rule.controlling {
        return known | pin;
    }
    known & pin
}

// A gate's value of what all its pins come to, at every time.
pub fn gate_value<V: Lane>(rule: Rule, all: V) -> V
    ensures { (t : ℕ) → t < 64 → V.at result t ≡ differ (V.at all t) rule.inversion }
{
    all ^ V::spread(rule.inversion)
}

// A gate's field of what all its pins come to: its word, moved up by one, with the before value in bit 0.
pub fn field(rule: Rule, all: u64, before: bool) -> u64
    ensures { (t : ℕ) → t < 64 → bit result t ≡ moved_up before (λ u. differ (bit all u) rule.inversion) t }
{
    word::up(gate_value(rule, all), before)
}
