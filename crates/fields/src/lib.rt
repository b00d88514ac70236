// The bit-fields of a card: a pass over its gates, in the words themselves.
#![tactic(auto)]

ghost use Rattle.std.specs.Prelude.{◌≡◌, map, ℕ, ◌<◌, ◌≤◌, length, get_or};
ghost use Rattle.word.specs.Word.{bit, word_of};
ghost use Rattle.rule.specs.Net.{open_value};
ghost use Rattle.card_wiring.specs.Layout.{pins_at};
ghost use Rattle.card_wiring.specs.Inner.Wires.{Gates};
ghost use Rattle.inputs.specs.Inner.Starts.{tops_of};
ghost use Rattle.fields.specs.Inner.Fields.{field_of, pin_word, passed, advanced};

use card_wiring::Wiring;

// The word of an open pin: its value at every time.
pub fn open_word() -> u64
    ensures { result ≡ word_of 64 (λ t. open_value) }
{
    word::spread(rule::open_value())
}

// The field of gate g: its word of its pins' words, moved up by one, with its before value in bit 0. Its own word still ends in it.
fn field_of<'a>(words: &[u64; 256], types: &'a [u8; 256], wiring: Wiring, g: usize) -> u64
    requires { Gates types.now wiring.counts.now g }
    ensures { result
        ≡ field_of (bit (get_or words.now g 0) 63) (get_or types.now g 0)
        (map (pin_word words.now) (pins_at wiring.entry.counts.now wiring.entry.places.now g)) }
{
    let ty = usize::from(types[g]);
    let rule = gate::rule_of(ty);
    let open = open_word();
    let all = wiring.gather(ty, rule, g, |p| card_wiring::at_pin(words, p, open));
    gate::field(rule, all, inputs::top(words[g]))
}

// The fields of the gates, along their order, from words that end in the before values.
pub fn pass<'a>(words: &mut [u64; 256], types: &'a [u8; 256], wiring: Wiring, order: &'a [u16])
    requires gates { (i : ℕ) → i < length order.now → Gates types.now wiring.counts.now (get_or order.now i 0) }
    requires by_index { (i j : ℕ) → i < j → j < length order.now → ¬ (get_or order.now i 0 ≡ get_or order.now j 0) }
    requires words_len { length words.old ≡ 256 }
    ensures { words.new
        ≡ passed (tops_of words.old) types.now wiring.entry.counts.now wiring.entry.places.now words.old order.now }
{
    for gate in order {
        let g = usize::from(*gate);
        words[g] = field_of(words, types, wiring, g);
    }
}

// The words that a vector leaves, of words that end in the before values.
pub fn advance<'a>(
    words: &mut [u64; 256],
    inputs: &'a [u16; 256],
    types: &'a [u8; 256],
    wiring: Wiring,
    order: &'a [u16],
    v: &'a [u8],
)
    requires gates { (i : ℕ) → i < length order.now → Gates types.now wiring.counts.now (get_or order.now i 0) }
    requires by_index { (i j : ℕ) → i < j → j < length order.now → ¬ (get_or order.now i 0 ≡ get_or order.now j 0) }
    requires v_len_bound { (length v.now ≤ 256) × ((j : ℕ) → get_or inputs.now j 0 < 256) × (length words.old ≡ 256) }
    ensures { words.new
        ≡ advanced inputs.now types.now wiring.entry.counts.now wiring.entry.places.now order.now words.old v.now }
{
    inputs::put_inputs(words, inputs, v);
    pass(words, types, wiring, order);
}
