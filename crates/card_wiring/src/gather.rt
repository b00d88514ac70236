// What a gate's pins come to.

ghost use Rattle.std.specs.Prelude.{◌≡◌, Bool, map, ◌⊎◌, ℕ, ◌<◌, get_or};
ghost use Rattle.gate.specs.Gate.{controls};
ghost use Rattle.gate.specs.Inner.Pins.{by_pins};
ghost use Rattle.rule.specs.Net.{open_pin};
ghost use Rattle.card_wiring.specs.Layout.{pins_at};

use crate::Wiring;
use gate::{Lane, Rule};

impl<'a> Wiring<'a> {
    // What the pins of gate g, of type ty, come to by what is read of each, taken in from its first pin's on.
    pub fn gather<V: Lane, F: Fn(u16) -> V>(self, ty: usize, rule: Rule, g: usize, read: F) -> V
        requires g_bound { (g < 256) × (0 < get_or self.counts.now g 0) × (rule.controlling ≡ controls ty) }
        requires readable { (p : ℕ) → (p < 256) ⊎ (p ≡ open_pin) → F.pre read p }
        ensures { (f : ℕ → ℕ → Bool) → ((p : ℕ) (v : V) → F.post read p v → (t : ℕ) → V.at v t ≡ f p t) → (t : ℕ) → V.at result t
            ≡ by_pins ty (map (λ p. f p t) (pins_at self.entry.counts.now self.entry.places.now g)) }
    {
        let count = usize::from(self.counts[g]);
        let mut known = read(self.places[g * 8]);
        // to 8 with a way out: a loop to `count` is slower (docs/PERFORMANCE.md)
        for j in 1..8 {
            if count <= j {
                return known;
            }
            known = gate::with_pin(ty, rule, known, read(self.places[g * 8 + j]));
        }
        known
    }
}
