// What a pin carries, and a gate after it: a value at each time. A bool is one value at all times; of a word, bit t is the value at time t.
ghost use Rattle.std.specs.Prelude.{◌≡◌, Bool, ◌&&◌, ◌||◌, ℕ, ◌<◌};
ghost use Rattle.std.proofs.Common.{ap, ◌∙◌, rules};
ghost use Rattle.word.specs.Word.{bit, differ};
ghost use Rattle.word.proofs.Bits.{bit-and, bit-or, bit-xor};

use std::ops::{BitAnd, BitOr, BitXor};

pub trait Lane: Copy + BitAnd<Output = Self> + BitOr<Output = Self> + BitXor<Output = Self> {
    // The value at a time.
    ghost at: { Self → ℕ → Bool };

    // The lane that has b at each of its times.
    fn spread(b: bool) -> Self
        ensures { (t : ℕ) → t < 64 → at result t ≡ b };

    // The operators may always be called, and take the values of each time together.
    ghost can_join: { (a b : Self) → Self.can_bitand a b × Self.can_bitor a b × Self.can_bitxor a b };

    ghost and_at: { (a b r : Self) → Self.bitand_gives a b r → (t : ℕ) → at r t ≡ (at a t && at b t) };

    ghost or_at: { (a b r : Self) → Self.bitor_gives a b r → (t : ℕ) → at r t ≡ (at a t || at b t) };

    ghost xor_at: { (a b r : Self) → Self.bitxor_gives a b r → (t : ℕ) → at r t ≡ differ (at a t) (at b t) };
}

impl Lane for bool {
    ghost at = { λ b t. b };

    ghost can_join = { λ a b. (tt, tt, tt) };

    ghost and_at = { λ a b r e t. e };

    ghost or_at = { λ a b r e t. e };

    ghost xor_at = { λ a b r e t. Prim.grind (rules, e) };

    fn spread(b: bool) -> bool {
        b
    }
}

impl Lane for u64 {
    ghost at = { bit };

    ghost can_join = { λ a b. (tt, tt, tt) };

    ghost and_at = { λ a b r e t. ap (λ w. bit w t) e ∙ bit-and a b t };

    ghost or_at = { λ a b r e t. ap (λ w. bit w t) e ∙ bit-or a b t };

    ghost xor_at = { λ a b r e t. ap (λ w. bit w t) e ∙ bit-xor a b t };

    fn spread(b: bool) -> u64 {
        word::spread(b)
    }
}
