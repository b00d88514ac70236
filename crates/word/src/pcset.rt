// A set of times 0 to 63 in one word: t is in the set where bit t is one.
ghost use Rattle.std.specs.Prelude.{◌≡◌, false, ◌||◌, ◌&&◌, ℕ, ◌<◌, leb, ltb};
ghost use Rattle.word.specs.Word.{bit, moved_up};
ghost use Rattle.word.specs.Times.{count, least, greatest, no_time, zero_in};

#[derive(Clone, Copy, Debug, PartialEq, Eq)]
pub struct PcSet {
    pub word: u64,
}

impl PcSet {
    // The times of either set.
    pub fn union(self, other: PcSet) -> PcSet
        ensures { (t : ℕ) → bit result.word t ≡ bit self.word t || bit other.word t }
    {
        PcSet {
            word: self.word | other.word,
        }
    }

    // Each time raised by one; what was at 63 leaves the word.
    pub fn raise(self) -> PcSet
        ensures { (t : ℕ) → t < 64 → bit result.word t ≡ moved_up false (bit self.word) t }
    {
        PcSet {
            word: self.word << 1,
        }
    }

    // The set with 0 inserted.
    pub fn with_zero(self) -> PcSet
        ensures { (t : ℕ) → bit result.word t ≡ zero_in (bit self.word) t }
    {
        PcSet {
            word: self.word | 1,
        }
    }

    // How many times it has: the count of the word's ones.
    pub fn size(self) -> u32
        ensures { result ≡ count (bit self.word) 64 }
    {
        self.word.count_ones()
    }

    // The least time; 64 where the set is empty, as its clause has always said: a number and no Option.
    pub fn least(self) -> u32
        ensures { result ≡ least (bit self.word) 64 }
    {
        self.word.trailing_zeros()
    }

    // The largest time; 64 where the set is empty, likewise.
    pub fn most(self) -> u32
        ensures { result ≡ greatest (bit self.word) 64 no_time }
    {
        if self.word == 0 {
            return 64;
        }
        63 - self.word.leading_zeros()
    }

    // The times strictly below t.
    pub fn below(self, t: u32) -> PcSet
        ensures { (u : ℕ) → bit result.word u ≡ ltb u t && bit self.word u }
    {
        if 64 <= t {
            return self;
        }
        PcSet {
            word: self.word & ((1u64 << t) - 1),
        }
    }

    // The largest time strictly below t, with 0 inserted: what a step at time t reads a pin by.
    pub fn largest_below(self, t: u32) -> u32
        requires { 0 < t }
        ensures { result ≡ greatest (zero_in (bit self.word)) t no_time }
    {
        self.below(t).with_zero().most()
    }

    // The times not below t.
    pub fn not_below(self, t: u32) -> PcSet
        ensures { (u : ℕ) → bit result.word u ≡ leb t u && bit self.word u }
    {
        if 64 <= t {
            return PcSet { word: 0 };
        }
        PcSet {
            word: self.word & !((1u64 << t) - 1),
        }
    }

    // The set without its least time.
    pub fn without_least(self) -> PcSet
        ensures { (u : ℕ) → bit result.word u ≡ ltb (least (bit self.word) 64) u && bit self.word u }
    {
        if self.word == 0 {
            return self;
        }
        PcSet {
            word: self.word & (self.word - 1),
        }
    }

    // Whether t is in the set; no time past 63 is.
    pub fn has(self, t: u32) -> bool
        ensures { result ≡ bit self.word t }
    {
        if 64 <= t {
            return false;
        }
        (self.word >> t) & 1 == 1
    }
}
