//! Sets of small numbers.
ghost use Rattle.std.specs.Prelude.{◌≡◌, ℕ, ◌<◌, ◌≤◌, min, true, false, not, ◌&&◌, ◌||◌, [], ◌∷◌, length, Decides, MatchOption, ◌==◌, nat_lt};
ghost use Rattle.sets.specs.Sets.{holds, has, members, remaining, Step};
ghost use Rattle.std.specs.Iterator.{at_most};

#[cfg(test)]
mod tests;

/// A set of the numbers 0 to 63, as of the mills of a shop or of the tools of a magazine.
// No model: `==` and `Copy` go by the bits, and a set of numbers would have to give them back.
#[derive(Clone, Copy, PartialEq, Eq, Debug)]
pub struct NumberSet {
    bits: u64,
}

#[tactic(auto, using(crate::proofs::Rules::bit_rules))]
impl NumberSet {
    /// The set without members.
    pub fn empty() -> NumberSet
        ensures { (k : ℕ) → has result k ≡ false }
    {
        NumberSet { bits: 0 }
    }

    /// The numbers below `count`: all 64 of them where `count` is above 64.
    pub fn below(count: u8) -> NumberSet
        ensures { (k : ℕ) → has result k ≡ nat_lt k (min count 64) }
    {
        let low = if count < 64 {
            (1 << count) - 1
        } else {
            u64::MAX
        };
        NumberSet { bits: low }
    }

    /// The set of one number below 64, and the set without members for any other.
    fn only(number: u8) -> NumberSet
        ensures { (k : ℕ) → has result k ≡ (k == number && nat_lt number 64) }
    {
        let bit = if number < 64 { 1 << number } else { 0 };
        NumberSet { bits: bit }
    }

    /// The numbers whose bits are 1, bit 0 for the number 0.
    // No `From`: the name says that the bits of a number are read.
    pub fn from_bits(bits: u64) -> NumberSet
        ensures { (k : ℕ) → has result k ≡ holds bits k }
    {
        NumberSet { bits }
    }

    /// Whether a number is a member; from 64 on none is.
    pub fn contains(self, number: u8) -> bool
        ensures { result ≡ has self number }
    {
        number < 64 && (self.bits >> number) & 1 == 1
    }

    /// Adds a number below 64; any other is left out.
    pub fn insert(&mut self, number: u8)
        ensures { (k : ℕ) → has self.new k ≡ ((k == number && nat_lt number 64) || has self.old k) }
    {
        *self = self.union(NumberSet::only(number));
    }

    /// Takes a number out, if it is a member.
    pub fn remove(&mut self, number: u8)
        ensures { (k : ℕ) → has self.new k ≡ (not (k == number) && has self.old k) }
    {
        *self = self.difference(NumberSet::only(number));
    }

    /// The members of either set.
    pub fn union(self, other: NumberSet) -> NumberSet
        ensures { (k : ℕ) → has result k ≡ (has self k || has other k) }
    {
        NumberSet {
            bits: self.bits | other.bits,
        }
    }

    /// The members of both sets.
    pub fn intersection(self, other: NumberSet) -> NumberSet
        ensures { (k : ℕ) → has result k ≡ (has self k && has other k) }
    {
        NumberSet {
            bits: self.bits & other.bits,
        }
    }

    /// The members of this set that the other lacks.
    pub fn difference(self, other: NumberSet) -> NumberSet
        ensures { (k : ℕ) → has result k ≡ (has self k && not (has other k)) }
    {
        NumberSet {
            bits: self.bits & !other.bits,
        }
    }

    /// Whether each member is a member of the other set too.
    pub fn is_subset(self, other: NumberSet) -> bool
        ensures { Decides result ((k : ℕ) → has self k ≡ true → has other k ≡ true) }
    {
        self.bits & !other.bits == 0
    }

    /// Whether there is no member.
    pub fn is_empty(self) -> bool
        ensures { result ≡ (length (members self) == 0) }
    {
        self.count() == 0
    }

    /// How many members there are.
    pub fn count(self) -> u8
        ensures value { result ≡ length (members self) }
        ensures bound { result ≤ 64 }
    {
        self.bits.count_ones() as u8
    }

    /// The least member, or `None` of an empty set.
    pub fn first(self) -> Option<u8>
        ensures { MatchOption result ((k : ℕ) → has self k ≡ false) (λ n. (n < 64) × (has self n ≡ true) × ((k : ℕ) → k < n → has self k ≡ false)) }
    {
        if self.bits == 0 {
            None
        } else {
            Some(self.bits.trailing_zeros() as u8)
        }
    }

    /// Takes the least member out.
    fn pop_first(&mut self) -> Option<u8>
        ensures { MatchOption result ((members self.old ≡ []) × (self.new ≡ self.old)) (λ n. members self.old ≡ n ∷ members self.new) }
    {
        let number = self.first()?;
        self.remove(number);
        Some(number)
    }

    /// The members, rising.
    pub fn iter(self) -> Members
        ensures { remaining result ≡ members self }
    {
        Members { rest: self }
    }
}

/// An iterator over the members of a set, rising.
#[derive(Drop)]
pub struct Members {
    rest: NumberSet,
}

impl Iterator for Members {
    type Item = u8;

    ghost next_gives = { Step };

    ghost remaining = { λ s. at_most (length (remaining s)) };

    fn next(&mut self) -> Option<u8> {
        self.rest.pop_first()
    }
}
