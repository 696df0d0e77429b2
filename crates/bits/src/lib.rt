// A table of bits, a row of them for each identifier, and a set of worlds in one word.
#![tactic(auto)]

ghost use Rattle.std.specs.Prelude.{◌≡◌, Bool, false, not, ◌&&◌, ◌||◌, List, [], ◌∷◌, ℕ, ◌/◌, ◌%◌, ◌<◌, eqb, ltb};
ghost use Rattle.std.specs.Iterator.{YieldsFirstBy, item_count};
ghost use Rattle.definition.specs.Limits.{most_identifiers};
ghost use Rattle.definition.specs.Lists.{elem};
ghost use Rattle.limits.specs.Arrays.{leaf_count};
ghost use Rattle.bits.specs.Bits.{bit_of, Bits};
ghost use Rattle.bits.specs.Worlds.{worlds_in, InWord};

use graph::PossibleWorld;
use limits::{LEAF_COUNT, LEAF_WORDS, MOST_IDENTIFIERS, ROW_WORDS};

// The bit of i in a word.
#[tactic(auto, unfolding(crate::specs::Bits::bit_of))]
fn bit(word: u32, i: usize) -> bool
    ensures { result ≡ bit_of word (i % 32) }
{
    (word >> (i % 32)) % 2 == 1
}

// The word with the bit of i set.
#[tactic(auto, using(crate::proofs::Words::set_bit))]
fn with_bit(word: u32, i: usize) -> u32
    ensures { (k : ℕ) → k < 32 → bit_of result k ≡ (eqb k (i % 32) || bit_of word k) }
{
    word | (1u32 << (i % 32))
}

// A set of numbers below LEAF_COUNT: MOST_IDENTIFIERS rows of as many bits.
#[derive(Clone, Copy)]
pub struct LeafTable {
    pub words: [u32; LEAF_WORDS],
}

impl LeafTable {
    // The empty set.
    #[tactic(auto, using(crate::proofs::Laws::bits_none))]
    pub fn new() -> Self
        ensures { Bits (λ _. false) result.words }
    {
        LeafTable {
            words: [0; LEAF_WORDS],
        }
    }

    // Whether i is in the set. No number out of range is.
    pub fn contains(&self, i: usize) -> bool
        ensures { (p : ℕ → Bool) → Bits p self.now.words → result ≡ (ltb i leaf_count && p i) }
    {
        if LEAF_COUNT <= i {
            return false;
        }
        bit(self.words[i / 32], i)
    }

    // Puts i into the set. Nothing changes for an i out of range.
    pub fn insert(&mut self, i: usize)
        ensures { (p : ℕ → Bool) → Bits p self.old.words → Bits (λ j. eqb j i || p j) self.new.words }
    {
        if LEAF_COUNT <= i {
            return;
        }
        let k = i / 32;
        self.words[k] = with_bit(self.words[k], i);
    }

    // Takes the MOST_IDENTIFIERS numbers of a row out of the set.
    pub fn clear_row(&mut self, row: usize)
        ensures { (p : ℕ → Bool) → Bits p self.old.words → Bits (λ j. not (eqb (j / most_identifiers) row) && p j) self.new.words }
    {
        if MOST_IDENTIFIERS <= row {
            return;
        }
        let first = row * ROW_WORDS;
        self.words[first..first + ROW_WORDS].fill(0);
    }
}

// A set of worlds below 32, one bit each.
#[derive(Clone, Copy, Debug, PartialEq, Eq)]
pub struct WorldSet(pub u32);

impl WorldSet {
    pub const EMPTY: WorldSet = WorldSet(0);

    pub fn is_empty(self) -> bool
        ensures { result ≡ eqb self.0 0 }
    {
        self.0 == 0
    }

    pub fn contains(self, v: PossibleWorld) -> bool
        ensures { (l : List ℕ) → InWord l self.0 → result ≡ elem v.0 l }
    {
        if 32 <= v.0 {
            return false;
        }
        bit(self.0, v.0 as usize)
    }

    // The set with v too, if v is below 32.
    pub fn with(self, v: PossibleWorld) -> WorldSet
        ensures { (k : ℕ) → k < 32 → bit_of result.0 k ≡ (eqb v.0 k || bit_of self.0 k) }
    {
        if 32 <= v.0 {
            return self;
        }
        WorldSet(with_bit(self.0, v.0 as usize))
    }

    #[tactic(auto, using(crate::proofs::Words::union_bit))]
    pub fn union(self, more: WorldSet) -> WorldSet
        ensures { (k : ℕ) → bit_of result.0 k ≡ (bit_of self.0 k || bit_of more.0 k) }
    {
        WorldSet(self.0 | more.0)
    }

    #[tactic(auto, using(crate::proofs::Words::common_bit))]
    pub fn intersection(self, other: WorldSet) -> WorldSet
        ensures { (k : ℕ) → bit_of result.0 k ≡ (bit_of self.0 k && bit_of other.0 k) }
    {
        WorldSet(self.0 & other.0)
    }

    // The worlds of the set, rising.
    pub fn iter(self) -> WorldSetIter
        ensures { result.rest ≡ self }
    {
        WorldSetIter { rest: self }
    }
}

// The worlds of a set that are still to come, rising.
#[derive(Drop)]
pub struct WorldSetIter {
    rest: WorldSet,
}

impl Iterator for WorldSetIter {
    type Item = PossibleWorld;

    ghost next_gives = { YieldsFirstBy (λ v. v.0) (λ it. worlds_in it.rest.0) };

    ghost remaining = { item_count (λ it. worlds_in it.rest.0) };

    fn next(&mut self) -> Option<PossibleWorld> {
        let word = self.rest.0;
        if word == 0 {
            return None;
        }
        self.rest = WorldSet(word & (word - 1));
        Some(PossibleWorld(word.trailing_zeros() as u16))
    }
}
