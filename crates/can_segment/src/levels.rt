//! The levels of a line, kept in a bit each.

ghost use Rattle.std.specs.Prelude.{◌≡◌, ℕ, ◌+◌, ◌*◌, ◌^◌, ◌<◌, ◌≤◌, ◌++◌, ◌∷◌, [], ◌↔◌, length, slice_get};
ghost use Rattle.std.specs.Prelude.{IsTrue, OnOk, IsOk};
ghost use Rattle.can_segment.specs.Levels.{levels_of_word, recessive_levels};

use std::alloc::{AllocError, Global};
use std::marker::Model;

/// The levels of a line at each bit, in order, kept in a bit each; true is recessive.
#[derive(Drop)]
pub struct Levels {
    /// 64 levels each, the first in the highest bit; a bit is 1 where the level is recessive.
    words: Vec<u64>,
    /// The `len % 64` levels behind those, the last in the lowest bit; the bits above them are 0.
    last: u64,
    /// How many levels there are.
    len: usize,
}

impl Model for Levels {
    ghost use Rattle.std.specs.Prelude.{◌-◌, ◌*◌, ◌^◌, ◌%◌, min, vec_capacity};
    ghost use Rattle.can_segment.specs.Levels.{ArePacked, LevelsValue, levels_of_words};

    ghost Value = { LevelsValue };

    ghost view = { λ a. record {
      items = levels_of_words a.words.items (a.len % 64) a.last;
      capacity = min (vec_capacity a.words * 64) (2 ^ 64 - 1);
    } };

    ghost invariant = { λ a. ArePacked a.words.items a.last a.len };
}

impl Levels {
    /// Returns no levels, and allocates nothing.
    pub fn new(alloc: Global) -> Levels
        ensures items { result.items ≡ [] }
    {
        Levels {
            words: Vec::new(alloc),
            last: 0,
            len: 0,
        }
    }

    /// Returns how many levels there are.
    #[inline]
    pub fn len(&self) -> usize
        ensures { result ≡ length self.now.items }
    {
        self.len
    }

    /// Returns whether there is no level.
    #[inline]
    pub fn is_empty(&self) -> bool
        ensures { IsTrue result ↔ (self.now.items ≡ []) }
    {
        self.len == 0
    }

    /// Returns for how many levels in all there is room without a further allocation; `usize::MAX` where there is room
    /// for more than that.
    #[inline]
    pub fn capacity(&self) -> usize
        ensures { result ≡ self.now.capacity }
    {
        self.words.capacity().saturating_mul(64)
    }

    /// Returns the level at this bit, counted from 0; `None` where there are no more than `index` levels.
    #[inline]
    pub fn get(&self, index: usize) -> Option<bool>
        ensures { result ≡ slice_get self.now.items index }
    {
        if index >= self.len {
            return None;
        }
        let (word, size) = match self.words.get(index / 64) {
            Some(word) => (*word, 64),
            None => (self.last, self.len % 64),
        };
        Some((word >> (size - 1 - index % 64)) & 1 == 1)
    }

    /// Makes room for this many more levels; where it allocates, the room at least doubles. Fails where memory runs out,
    /// or where there would be more than `usize::MAX` levels, and then changes nothing.
    #[inline]
    pub fn reserve(&mut self, additional: usize) -> Result<(), AllocError>
        ensures items { self.new.items ≡ self.old.items }
        ensures capacity { self.old.capacity ≤ self.new.capacity }
        ensures room { OnOk result (length self.new.items + additional ≤ self.new.capacity) }
        ensures succeeds { length self.old.items + additional ≤ self.old.capacity → IsOk result }
    {
        let Some(len) = self.len.checked_add(additional) else {
            return Err(AllocError);
        };
        self.words.reserve(len.div_ceil(64) - self.words.len())
    }

    /// Appends a level, for which there is room.
    #[inline]
    pub fn push(&mut self, level: bool)
        requires room { length self.old.items < self.old.capacity }
        ensures items { self.new.items ≡ self.old.items ++ level ∷ [] }
        ensures capacity { self.old.capacity ≤ self.new.capacity }
    {
        self.last = self.last * 2 + u64::from(level);
        self.len += 1;
        if self.len % 64 == 0 {
            self.words.push_reserved(self.last);
            self.last = 0;
        }
    }

    /// Appends these levels, for which there is room.
    pub fn extend_from_slice(&mut self, levels: &[bool])
        requires room { length self.old.items + length levels.now ≤ self.old.capacity }
        ensures items { self.new.items ≡ self.old.items ++ levels.now }
        ensures capacity { self.old.capacity ≤ self.new.capacity }
    {
        let mut word = self.last;
        let mut missing = 64 - self.len % 64;
        let mut rest = levels;
        while rest.len() >= missing {
            let (fills, behind) = rest.split_at(missing);
            self.words.push_reserved(with_levels(word, fills));
            word = 0;
            missing = 64;
            rest = behind;
        }
        self.last = with_levels(word, rest);
        self.len += levels.len();
    }

    /// Appends this many recessive levels, for which there is room.
    pub fn extend_recessive(&mut self, count: usize)
        requires room { length self.old.items + count ≤ self.old.capacity }
        ensures items { self.new.items ≡ self.old.items ++ recessive_levels count }
        ensures capacity { self.old.capacity ≤ self.new.capacity }
    {
        let missing = 64 - self.len % 64;
        self.len += count;
        if count < missing {
            self.last = with_recessive(self.last, count);
            return;
        }
        if missing < 64 {
            self.words.push_reserved(with_recessive(self.last, missing));
        }
        let _ = self.words.resize(self.len / 64, u64::MAX);
        self.last = with_recessive(0, self.len % 64);
    }
}

/// Returns the word of the levels of `word` and of these ones behind them, for which there is room.
#[inline]
fn with_levels(word: u64, levels: &[bool]) -> u64
    requires room { (word + 1) * 2 ^ length levels.now ≤ 2 ^ 64 }
    ensures room { result + 1 ≤ (word + 1) * 2 ^ length levels.now }
    ensures levels { (n : ℕ) → levels_of_word (n + length levels.now) result ≡ levels_of_word n word ++ levels.now }
{
    let mut word = word;
    for level in levels {
        word = word * 2 + u64::from(*level);
    }
    word
}

/// Returns the word of the levels of `word` and of this many recessive ones behind them, for which there is room.
#[inline]
fn with_recessive(word: u64, count: usize) -> u64
    requires count { count < 64 }
    requires room { (word + 1) * 2 ^ count ≤ 2 ^ 64 }
    ensures room { result + 1 ≡ (word + 1) * 2 ^ count }
    ensures levels { (n : ℕ) → levels_of_word (n + count) result ≡ levels_of_word n word ++ recessive_levels count }
{
    (word << count) + ((1 << count) - 1)
}
