//! Iterators over a table's entries in order, each with its number.

ghost use Rattle.std.specs.Prelude.{◌≡◌, ◌+◌, ◌<◌, ◌^◌, length};
ghost use Rattle.std.specs.Iterator.{YieldsFirstBy, item_count};
ghost use Rattle.std.specs.List.{enumerate_from};
ghost use Rattle.std.specs.Slice.Iter.{iter_mut_rest, iter_mut_name};

use crate::GPTPartitionEntry;
use std::marker::Model;
use std::slice;

/// An iterator over the entries of a table in order, each with its number, from 1.
#[derive(Drop)]
pub struct Iter<'a> {
    passed: u32,
    rest: &'a [GPTPartitionEntry],
}

impl<'a> Model for Iter<'a> {
    ghost use Rattle.std.specs.Prelude.{ℕ, List, ◌+◌, ◌<◌, ◌^◌, length};
    ghost use Rattle.std.specs.List.{enumerate_from};
    ghost use Rattle.gptman.specs.declared.codec.entry.GPTPartitionEntry.{GPTPartitionEntry};

    ghost Value = { List (ℕ × GPTPartitionEntry) };

    ghost view = { λ a. enumerate_from (a.passed + 1) a.rest.now };

    ghost invariant = { λ a. a.passed + length a.rest.now < 2 ^ 32 };
}

impl<'a> Iter<'a> {
    /// Returns an iterator over these entries.
    pub(crate) fn new(entries: &'a [GPTPartitionEntry]) -> Self
        requires { length entries.now < 2 ^ 32 }
        ensures { result ≡ enumerate_from 1 entries.now }
    {
        Iter {
            passed: 0,
            rest: entries,
        }
    }
}

impl<'a> Iterator for Iter<'a> {
    type Item = (u32, &'a GPTPartitionEntry);

    ghost next_gives = { YieldsFirstBy (λ p. (p.0, p.1.now)) (λ s. s) };

    ghost remaining = { item_count (λ s. s) };

    fn next(&mut self) -> Option<(u32, &'a GPTPartitionEntry)> {
        let (first, others) = self.rest.split_first()?;
        self.rest = others;
        self.passed += 1;
        Some((self.passed, first))
    }
}

/// A mutable iterator over the entries of a table in order, each with its number, from 1.
#[derive(Drop)]
pub struct IterMut<'a> {
    passed: u32,
    pub(crate) rest: slice::IterMut<'a, GPTPartitionEntry>,
    ghost few: { passed + length (iter_mut_rest rest) < 2 ^ 32 },
}

impl<'a> IterMut<'a> {
    /// Returns a mutable iterator over these entries.
    pub(crate) fn new(entries: &'a mut [GPTPartitionEntry]) -> Self
        requires { length entries.old < 2 ^ 32 }
        ensures passed { result.passed ≡ 0 }
        ensures rest { iter_mut_rest result.rest ≡ entries.old }
        ensures same_reference { iter_mut_name result.rest ≡ entries.entry.ghost_name }
    {
        IterMut {
            passed: 0,
            rest: entries.iter_mut(),
        }
    }
}

impl<'a> Iterator for IterMut<'a> {
    type Item = (u32, &'a mut GPTPartitionEntry);

    ghost next_gives = { YieldsFirstBy (λ p. (p.0, p.1.now))
        (λ s. enumerate_from (s.passed + 1) (iter_mut_rest s.rest)) };

    ghost remaining = { item_count (λ s. enumerate_from (s.passed + 1) (iter_mut_rest s.rest)) };

    fn next(&mut self) -> Option<(u32, &'a mut GPTPartitionEntry)> {
        let entry = self.rest.next()?;
        self.passed += 1;
        Some((self.passed, entry))
    }
}
