//! Splits a line into words.

ghost use Rattle.std.specs.{List.{position_or_len}, Prelude.{◌≡◌, ◌==◌, ℕ, List, [], ◌∷◌, ◌↔◌, IsTrue, Some, MatchOption}};
ghost use Rattle.std.specs.Prelude.{drop, if◌then◌else◌, not, position};
ghost use Rattle.rt_text.specs.{Numbers.{number_text}, Queries.{is_next}, Words.{is_blank, words}};

use crate::numbers::leading_number;
use std::marker::Model;

/// The words of a line that are still to be read. Words are separated by runs of spaces and tabs.
#[derive(Drop)]
pub(crate) struct Words<'a> {
    rest: &'a [u8],
}

impl<'a> Model for Words<'a> {
    ghost use Rattle.std.specs.Prelude.{List, ℕ};
    ghost use Rattle.rt_text.specs.Words.{words};

    ghost Value = { List (List ℕ) };

    ghost view = { λ w. words w.rest.now };
}

impl<'a> Words<'a> {
    /// All words of a line.
    pub(crate) fn new(line: &'a [u8]) -> Words<'a>
        ensures { result ≡ words line.now }
    {
        Words { rest: line }
    }

    /// The next word's number, if the word has the usual form: after at most one space, with at most 18 digits. Otherwise
    /// no word is read.
    #[inline(always)]
    pub(crate) fn next_number(&mut self) -> Option<i64>
        ensures { MatchOption result (self.new ≡ self.old)
            (λ n. (word : List ℕ) × (self.old ≡ word ∷ self.new) × (number_text word ≡ Some n)) }
    {
        let text = self.rest.strip_prefix(b" ").unwrap_or(self.rest);
        let found = leading_number(text)?;
        let rest = &text[found.len..];
        if !rest.first().is_none_or(|next| is_blank(*next)) {
            return None;
        }
        self.rest = rest;
        Some(found.number)
    }

    /// Whether the next word is this one; if so, it is read.
    #[inline(always)]
    pub(crate) fn takes(&mut self, word: &[u8]) -> bool
        ensures next { result ≡ is_next word.now self.old }
        ensures rest { self.new ≡ (if result then drop 1 self.old else self.old) }
    {
        let mut ahead = Words { rest: self.rest };
        match ahead.next() {
            Some(next) if next == word => {
                self.rest = ahead.rest;
                true
            }
            _ => false,
        }
    }
}

impl<'a> Iterator for Words<'a> {
    ghost use Rattle.std.specs.Iterator.{YieldsFirstRef, item_count};

    type Item = &'a [u8];

    ghost next_gives = { YieldsFirstRef (λ words. words) };

    ghost remaining = { item_count (λ words. words) };

    fn next(&mut self) -> Option<&'a [u8]> {
        let start = self.rest.iter().position(|byte| !is_blank(*byte));
        let line = &self.rest[start.unwrap_or(self.rest.len())..];
        if line.is_empty() {
            return None;
        }
        let end = line.iter().position(|byte| is_blank(*byte));
        let (word, rest) = line.split_at(end.unwrap_or(line.len()));
        self.rest = rest;
        Some(word)
    }
}

fn is_blank(byte: u8) -> bool
    ensures { result ≡ is_blank byte }
{
    byte == b' ' || byte == b'\t'
}
