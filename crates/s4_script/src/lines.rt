//! The lines of a text.

ghost use Rattle.std.specs.Prelude.{◌≡◌};
ghost use Rattle.std.specs.List.{enumerate_from};
ghost use Rattle.s4_script.specs.Lines.{first_line, lines, text_behind};

use std::marker::Model;

/// The lines of a text that are yet to be told, each with its number, which counts from 1. Each
/// line ends with a line feed, which the last may lack; a line is told without it.
#[derive(Drop)]
pub struct NumberedLines<'a> {
    left: &'a [u8],
    number: usize,
}

impl<'a> Model for NumberedLines<'a> {
    ghost use Rattle.std.specs.Prelude.{ℕ, List, length, ◌+◌, ◌<◌, ◌^◌};
    ghost use Rattle.std.specs.List.{enumerate_from};
    ghost use Rattle.s4_script.specs.Lines.{lines};

    ghost Value = { List (ℕ × List ℕ) };

    ghost view = { λ l. enumerate_from l.number (lines l.left.now) };

    ghost invariant = { λ l. l.number + length l.left.now < 2 ^ 64 };
}

impl<'a> NumberedLines<'a> {
    /// All lines of a text.
    pub fn of(text: &'a [u8]) -> NumberedLines<'a>
        ensures { result ≡ enumerate_from 1 (lines text.now) }
    {
        NumberedLines {
            left: text,
            number: 1,
        }
    }
}

impl<'a> Iterator for NumberedLines<'a> {
    ghost use Rattle.std.specs.Iterator.{YieldsFirstBy, item_count};

    type Item = (usize, &'a [u8]);

    ghost next_gives = { YieldsFirstBy (λ line. (line.0, line.1.now)) (λ left. left) };

    ghost remaining = { item_count (λ left. left) };

    fn next(&mut self) -> Option<(usize, &'a [u8])> {
        if self.left.is_empty() {
            return None;
        }
        let number = self.number;
        let (line, left) = split_line(self.left);
        self.number += 1;
        self.left = left;
        Some((number, line))
    }
}

/// The first line of a text, and the text behind it.
fn split_line(text: &[u8]) -> (&[u8], &[u8])
    ensures line { result.0.now ≡ first_line text.now }
    ensures rest { result.1.now ≡ text_behind text.now }
{
    for i in 0..text.len() {
        if text[i] == b'\n' {
            return (&text[..i], &text[i + 1..]);
        }
    }
    (text, &[])
}
