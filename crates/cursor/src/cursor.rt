ghost use Rattle.std.specs.Prelude.{◌≡◌, ◌↔◌, [], length, drop, IsTrue, IsOk, IfErr, MatchResult, is_ok, IsUtf8, if◌then◌else◌};
ghost use Rattle.std.specs.Option.{ok_or};
ghost use Rattle.std.specs.Result.{result_ok};
ghost use Rattle.std.specs.Int.{w32, w64};
ghost use Rattle.std.specs.Str.Parse.{ParsesSigned, ParsesUnsigned};
ghost use Rattle.cursor.specs.Line.{is_blank, past_blanks, first_word, past_word, next_word, pair_byte, uuid_of, after_blanks, after_word};

use super::fault::{Expected, ReadFault};
use quote::hex::hex_byte;
use std::marker::Model;
use std::str::{FromStr, from_utf8};

// A line, and what of it is still to be read.
#[derive(Drop)]
pub struct Cursor<'l> {
    line: &'l [u8],
    rest: &'l [u8],
}

impl<'l> Model for Cursor<'l> {
    ghost use Rattle.cursor.specs.Line.{Progress};

    ghost Value = { Progress };

    ghost view = { λ c. record { line = c.line.now; rest = c.rest.now } };
}

fn is_blank(byte: &u8) -> bool
    ensures { result ≡ is_blank byte.now }
{
    matches!(byte, b' ' | b'\t')
}

// The bytes before the first blank, and those from there on.
fn split_word(line: &[u8]) -> (&[u8], &[u8])
    ensures word { result.0.now ≡ first_word line.now }
    ensures after { result.1.now ≡ past_word line.now }
{
    line.split_at(line.iter().position(is_blank).unwrap_or(line.len()))
}

// The line without the blanks that it begins with.
// Kept: apart from `split_word`, since one function over the test would need a law of its closure in its contract.
fn past_blanks(line: &[u8]) -> &[u8]
    ensures { result.now ≡ past_blanks line.now }
{
    let blanks = line
        .iter()
        .position(|byte| !is_blank(byte))
        .unwrap_or(line.len());
    &line[blanks..]
}

// The byte that a pair of hexadecimal digits writes.
// Kept: a Result with nothing to say, since the `try_map` of an array takes no Option.
fn pair_byte(pair: [u8; 2]) -> Result<u8, ()>
    ensures { result ≡ ok_or (pair_byte pair) tt }
{
    let [high, low] = pair;
    hex_byte(high, low).ok_or(())
}

// The bytes that 32 hexadecimal digits write.
fn uuid_of(word: &[u8]) -> Option<[u8; 16]>
    ensures { result ≡ uuid_of word.now }
{
    let (pairs, []) = word.as_chunks::<2>() else {
        return None;
    };
    let pairs: [[u8; 2]; 16] = pairs.try_into().ok()?;
    pairs.try_map(pair_byte).ok()
}

impl<'l> Cursor<'l> {
    pub fn new(line: &'l [u8]) -> Cursor<'l>
        ensures { result ≡ record { line = line.now; rest = line.now } }
    {
        Cursor { line, rest: line }
    }

    // How many bytes the whole line has.
    pub fn length(&self) -> usize
        ensures { result ≡ length self.now.line }
    {
        self.line.len()
    }

    // What is still to be read, after any blanks.
    pub fn rest(&mut self) -> &'l [u8]
        ensures rest { result.now ≡ past_blanks self.old.rest }
        ensures after { self.new ≡ after_blanks self.old }
    {
        self.rest = past_blanks(self.rest);
        self.rest
    }

    // Goes on by so many bytes.
    pub fn advance(&mut self, by: usize)
        ensures { self.new ≡ record self.old { rest = drop by self.old.rest } }
    {
        self.rest = self.rest.get(by..).unwrap_or(&[]);
    }

    // The next word; empty at the end of the line.
    pub fn word(&mut self) -> &'l [u8]
        ensures word { result.now ≡ next_word self.old }
        ensures after { self.new ≡ after_word self.old }
    {
        let (word, after) = split_word(self.rest());
        self.rest = after;
        word
    }

    // The next word as text; empty where it is none.
    pub fn keyword(&mut self) -> &'l str
        ensures text { IsUtf8 (next_word self.old) → result.now ≡ next_word self.old }
        ensures none { ¬ IsUtf8 (next_word self.old) → result.now ≡ [] }
        ensures after { self.new ≡ after_word self.old }
    {
        from_utf8(self.word()).unwrap_or("")
    }

    // The next word if it is this one, else nothing is read.
    pub fn takes(&mut self, word: &str) -> bool
        ensures next { IsTrue result ↔ (next_word self.old ≡ word.now) }
        ensures after { self.new ≡ (if result then after_word self.old else after_blanks self.old) }
    {
        let (next, after) = split_word(self.rest());
        let taken = next == word.as_bytes();
        if taken {
            self.rest = after;
        }
        taken
    }

    pub fn expect(&mut self, word: &'static str) -> Result<(), ReadFault>
        ensures next { IsOk result ↔ (next_word self.old ≡ word.now) }
        ensures err { IfErr result (λ e. e ≡ ReadFault.Expected (Expected.Word word.entry)) }
        ensures after { self.new ≡ (if is_ok result then after_word self.old else after_blanks self.old) }
    {
        self.takes(word)
            .then_some(())
            .ok_or(ReadFault::Expected(Expected::Word(word)))
    }

    pub fn expect_end(&mut self) -> Result<(), ReadFault>
        ensures end { IsOk result ↔ (past_blanks self.old.rest ≡ []) }
        ensures err { IfErr result (λ e. e ≡ ReadFault.Expected Expected.LineEnd) }
        ensures after { self.new ≡ after_blanks self.old }
    {
        self.rest()
            .is_empty()
            .then_some(())
            .ok_or(ReadFault::Expected(Expected::LineEnd))
    }

    // The next word as a value.
    fn parsed<T: FromStr + Drop>(&mut self, expected: Expected) -> Result<T, ReadFault>
    where
        T::Err: Drop,
        ensures value { MatchResult result
            (λ x. T.from_str_gives (next_word self.old) (Ok x))
            (λ _. IsUtf8 (next_word self.old) → (e : _) × T.from_str_gives (next_word self.old) (Err e)) }
        ensures err { IfErr result (λ e. e ≡ ReadFault.Expected expected) }
        ensures after { self.new ≡ after_word self.old }
    {
        from_utf8(self.word())
            .ok()
            .and_then(|word| word.parse().ok())
            .ok_or(ReadFault::Expected(expected))
    }

    // An id, of 32 bits.
    pub fn id(&mut self) -> Result<i32, ReadFault>
        ensures value { ParsesSigned w32 10 (next_word self.old) result }
        ensures err { IfErr result (λ e. e ≡ ReadFault.Expected Expected.Id) }
        ensures after { self.new ≡ after_word self.old }
    {
        self.parsed(Expected::Id)
    }

    // A time, of 64 bits.
    pub fn time(&mut self) -> Result<i64, ReadFault>
        ensures value { ParsesSigned w64 10 (next_word self.old) result }
        ensures err { IfErr result (λ e. e ≡ ReadFault.Expected Expected.Time) }
        ensures after { self.new ≡ after_word self.old }
    {
        self.parsed(Expected::Time)
    }

    pub fn number(&mut self) -> Result<u32, ReadFault>
        ensures value { ParsesUnsigned 32 10 (next_word self.old) result }
        ensures err { IfErr result (λ e. e ≡ ReadFault.Expected Expected.Number) }
        ensures after { self.new ≡ after_word self.old }
    {
        self.parsed(Expected::Number)
    }

    pub fn uuid(&mut self) -> Result<[u8; 16], ReadFault>
        ensures value { result_ok result ≡ uuid_of (next_word self.old) }
        ensures err { IfErr result (λ e. e ≡ ReadFault.Expected Expected.Uuid) }
        ensures after { self.new ≡ after_word self.old }
    {
        uuid_of(self.word()).ok_or(ReadFault::Expected(Expected::Uuid))
    }
}
