// The numbers of a text. A number past the last one is 0.
ghost use Rattle.std.specs.Prelude.{◌≡◌, ◌+◌, ◌%◌, ◌≤◌, ◌<◌, ◌++◌, ◌==◌, min, map, length, take, drop, position, unwrap_or, IfSome, SomeIff};
ghost use Rattle.vectors.specs.Scan.{is_digit, digit as Scan·digit, from_digit, past_digits, spelled, held};
ghost use Rattle.vectors.specs.Scan.{number_at, next_at, numbers_at, after_at};

use std::marker::Model;

// A reader of numbers. A contract sees the bytes that it has left. Today's Rattle has no Copy for a struct with a lifetime: `copied` gives
// another reader.
#[derive(Clone, Drop)]
pub struct Numbers<'a> {
    rest: &'a [u8],
}

impl<'a> Model for Numbers<'a> {
    ghost use Rattle.std.specs.Prelude.{ℕ, List};

    ghost Value = { List ℕ };

    ghost view = { λ a. a.rest.now };
}

impl<'a> Numbers<'a> {
    pub fn new(text: &'a [u8]) -> Numbers<'a>
        ensures { result ≡ text.now }
    {
        Numbers { rest: text }
    }

    // Another reader of the bytes that are left.
    pub fn copied(&self) -> Numbers<'a>
        ensures { result ≡ self.now }
    {
        Numbers { rest: self.rest }
    }

    // Whether no byte is left.
    pub(crate) fn is_done(&self) -> bool
        ensures { result ≡ (length self.now == 0) }
    {
        self.rest.is_empty()
    }

    // The next number, which stays the next.
    #[tactic(auto, using(crate::proofs::Scanning::seen, crate::proofs::Scanning::unseen))]
    pub fn peek(&self) -> u64
        ensures found { result ≡ number_at self.now 0 }
        ensures past { length self.now ≡ 0 → result ≡ 0 }
    {
        let (value, _) = spelled(from_digit(self.rest));
        value
    }

    // The next number, modulo 2^64. Every call leaves fewer bytes until none is left.
    pub fn number(&mut self) -> u64
        ensures found { (result ≡ number_at self.old 0) × (self.new ≡ drop (next_at self.old 0) self.old) }
        ensures past { length self.old ≡ 0 → result ≡ 0 }
        ensures behind { min 1 (length self.old) + length self.new ≤ length self.old }
    {
        let (value, rest) = spelled(from_digit(self.rest));
        self.rest = rest;
        value
    }

    // The next N numbers.
    pub fn numbers<const N: usize>(&mut self) -> [u64; N]
        ensures found { (result ≡ numbers_at self.old 0 N) × (self.new ≡ drop (after_at self.old 0 N) self.old) }
        ensures behind { min N (length self.old) + length self.new ≤ length self.old }
    {
        let mut out = [0; N];
        self.numbers_into(&mut out);
        out
    }

    // The next numbers, as many as out holds.
    pub fn numbers_into(&mut self, out: &mut [u64])
        ensures found { (out.new ≡ numbers_at self.old 0 (length out.old)) × (self.new ≡ drop (after_at self.old 0 (length out.old)) self.old) }
        ensures behind { min (length out.old) (length self.old) + length self.new ≤ length self.old }
    {
        for x in out.iter_mut() {
            *x = self.number();
        }
    }

    // The next numbers as bytes, as many as out holds, each modulo 256.
    pub fn bytes(&mut self, out: &mut [u8])
        ensures found { (out.new ≡ map (λ n. n % 256) (numbers_at self.old 0 (length out.old))) × (self.new ≡ drop (after_at self.old 0 (length out.old)) self.old) }
        ensures behind { min (length out.old) (length self.old) + length self.new ≤ length self.old }
    {
        for byte in out.iter_mut() {
            *byte = (self.number() % 256) as u8;
        }
    }

    // The bytes up to the end of the line, or of the text.
    pub fn rest_of_line(&mut self) -> &'a [u8]
        ensures line { result.now ≡ take (unwrap_or (position (λ b. b == 10) self.old) (length self.old)) self.old }
        ensures parts { self.old ≡ result.now ++ self.new }
    {
        let (line, behind) = self.rest.split_at(line_length(self.rest));
        self.rest = behind;
        line
    }
}

// How many bytes stand before the end of the line.
fn line_length(text: &[u8]) -> usize
    ensures found { result ≡ unwrap_or (position (λ b. b == 10) text.now) (length text.now) }
    ensures inside { result ≤ length text.now }
{
    line_end(text).unwrap_or(text.len())
}

// The index of the end of the line, if it has one.
fn line_end(text: &[u8]) -> Option<usize>
    ensures found { result ≡ position (λ b. b == 10) text.now }
    ensures inside { IfSome result (λ end. end < length text.now) }
{
    text.iter().position(|byte| *byte == b'\n')
}

// The text from its first digit on.
fn from_digit(text: &[u8]) -> &[u8]
    ensures { result.now ≡ from_digit text.now }
{
    let mut rest = text;
    while let Some((byte, behind)) = rest.split_first() {
        if is_digit(*byte) {
            return rest;
        }
        rest = behind;
    }
    rest
}

// The number that the digits in front spell, modulo 2^64, and the text behind them.
fn spelled(text: &[u8]) -> (u64, &[u8])
    ensures value { result.0 ≡ held (spelled 0 text.now) }
    ensures rest { result.1.now ≡ past_digits text.now }
{
    let mut value = 0u64;
    let mut rest = text;
    while let Some((byte, behind)) = rest.split_first() {
        let Some(digit) = digit(*byte) else {
            return (value, rest);
        };
        value = value.wrapping_mul(16).wrapping_add(digit);
        rest = behind;
    }
    (value, rest)
}

fn is_digit(byte: u8) -> bool
    ensures { result ≡ is_digit byte }
{
    digit(byte).is_some()
}

// What a byte means as a digit, if anything.
#[tactic(auto, unfolding(crate::specs::Scan::digit))]
fn digit(byte: u8) -> Option<u64>
    ensures { SomeIff result (Scan·digit byte < 16) (Scan·digit byte) }
{
    match byte {
        b'0'..=b'9' => Some(u64::from(byte - b'0')),
        b'a'..=b'f' => Some(u64::from(byte - b'a') + 10),
        _ => None,
    }
}
