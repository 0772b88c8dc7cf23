//! The line that reports a refusal.
ghost use Rattle.std.specs.Prelude.{◌≡◌, ◌+◌, ◌≤◌, [], ◌∷◌, ◌++◌, decimal, length};
ghost use Rattle.report_lines.specs.Refusals.{cut_report, report_line};

use crate::Refusal;
use itoa::Buffer;
use std::marker::Model;

/// A line of at most 80 bytes, its newline included (own).
#[derive(Drop)]
pub struct Line {
    bytes: [u8; 80],
    len: usize,
}

impl Model for Line {
    ghost use Rattle.std.specs.Prelude.{ℕ, ◌≤◌, List, take};

    ghost Value = { List ℕ };

    ghost view = { λ line. take line.len line.bytes };

    ghost invariant = { λ line. line.len ≤ 80 };
}

impl Line {
    /// The line's bytes. Takes no memory.
    pub fn as_slice(&self) -> &[u8]
        ensures value { result.now ≡ self.now }
        ensures short { length result.now ≤ 80 }
    {
        &self.bytes[..self.len]
    }

    // The line with more bytes behind it.
    fn with(self, text: &[u8]) -> Line
        requires { length self + length text.now ≤ 80 }
        ensures value { result ≡ self ++ text.now }
        ensures len { length result ≡ length self + length text.now }
    {
        let Line { mut bytes, len } = self;
        let end = len + text.len();
        bytes[len..end].copy_from_slice(text);
        Line { bytes, len: end }
    }

    // The line with a number behind it, in decimal.
    fn with_number(self, number: u32) -> Line
        requires { length self ≤ 70 }
        ensures value { result ≡ self ++ decimal number }
        ensures len { length result ≤ length self + 10 }
    {
        let mut buffer = Buffer::new();
        self.with(buffer.format(number).as_bytes())
    }

    // The line with a number of up to 64 bits behind it, in decimal.
    fn with_long(self, number: u64) -> Line
        requires { length self ≤ 60 }
        ensures value { result ≡ self ++ decimal number }
        ensures len { length result ≤ length self + 20 }
    {
        let mut buffer = Buffer::new();
        self.with(buffer.format(number).as_bytes())
    }

    // A line of these bytes.
    fn of(text: &[u8]) -> Line
        requires { length text.now ≤ 80 }
        ensures value { result ≡ text.now }
        ensures len { length result ≡ length text.now }
    {
        let mut bytes = [0; 80];
        let len = text.len();
        bytes[..len].copy_from_slice(text);
        Line { bytes, len }
    }
}

/// The report line of a refusal, with its newline (own). Takes no memory.
pub fn line_of(refusal: &Refusal) -> Line
    ensures { result ≡ report_line refusal.now }
{
    match refusal {
        Refusal::Words => Line::of(b"error 1: words\n"),
        Refusal::EmptyPsdu => Line::of(b"error 2: empty psdu\n"),
        Refusal::LongPsdu => Line::of(b"error 3: psdu over 4095 octets\n"),
        Refusal::TornCapture { bytes } => Line::of(b"error 4: capture ends after ")
            .with_number(*bytes)
            .with(b" bytes\n"),
        Refusal::LongCapture => Line::of(b"error 5: input over 67108864 bytes\n"),
        Refusal::BadBit { at } => Line::of(b"error 6: no bit at ")
            .with_long(*at as u64)
            .with(b"\n"),
        Refusal::BitCount { have, need } => Line::of(b"error 7: ")
            .with_number(*have)
            .with(b" bits, need ")
            .with_number(*need)
            .with(b"\n"),
        Refusal::NoFrame => Line::of(b"error 8: no frame\n"),
        Refusal::CutFrame { start, have, need } => {
            cut_line(b"error 9: frame at ", *start, *have, *need)
        }
        Refusal::ReadFault => Line::of(b"error 10: read fault\n"),
        Refusal::WriteFault => Line::of(b"error 11: write fault\n"),
        Refusal::NoMemory => Line::of(b"error 12: no memory\n"),
        Refusal::BadScript { at } => Line::of(b"error 13: bad script at ")
            .with_long(*at as u64)
            .with(b"\n"),
        Refusal::BadList { at } => Line::of(b"error 14: no list at ")
            .with_long(*at as u64)
            .with(b"\n"),
        Refusal::LongList { samples } => Line::of(b"error 15: list of ")
            .with_long(*samples)
            .with(b" samples\n"),
        Refusal::BadCost { at } => Line::of(b"error 16: no cost at ")
            .with_long(*at as u64)
            .with(b"\n"),
        Refusal::CostCount { have, need } => Line::of(b"error 17: ")
            .with_number(*have)
            .with(b" costs, need ")
            .with_number(*need)
            .with(b"\n"),
        Refusal::CutAt { start, have, need } => {
            cut_line(b"error 18: frame at ", *start, *have, *need)
        }
        Refusal::BadHeader { start } => Line::of(b"error 19: no header at ")
            .with_number(*start)
            .with(b"\n"),
        Refusal::BadTaps { at } => Line::of(b"error 20: bad taps at ")
            .with_long(*at as u64)
            .with(b"\n"),
    }
}

// The line of a frame that is cut, behind a front of at most 20 bytes.
fn cut_line(front: &[u8], start: u32, have: u32, need: u32) -> Line
    requires { length front.now ≤ 20 }
    ensures { result ≡ cut_report front.now start have need ++ 10 ∷ [] }
{
    Line::of(front)
        .with_number(start)
        .with(b" has ")
        .with_number(have)
        .with(b" of ")
        .with_number(need)
        .with(b" samples\n")
}
