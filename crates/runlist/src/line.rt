// A line of bytes as it is printed: it goes out in pieces that end behind a number.
ghost use Rattle.std.specs.Prelude.{◌≡◌, ◌+◌, ◌<◌, ◌≤◌, [], ◌∷◌, ◌++◌, length, take, drop, Some, IsUtf8};
ghost use Rattle.std.specs.Fmt.{decimal};
ghost use Rattle.runlist.specs.Row.{follows, numbers_text, line_text};

use std::{fmt, str};

const PIECE: usize = 4096;

// A byte in decimal and what follows it have at most this many characters.
const NUMBER: usize = 4;

// Bytes that stand on one line: in decimal, with one space between, and the line's end behind them.
#[derive(Drop)]
pub struct Line<'a>(pub &'a [u8]);

impl fmt::Display for Line<'_> {
    ghost output = { λ line. Some (line_text line.0.now) };

    // Prints piece after piece. A piece is a text, since it has ASCII characters alone (`plain`); digits go into it by hand, since through Display
    // and a writer of pieces a line took 2.7 times as long.
    fn fmt<W: fmt::Write>(&self, f: &mut fmt::Formatter<W>) -> fmt::Result {
        if self.0.is_empty() {
            return f.write_str("\n");
        }
        let mut piece = [0u8; PIECE];
        let mut from = 0;
        while from < self.0.len() {
            let (next, used) = fill(self.0, from, &mut piece);
            f.write_str(unsafe { str::from_utf8_unchecked(&piece[..used]) })?;
            from = next;
        }
        Ok(())
    }
}

// Fills a piece with the bytes from a place on, as long as there surely is room for one more. Where it goes on, and how much of the piece is filled.
fn fill(row: &[u8], from: usize, piece: &mut [u8; PIECE]) -> (usize, usize)
    requires { from < length row.now }
    ensures goes_on { from < result.0 }
    ensures fits { result.1 ≤ 4096 }
    ensures text { numbers_text (drop from row.now) ≡ take result.1 piece.new ++ numbers_text (drop result.0 row.now) }
    ensures plain { IsUtf8 (take result.1 piece.new) }
{
    let mut next = from;
    let mut used: usize = 0;
    while next < row.len() && used <= PIECE - NUMBER {
        let at = put_decimal(piece, used, row[next]);
        next += 1;
        used = put(piece, at, follower(row, next));
    }
    (next, used)
}

// What follows the number before a place: a space, or the line's end where there is no other.
#[tactic(auto, using(crate::proofs::Lines::follows_more, crate::proofs::Lines::follows_last))]
fn follower(row: &[u8], next: usize) -> u8
    ensures { result ≡ follows (drop next row.now) }
{
    if next < row.len() { b' ' } else { b'\n' }
}

// A byte in decimal into the piece, from a place on. The place behind it.
fn put_decimal(piece: &mut [u8; PIECE], at: usize, x: u8) -> usize
    requires { at + 3 ≤ 4096 }
    ensures place { result ≤ at + 3 }
    ensures text { take result piece.new ≡ take at piece.old ++ decimal x }
{
    if x < 10 {
        return put(piece, at, b'0' + x);
    }
    if x < 100 {
        let at = put(piece, at, b'0' + x / 10);
        return put(piece, at, b'0' + x % 10);
    }
    let at = put(piece, at, b'0' + x / 100);
    let at = put(piece, at, b'0' + x / 10 % 10);
    put(piece, at, b'0' + x % 10)
}

// A character into the piece, at a place. The place behind it.
fn put(piece: &mut [u8; PIECE], at: usize, character: u8) -> usize
    requires { at < 4096 }
    ensures place { result ≡ at + 1 }
    ensures text { take (at + 1) piece.new ≡ take at piece.old ++ character ∷ [] }
{
    piece[at] = character;
    at + 1
}
