// What is printed of a file that was run: its code, its report, and as much of the marks and bytes as the report says.
ghost use Rattle.std.specs.Prelude.{◌≡◌, ◌+◌, ◌*◌, ◌<◌, take, slice_index, EachIndex};
ghost use Rattle.model.specs.File.{number4};
ghost use Rattle.runlist.specs.Row.{played_text};

use crate::line::Line;
use crate::row::Row;
use file::limits::Limits;
use std::{array, fmt};

// The places of the report's numbers that say how much of the buffers was written. No struct: the report is an array of twelve numbers by its format.
const PERFORMED: usize = 0;

const REFUSED: usize = 1;

const LOADS: usize = 4;

// A run with code 0: the report's numbers, the marks, the bytes read.
#[derive(Drop)]
pub struct Played<'a> {
    report: [u32; Limits::NUMBERS],
    marks: &'a [u8],
    bytes: &'a [u8],
}

impl<'a> Played<'a> {
    // What a run left in the three buffers, without what lies past it.
    pub fn new(report: &[u8; Limits::REPORT], marks: &'a [u8], out: &'a [u8]) -> Played<'a>
        ensures report { EachIndex result.report (λ k. slice_index result.report k ≡ number4 report.now (4 * k)) }
        ensures marks { result.marks.now ≡ take (number4 report.now 0 + number4 report.now 4) marks.now }
        ensures bytes { result.bytes.now ≡ take (number4 report.now 16) out.now }
    {
        let report = numbers(report);
        let marked = report[PERFORMED] as usize + report[REFUSED] as usize;
        let loaded = report[LOADS] as usize;
        Played {
            report,
            marks: &marks[..marked.min(marks.len())],
            bytes: &out[..loaded.min(out.len())],
        }
    }
}

// The report's numbers, in their order.
fn numbers(report: &[u8; Limits::REPORT]) -> [u32; Limits::NUMBERS]
    ensures { EachIndex result (λ k. slice_index result k ≡ number4 report.now (4 * k)) }
{
    array::from_fn(|k| number(report, k))
}

// Number k of the report: four bytes, little-endian.
fn number(report: &[u8; Limits::REPORT], k: usize) -> u32
    requires { k < 12 }
    ensures { result ≡ number4 report.now (4 * k) }
{
    little::get4(report, 4 * k)
}

impl fmt::Display for Played<'_> {
    ghost output = { λ it. played_text it.report it.marks.now it.bytes.now };

    // Prints the code and then the three rows, each on a line.
    fn fmt<W: fmt::Write>(&self, f: &mut fmt::Formatter<W>) -> fmt::Result {
        let report = Row(&self.report);
        let marks = Line(self.marks);
        let bytes = Line(self.bytes);
        write!(f, "code {}\n{report}\n{marks}{bytes}", 0u32)
    }
}
