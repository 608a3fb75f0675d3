// A pair's file: two rings between the same two cores. Where each ring's parts lie, where the schedule begins, and whether it is refused.
ghost use Rattle.std.specs.Prelude.{◌≡◌, ◌<◌, length, take, drop};
ghost use Rattle.model.specs.Run.{first_ring};
ghost use Rattle.model.specs.Codes.{first_of};
ghost use Rattle.model.specs.PairFile.{second_ring, header_of, pair_schedule_at};
ghost use Rattle.model.specs.PairCodes.{pair_file_table, pair_buffer_table, pair_code_of};
ghost use Rattle.file.specs.Errors.{code_in};
ghost use Rattle.file.specs.Layout.{placed, layout_of};

use crate::code::{check_ends, check_length, check_ring, entries};
use crate::error::FileError;
use crate::limits::Limits;
use crate::parts::{part, pop_count, push_count, sizes_end, total};
use little::bytes_from;

// Where a ring's parts lie: its push sizes, its pop sizes, its bytes to push. And how many pushes and pops it has.
#[derive(Clone, Copy)]
pub struct Layout {
    pub push: usize,
    pub pop: usize,
    pub bytes: usize,
    pub pushes: u8,
    pub pops: u8,
}

impl Layout {
    // Of the ring with these eight bytes, whose push sizes begin at one place and whose bytes to push at another.
    fn placed(header: &[u8], push: usize, bytes: usize) -> Self
        requires { push < 1024 }
        ensures { result ≡ placed header.now push bytes }
    {
        let pushes = push_count(header);
        Layout {
            push,
            pop: push + usize::from(pushes),
            bytes,
            pushes,
            pops: pop_count(header),
        }
    }

    // The ring's push sizes, as many as the file has. This and the next are a line over `part` each, as those of a run file.
    fn push_sizes(self, file: &[u8]) -> &[u8]
        ensures value { result.now ≡ take self.pushes (drop self.push file.now) }
        ensures few { length result.now < 256 }
    {
        part(file, self.push, self.pushes)
    }

    // The ring's pop sizes, as many as the file has.
    fn pop_sizes(self, file: &[u8]) -> &[u8]
        ensures value { result.now ≡ take self.pops (drop self.pop file.now) }
        ensures few { length result.now < 256 }
    {
        part(file, self.pop, self.pops)
    }
}

// Where the first ring's parts lie.
pub fn first_layout(file: &[u8]) -> Layout
    ensures layout { result ≡ layout_of first_ring file.now }
    ensures pop_low { result.pop < 272 }
    ensures bytes_low { result.bytes < 1040 }
{
    let bytes = sizes_end(file) + sizes_end(second_header(file));
    Layout::placed(file, Limits::PAIR_HEADER, bytes)
}

// Where the second ring's parts lie.
#[tactic(auto, unfolding(model::specs::PairFile::push_sizes_of))]
pub fn second_layout(file: &[u8]) -> Layout
    ensures layout { result ≡ layout_of second_ring file.now }
    ensures pop_low { result.pop < 1024 }
    ensures bytes_low { result.bytes < 131072 }
{
    let first = first_layout(file);
    let push = first.pop + usize::from(first.pops);
    let bytes = first.bytes + total(first.push_sizes(file));
    Layout::placed(second_header(file), push, bytes)
}

// The file from the second ring's eight bytes on.
fn second_header(file: &[u8]) -> &[u8]
    ensures { result.now ≡ header_of second_ring file.now }
{
    bytes_from(file, Limits::HEADER)
}

// Where the schedule begins.
#[tactic(auto, unfolding(model::specs::PairFile::pair_schedule_at, model::specs::PairFile::push_sizes_of))]
pub fn pair_schedule_at(file: &[u8]) -> usize
    ensures { result ≡ pair_schedule_at file.now }
{
    let second = second_layout(file);
    second.bytes + total(second.push_sizes(file))
}

// Is the file refused by itself, where no buffer is lent? The codes are 1 to 8.
#[tactic(auto, using(crate::proofs::Errors::number_pos, crate::proofs::Rows::pair_ring_first, crate::proofs::Rows::second_refused, crate::proofs::Rows::pair_ends), unfolding(model::specs::PairCodes::pair_file_table))]
pub fn check_pair_file(file: &[u8]) -> Result<(), FileError>
    ensures { code_in result ≡ first_of (pair_file_table file.now) }
{
    check_length(file.len(), Limits::PAIR_HEADER)?;
    check_ring(file)?;
    check_ring(second_header(file))?;
    check_ends(file.len(), first_layout(file).bytes, pair_schedule_at(file))
}

// Is the file refused, or the call for the lengths of its buffers?
#[tactic(auto, using(crate::proofs::Errors::number_pos, crate::proofs::Rows::pair_file_first, crate::proofs::Rows::pair_buffers))]
pub fn check_pair_call(
    file: &[u8],
    marks: usize,
    out1: usize,
    report1: usize,
    out2: usize,
    report2: usize,
) -> Result<(), FileError>
    ensures { code_in result ≡ pair_code_of file.now marks out1 report1 out2 report2 }
{
    check_pair_file(file)?;
    check_pair_buffers(file, marks, out1, report1, out2, report2)
}

// Is the call refused for a buffer that is too short? The codes are 9 to 11. A function of its own beside `check_buffers`, which says why.
#[tactic(auto, unfolding(model::specs::PairCodes::pair_buffer_table, model::specs::PairFile::pair_schedule_of, model::specs::PairFile::pop_sizes_of))]
fn check_pair_buffers(
    file: &[u8],
    marks: usize,
    out1: usize,
    report1: usize,
    out2: usize,
    report2: usize,
) -> Result<(), FileError>
    ensures { code_in result ≡ first_of (pair_buffer_table file.now marks out1 report1 out2 report2) }
{
    if marks < entries(file, pair_schedule_at(file)) {
        return Err(FileError::MarksTooShort);
    }
    // Each sum only where it is asked for.
    if out1 < total(first_layout(file).pop_sizes(file))
        || out2 < total(second_layout(file).pop_sizes(file))
    {
        return Err(FileError::OutTooShort);
    }
    if report1 < Limits::REPORT || report2 < Limits::REPORT {
        return Err(FileError::ReportTooShort);
    }
    Ok(())
}
