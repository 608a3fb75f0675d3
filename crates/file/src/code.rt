// Is a file refused? The code is that of the first row of the table that applies.
ghost use Rattle.std.specs.Prelude.{◌≡◌, ◌||◌, not, eqb, ltb, length, drop};
ghost use Rattle.model.specs.Limits.{most_slots, least_modulus, most_modulus};
ghost use Rattle.model.specs.Codes.{divides, ring_table, buffer_table, first_of, file_code, code_of};
ghost use Rattle.model.specs.File.{pairs};
ghost use Rattle.file.specs.Errors.{code_in};
ghost use Rattle.file.specs.Rows.{length_table, end_table};

use crate::error::FileError;
use crate::limits::Limits;
use crate::parts::{modulus_of, order_bits, pop_total, ring_size, schedule_at, sizes_end};
use little::bytes_from;

// Is the file refused by itself, where no buffer is lent? The codes are 1 to 8.
#[tactic(auto, using(crate::proofs::Errors::number_pos, crate::proofs::Rows::ring_first), unfolding(model::specs::Codes::file_table))]
pub fn check_file(file: &[u8]) -> Result<(), FileError>
    ensures { code_in result ≡ file_code file.now }
{
    check_length(file.len(), Limits::HEADER)?;
    check_ring(file)?;
    check_ends(file.len(), sizes_end(file), schedule_at(file))
}

// Is the file refused, or the call for the lengths of its buffers? These stand one by one: no plainer in a struct that each caller would make and this
// function take apart.
#[tactic(auto, using(crate::proofs::Errors::number_pos, model::proofs::Codes::file_first, model::proofs::Codes::buffers_next))]
pub fn check_call(file: &[u8], marks: usize, out: usize, report: usize) -> Result<(), FileError>
    ensures { code_in result ≡ code_of file.now marks out report }
{
    check_file(file)?;
    check_buffers(file, marks, out, report)
}

// Is a file of n bytes refused for its length, which is at least this? The codes are 1 and 2.
pub(crate) fn check_length(n: usize, least: usize) -> Result<(), FileError>
    ensures { code_in result ≡ first_of (length_table n least) }
{
    if n < least {
        return Err(FileError::TooShort);
    }
    if Limits::FILE < n {
        return Err(FileError::TooLong);
    }
    Ok(())
}

// Is a ring refused for its eight bytes, which are the first of these? The codes are 3 to 6.
pub(crate) fn check_ring(file: &[u8]) -> Result<(), FileError>
    ensures { code_in result ≡ first_of (ring_table file.now) }
{
    let m = ring_size(file);
    if bad_size(m) {
        return Err(FileError::RingSize);
    }
    let modulus = modulus_of(file);
    if bad_modulus(modulus) {
        return Err(FileError::Modulus);
    }
    if bad_pair(m, modulus) {
        return Err(FileError::SizeAndModulus);
    }
    if Limits::ORDERS < order_bits(file) {
        return Err(FileError::OrderBits);
    }
    Ok(())
}

// Is a file of n bytes refused for its ends, whose sizes end here and whose schedule begins there? The codes are 7 and 8.
pub(crate) fn check_ends(n: usize, sizes: usize, at: usize) -> Result<(), FileError>
    ensures { code_in result ≡ first_of (end_table n sizes at) }
{
    if n < sizes || n < at {
        return Err(FileError::Truncated);
    }
    if (n - at) % 2 == 1 {
        return Err(FileError::OddSchedule);
    }
    Ok(())
}

// Is the call refused for a buffer that is too short? The codes are 9 to 11. A pair's call has a function of its own (`pair.rt`): with one over three
// answers for both, the compiler lays the run's loop out otherwise, and refused entries take up to 36 instructions where plain C takes 32.
#[tactic(auto, unfolding(model::specs::Codes::buffer_table, model::specs::File::schedule_of))]
fn check_buffers(file: &[u8], marks: usize, out: usize, report: usize) -> Result<(), FileError>
    ensures { code_in result ≡ first_of (buffer_table file.now marks out report) }
{
    if marks < entries(file, schedule_at(file)) {
        return Err(FileError::MarksTooShort);
    }
    if out < pop_total(file) {
        return Err(FileError::OutTooShort);
    }
    if report < Limits::REPORT {
        return Err(FileError::ReportTooShort);
    }
    Ok(())
}

// How many entries the schedule has that begins at a place of the file.
#[tactic(auto, using(model::proofs::Laid::length_pairs))]
pub(crate) fn entries(file: &[u8], at: usize) -> usize
    ensures { result ≡ length (pairs (drop at file.now)) }
{
    bytes_from(file, at).len() / 2
}

// Is this no ring size?
fn bad_size(m: u32) -> bool
    ensures { result ≡ (eqb m 0 || ltb most_slots m) }
{
    m == 0 || Limits::SLOTS < m as usize
}

// Is this no index modulus?
fn bad_modulus(modulus: u32) -> bool
    ensures { result ≡ (ltb modulus least_modulus || ltb most_modulus modulus) }
{
    modulus < Limits::LEAST_MODULUS || Limits::MODULUS < modulus
}

// Does the size not divide the modulus, or equal it?
fn bad_pair(m: u32, modulus: u32) -> bool
    ensures { result ≡ (not (divides m modulus) || eqb modulus m) }
{
    !modulus.is_multiple_of(m) || modulus == m
}
