// The parts of a run file, each where the layout has it.
ghost use Rattle.std.specs.Prelude.{◌≡◌, ◌+◌, ◌*◌, ◌<◌, ◌≤◌, length, get_or, take, drop};
ghost use Rattle.model.specs.File.{byte_at, total, ring_size, modulus_of, order_bits, push_count, pop_count, push_sizes, pop_sizes, sizes_end, schedule_at};

use crate::limits::Limits;
use little::{byte_at, bytes_from, get4};

// The ring size, m.
pub fn ring_size(file: &[u8]) -> u32
    ensures { result ≡ ring_size file.now }
{
    u32::from(byte_at(file, 0))
}

// The index modulus, M.
pub fn modulus_of(file: &[u8]) -> u32
    ensures { result ≡ modulus_of file.now }
{
    get4(file, 1)
}

// The order bits.
pub fn order_bits(file: &[u8]) -> u16
    ensures { result ≡ order_bits file.now }
{
    u16::from(byte_at(file, 5))
}

// How many push batches there are. Each pair of a push and a pop part is a line over one function, under the names that callers have.
pub fn push_count(file: &[u8]) -> u8
    ensures { result ≡ push_count file.now }
{
    byte_at(file, 6)
}

// How many pop batches there are.
pub fn pop_count(file: &[u8]) -> u8
    ensures { result ≡ pop_count file.now }
{
    byte_at(file, 7)
}

// The size of a push batch, by its number from 0; 0 past the last.
pub fn push_size(file: &[u8], batch: u16) -> u8
    ensures { result ≡ get_or (push_sizes file.now) batch 0 }
{
    byte_at(push_sizes(file), usize::from(batch))
}

// The size of a pop batch, by its number from 0; 0 past the last.
pub fn pop_size(file: &[u8], batch: u16) -> u8
    ensures { result ≡ get_or (pop_sizes file.now) batch 0 }
{
    byte_at(pop_sizes(file), usize::from(batch))
}

// Where the sizes end and the bytes to push begin.
pub fn sizes_end(file: &[u8]) -> usize
    ensures value { result ≡ sizes_end file.now }
    ensures low { result < 519 }
{
    pop_sizes_at(file) + usize::from(pop_count(file))
}

// The byte that lies this many places after the end of the sizes: a byte to push, where it is one of those.
pub fn byte_after_sizes(file: &[u8], k: u32) -> u8
    ensures { result ≡ byte_at file.now (sizes_end file.now + k) }
{
    byte_at(file, sizes_end(file) + k as usize)
}

// Where the schedule begins.
#[tactic(auto, unfolding(model::specs::File::schedule_at))]
pub fn schedule_at(file: &[u8]) -> usize
    ensures { result ≡ schedule_at file.now }
{
    sizes_end(file) + total(push_sizes(file))
}

// The sum of the pop sizes.
pub fn pop_total(file: &[u8]) -> usize
    ensures { result ≡ total (pop_sizes file.now) }
{
    total(pop_sizes(file))
}

// The push sizes, as many as the file has.
#[tactic(auto, unfolding(model::specs::File::push_sizes))]
fn push_sizes(file: &[u8]) -> &[u8]
    ensures value { result.now ≡ push_sizes file.now }
    ensures few { length result.now < 256 }
{
    part(file, Limits::HEADER, push_count(file))
}

// The pop sizes, as many as the file has.
#[tactic(auto, unfolding(model::specs::File::pop_sizes))]
fn pop_sizes(file: &[u8]) -> &[u8]
    ensures value { result.now ≡ pop_sizes file.now }
    ensures few { length result.now < 256 }
{
    part(file, pop_sizes_at(file), pop_count(file))
}

// Where the pop sizes begin.
fn pop_sizes_at(file: &[u8]) -> usize
    ensures value { result ≡ 8 + push_count file.now }
    ensures low { result < 264 }
{
    Limits::HEADER + usize::from(push_count(file))
}

// The n bytes of the file from a place on, as many as it has of those.
pub(crate) fn part(file: &[u8], from: usize, n: u8) -> &[u8]
    ensures value { result.now ≡ take n (drop from file.now) }
    ensures few { length result.now < 256 }
{
    let rest = bytes_from(file, from);
    &rest[..rest.len().min(usize::from(n))]
}

// The sum of some sizes.
pub(crate) fn total(sizes: &[u8]) -> usize
    requires { length sizes.now < 256 }
    ensures value { result ≡ total sizes.now }
    ensures low { result ≤ 255 * 255 }
{
    sizes.iter().map(|size| usize::from(*size)).sum()
}
