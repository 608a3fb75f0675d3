// What the machine reads of the run file: its own beginning, and by core the size of a batch and the byte to store.
ghost use Rattle.std.specs.Prelude.{◌≡◌, ◌<◌};
ghost use Rattle.ring.specs.computed.State.{fresh_of};
ghost use Rattle.ring.specs.computed.Reads.{size_at, byte_for};

use crate::state::Ring;
use crate::who::Who;
use file::parts::{byte_after_sizes, modulus_of, order_bits, pop_size, push_size, ring_size};

// The fresh machine of a run file.
pub(crate) fn fresh_ring(file: &[u8]) -> Ring
    ensures { result ≡ fresh_of file.now }
{
    Ring::fresh(ring_size(file), modulus_of(file), order_bits(file))
}

// The size of a batch of the core: the one place where it is read.
#[tactic(auto, unfolding(crate::specs::computed::Reads::size_at))]
pub(crate) fn size_of(file: &[u8], who: Who, batch: u16) -> u8
    ensures { result ≡ size_at file.now who batch }
{
    match who {
        Who::Producer => push_size(file, batch),
        Who::Consumer => pop_size(file, batch),
    }
}

// The byte that the core's next data access stores: the producer's next byte to push. The consumer stores none, and its 0 is not looked at: an Option
// would be taken apart by the core again in the move.
#[tactic(auto, unfolding(crate::specs::computed::Reads::byte_for))]
pub(crate) fn byte_for(file: &[u8], who: Who, passed: u16, moved: u16) -> u8
    ensures { result ≡ byte_for file.now who passed moved }
{
    match who {
        Who::Producer => byte_after_sizes(file, u32::from(passed) + u32::from(moved)),
        Who::Consumer => 0,
    }
}
