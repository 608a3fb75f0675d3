// Why an entry is refused: decided before any move, so that a refused entry writes its mark and nothing else.
ghost use Rattle.std.specs.Prelude.{◌≡◌};
ghost use Rattle.ring.specs.computed.Marks.{mark_in};
ghost use Rattle.ring.specs.computed.Refusal.{refusal_of, core_refusal, load_refusal};

use crate::marks::Refusal;
use crate::race::DataRace;
use crate::state::{Core, Stores};
use file::parts::{pop_count, push_count};

// Why this entry is refused, if it is. A core is looked at only where the entry names it: else the compiler looks at both, at every entry. It doesn't
// hand on the core that goes: as a Result<Who, Refusal> an entry refused with 129 took 20 instructions, and takes 8 so, where plain C takes 12, and
// the race question took 75 microseconds over 32,756 entries after a race, and takes a quarter of one. No refusal is to cost more than in plain C. The
// core byte is compared with 1 both times, which is one comparison to the compiler; with 0 an entry refused with 134 takes 7 instructions more.
#[tactic(auto, unfolding(crate::specs::computed::Refusal::refusal_of))]
pub(crate) fn refusal(
    file: &[u8],
    core: u8,
    age: u8,
    race: Option<DataRace>,
    cores: [Core; 2],
    back: Stores,
    front: Stores,
) -> Result<(), Refusal>
    ensures { mark_in result ≡ refusal_of file.now core age race cores back front }
{
    if 1 < core {
        return Err(Refusal::NoSuchCore);
    }
    if race.is_some() {
        return Err(Refusal::Halted);
    }
    if core == 1 {
        return core_refusal(age, u16::from(pop_count(file)), cores[1], back);
    }
    core_refusal(age, u16::from(push_count(file)), cores[0], front)
}

// Why an entry of this core is refused in a machine that runs. Its phase is asked first, though the batches are the first reason: while entries are
// refused no phase changes, so the compiler asks once for all of them, and then keeps out of their loop what only a foreign load is asked.
#[tactic(auto, unfolding(crate::specs::computed::Refusal::core_refusal))]
fn core_refusal(age: u8, batches: u16, c: Core, theirs: Stores) -> Result<(), Refusal>
    ensures { mark_in result ≡ core_refusal age batches c theirs }
{
    // Phase 1 is the foreign load (`Core`).
    if c.phase != 1 {
        if batches <= c.batch {
            return Err(Refusal::NoBatchLeft);
        }
        if age != 0 {
            return Err(Refusal::NoAgeHere);
        }
        return Ok(());
    }
    if batches <= c.batch {
        return Err(Refusal::NoBatchLeft);
    }
    load_refusal(age, c.known, c.read, theirs)
}

// Why a foreign load is refused: there is no such store, or the core has read a later one, or it is hidden. One comparison is for the first two,
// and only where it holds another tells which.
#[tactic(auto, unfolding(crate::specs::computed::Refusal::load_refusal, crate::specs::computed::State::out_of_reach))]
fn load_refusal(age: u8, known: u16, read: u16, theirs: Stores) -> Result<(), Refusal>
    ensures { mark_in result ≡ load_refusal age known read theirs }
{
    let a = usize::from(age);
    let n = usize::from(theirs.count);
    if n <= a + usize::from(read) {
        if n <= a {
            return Err(Refusal::PastInitial);
        }
        return Err(Refusal::StoreHidden);
    }
    if theirs.hides(n - 1 - a, known) {
        return Err(Refusal::StoreHidden);
    }
    Ok(())
}
