// The run over all entries of the schedule.
ghost use Rattle.std.specs.Prelude.{◌≡◌, ◌*◌, ◌<◌, ◌≤◌, length, IsSome};
ghost use Rattle.ring.specs.computed.Run.{next_place, put_byte, Ready, Finished};

use crate::marks::{last_byte, last_mark};
use crate::reads::{byte_for, fresh_ring, size_of};
use crate::refusal::refusal;
use crate::state::Ran;
use crate::who::Who;
use file::parts::schedule_at;

// Each entry in turn: refused with its mark, or the move that its core's phase chooses. Each arm hands the state back to where it was, so that
// the compiler copies no part of it but what the move changes. The marks lie `each` apart, and so do the bytes read: 1, or 0 for who
// asks only for the numbers and lends one byte for all. It is a factor and no enum: asked at each write which of the two it is, a refused entry takes
// twice as long, and is to take no longer than in plain C. The two buffers stand by themselves: a struct of them would be made here, for `keep_byte`.
pub(crate) fn run(file: &[u8], each: usize, marks: &mut [u8], out: &mut [u8]) -> Ran
    requires { Ready file.now each (length marks.old) (length out.old) }
    ensures { Finished file.now each marks.old out.old result marks.new out.new }
{
    let at = schedule_at(file);
    let n = (file.len() - at) / 2;
    let mut ring = fresh_ring(file);
    let mut performed: u32 = 0;
    let mut k: usize = 0;
    for i in 0..n {
        let a = at + 2 * i;
        let core = file[a];
        let age = file[a + 1];
        let who = Who::of_byte(core);
        let cores = ring.cores;
        if let Err(refused) = refusal(file, core, age, ring.race, cores, ring.back, ring.front) {
            marks[i * each] = refused.mark();
            continue;
        }
        let c = cores[who.place()];
        let entry = (i + 1) as u16;
        // The phase's number, as the project has named this form.
        let phase = c.phase;
        match phase {
            0 => {
                ring = ring.own_load(who, u16::from(size_of(file, who, c.batch)));
            }
            1 => {
                ring = ring.foreign_load(who, age);
            }
            2 => {
                ring = ring.data_access(who, byte_for(file, who, c.passed, c.moved), entry);
            }
            _ => {
                ring = ring.index_store(who, entry);
            }
        }
        let last = ring.last;
        marks[i * each] = last_mark(last);
        k = keep_byte(out, k, each, last_byte(last));
        performed += 1;
    }
    Ran {
        ring,
        entries: n as u32,
        performed,
        loads: k,
    }
}

// The byte of a data load goes to the next place of out.
fn keep_byte(out: &mut [u8], k: usize, each: usize, read: Option<u8>) -> usize
    requires each { each ≤ 1 }
    requires low { k < 65536 }
    requires room { IsSome read → k * each < length out.old }
    ensures next { result ≡ next_place k read }
    ensures out { out.new ≡ put_byte out.old (k * each) read }
{
    match read {
        Some(byte) => {
            out[k * each] = byte;
            k + 1
        }
        None => k,
    }
}
