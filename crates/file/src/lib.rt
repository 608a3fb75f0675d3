// Reading a run file, and a pair's: limits, where the parts lie, and whether it is refused. Any bytes may be asked: past the end of a file there are zeros.
//
// limits: the ranges and limits. parts: the numbers, the batch sizes, the bytes to push, the schedule's place. error: why a file is refused.
// code: whether a file is. pair: the same of a file with two rings.
#![tactic(auto)]

pub mod code;
pub mod error;
pub mod limits;
pub mod pair;
pub mod parts;
