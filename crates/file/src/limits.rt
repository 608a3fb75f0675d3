// The ranges and limits of a run file, each named once.
#[derive(Clone, Copy)]
pub struct Limits {}

impl Limits {
    // A ring has at most this many slots.
    pub const SLOTS: usize = 128;

    // The index modulus is at least and at most this.
    pub const LEAST_MODULUS: u32 = 2;

    pub const MODULUS: u32 = 65536;

    // The order bits are at most this.
    pub const ORDERS: u16 = 15;

    // A run file has this many bytes before its batch sizes, a pair's file this many, and either at most this many in all.
    pub const HEADER: usize = 8;

    pub const PAIR_HEADER: usize = 16;

    pub const FILE: usize = 65536;

    // The report has this many numbers, in this many bytes.
    pub const NUMBERS: usize = 12;

    pub const REPORT: usize = 48;
}
