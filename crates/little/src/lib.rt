// Numbers in bytes, little-endian: the lowest byte comes first. Nothing is asked of a caller: past the end of the bytes there are zeros to
// read, and a number that does not fit is not written.
#![tactic(auto)]

ghost use Rattle.std.specs.Prelude.{◌≡◌, take, drop};
ghost use Rattle.model.specs.File.{byte_at, number4};
ghost use Rattle.little.specs.Little.{put4_of};

// The byte at a place, or 0 past the end.
pub fn byte_at(bytes: &[u8], at: usize) -> u8
    ensures { result ≡ byte_at bytes.now at }
{
    bytes.get(at).copied().unwrap_or(0)
}

// The bytes from a place on, none past the end.
pub fn bytes_from(bytes: &[u8], at: usize) -> &[u8]
    ensures { result.now ≡ drop at bytes.now }
{
    &bytes[at.min(bytes.len())..]
}

// The number in the four bytes from a place on.
pub fn get4(bytes: &[u8], at: usize) -> u32
    ensures { result ≡ number4 bytes.now at }
{
    let four = bytes_from(bytes, at);
    u32::from_le_bytes([
        byte_at(four, 0),
        byte_at(four, 1),
        byte_at(four, 2),
        byte_at(four, 3),
    ])
}

// A number into the four bytes from a place on, where there are four.
pub fn put4(bytes: &mut [u8], at: usize, x: u32)
    ensures { bytes.new ≡ put4_of bytes.old at x }
{
    if at.saturating_add(4) <= bytes.len() {
        bytes[at..at + 4].copy_from_slice(&x.to_le_bytes());
    }
}
