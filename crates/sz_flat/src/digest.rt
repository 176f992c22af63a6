//! Short numbers of bytes, by which lists are dealt out.
ghost use Rattle.std.specs.Prelude.{◌≡◌};
ghost use Rattle.sz_flat.specs.Digest.{digest};

// An odd number whose bits are mixed well: 2^32 by the golden ratio. The last byte reaches the high bits as the first does.
const FACTOR: u32 = 2_654_435_769;

// A number of the bytes below 256: its high bits, which those of each byte reach.
pub(crate) fn digest_of(bytes: &[u8]) -> u32
    ensures value { result ≡ digest bytes.now }
{
    let mut sum: u32 = 0;
    for byte in bytes {
        sum = sum.wrapping_add(u32::from(*byte)).wrapping_mul(FACTOR);
    }
    sum >> 24
}
