// Numbers and their digits: codes packed into bytes and unpacked again, once for every width, the check of a payload's unused bits, and
// little-endian numbers read from bytes and written to them.
#![tactic(auto)]

ghost use Rattle.std.specs.Prelude.{◌≡◌, ℕ, ◌+◌, ◌*◌, ◌^◌, ◌≤◌, ◌<◌, ◌++◌, length, get_or, take, drop};
ghost use Rattle.digits.specs.Digits.{number, digits, stored, field, packed, unpacked, rest_zero};

// Codes with their width, of 1 to 8 bits. `regroup` takes its target's width as a number: it takes 0 too.
#[derive(Clone, Copy)]
pub struct Codes<'a> {
    pub codes: &'a [u8],
    pub bits: usize,
    ghost width: { (0 < bits) × (bits ≤ 8) },
    ghost small: { (i : ℕ) → get_or codes.now i 0 < 2 ^ bits },
}

// The element at `k`, and 0 past the end.
fn at_or_zero(s: &[u8], k: usize) -> u64
    ensures { (result ≡ get_or s.now k 0) × (result < 256) }
{
    s.get(k).copied().unwrap_or(0) as u64
}

// A power of two. A product, a quotient or a remainder by it compiles to a shift or a mask.
fn pow2(n: usize) -> u64
    requires { n < 64 }
    ensures { (result ≡ 2 ^ n) × (0 < result) }
{
    1u64 << n
}

// The codes written as digits of `bits` bits that fill `out`: packing and unpacking, at any widths. The bound on the length stands here and
// in two callers: `out` is lent to be written, so that no type of the codes can hold it.
pub fn regroup(src: Codes, out: &mut [u8], bits: usize)
    requires { (bits ≤ 8) × (length out.old < 2 ^ 32) }
    ensures { out.new ≡ digits bits (length out.old) (number src.entry.bits src.entry.codes.now) }
{
    let mut acc: u64 = 0;
    let mut have: usize = 0;
    let mut digits = src.codes.iter();
    for digit in out.iter_mut() {
        while have < bits {
            acc += digits.next().copied().unwrap_or(0) as u64 * pow2(have);
            have += src.bits;
        }
        *digit = (acc % pow2(bits)) as u8;
        acc /= pow2(bits);
        have -= bits;
    }
}

// The first sixty-four codes of `payload`, 0 past its end.
pub fn unpack_codes(payload: &[u8], bits: usize) -> [u8; 64]
    requires { (0 < bits) × (bits ≤ 8) }
    ensures { result ≡ unpacked bits 64 payload.now }
{
    let bytes = Codes {
        codes: payload,
        bits: 8,
    };
    let mut codes = [0u8; 64];
    regroup(bytes, &mut codes, bits);
    codes
}

// The codes packed so that they fill `out`, with unused bits zero.
pub fn pack_codes(codes: Codes, out: &mut [u8])
    requires { length out.old < 2 ^ 32 }
    ensures { out.new ≡ packed codes.entry.bits (length out.old) codes.entry.codes.now }
{
    regroup(codes, out, 8);
}

// Whether no bit of `payload` from bit `used` on is set.
pub fn unused_bits_zero(payload: &[u8], used: usize) -> bool
    ensures { result ≡ rest_zero used payload.now }
{
    let k = used / 8;
    // First, since inspection comes here for every fragment: codes that fill the payload are done with, and what is below compiles to no other
    // test of its length.
    if payload.len() <= k {
        return true;
    }
    payload[k + 1..].iter().all(|&byte| byte == 0) && at_or_zero(payload, k) / pow2(used % 8) == 0
}

// The little-endian number in the N bytes from `at` on. One function and one law for every width: std's `from_le_bytes` is one for each,
// and takes an array.
pub fn le<const N: usize>(s: &[u8], at: usize) -> u64
    requires { (N ≤ 8) × (at + N ≤ length s.now) }
    ensures { (result ≡ field N at s.now) × (result < 2 ^ (8 * N)) }
{
    let mut bytes = [0u8; 8];
    bytes[..N].copy_from_slice(&s[at..at + N]);
    u64::from_le_bytes(bytes)
}

// The low N bytes of `x`, little-endian, in the N bytes from `at` on; the rest stays. One for every width, as `le`.
#[tactic(auto, using(lists::proofs::Parts::part_put, crate::proofs::StdBytes::low_digits))]
pub fn put_le<const N: usize>(out: &mut [u8], at: usize, x: u64)
    requires { (N ≤ 8) × (at + N ≤ length out.old) }
    ensures { out.new ≡ take at out.old ++ stored N x ++ drop (at + N) out.old }
{
    out[at..at + N].copy_from_slice(&x.to_le_bytes()[..N]);
}
