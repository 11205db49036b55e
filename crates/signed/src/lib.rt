// Signed numbers by sign and magnitude, the clamps, and the two bytes of a 16-bit sample. Of the codec's crates this alone adds, subtracts
// and negates signed numbers; the others compare and cast them, and take magnitudes and distances.
#![tactic(auto)]

ghost use Rattle.std.specs.Prelude.{◌≡◌, ◌+◌, ◌-◌, ◌*◌, ◌<◌, ◌≤◌, ◌^◌, pos, nat_abs, ◌+ℤ◌, ◌-ℤ◌};
ghost use Rattle.std.specs.Int.Signed.{mag};
ghost use Rattle.digits.specs.Digits.{stored};
ghost use Rattle.signed.specs.Signed.{is_neg, with_sign, clamp16, clamp_to, raised, depth, of_twos, to_twos};

// The number with magnitude m, negated where `negative`.
#[tactic(auto, unfolding(crate::specs::Signed::with_sign))]
pub fn with_sign(negative: bool, m: u32) -> i32
    requires { m < 2 ^ 31 }
    ensures { result ≡ with_sign negative m }
{
    let x = m as i32;
    if negative { -x } else { x }
}

// The number with magnitude m and the sign of x.
#[tactic(auto, using(crate::proofs::Laws::is_neg_is))]
pub fn sign_like(x: i32, m: u32) -> i32
    requires { m < 2 ^ 31 }
    ensures { result ≡ with_sign (is_neg x) m }
{
    with_sign(x.is_negative(), m)
}

// Clamped to -32768..=32767: std's `clamp` by the rule's name, as `sample_of` and `sample_bytes` below are std's conversions.
#[tactic(auto, using(crate::proofs::Laws::clamp16_is))]
pub fn clamp16(x: i32) -> i32
    ensures { result ≡ clamp16 x }
{
    x.clamp(-32768, 32767)
}

// The sum, clamped to -32768..=32767.
pub fn add_clamp16(x: i32, y: i32) -> i32
    requires { nat_abs x + nat_abs y < 2 ^ 31 }
    ensures { result ≡ clamp16 (x +ℤ y) }
{
    clamp16(x + y)
}

// The sum, clamped to 0..=top. In 64 bits, which every sum fits: so it compiles without a jump, and `saturating_add_signed` does not.
#[tactic(auto, using(crate::proofs::Laws::clamp_to_is))]
pub fn add_clamp_to(x: u32, y: i32, top: u32) -> u32
    ensures { result ≡ clamp_to top (pos x +ℤ y) }
{
    (x as i64 + y as i64).clamp(0, top as i64) as u32
}

// A number of 16 bits, raised to 0..=65535. It comes in 32 bits, as the predictor of a state does, which is laid out for C.
#[tactic(auto, using(crate::proofs::Raised::raise_is, crate::proofs::Raised::raised_high))]
pub fn raise(x: i32) -> u32
    requires { mag x ≤ 32767 }
    ensures { (result ≡ raised x) × (result ≤ 65535) }
{
    (x + 32768) as u32
}

// The number of 16 bits that is raised to u.
pub fn lower(u: u32) -> i32
    requires { u ≤ 65535 }
    ensures { result ≡ pos u -ℤ pos 32768 }
{
    u as i32 - 32768
}

// How far a 16-bit number lies below 32767. The number comes in 32 bits, as the predictor of a state does.
#[tactic(auto, using(crate::proofs::Laws::depth_is, crate::proofs::Laws::depth_le))]
pub fn depth(x: i32) -> u32
    requires { mag x ≤ 32767 }
    ensures { (result ≡ depth x) × (result ≤ 65535) }
{
    (32767 - x) as u32
}

// The 16-bit number that lies so far below 32767.
pub fn at_depth(depth: u32) -> i16
    requires { depth ≤ 65535 }
    ensures { result ≡ pos 32767 -ℤ pos depth }
{
    (32767 - (depth as i32)) as i16
}

// The sample that two bytes state, in two's complement.
#[tactic(auto, using(crate::proofs::Twos::signed_of))]
pub fn sample_of(low: u8, high: u8) -> i16
    ensures { result ≡ of_twos (low + 256 * high) }
{
    i16::from_le_bytes([low, high])
}

// The two bytes of a sample, in two's complement, the low byte first.
#[tactic(auto, using(crate::proofs::Twos::bits_of), unfolding(digits::specs::Digits::digits))]
pub fn sample_bytes(sample: i16) -> [u8; 2]
    ensures { result ≡ stored 2 (to_twos sample) }
{
    sample.to_le_bytes()
}
