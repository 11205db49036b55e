// The gains of a sample: pre-gain, the volume of a fragment, normalising to full scale, and output gain.
#![tactic(auto)]

ghost use Rattle.std.specs.Prelude.{◌≡◌, ◌+◌, ◌*◌, ◌/◌, ◌<◌, ◌≤◌, length, unsigned_abs};
ghost use Rattle.std.specs.Int.Signed.{mag};
ghost use Rattle.signed.specs.Signed.{is_neg, with_sign, raised};
ghost use Rattle.sqv4_format.specs.Layout.{encoder_version};
ghost use Rattle.sqv4_format.specs.Gain.{pregained, peak, volume_of, own_volume, normalised, output_gain};
ghost use Rattle.gain.specs.Rounding.{rounding};

use sqv4_format::Coding;

// m * gain / 255, by the two halves of 257 * m * gain: 257 * 255 is 65535, so that the high half is the quotient, or one less where the
// halves together with what is added reach 65535. With 16-bit numbers only, eight are worked out at a time.
fn quotient(m: u16, gain: u8, half: u32) -> u16
    requires { (m ≤ 32768) × (half ≤ 127) }
    ensures { result ≡ (m * gain + half) / 255 }
{
    let m = m as u32;
    let g = gain as u32;
    let high = (m * (257 * g) / 65536) as u16;
    let product = (m * g % 65536) as u16;
    let low = product.wrapping_add(product % 256 * 256);
    let threshold = (65535 - 257 * half) as u16;
    if threshold - high <= low {
        high + 1
    } else {
        high
    }
}

// x * gain / 255 on the magnitude, the sign kept: cut toward zero where `half` is 0, to nearest where it is 127. `half` is a number and
// not an enum of the two roundings, since it is what is added before the division, and the contract holds for each up to 127.
#[tactic(auto, using(signed::proofs::Laws::back32, signed::proofs::Laws::is_neg_is, crate::proofs::Laws::scaled_fits))]
pub fn scaled(x: i16, gain: u8, half: u32) -> i16
    requires { half ≤ 127 }
    ensures { result ≡ with_sign (is_neg x) ((unsigned_abs x * gain + half) / 255) }
{
    signed::with_sign(x < 0, quotient(x.unsigned_abs(), gain, half) as u32) as i16
}

// Pre-gain: sample * gain / 255, cut toward zero.
#[tactic(auto, using(signed::proofs::Laws::back16), unfolding(sqv4_format::specs::Gain::pregained, signed::specs::Signed::on_magnitude))]
pub fn pre_gain(sample: i16, gain: u8) -> i16
    ensures { result ≡ pregained gain sample }
{
    scaled(sample, gain, 0)
}

// The peak magnitude of the samples, 0 of none.
pub fn peak_of(samples: &[i16]) -> u16
    ensures { (result ≡ peak samples.now (length samples.now)) × (result ≤ 32768) }
{
    samples
        .iter()
        .map(|sample| sample.unsigned_abs())
        .max()
        .unwrap_or(0)
}

// The least volume whose full scale covers the peak, at most 255.
fn volume_of(peak: u16) -> u8
    requires { peak ≤ 32768 }
    ensures { result ≡ volume_of peak }
{
    let peak = peak as u32;
    (peak * 255).div_ceil(32767).min(255) as u8
}

// The volume of a fragment, from its pre-gained samples.
pub fn fragment_volume(samples: &[i16]) -> u8
    ensures { result ≡ own_volume samples.now }
{
    volume_of(peak_of(samples))
}

// A sample at the fragment's full scale: sample * 255 / volume to nearest, half away from zero, clamped to 16 bits.
pub fn normalise(sample: i16, volume: u8) -> i16
    requires { 0 < volume }
    ensures { result ≡ normalised volume sample }
{
    let v = volume as u32;
    let q = (sample.unsigned_abs() as u32 * 255 + v / 2) / v;
    signed::clamp16(signed::sign_like(sample as i32, q)) as i16
}

// What `scaled` adds before it divides, for the output gain of a version (output_scaled in proofs/Laws).
pub fn rounding(coding: Coding) -> u32
    ensures { (result ≡ rounding coding.version) × (result ≤ 127) }
{
    if coding.starts_anew() { 127 } else { 0 }
}

// The output gain: reconstructed * volume / 255, from version 3 on to nearest, half away from zero, and before it cut toward zero.
pub fn output_gain(coding: Coding, reconstructed: i16, volume: u8) -> i16
    ensures { result ≡ output_gain coding.version volume reconstructed }
{
    scaled(reconstructed, volume, rounding(coding))
}

// `output_gain` of the encoder's version on raised numbers, for the search, which is faster with it. No product with a volume lies halfway
// between two multiples of 255, so that one division rounds numbers of both signs to nearest.
#[tactic(auto, using(signed::proofs::Laws::read16, crate::proofs::Raised::raised_gain))]
pub fn raised_output(reconstructed: i32, volume: u8) -> u32
    requires { mag reconstructed ≤ 32767 }
    ensures { (result ≡ raised (output_gain encoder_version volume reconstructed)) × (result ≤ 65535) }
{
    let v = volume as u32;
    (signed::raise(reconstructed) * v + 32768 * (255 - v) + 127) / 255
}
