// Decoding one fragment whose checks have passed: the loop over its codes, and the states before and after it.
#![tactic(auto)]

ghost use Rattle.std.specs.Prelude.{◌≡◌, cond, ℕ, ◌<◌, ◌≤◌, ◌^◌, length, get_or, map};
ghost use Rattle.lists.specs.Lists.{tabulate};
ghost use Rattle.digits.specs.Digits.{unpacked};
ghost use Rattle.sqv4_format.specs.Layout.{anew, bits, fragment_size, frame_samples};
ghost use Rattle.sqv4_format.specs.Gain.{output_gain};
ghost use Rattle.sqv4_format.specs.Decode.{start_state, after, decoded_fragment};
ghost use Rattle.fragment_plain.specs.Run.{sample_at};

use sqv4_format::{Coded, Coding, Reached, Variant};

// The state before a fragment's first code. Coding, state and fragment stay three parameters, here and where fragments are decoded: each
// caller has them apart.
pub fn state_before(coding: Coding, state: Reached, fragment: &Coded) -> Reached
    ensures { result.state ≡ start_state coding.version state.state fragment.now.bytes.now }
{
    match fragment.index(coding) {
        Some(index) => Reached::fragment_start(index),
        None => state,
    }
}

// The state after a fragment: where each fragment starts anew, the one before it.
pub fn state_after(coding: Coding, state: Reached, end: Reached) -> Reached
    ensures { result.state ≡ cond (anew coding.version) state.state end.state }
{
    if coding.starts_anew() { state } else { end }
}

// The sixty-four codes of a payload. A match, so that the width is a constant for the compiler: with a variable the shifts take longer.
fn unpack(variant: Variant, payload: &[u8]) -> [u8; 64]
    ensures { result ≡ unpacked (bits variant) 64 payload.now }
{
    match variant {
        Variant::H => digits::unpack_codes(payload, 4),
        Variant::L | Variant::LPlus => digits::unpack_codes(payload, 3),
    }
}

// The output gain, for every sample. A loop of its own, which works out eight at a time: `gain::scaled` is made for that, and takes longer
// than a division where it is called for one sample at a time, between the steps of `decode_codes`.
fn apply_gain(coding: Coding, volume: u8, samples: &mut [i16])
    ensures { samples.new ≡ map (output_gain coding.version volume) samples.old }
{
    for sample in samples.iter_mut() {
        *sample = gain::output_gain(coding, *sample, volume);
    }
}

// Decodes a code for each place of `out`, and returns the state after the last.
fn decode_codes(
    coding: Coding,
    start: Reached,
    codes: &[u8; 64],
    volume: u8,
    out: &mut [i16],
) -> Reached
    requires { (length out.old ≤ 64) × ((i : ℕ) → get_or codes.now i 0 < 2 ^ bits coding.variant) }
    ensures { (result.state ≡ after coding.version coding.variant codes.now start.state (length out.old))
        × (out.new ≡ tabulate (sample_at coding.version coding.variant codes.now start.state volume) (length out.old)) }
{
    let mut state = start;
    for (i, sample) in out.iter_mut().enumerate() {
        state = adpcm::update(coding, state, codes[i]);
        *sample = state.state.predictor as i16;
    }
    apply_gain(coding, volume, out);
    state
}

// As many samples of a fragment as `out` has places, and the state after them.
pub fn decode_fragment(coding: Coding, state: Reached, fragment: &Coded, out: &mut [i16]) -> Reached
    requires { (length fragment.now.bytes.now ≡ fragment_size coding.version coding.variant) × (length out.old ≤ frame_samples coding.version) }
    ensures { (result.state ≡ (decoded_fragment coding.version coding.variant state.state fragment.now.bytes.now (length out.old)).state)
        × (out.new ≡ (decoded_fragment coding.version coding.variant state.state fragment.now.bytes.now (length out.old)).samples) }
{
    let start = state_before(coding, state, fragment);
    let codes = unpack(coding.variant, fragment.payload(coding));
    let end = decode_codes(coding, start, &codes, fragment.volume(), out);
    state_after(coding, state, end)
}
