// The code that the encoder chooses for a normalised sample.
#![tactic(auto)]

ghost use Rattle.std.specs.Prelude.{◌≡◌, ◌<◌, ◌^◌};
ghost use Rattle.sqv4_format.specs.Layout.{bits};
ghost use Rattle.sqv4_format.specs.Encode.{take_off, h_code, choice, l_code, code_for};

use sqv4_format::{Coding, Reached, Variant};

// How far from the input a code's clamped result lands. Variant, state and input stay three parameters, here and in `l_code`: they are
// what the definition `code_for` takes, and each caller has them apart.
#[tactic(auto, using(signed::proofs::Laws::read16, signed::proofs::Laws::sample_read))]
fn error_of(variant: Variant, state: Reached, input: i16, code: u8) -> u32
    ensures { result ≡ (choice variant state.state input code).error }
{
    let candidate = adpcm::predictor_after(Coding::written(variant), state, code);
    (input as i32).abs_diff(candidate)
}

// What is left of d when a threshold that fits into it is taken off. A difference that wraps is not below d, so that no jump
// is taken.
pub fn take_off(threshold: u32, d: u32) -> u32
    ensures { result ≡ take_off threshold d }
{
    d.min(d.wrapping_sub(threshold))
}

// The H code for a normalised sample. Its bits 4, 2, 1 and 8 are written in one form, that of 1 too.
fn h_code(state: Reached, input: i16) -> u8
    ensures { (result ≡ h_code state.state input) × (result < 16) }
{
    let step = adpcm::step_size(state.index());
    let predictor = state.state.predictor;
    let sample = input as i32;
    let d = sample.abs_diff(predictor);
    let after_step = take_off(step, d);
    let after_half = take_off(step / 2, after_step);
    let code = adpcm::part_of(step <= d, 4)
        + adpcm::part_of(step / 2 <= after_step, 2)
        + adpcm::part_of(step / 4 <= after_half, 1)
        + adpcm::part_of(sample < predictor, 8);
    code as u8
}

// The L or L+ code for a normalised sample: the lowest of eight whose clamped result is nearest. A loop and not `min_by_key`: of that std
// has no lemma that the first of equal errors stays, and the empty range would be answered too.
fn l_code(variant: Variant, state: Reached, input: i16) -> u8
    ensures { (result ≡ l_code variant state.state input) × (result < 8) }
{
    let mut best_code = 0u8;
    let mut best_error = error_of(variant, state, input, 0);
    for code in 1..8u8 {
        let error = error_of(variant, state, input, code);
        if error < best_error {
            best_code = code;
            best_error = error;
        }
    }
    best_code
}

// The code for a normalised sample; the caller then updates its state with it.
pub fn encode_code(variant: Variant, state: Reached, input: i16) -> u8
    ensures { (result ≡ code_for variant state.state input) × (result < 2 ^ bits variant) }
{
    match variant {
        Variant::H => h_code(state, input),
        Variant::L | Variant::LPlus => l_code(variant, state, input),
    }
}
