// One ADPCM step: the tables, the difference and the index adjustment of a code, and the state after it.
#![tactic(auto)]

ghost use Rattle.std.specs.Prelude.{◌≡◌, ◌<◌, ◌≤◌, ◌^◌, nat_abs};
ghost use Rattle.std.specs.Int.Signed.{mag};
ghost use Rattle.sqv4_format.specs.Tables as tables;
ghost use Rattle.sqv4_format.specs.Layout.{bits};
ghost use Rattle.sqv4_format.specs.Step.{step_at, part, h_size, l_size, levels, level_of, size_of, sign_bit, difference, adjustment, stepped};

use sqv4_format::{Coding, Reached, State, StepIndex, Variant};

// The 89 steps.
pub static STEPS: [i32; 89] = [
    7, 8, 9, 10, 11, 12, 13, 14, 16, 17, 19, 21, 23, 25, 28, 31, 34, 37, 41, 45, 50, 55, 60, 66,
    73, 80, 88, 97, 107, 118, 130, 143, 157, 173, 190, 209, 230, 253, 279, 307, 337, 371, 408, 449,
    494, 544, 598, 658, 724, 796, 876, 963, 1060, 1166, 1282, 1411, 1552, 1707, 1878, 2066, 2272,
    2499, 2749, 3024, 3327, 3660, 4026, 4428, 4871, 5358, 5894, 6484, 7132, 7845, 8630, 9493,
    10442, 11487, 12635, 13899, 15289, 16818, 18500, 20350, 22385, 24623, 27086, 29794, 32767,
];

// What a code adds to the index: of H by the whole code, of L and L+ by its two low bits.
pub static H_INDEX_ADJUST: [i32; 16] = [-1, -1, -1, -1, 2, 4, 6, 8, -1, -1, -1, -1, 2, 4, 6, 8];

pub static L_INDEX_ADJUST: [i32; 4] = [-1, 2, 4, 6];

// The levels, by the code's two low bits; L+ has its own in version 1.
pub static LEGACY_L_PLUS_LEVELS: [i32; 4] = [10, 11, 12, 14];

pub static L_PLUS_LEVELS: [i32; 4] = [1, 2, 3, 14];

pub static L_LEVELS: [i32; 4] = [1, 3, 5, 7];

// H has no levels, and zeros stand for them: so `level` cannot fail, and an Option would only move that 0 to its caller.
static H_LEVELS: [i32; 4] = [0; 4];

// The table of the steps.
#[tactic(auto, unfolding(sqv4_format::specs::Tables::steps))]
pub fn steps() -> &'static [i32; 89]
    ensures { result.now ≡ tables.steps }
{
    &STEPS
}

// The step at an index.
#[tactic(auto, using(crate::proofs::Bounds::step_entry, crate::proofs::Bounds::step_low, crate::proofs::Bounds::step_high))]
pub fn step_size(index: StepIndex) -> u32
    ensures value { result ≡ step_at index.value }
    ensures low { 7 ≤ result }
    ensures high { result ≤ 32767 }
{
    steps()[index.value] as u32
}

// The levels of a variant. What depends on the variant is picked by a match, here and below: the variant is known only at run time, and a
// closure or a trait object would be called at each sample and be no plainer.
#[tactic(auto, unfolding(sqv4_format::specs::Tables::l_levels, sqv4_format::specs::Tables::l_plus_levels, sqv4_format::specs::Tables::legacy_l_plus_levels))]
fn levels(coding: Coding) -> &'static [i32; 4]
    ensures { result.now ≡ levels coding.version coding.variant }
{
    match coding.variant {
        Variant::H => &H_LEVELS,
        Variant::L => &L_LEVELS,
        Variant::LPlus => if coding.version == 1 {
            &LEGACY_L_PLUS_LEVELS
        } else {
            &L_PLUS_LEVELS
        }
    }
}

// The level of a code.
#[tactic(auto, using(crate::proofs::Bounds::level_entry, crate::proofs::Bounds::level_high))]
pub fn level(coding: Coding, code: u8) -> u32
    ensures { (result ≡ level_of coding.version coding.variant code) × (result ≤ 14) }
{
    let m = (code % 4) as usize;
    levels(coding)[m] as u32
}

// x where `on`, else nothing.
pub fn part_of(on: bool, x: u32) -> u32
    ensures { (result ≡ part on x) × (result ≤ x) }
{
    if on { x } else { 0 }
}

// The size of an H code's difference, at an index.
#[tactic(auto, unfolding(sqv4_format::specs::Step::h_size))]
fn h_size(index: StepIndex, code: u8) -> u32
    ensures { (result ≡ h_size (step_at index.value) code) × (result ≤ 65535) }
{
    let step = step_size(index);
    step / 8
        + part_of(code / 1 % 2 == 1, step / 4)
        + part_of(code / 2 % 2 == 1, step / 2)
        + part_of(code / 4 % 2 == 1, step)
}

// The size of an L or L+ code's difference.
#[tactic(auto, using(crate::proofs::Bounds::l_size_lem), unfolding(sqv4_format::specs::Step::l_size))]
pub fn l_size(level: u32, step: u32) -> u32
    requires { (level ≤ 14) × (step ≤ 32767) }
    ensures { (result ≡ l_size level step) × (result ≤ 65535) }
{
    (level * step + 4) / 8
}

// The size of a code's difference, at an index.
fn size_of(coding: Coding, index: StepIndex, code: u8) -> u32
    ensures { (result ≡ size_of coding.version coding.variant (step_at index.value) code) × (result ≤ 65535) }
{
    match coding.variant {
        Variant::H => h_size(index, code),
        Variant::L | Variant::LPlus => l_size(level(coding, code), step_size(index)),
    }
}

// The bit of a code that negates its difference.
fn sign_bit(variant: Variant) -> u8
    ensures { (result ≡ sign_bit variant) × (0 < result) }
{
    match variant {
        Variant::H => 8,
        Variant::L | Variant::LPlus => 4,
    }
}

// The difference that a code stands for, at an index.
fn delta(coding: Coding, index: StepIndex, code: u8) -> i32
    ensures { (result ≡ difference coding.version coding.variant (step_at index.value) code) × (nat_abs result ≤ 65535) }
{
    let negative = code / sign_bit(coding.variant) % 2 == 1;
    signed::with_sign(negative, size_of(coding, index, code))
}

// What a code adds to the index.
#[tactic(auto, using(crate::proofs::Bounds::adjustment_read, crate::proofs::Bounds::three, crate::proofs::Bounds::adjustment_three), unfolding(sqv4_format::specs::Tables::h_index_adjust, sqv4_format::specs::Tables::l_index_adjust))]
fn adjustment(variant: Variant, code: u8) -> i32
    requires { code < 2 ^ bits variant }
    ensures { (result ≡ adjustment variant code) × (nat_abs result ≤ 9) }
{
    match variant {
        Variant::H => H_INDEX_ADJUST[code as usize],
        Variant::L | Variant::LPlus => {
            let m = (code % 4) as usize;
            L_INDEX_ADJUST[m]
        }
    }
}

// The predictor after a code.
#[tactic(auto, using(signed::proofs::Laws::back32, signed::proofs::Laws::read16, signed::proofs::Laws::clamp_fits), unfolding(sqv4_format::specs::Step::stepped, sqv4_format::specs::Step::unclamped_predictor))]
pub fn predictor_after(coding: Coding, state: Reached, code: u8) -> i32
    ensures { (result ≡ (stepped coding.version coding.variant state.state code).predictor) × (mag result ≤ 32767) }
{
    signed::add_clamp16(state.state.predictor, delta(coding, state.index(), code))
}

// The state after a code. That the code has the variant's bits is asked, here and in `adjustment`: a type of a code would hold its variant
// too, and each of the 64 bytes that are unpacked at once would have to be made one.
#[tactic(auto, using(signed::proofs::Laws::clamp_to_le), unfolding(sqv4_format::specs::Step::stepped, sqv4_format::specs::Step::unclamped_index))]
pub fn update(coding: Coding, state: Reached, code: u8) -> Reached
    requires { code < 2 ^ bits coding.variant }
    ensures { result.state ≡ stepped coding.version coding.variant state.state code }
{
    let predictor = predictor_after(coding, state, code);
    let adjustment = adjustment(coding.variant, code);
    let top = State::MAX_STEP_INDEX as u32;
    let index = signed::add_clamp_to(state.state.index as u32, adjustment, top) as usize;
    Reached {
        state: State { predictor, index },
    }
}
