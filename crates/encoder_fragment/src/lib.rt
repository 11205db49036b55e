// Encoding one fragment: the codes of the trial from a start index, the best start, which `encoder_search` finds, and the fragment's bytes.
#![tactic(auto)]

ghost use Rattle.std.specs.Prelude.{◌≡◌, ◌∷◌, map, ℕ, ℤ, ◌-◌, ◌<◌, ◌≤◌, ◌^◌, length, get_or, take};
ghost use Rattle.digits.specs.Digits.{packed};
ghost use Rattle.sqv4_format.specs.Layout.{encoder_version, fragment_size};
ghost use Rattle.sqv4_format.specs.Gain.{pregained};
ghost use Rattle.sqv4_format.specs.Encode.{target, trial_to, best_trial, fragment_bytes, encoded_fragment};

use digits::Codes;
use encoder_search::Fragment;
use encoder_step::Coder;
use sqv4_format::{Coding, Reached, Settings};

// What a function gives of the samples, at the front of 63 places. An array, here and in `codes_from`: the callers have the count of what
// they lend of it.
fn mapped<F: Fn(i16) -> i16>(xs: &[i16], f: F) -> [i16; 63]
    requires few { length xs.now ≤ 63 }
    requires callable { F.IsAlwaysCallable f }
    ensures { (g : ℤ → ℤ) → ((x y : ℤ) → F.post f x y → y ≡ g x) → take (length xs.now) result ≡ map g xs.now }
{
    let mut ys = [0i16; 63];
    for (i, x) in xs.iter().enumerate() {
        ys[i] = f(*x);
    }
    ys
}

// What the codes of a sample go toward: the sample at the fragment's full scale.
fn target(settings: Settings, volume: u8, sample: i16) -> i16
    requires { 0 < volume }
    ensures { result ≡ target settings volume sample }
{
    gain::normalise(sample, volume)
}

// The codes of the trial from a start index, one for each sample from place 0 on.
fn codes_from(fragment: Fragment, index: u8) -> [u8; 63]
    ensures { take (length fragment.entry.xs.now) result ≡ (trial_to fragment.entry.coder.now.settings fragment.entry.volume fragment.entry.xs.now index (length fragment.entry.xs.now)).codes }
{
    let variant = fragment.coder.settings.variant;
    let coding = Coding::written(variant);
    let mut state = Reached::fragment_start(index);
    let mut codes = [0u8; 63];
    for (i, target) in fragment.targets.iter().enumerate() {
        let code = encoder_choice::encode_code(variant, state, *target);
        state = adpcm::update(coding, state, code);
        codes[i] = code;
    }
    codes
}

// A fragment's bytes that fill `out`: volume, index, and the codes packed into the rest.
#[tactic(auto, using(crate::proofs::Front::rest_length, crate::proofs::Front::rest_put))]
fn put_fragment(out: &mut [u8], volume: u8, index: u8, codes: Codes)
    requires { (2 ≤ length out.old) × (length out.old < 2 ^ 32) }
    ensures { out.new ≡ volume ∷ index ∷ packed codes.entry.bits (length out.old - 2) codes.entry.codes.now }
{
    out[0] = volume;
    out[1] = index;
    digits::pack_codes(codes, &mut out[2..]);
}

// The bytes of a fragment that is not silent: of the trials from 0..=88 the one with the least sum, the lowest start at equality.
#[tactic(auto, using(sqv4_format::proofs::Trials::best_wrote, crate::proofs::Bested::best_from), unfolding(sqv4_format::specs::Encode::fragment_bytes))]
fn put_best(fragment: Fragment, out: &mut [u8])
    requires { length out.old ≡ fragment_size encoder_version fragment.coder.now.settings.variant }
    ensures { out.new ≡ fragment_bytes fragment.entry.coder.now.settings.variant fragment.entry.volume (best_trial fragment.entry.coder.now.settings fragment.entry.volume fragment.entry.xs.now) }
{
    let count = fragment.xs.len();
    let found = fragment.best_start();
    let codes = codes_from(fragment, found.index);
    let codes = Codes {
        codes: &codes[..count],
        bits: fragment.coder.settings.variant.bits(),
    };
    put_fragment(out, fragment.volume, found.index, codes);
}

// The fragment of at most 63 samples, which fills `out`. Samples that are all 0 take the short way; others can be silent after pre-gain.
pub fn encode_fragment(coder: &Coder, samples: &[i16], out: &mut [u8])
    requires { (length samples.now ≤ 63) × (length out.old ≡ fragment_size encoder_version coder.now.settings.variant) }
    ensures { out.new ≡ encoded_fragment coder.now.settings samples.now }
{
    if gain::peak_of(samples) == 0 {
        out.fill(0);
        return;
    }
    let count = samples.len();
    let pre_gained = mapped(samples, |x| gain::pre_gain(x, coder.settings.gain));
    let xs = &pre_gained[..count];
    let volume = gain::fragment_volume(xs);
    if volume == 0 {
        out.fill(0);
        return;
    }
    let targets = mapped(xs, |x| target(coder.settings, volume, x));
    let targets = &targets[..count];
    let fragment = Fragment {
        coder,
        volume,
        xs,
        targets,
    };
    put_best(fragment, out);
}
