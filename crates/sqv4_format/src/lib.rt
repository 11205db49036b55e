// The types of SQV4: variant, decoder state, header, and the encoder's settings. The rules of 01 stand as
// definitions in specs/, and what is proved of them is listed in proofs/Claims.antt.
#![tactic(auto)]

ghost use Rattle.std.specs.Prelude.{◌≡◌, ◌≤◌, true, false, length, MatchOption};
ghost use Rattle.sqv4_format.specs.Layout.{encoder_version, known_version, anew, bits, payload_bytes, prefix, fragment_size, frame_samples, volume_byte, index_byte, payload, variant_byte, variant_of};
ghost use Rattle.sqv4_format.specs.Decode.{zero_state, fragment_start, InRange};
ghost use Rattle.outcome.specs.Table.{answered};

use outcome::Error;

// The version that the encoder writes.
pub const VERSION: u8 = 3;

// A stream's variant: codes of 4 bits (H) or of 3 bits (L, L+).
#[derive(Clone, Copy, PartialEq, Eq)]
pub enum Variant {
    H,
    L,
    LPlus,
}

impl Variant {
    // Samples of a version 3 fragment, and the bytes before its codes: volume and step index.
    pub const FRAGMENT_SAMPLES: usize = 63;

    pub const FRAGMENT_PREFIX: usize = 2;

    // Samples of a fragment in versions 1 and 2, and the byte before its codes: volume.
    pub const LEGACY_FRAGMENT_SAMPLES: usize = 64;

    pub const LEGACY_FRAGMENT_PREFIX: usize = 1;

    // Bits of a code.
    pub fn bits(self) -> usize
        ensures { result ≡ bits self }
    {
        match self {
            Variant::H => 4,
            Variant::L => 3,
            Variant::LPlus => 3,
        }
    }

    // Bytes of a fragment's packed codes: 63 codes rounded up to whole bytes, which 64 codes fill.
    #[tactic(auto, using(crate::proofs::Sizes::payload_rounded))]
    pub fn payload_bytes(self) -> usize
        ensures { result ≡ payload_bytes self }
    {
        (Self::FRAGMENT_SAMPLES * self.bits()).div_ceil(8)
    }
}

// The variant's byte in a header.
impl From<Variant> for u8 {
    ghost from_gives = { λ variant byte. byte ≡ variant_byte variant };

    fn from(variant: Variant) -> u8 {
        match variant {
            Variant::H => 0,
            Variant::L => 1,
            Variant::LPlus => 2,
        }
    }
}

// The variant that a byte names, or refusal 8.
impl TryFrom<u8> for Variant {
    type Error = Error;

    ghost try_from_gives = { λ byte answer. answered answer ≡ variant_of byte };

    #[tactic(auto, using(crate::proofs::Variants::no_variant), unfolding(crate::specs::Layout::variant_of))]
    fn try_from(byte: u8) -> Result<Variant, Error> {
        match byte {
            0 => Ok(Variant::H),
            1 => Ok(Variant::L),
            2 => Ok(Variant::LPlus),
            _ => Err(Error::InvalidVariant(byte)),
        }
    }
}

// Whether the version is one of 1..=3.
#[tactic(auto, unfolding(crate::specs::Layout::known_version))]
pub fn known_version(version: u8) -> bool
    ensures { result ≡ known_version version }
{
    matches!(version, 1..=3)
}

// Whether the fragments of a version start anew, at predictor 0 and a stored index.
pub fn starts_anew(version: u8) -> bool
    ensures { result ≡ anew version }
{
    3 <= version
}

// How the fragments of a stream are coded: by its version and its variant. The version stays a number, since the rules compare it and
// the calls take any: an enum of the three would ask more of those who make a Coding.
#[derive(Clone, Copy)]
pub struct Coding {
    pub version: u8,
    pub variant: Variant,
}

impl Coding {
    // How the encoder codes a variant.
    pub fn written(variant: Variant) -> Coding
        ensures { result ≡ record { version = encoder_version; variant = variant } }
    {
        Coding {
            version: VERSION,
            variant,
        }
    }

    // Whether each fragment starts anew.
    pub fn starts_anew(self) -> bool
        ensures { result ≡ anew self.version }
    {
        starts_anew(self.version)
    }

    // Samples per channel of a whole frame.
    pub fn frame_samples(self) -> usize
        ensures value { result ≡ frame_samples self.version }
        ensures low { 63 ≤ result }
        ensures high { result ≤ 64 }
    {
        if self.starts_anew() {
            Variant::FRAGMENT_SAMPLES
        } else {
            Variant::LEGACY_FRAGMENT_SAMPLES
        }
    }

    // Bytes of a fragment before its codes.
    pub fn prefix_size(self) -> usize
        ensures value { result ≡ prefix self.version }
        ensures low { 1 ≤ result }
        ensures high { result ≤ 2 }
    {
        if self.starts_anew() {
            Variant::FRAGMENT_PREFIX
        } else {
            Variant::LEGACY_FRAGMENT_PREFIX
        }
    }

    // Bytes of a fragment.
    pub fn fragment_size(self) -> usize
        ensures value { result ≡ fragment_size self.version self.variant }
        ensures low { 25 ≤ result }
        ensures high { result ≤ 34 }
    {
        self.prefix_size() + self.variant.payload_bytes()
    }
}

// The bytes of a fragment, which has at least the two of the longer prefix.
#[derive(Clone, Copy)]
pub struct Coded<'a> {
    pub bytes: &'a [u8],
    ghost long: { 2 ≤ length bytes.now },
}

impl<'a> Coded<'a> {
    // The volume.
    pub fn volume(&self) -> u8
        ensures { result ≡ volume_byte self.now.bytes.now }
    {
        self.bytes[0]
    }

    // The index byte, where fragments start anew; others store none.
    pub fn index(&self, coding: Coding) -> Option<u8>
        ensures { MatchOption result (anew coding.version ≡ false)
            (λ index. (anew coding.version ≡ true) × (index ≡ index_byte self.now.bytes.now)) }
    {
        coding.starts_anew().then_some(self.bytes[1])
    }

    // The packed codes.
    pub fn payload(&self, coding: Coding) -> &'a [u8]
        ensures { result.now ≡ payload coding.version self.now.bytes.now }
    {
        &self.bytes[coding.prefix_size()..]
    }
}

// A channel's decoder state, laid out for C.
#[repr(C)]
#[derive(Clone, Copy)]
pub struct State {
    pub predictor: i32,
    pub index: usize,
}

impl State {
    pub const MAX_STEP_INDEX: u8 = 88;
}

// An index of the 89 steps.
#[derive(Clone, Copy)]
pub struct StepIndex {
    pub value: usize,
    ghost in_table: { value ≤ 88 },
}

// A state that a decoding reaches: its predictor is of 16 bits, and its index at most 88.
#[derive(Clone, Copy)]
pub struct Reached {
    pub state: State,
    ghost in_range: { InRange state },
}

impl Reached {
    // Its index.
    pub fn index(self) -> StepIndex
        ensures { result.value ≡ self.state.index }
    {
        StepIndex {
            value: self.state.index,
        }
    }

    // The state of a channel before its first fragment.
    pub fn zero() -> Reached
        ensures { result.state ≡ zero_state }
    {
        Reached {
            state: State {
                predictor: 0,
                index: 0,
            },
        }
    }

    // The state at the start of a version 3 fragment whose index byte is `index`; a byte above 88 counts as 88.
    #[tactic(auto, unfolding(crate::specs::Decode::fragment_start))]
    pub fn fragment_start(index: u8) -> Reached
        ensures { result.state ≡ fragment_start index }
    {
        Reached {
            state: State {
                predictor: 0,
                index: index.min(State::MAX_STEP_INDEX) as usize,
            },
        }
    }
}

// A state of a caller's own, if it is one of a decoding; else refusal 15.
impl TryFrom<State> for Reached {
    ghost use Rattle.std.specs.Prelude.{◌&&◌, leb, MatchResult};
    ghost use Rattle.std.specs.Int.Signed.{mag};
    ghost use Rattle.outcome.specs.declared.Error.TheVariants.{InvalidState};

    type Error = Error;

    ghost try_from_gives = { λ state answer. MatchResult answer (λ reached. reached.state ≡ state)
        (λ error. (error ≡ InvalidState) × ((leb (mag state.predictor) 32767 && leb state.index 88) ≡ false)) };

    fn try_from(state: State) -> Result<Reached, Error> {
        if i16::try_from(state.predictor).is_err() || state.index > State::MAX_STEP_INDEX as usize {
            return Err(Error::InvalidState);
        }
        Ok(Reached { state })
    }
}

// What a stream's header says: the rate, and the samples of each channel. Version and variant stand by themselves, as in 01's header;
// `coding` has the two together.
#[derive(Clone, Copy)]
pub struct Header {
    pub version: u8,
    pub variant: Variant,
    pub channels: u8,
    pub rate: u32,
    pub samples: u32,
}

impl Header {
    // How the stream's fragments are coded. By a name, since a header is more than its coding.
    pub fn coding(self) -> Coding
        ensures { result ≡ record { version = self.version; variant = self.variant } }
    {
        Coding {
            version: self.version,
            variant: self.variant,
        }
    }
}

// What a caller of the encoder picks: the variant, and the pre-gain of which 255 leaves the samples as they are.
#[derive(Clone, Copy)]
pub struct Settings {
    pub variant: Variant,
    pub gain: u8,
}
