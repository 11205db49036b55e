// The types of WAV files: chunks, and what a file says. This crate is to WAV what `sqv4_format` is to SQV4: the rules of reading stand
// as definitions in specs/, and what is proved of them in proofs/.
#![tactic(auto)]

ghost use Rattle.std.specs.Prelude.{◌≡◌};
ghost use Rattle.wav_format.specs.Wave.{frame_bytes, one_or_two};

use parts::Part;

// The fmt chunk; its part is its contents.
#[derive(Clone, Copy)]
pub struct Format {
    pub part: Part,
    pub encoding: u16,
    pub channels: u16,
    pub rate: u32,
    pub byte_rate: u32,
    pub align: u16,
    pub bits: u16,
}

// What the chunks up to byte `at` hold: the fmt chunk, and the data chunk's contents, the samples.
#[derive(Clone, Copy)]
pub struct Chunks {
    pub at: usize,
    pub format: Option<Format>,
    pub samples: Option<Part>,
}

// What a WAV file says, and where its samples lie. `format` and `end`, the RIFF end, are for strict reading.
#[derive(Clone, Copy)]
pub struct Wave {
    pub channels: u16,
    pub rate: u32,
    pub samples: Part,
    pub format: Part,
    pub end: usize,
}

// Bytes of a frame: two for each channel.
pub fn frame_bytes(channels: u16) -> u32
    ensures { result ≡ frame_bytes channels }
{
    channels as u32 * 2
}

// Whether a channel count is 1 or 2.
#[tactic(auto, unfolding(crate::specs::Wave::one_or_two))]
pub fn one_or_two(n: u16) -> bool
    ensures { result ≡ one_or_two n }
{
    n == 1 || n == 2
}
