// The checks on the chunks of a WAV file: those of plain reading, after the walk, and those of strict reading.
#![tactic(auto)]

ghost use Rattle.std.specs.Prelude.{◌≡◌};
ghost use Rattle.wav_format.specs.Wave.{check_format, check_chunks, strict_size, check_strict};
ghost use Rattle.outcome.specs.Table.{answered};

use outcome::Error;
use wav_format::{Chunks, Format, Wave};

// The checks 27 to 31, on the fields of the fmt chunk. The answer is a frame's bytes.
#[tactic(auto, using(outcome::proofs::Laws::checks), unfolding(wav_format::specs::Wave::check_format, wav_format::specs::Wave::pcm16, wav_format::specs::Wave::consistent))]
fn check_format(f: Format) -> Result<usize, Error>
    ensures { answered result
        ≡ check_format f.encoding f.channels f.rate f.byte_rate f.align f.bits }
{
    if f.encoding != 1 || f.bits != 16 {
        return Err(Error::Encoding);
    }
    if !wav_format::one_or_two(f.channels) {
        return Err(Error::WaveChannels);
    }
    if f.rate == 0 {
        return Err(Error::ZeroWaveRate);
    }
    let frame = wav_format::frame_bytes(f.channels);
    let byte_rate = f.rate.checked_mul(frame).ok_or(Error::ByteRate)?;
    if f.align as u32 != frame || f.byte_rate != byte_rate {
        return Err(Error::Inconsistent);
    }
    Ok(frame as usize)
}

// The checks 26 to 33, after the walk.
#[tactic(auto, using(outcome::proofs::Laws::checks, wav_format::proofs::Steps::frame_some), unfolding(outcome::specs::Outcome::and_then, wav_format::specs::Wave::found, wav_format::specs::Wave::check_chunks, wav_format::specs::Wave::check_data))]
pub fn check_chunks(end: usize, c: Chunks) -> Result<Wave, Error>
    ensures { answered result ≡ check_chunks end c }
{
    let f = c.format.ok_or(Error::NoFormat)?;
    let frame = check_format(f)?;
    let samples = c.samples.ok_or(Error::NoData)?;
    if samples.size % frame != 0 {
        return Err(Error::PartialFrame);
    }
    Ok(Wave {
        channels: f.channels,
        rate: f.rate,
        samples,
        format: f.part,
        end,
    })
}

// Whether strict reading accepts a fmt chunk of this size.
#[tactic(auto, unfolding(wav_format::specs::Wave::strict_size))]
fn strict_size(size: usize) -> bool
    ensures { result ≡ strict_size size }
{
    size == 16 || size == 18
}

// The checks 40 to 42, on a file that plain reading accepts.
#[tactic(auto, using(outcome::proofs::Laws::checks), unfolding(wav_format::specs::Wave::check_strict))]
pub fn check_strict(file: &[u8], w: Wave) -> Result<Wave, Error>
    ensures { answered result ≡ check_strict file.now w }
{
    if !strict_size(w.format.size) {
        return Err(Error::StrictFormat);
    }
    if w.samples.start < w.format.start {
        return Err(Error::StrictOrder);
    }
    if w.end < file.len() {
        return Err(Error::StrictEnd);
    }
    Ok(w)
}
