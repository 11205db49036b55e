// The chunks of a RIFF/WAVE file: one chunk, and the walk over all of them.
#![tactic(auto)]

ghost use Rattle.std.specs.Prelude.{◌≡◌, ◌+◌, ◌≤◌, length, slice_index};
ghost use Rattle.wav_format.specs.Wave.{letters_at, format_at, chunk_step, walk};
ghost use Rattle.outcome.specs.Table.{answered};

use outcome::Error;
use parts::Part;
use wav_format::{Chunks, Format};

// Whether the four bytes from `at` on are these letters.
#[tactic(auto, using(lists::proofs::Letters::letters_equal, lists::proofs::Parts::tail_all), unfolding(wav_format::specs::Wave::letters_at))]
pub fn letters_at(s: &[u8], at: usize, letters: &[u8; 4]) -> bool
    requires { at + 4 ≤ length s.now }
    ensures { result ≡ letters_at s.now at (slice_index letters.now 0) (slice_index letters.now 1)
        (slice_index letters.now 2) (slice_index letters.now 3) }
{
    s[at..].starts_with(letters)
}

// The fields of a fmt chunk whose contents start at `start`.
#[tactic(auto, unfolding(wav_format::specs::Wave::format_at))]
fn format_at(s: &[u8], start: usize, size: usize) -> Format
    requires { start + 16 ≤ length s.now }
    ensures { result ≡ format_at s.now start size }
{
    Format {
        part: Part { start, size },
        encoding: digits::le::<2>(s, start) as u16,
        channels: digits::le::<2>(s, start + 2) as u16,
        rate: digits::le::<4>(s, start + 4) as u32,
        byte_rate: digits::le::<4>(s, start + 8) as u32,
        align: digits::le::<2>(s, start + 12) as u16,
        bits: digits::le::<2>(s, start + 14) as u16,
    }
}

// The chunk at `c.at`, of a file whose RIFF end is `end`.
#[tactic(auto, using(outcome::proofs::Laws::checks), unfolding(wav_format::specs::Wave::chunk_step))]
fn chunk(file: &[u8], end: usize, c: Chunks) -> Result<Chunks, Error>
    requires { (c.at ≤ end) × (end ≤ length file.now) }
    ensures { answered result ≡ chunk_step file.now end c }
{
    if end - c.at < 8 {
        return Err(Error::ChunkHeader);
    }
    let size = digits::le::<4>(file, c.at + 4) as usize;
    let start = c.at + 8;
    let at = start + size.next_multiple_of(2);
    if end < at {
        return Err(Error::ChunkEnd);
    }
    if letters_at(file, c.at, b"fmt ") {
        if c.format.is_some() || size < 16 {
            return Err(Error::FormatChunk);
        }
        let format = Some(format_at(file, start, size));
        return Ok(Chunks { at, format, ..c });
    }
    if letters_at(file, c.at, b"data") {
        if c.samples.is_some() {
            return Err(Error::DataChunk);
        }
        let samples = Some(Part { start, size });
        return Ok(Chunks { at, samples, ..c });
    }
    Ok(Chunks { at, ..c })
}

// All chunks up to the RIFF end.
pub fn walk_chunks(file: &[u8], end: usize) -> Result<Chunks, Error>
    requires { (12 ≤ end) × (end ≤ length file.now) }
    ensures { answered result ≡ walk file.now end }
{
    let mut c = Chunks {
        at: 12,
        format: None,
        samples: None,
    };
    while c.at < end {
        c = chunk(file, end, c)?;
    }
    Ok(c)
}
