// Reading of WAV files, plain and strict: what a file says, and its sample bytes as a part of it.
#![tactic(auto)]

ghost use Rattle.std.specs.Prelude.{◌≡◌, length};
ghost use Rattle.wav_format.specs.Wave.{read_wave, read_strict, part_of};
ghost use Rattle.outcome.specs.Table.{answered};

use outcome::Error;
use wav_format::Wave;

// Plain reading: what a WAV file says and where its samples lie, or the first refusal of 20 to 33.
#[tactic(auto, using(outcome::proofs::Laws::checks), unfolding(outcome::specs::Outcome::and_then, wav_format::specs::Wave::read_wave))]
pub fn read_pcm16_wave(file: &[u8]) -> Result<Wave, Error>
    ensures { answered result ≡ read_wave file.now }
{
    if file.len() < 12
        || !wav_chunks::letters_at(file, 0, b"RIFF")
        || !wav_chunks::letters_at(file, 8, b"WAVE")
    {
        return Err(Error::NotWave);
    }
    let end = digits::le::<4>(file, 4) as usize + 8;
    if end < 12 || file.len() < end {
        return Err(Error::RiffEnd);
    }
    let chunks = wav_chunks::walk_chunks(file, end)?;
    wav_checks::check_chunks(end, chunks)
}

// The samples that an answer points at, as a part of the file. Empty for a refusal.
#[tactic(auto, unfolding(wav_format::specs::Wave::part_of))]
fn shown(file: &[u8], answer: Result<Wave, Error>) -> &[u8]
    ensures { result.now ≡ part_of file.now (answered answer) }
{
    match answer {
        Ok(wave) => parts::shown(file, wave.samples),
        Err(_) => &[],
    }
}

// The sample bytes, as a part of the file. Empty where plain reading refuses.
pub fn wave_samples(file: &[u8]) -> &[u8]
    ensures { result.now ≡ part_of file.now (read_wave file.now) }
{
    shown(file, read_pcm16_wave(file))
}

// Strict reading: plain reading, and then the checks 40 to 42.
#[tactic(auto, unfolding(outcome::specs::Outcome::and_then, wav_format::specs::Wave::read_strict))]
pub fn read_strict(file: &[u8]) -> Result<Wave, Error>
    ensures { answered result ≡ read_strict file.now }
{
    wav_checks::check_strict(file, read_pcm16_wave(file)?)
}

// The sample bytes, as a part of the file. Empty where strict reading refuses.
pub fn strict_samples(file: &[u8]) -> &[u8]
    ensures { result.now ≡ part_of file.now (read_strict file.now) }
{
    shown(file, read_strict(file))
}
