// Writing of WAV files: a 44-byte header, then the samples.
#![tactic(auto)]

ghost use Rattle.std.specs.Prelude.{◌≡◌, ◌++◌, ◌+◌, ◌*◌, ◌≤◌, length, drop};
ghost use Rattle.outcome.specs.Table.{Gives};
ghost use Rattle.wav_format.specs.Wave.{frame_bytes};
ghost use Rattle.wav_writer.specs.Writer.{wave_header, sample_bytes, write_call};

use outcome::Error;

// The 44 bytes before `size` bytes of samples: those that every file has, fmt's size 16, encoding 1 and 16 bits among them, and the fields
// that differ.
#[tactic(auto, unfolding(crate::specs::Writer::wave_header, digits::specs::Digits::digits))]
fn wave_header(channels: u8, rate: u32, byte_rate: u32, riff: u32, size: u32) -> [u8; 44]
    requires { (byte_rate ≡ rate * frame_bytes channels) × (riff ≡ size + 36) }
    ensures { result ≡ wave_header channels rate size }
{
    let align = wav_format::frame_bytes(channels as u16);
    let mut header =
        *b"RIFF\0\0\0\0WAVEfmt \x10\0\0\0\x01\0\0\0\0\0\0\0\0\0\0\0\0\0\x10\0data\0\0\0\0";
    digits::put_le::<4>(&mut header, 4, riff as u64);
    digits::put_le::<2>(&mut header, 22, channels as u64);
    digits::put_le::<4>(&mut header, 24, rate as u64);
    digits::put_le::<4>(&mut header, 28, byte_rate as u64);
    digits::put_le::<2>(&mut header, 32, align as u64);
    digits::put_le::<4>(&mut header, 40, size as u64);
    header
}

// The samples, two bytes each, from the front of `out` on, by their places, since a proof doesn't know what `chunks_exact_mut` leaves.
fn put_samples(samples: &[i16], out: &mut [u8])
    requires { 2 * length samples.now ≤ length out.old }
    ensures { out.new ≡ sample_bytes samples.now ++ drop (2 * length samples.now) out.old }
{
    for (i, sample) in samples.iter().enumerate() {
        let bytes = signed::sample_bytes(*sample);
        out[2 * i..2 * i + 2].copy_from_slice(&bytes);
    }
}

// Writes a WAV file of the samples, which are interleaved, to the front of `out`, and answers its length. Rate 0 and a partial frame
// are accepted; a refusal leaves the output as it was.
#[tactic(auto, using(outcome::proofs::Laws::checks), unfolding(crate::specs::Writer::write_call, outcome::specs::Outcome::on_result, outcome::specs::Outcome::output_after))]
pub fn write_pcm16_wave(
    channels: u8,
    rate: u32,
    samples: &[i16],
    out: &mut [u8],
) -> Result<usize, Error>
    ensures { Gives (write_call channels rate samples.now (length out.old)) out.old result out.new }
{
    if !wav_format::one_or_two(channels as u16) {
        return Err(Error::WriterChannels);
    }
    let Ok(size) = u32::try_from(2 * samples.len()) else {
        return Err(Error::DataSize);
    };
    let riff = size.checked_add(36).ok_or(Error::RiffSize)?;
    let byte_rate = rate
        .checked_mul(wav_format::frame_bytes(channels as u16))
        .ok_or(Error::WriterByteRate)?;
    let needed = 44 + size as usize;
    if out.len() < needed {
        return Err(Error::OutputTooShort(needed));
    }
    let header = wave_header(channels, rate, byte_rate, riff, size);
    out[..44].copy_from_slice(&header);
    put_samples(samples, &mut out[44..]);
    Ok(needed)
}
