// The samples of a WAV file: its sample bytes as 16-bit numbers.
#![tactic(auto)]

ghost use Rattle.std.specs.Prelude.{length};
ghost use Rattle.outcome.specs.Table.{Gives};
ghost use Rattle.wav_format.specs.Samples.{samples_call};

use outcome::Error;

// The samples of sample bytes, written to the front of `out`, and how many there are. A refusal leaves `out` as it was.
#[tactic(auto, using(outcome::proofs::Laws::checks), unfolding(wav_format::specs::Samples::samples_call, outcome::specs::Outcome::on_result, outcome::specs::Outcome::output_after))]
pub fn load_samples(bytes: &[u8], out: &mut [i16]) -> Result<usize, Error>
    ensures { Gives (samples_call bytes.now (length out.old)) out.old result out.new }
{
    let n = bytes.len() / 2;
    if out.len() < n {
        return Err(Error::OutputTooShort(n));
    }
    // The bytes by their places: of the items of a zip with `chunks_exact` a proof knows nothing.
    for (i, sample) in out[..n].iter_mut().enumerate() {
        *sample = signed::sample_of(bytes[2 * i], bytes[2 * i + 1]);
    }
    Ok(n)
}
