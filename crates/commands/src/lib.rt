// What the two programs print: the converter's stream, the inspector's report, and the line of a refusal.
#![tactic(auto)]

ghost use Rattle.std.specs.Prelude.{◌≡◌, ◌≤◌, ◌<◌, List, [], ℕ, length, take, IfSome, OnOk};
ghost use Rattle.std.specs.Io.KnownBytes.{Appends};
ghost use Rattle.outcome.specs.Outcome.{Outcome, refused};
ghost use Rattle.outcome.specs.Table.{number_of, values_of, Gives};
ghost use Rattle.io.specs.Counts.{IsPrefixLen};
ghost use Rattle.text.specs.Text.{Put};
ghost use Rattle.report_lines.specs.Lines.{refusal_line};
ghost use Rattle.commands.specs.Commands.{printed, converted, report, reported};

use arrayvec::ArrayVec;
use layout::Stream;
use outcome::Error;
use sqv4_format::{Settings, Variant};
use std::io;
use std::io::{Read, Write};
use text::Printer;

// The most bytes that a program takes, and what it reads into: one byte more, so that a longer input is seen.
pub const MOST_INPUT: usize = 65536;

pub const READ_AT_MOST: usize = MOST_INPUT + 1;

// The most samples that an input has.
const MOST_SAMPLES: usize = MOST_INPUT / 2;

// Room for the longest answer: a header's line and the lines of 2,620 fragments, of at most 128 bytes each. The streams are shorter.
// The output is lent and its later places stay, so how many bytes of it are the answer comes back beside it.
pub const OUTPUT_SIZE: usize = 335488;

// The line of a refusal, at the front of the output. The answer is how many bytes there are.
fn put_refusal(error: Error, out: &mut [u8; OUTPUT_SIZE]) -> usize
    ensures { Put out.old 0 (refusal_line (number_of error) (values_of error)) out.new result }
{
    let mut page = Printer::new(out);
    report_lines::refusal_line(&mut page, error);
    page.count()
}

// The report on a stream, at the front of the output. That the input has at most MOST_INPUT bytes is asked here and in the two functions
// below: what each takes of it is of another type.
fn put_report(stream: &Stream, out: &mut [u8; OUTPUT_SIZE]) -> usize
    requires { length stream.now.file.now ≤ 65536 }
    ensures { Put out.old 0 (report stream.now.file.now stream.now.header) out.new result }
{
    let mut page = Printer::new(out);
    report_lines::header_line(&mut page, stream.header);
    for p in 0..stream.fragments() {
        report_lines::fragment_line(&mut page, stream, p);
    }
    page.count()
}

// The report on the stream that the input is, at the front of the output.
#[tactic(auto, using(outcome::proofs::Laws::checks), unfolding(crate::specs::Commands::reported, outcome::specs::Outcome::on_result, outcome::specs::Outcome::output_after))]
fn inspect(input: &[u8], out: &mut [u8; OUTPUT_SIZE]) -> Result<usize, Error>
    requires { length input.now ≤ 65536 }
    ensures { Gives (reported input.now) out.old result out.new }
{
    let header = inspect::inspect(input)?;
    Ok(put_report(
        &Stream {
            file: input,
            header,
        },
        out,
    ))
}

// The stream that the input's variant byte, gain byte and WAV give, at the front of the output.
fn encode(input: &[u8], out: &mut [u8; OUTPUT_SIZE]) -> Result<usize, Error>
    requires { length input.now ≤ 65536 }
    ensures { Gives (converted input.now) out.old result out.new }
{
    let [variant, gain, file @ ..] = input else {
        return Err(Error::InputSize);
    };
    let settings = Settings {
        variant: Variant::try_from(*variant)?,
        gain: *gain,
    };
    let wave = wav::read_pcm16_wave(file)?;
    let mut pcm = [0i16; MOST_SAMPLES];
    let samples = parts::shown(file, wave.samples);
    let count = wav_samples::load_samples(samples, &mut pcm)?;
    let channels = wave.channels as u8;
    encoder::encode(settings, &pcm[..count], channels, wave.rate, out)
}

// What a command prints: the result that it gives for an input of at most MOST_INPUT bytes, which is at the front of the output then, or
// the line of a refusal. The answer is how many bytes there are.
fn print<F: Fn(&[u8], &mut [u8; OUTPUT_SIZE]) -> Result<usize, Error>>(
    input: &[u8],
    out: &mut [u8; OUTPUT_SIZE],
    command: F,
) -> usize
    requires { (lent : _) → length input.now ≤ 65536 → F.pre command input lent }
    ensures { (o : Outcome (List ℕ)) → (65536 < length input.now → refused 38 [] ≡ o)
        → ((lent : _) (answer : _) (after : _) → F.post command input.entry lent answer after → Gives o lent.now answer after.now)
        → IsPrefixLen result out.new × Put out.old 0 (printed o) out.new result }
{
    if MOST_INPUT < input.len() {
        return put_refusal(Error::InputSize, out);
    }
    match command(input, out) {
        Ok(count) => count,
        Err(error) => put_refusal(error, out),
    }
}

// The converter: the stream that the variant byte, the gain byte and the WAV of the input give, or a refusal's line, at the front of the
// output. The answer is how many bytes there are.
pub fn convert(input: &[u8], out: &mut [u8; OUTPUT_SIZE]) -> usize
    ensures prefix_len { IsPrefixLen result out.new }
    ensures put { Put out.old 0 (printed (converted input.now)) out.new result }
{
    print(input, out, encode)
}

// The inspector: the report on the stream that the input is, or a refusal's line, at the front of the output. The answer is how many bytes
// there are.
pub fn report(input: &[u8], out: &mut [u8; OUTPUT_SIZE]) -> usize
    ensures prefix_len { IsPrefixLen result out.new }
    ensures put { Put out.old 0 (printed (reported input.now)) out.new result }
{
    print(input, out, inspect)
}

// Internal: a program. It reads what it takes and one byte. What is left of standard input no contract says: tests/command tries it.
pub fn run<R: Read + Drop, W: Write, F: Fn(&[u8], &mut [u8; OUTPUT_SIZE]) -> usize>(
    source: R,
    sink: &mut W,
    command: F,
) -> io::Result<()>
    requires callable { F.IsAlwaysCallable command }
    requires prints { (input : _) (out : _) (count : _) (after : _) → F.post command input out count after → IsPrefixLen count after.now }
    ensures { OnOk result ((input : _) × (out : _) × (count : _) × (after : _) × F.post command input out count after
        × (length input.now ≤ READ_AT_MOST) × IfSome (R.remaining source) (λ bytes. input.now ≡ take READ_AT_MOST bytes)
        × Appends (W.contents sink.old) (W.contents sink.new) (take count after.now)) }
{
    let mut input = ArrayVec::<u8, READ_AT_MOST>::new();
    io::copy(&mut source.take(READ_AT_MOST as u64), &mut input)?;
    let mut out = [0u8; OUTPUT_SIZE];
    let count = command(input.as_slice(), &mut out);
    sink.write_all(&out[..count])
}
