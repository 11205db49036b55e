// Lists of questions with the answers that were recorded for them. A program that replays lists asks each question of its own functions,
// and prints for each list how many answers there are and how many differ. oracle/README.md has the layout.
#![tactic(auto)]

ghost use Rattle.std.specs.Prelude.{◌≡◌, take};
ghost use Rattle.io.specs.Counts.{IsPrefixLen};
ghost use Rattle.text.specs.Printer.{Printed};
ghost use Rattle.wav_writer.specs.Writer.{sample_bytes};
ghost use Rattle.records.specs.Bytes.{state_bytes};

mod kind;
mod list;
mod question;

use commands::OUTPUT_SIZE;
pub use kind::Kind;
pub use list::replay;
pub use question::{Fragment, Question};
use sqv4_format::State;
use text::Printer;

// The first n elements, all where there are no more.
pub fn front<T>(s: &[T], n: usize) -> &[T]
    ensures { result.now ≡ take n s.now }
{
    if n < s.len() { &s[..n] } else { s }
}

// Puts what a program prints for an input into an answer.
pub fn put_printed<F: Fn(&[u8], &mut [u8; OUTPUT_SIZE]) -> usize>(
    answer: &mut Printer,
    input: &[u8],
    command: F,
)
    requires callable { F.IsAlwaysCallable command }
    requires prints { (input : _) (out : _) (count : _) (after : _) → F.post command input out count after → IsPrefixLen count after.now }
    ensures { (out : _) × (count : _) × (after : _) × F.post command input.entry out count after × Printed answer.old (take count after.now) answer.new }
{
    let mut out = [0u8; OUTPUT_SIZE];
    let count = command(input, &mut out);
    answer.put(&out[..count]);
}

// Puts samples into an answer, two bytes each.
pub fn put_samples(answer: &mut Printer, samples: &[i16])
    ensures { Printed answer.old (sample_bytes samples.now) answer.new }
{
    for sample in samples {
        answer.put(&signed::sample_bytes(*sample));
    }
}

// Puts a decoder's state into an answer: whether the predictor is negative, its magnitude, and the index.
pub fn put_state(answer: &mut Printer, state: State)
    ensures { Printed answer.old (state_bytes state) answer.new }
{
    answer.put(&[u8::from(state.predictor.is_negative())]);
    answer.put(&u64::from(state.predictor.unsigned_abs()).to_le_bytes());
    answer.put(&state.index.to_le_bytes());
}
