// Replays answers that were recorded from the Rust and from decoders of IMA ADPCM. Each file of data/ holds questions of one kind, each
// with its answer as bytes: to the calls for C, to the converter and to the inspector. The file ima has more for both decoders, with what
// those of IMA ADPCM gave. The file wrong has questions of every kind with answers that are wrong in one byte, all of which must differ.
// oracle/README.md has the layout. Each question is asked of the proved functions, and the answer's bytes are compared. The program prints
// for each file how many answers there were and how many differ.
#![tactic(auto)]

use postlapse::{Answer, HeaderAnswer, WaveAnswer};
use records::{Fragment, Kind, Question, front};
use sqv4_format::State;
use std::io;
use text::Printer;

// The places of the arrays that are lent to the calls.
const SAMPLES: usize = 1024;

const BYTES: usize = 2092;

// What each place of them holds before a call.
const BYTE: u8 = 165;

const SAMPLE: i16 = -23131;

// The first `count` places of an output; none where a place behind them has been changed.
fn filled<T: PartialEq + Copy>(places: &[T], count: usize, before: T) -> Option<&[T]> {
    let (first, rest) = places.split_at_checked(count)?;
    rest.iter().all(|place| *place == before).then_some(first)
}

// How many places an answer says that the call has filled. An answer for C has its refusal as a number.
fn filled_count(a: Answer) -> usize {
    if a.refusal == 0 { a.first } else { 0 }
}

// Puts the numbers of an answer, in eight bytes each. It says how many places it has filled.
fn put_numbers(answer: &mut Printer, a: Answer) -> usize {
    answer.put(&a.refusal.to_le_bytes());
    answer.put(&a.first.to_le_bytes());
    answer.put(&a.second.to_le_bytes());
    filled_count(a)
}

// Puts the numbers of an answer, and its header. Here and in `play` the numbers are taken from the struct for C by hand: a conversion
// in postlapse would serve this program alone.
fn put_header(answer: &mut Printer, a: HeaderAnswer) -> usize {
    put_numbers(
        answer,
        Answer {
            refusal: a.refusal,
            first: a.first,
            second: a.second,
        },
    );
    answer.put(&[a.version, a.variant, a.channels]);
    answer.put(&u64::from(a.rate).to_le_bytes());
    answer.put(&u64::from(a.samples).to_le_bytes());
    a.samples as usize * a.channels as usize
}

// Puts the numbers of the fragment decoder's answer, and the state after it.
fn put_played(answer: &mut Printer, a: Answer, state: State) -> usize {
    let count = put_numbers(answer, a);
    records::put_state(answer, state);
    count
}

// The samples of a question's bytes, loaded by the call for C; none where they are too many.
fn load<'a>(bytes: &[u8], pcm: &'a mut [i16]) -> &'a [i16] {
    let count = filled_count(postlapse::postlapse_load_samples(bytes, pcm));
    front(pcm, count)
}

// Asks a call that writes bytes for samples, with so many places for them. The numbers, and the bytes.
fn ask_bytes<F: FnOnce(&[i16], &mut [u8]) -> Answer>(
    answer: &mut Printer,
    samples: &[u8],
    room: usize,
    call: F,
) -> Option<()>
    requires { F.IsAlwaysCallable call }
{
    let mut pcm = [0i16; SAMPLES];
    let mut places = [BYTE; BYTES];
    let a = call(load(samples, &mut pcm), places.get_mut(..room)?);
    let count = put_numbers(answer, a);
    answer.put(filled(&places, count, BYTE)?);
    Some(())
}

// Asks a call that writes samples, with so many places for them. What the call puts into the answer, and the samples.
fn ask_samples<F: FnOnce(&mut Printer, &mut [i16]) -> usize>(
    answer: &mut Printer,
    room: usize,
    call: F,
) -> Option<()>
    requires { F.IsAlwaysCallable call }
{
    let mut pcm = [SAMPLE; SAMPLES];
    let count = call(answer, pcm.get_mut(..room)?);
    records::put_samples(answer, filled(&pcm, count, SAMPLE)?);
    Some(())
}

// Kind 1: variant, gain, channels, rate, room, samples.
fn ask_encoder(mut question: Question, answer: &mut Printer) -> Option<()> {
    let variant = question.get_u8();
    let gain = question.get_u8();
    let channels = question.get_u8();
    let rate = question.get_u32();
    let room = question.get_u32() as usize;
    ask_bytes(answer, question.rest, room, |pcm: &[i16], out: &mut [u8]| {
        postlapse::postlapse_encode(pcm, channels, rate, variant, gain, out)
    })
}

// Kind 8: channels, rate, room, samples.
fn ask_wave_writer(mut question: Question, answer: &mut Printer) -> Option<()> {
    let channels = question.get_u8();
    let rate = question.get_u32();
    let room = question.get_u32() as usize;
    ask_bytes(answer, question.rest, room, |pcm: &[i16], out: &mut [u8]| {
        postlapse::postlapse_write_wave(channels, rate, pcm, out)
    })
}

// Kind 3: room, a stream.
fn ask_decoder(mut question: Question, answer: &mut Printer) -> Option<()> {
    let room = question.get_u32() as usize;
    let stream = question.rest;
    ask_samples(answer, room, |answer: &mut Printer, pcm: &mut [i16]| {
        put_header(answer, postlapse::postlapse_decode(stream, pcm))
    })
}

// Kind 10: room, bytes.
fn ask_sample_reader(mut question: Question, answer: &mut Printer) -> Option<()> {
    let room = question.get_u32() as usize;
    let bytes = question.rest;
    ask_samples(answer, room, |answer: &mut Printer, pcm: &mut [i16]| {
        put_numbers(answer, postlapse::postlapse_load_samples(bytes, pcm))
    })
}

// The fragment decoder with the state by value. Its answer has no second number.
fn play(fragment: Fragment, answer: &mut Printer, pcm: &mut [i16]) -> usize {
    let a = postlapse::postlapse_decode_fragment(
        fragment.version,
        fragment.variant,
        fragment.state.predictor,
        fragment.state.index,
        fragment.bytes,
        pcm,
    );
    let numbers = Answer {
        refusal: a.refusal,
        first: a.first,
        second: 0,
    };
    let state = State {
        predictor: a.predictor,
        index: a.index,
    };
    put_played(answer, numbers, state)
}

// The same with the state lent.
fn play_lent(fragment: Fragment, answer: &mut Printer, pcm: &mut [i16]) -> usize {
    let r = postlapse::decode_through_lent(
        fragment.version,
        fragment.variant,
        fragment.state,
        fragment.bytes,
        pcm,
    );
    put_played(answer, r.answer, r.state)
}

// Kind 7: version, variant, count, state, a fragment. It is asked by value and with the state lent; where the two answers differ, it
// has none.
fn ask_fragment_decoder(question: Question, answer: &mut Printer) -> Option<()> {
    let fragment = question.fragment();
    let count = fragment.count as usize;
    ask_samples(
        answer,
        count,
        |answer: &mut Printer, pcm: &mut [i16]| play(fragment, answer, pcm),
    )?;
    let mut lent_out = [0u8; BYTES];
    let mut lent = Printer::new(&mut lent_out);
    ask_samples(
        &mut lent,
        count,
        |answer: &mut Printer, pcm: &mut [i16]| play_lent(fragment, answer, pcm),
    )?;
    (answer.text() == lent.text()).then_some(())
}

// Kinds 4 and 9: what a WAV file says, and where its sample bytes lie, and these. Where they are not the part of the file that start and
// size name, there is no answer.
fn put_read(answer: &mut Printer, file: &[u8], a: WaveAnswer, samples: &[u8]) -> Option<()> {
    answer.put(&a.refusal.to_le_bytes());
    answer.put(&a.channels.to_le_bytes());
    answer.put(&u64::from(a.rate).to_le_bytes());
    answer.put(&a.start.to_le_bytes());
    answer.put(&a.size.to_le_bytes());
    if samples != file.get(a.start..)?.get(..a.size)? {
        return None;
    }
    answer.put(samples);
    Some(())
}

// Asks a question, and puts its answer. None where it has none, so that `?` leaves it: that counts as an answer of no bytes.
fn ask(mut question: Question, answer: &mut Printer) -> Option<()> {
    let kind = Kind::of(question.get_u8());
    let rest = question.rest;
    match kind {
        Kind::Encoder => ask_encoder(question, answer),
        Kind::Inspection => {
            put_header(answer, postlapse::postlapse_inspect(rest));
            Some(())
        }
        Kind::Decoder => ask_decoder(question, answer),
        Kind::WaveReader => {
            put_read(
                answer,
                rest,
                postlapse::postlapse_read_wave(rest),
                wav::wave_samples(rest),
            )
        }
        Kind::Converter => {
            records::put_printed(answer, rest, commands::convert);
            Some(())
        }
        Kind::Inspector => {
            records::put_printed(answer, rest, commands::report);
            Some(())
        }
        Kind::FragmentDecoder => ask_fragment_decoder(question, answer),
        Kind::WaveWriter => ask_wave_writer(question, answer),
        Kind::StrictReader => put_read(
            answer,
            rest,
            postlapse::postlapse_read_strict_wave(rest),
            wav::strict_samples(rest),
        ),
        Kind::SampleReader => ask_sample_reader(question, answer),
    }
}

fn main(rt: HostRuntime) -> io::Result<()> {
    let names = [
        "encode",
        "inspect",
        "decode",
        "fragment",
        "wav",
        "strict",
        "load",
        "write",
        "converter",
        "inspector",
        "ima",
        "wrong",
    ];
    records::replay(&rt, &names, ask)
}
