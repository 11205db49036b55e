// The interface for C and Rust: the public calls of the codec, of its lengths and of WAV reading and writing under plain names, with answers
// by value.
#![tactic(auto)]

ghost use Rattle.std.specs.Prelude.{◌≡◌, length};
ghost use Rattle.outcome.specs.Outcome.{on_result, output_after};
ghost use Rattle.sqv4_format.specs.Decode.{moves};
ghost use Rattle.sqv4_format.specs.Inspect.{inspected, decode_call};
ghost use Rattle.outcome.specs.Table.{refusal, answered, Gives};
ghost use Rattle.wav_format.specs.Samples.{samples_call};
ghost use Rattle.wav_format.specs.Wave.{read_wave, read_strict};
ghost use Rattle.wav_writer.specs.Writer.{write_call};
ghost use Rattle.postlapse.specs.Answers.{answer_of, header_answer_of, wave_answer_of, with_state};
ghost use Rattle.postlapse.specs.Promises.{encode_for_c, fragment_for_c, Fills, Decodes, Plays, PlaysAs, PlaysByValue};
ghost use Rattle.postlapse.specs.Lengths.{library_version, fragment_size_for_c, frame_count_for_c, stream_length_for_c};

use fragment::WithState;
use outcome::{Error, ReturnedNumbers};
use sqv4_format::{Coding, Header, State, Variant};
use wav_format::Wave;

// A refusal of 0 and a count, of what was written or what was asked for; else the number in 01's table and its returned numbers, 0 where
// there are none. These structs are laid out for C, which has no Result: the refusal stands as a number, and each has all its numbers side
// by side, as postlapse.h names them.
#[repr(C)]
#[derive(Clone, Copy, Default)]
pub struct Answer {
    pub refusal: usize,
    pub first: usize,
    pub second: usize,
}

// A header, or a refusal as in `Answer`. What the other would fill is 0.
#[repr(C)]
#[derive(Clone, Copy, Default)]
pub struct HeaderAnswer {
    pub refusal: usize,
    pub first: usize,
    pub second: usize,
    pub version: u8,
    pub variant: u8,
    pub channels: u8,
    pub rate: u32,
    pub samples: u32,
}

// What a WAV file says, and where in it the sample bytes lie; or the number of a refusal, and zeros.
#[repr(C)]
#[derive(Clone, Copy, Default)]
pub struct WaveAnswer {
    pub refusal: usize,
    pub channels: u16,
    pub rate: u32,
    pub start: usize,
    pub size: usize,
}

// What decoding one fragment gives: a count or a refusal as in `Answer`, and the channel's state after the call.
#[repr(C)]
#[derive(Clone, Copy)]
pub struct FragmentAnswer {
    pub refusal: usize,
    pub first: usize,
    pub predictor: i32,
    pub index: usize,
}

// ---- the answers of the crates below, as these structs

// A refusal.
#[tactic(auto, unfolding(crate::specs::Answers::answer_of))]
fn refused(error: Error) -> Answer
    ensures { result ≡ answer_of (refusal error) }
{
    let refusal = error.number() as usize;
    match error.values() {
        ReturnedNumbers::Zero => Answer {
            refusal,
            ..Answer::default()
        },
        ReturnedNumbers::One(first) => Answer {
            refusal,
            first,
            ..Answer::default()
        },
        ReturnedNumbers::Two(first, second) => Answer {
            refusal,
            first,
            second,
        },
    }
}

impl From<Result<usize, Error>> for Answer {
    ghost from_gives = { λ given answer. answer ≡ answer_of (answered given) };

    #[tactic(auto, unfolding(crate::specs::Answers::answer_of))]
    fn from(given: Result<usize, Error>) -> Answer {
        match given {
            Ok(first) => Answer {
                first,
                ..Answer::default()
            },
            Err(error) => refused(error),
        }
    }
}

impl From<Result<Header, Error>> for HeaderAnswer {
    ghost from_gives = { λ given answer. answer ≡ header_answer_of (answered given) };

    #[tactic(auto, unfolding(crate::specs::Answers::answer_of, crate::specs::Answers::header_answer_of))]
    fn from(given: Result<Header, Error>) -> HeaderAnswer {
        match given {
            Ok(header) => {
                let variant = u8::from(header.variant);
                HeaderAnswer {
                    version: header.version,
                    variant,
                    channels: header.channels,
                    rate: header.rate,
                    samples: header.samples,
                    ..HeaderAnswer::default()
                }
            }
            Err(error) => {
                let answer = refused(error);
                HeaderAnswer {
                    refusal: answer.refusal,
                    first: answer.first,
                    second: answer.second,
                    ..HeaderAnswer::default()
                }
            }
        }
    }
}

impl From<Result<Wave, Error>> for WaveAnswer {
    ghost from_gives = { λ given answer. answer ≡ wave_answer_of (answered given) };

    #[tactic(auto, unfolding(crate::specs::Answers::wave_answer_of))]
    fn from(given: Result<Wave, Error>) -> WaveAnswer {
        match given {
            Ok(wave) => WaveAnswer {
                channels: wave.channels,
                rate: wave.rate,
                start: wave.samples.start,
                size: wave.samples.size,
                ..WaveAnswer::default()
            },
            Err(error) => WaveAnswer {
                refusal: error.number() as usize,
                ..WaveAnswer::default()
            },
        }
    }
}

impl From<WithState<Answer>> for FragmentAnswer {
    ghost from_gives = { λ given answer. answer ≡ with_state given.answer given.state };

    fn from(given: WithState<Answer>) -> FragmentAnswer {
        FragmentAnswer {
            refusal: given.answer.refusal,
            first: given.answer.first,
            predictor: given.state.predictor,
            index: given.state.index,
        }
    }
}

// ---- the calls

// The library's version as a number: major * 10000 + minor * 100 + patch.
pub fn postlapse_version() -> u32
    ensures { result ≡ library_version }
{
    10000
}

// Bytes of a fragment of the variant that a byte names.
#[tactic(auto, using(outcome::proofs::Laws::checks), unfolding(outcome::specs::Outcome::and_then, crate::specs::Lengths::fragment_size_for_c))]
fn fragment_size(version: u8, byte: u8) -> Result<usize, Error>
    ensures { answered result ≡ fragment_size_for_c version byte }
{
    let variant = Variant::try_from(byte)?;
    if !sqv4_format::known_version(version) {
        return Err(Error::UnsupportedVersion(version));
    }
    Ok(Coding { version, variant }.fragment_size())
}

// Bytes of a fragment.
pub fn postlapse_fragment_size(version: u8, variant: u8) -> Answer
    ensures { result ≡ answer_of (fragment_size_for_c version variant) }
{
    Answer::from(fragment_size(version, variant))
}

// Frames of a stream: the fragments of each of its channels, whatever its variant, channels and rate.
#[tactic(auto, using(outcome::proofs::Laws::checks), unfolding(sqv4_format::specs::Layout::frames, crate::specs::Lengths::frame_count_for_c))]
fn frame_count(version: u8, samples: u32) -> Result<usize, Error>
    ensures { answered result ≡ frame_count_for_c version samples }
{
    if !sqv4_format::known_version(version) {
        return Err(Error::UnsupportedVersion(version));
    }
    Ok(layout::fragment_count(Header {
        version,
        variant: Variant::H,
        channels: 1,
        rate: 0,
        samples,
    }))
}

// Frames of a stream of `samples` samples a channel.
pub fn postlapse_frame_count(version: u8, samples: u32) -> Answer
    ensures { result ≡ answer_of (frame_count_for_c version samples) }
{
    Answer::from(frame_count(version, samples))
}

// Bytes of a whole stream, whatever its rate, of the variant that a byte names.
#[tactic(auto, using(outcome::proofs::Laws::checks), unfolding(outcome::specs::Outcome::and_then, crate::specs::Lengths::stream_length_for_c))]
fn stream_length(version: u8, byte: u8, channels: u8, samples: u32) -> Result<usize, Error>
    ensures { answered result ≡ stream_length_for_c version byte channels samples }
{
    let variant = Variant::try_from(byte)?;
    if !sqv4_format::known_version(version) {
        return Err(Error::UnsupportedVersion(version));
    }
    if !layout::channels_fit(version, channels) {
        return Err(Error::InvalidChannels(channels));
    }
    Ok(layout::stream_length(Header {
        version,
        variant,
        channels,
        rate: 0,
        samples,
    }))
}

// Bytes of a whole stream of `samples` samples a channel.
pub fn postlapse_stream_length(version: u8, variant: u8, channels: u8, samples: u32) -> Answer
    ensures { result ≡ answer_of (stream_length_for_c version variant channels samples) }
{
    Answer::from(stream_length(version, variant, channels, samples))
}

// Encodes at the variant that a byte names.
fn encode(
    pcm: &[i16],
    channels: u8,
    rate: u32,
    byte: u8,
    gain: u8,
    out: &mut [u8],
) -> Result<usize, Error>
    ensures { Gives (encode_for_c byte gain pcm.now channels rate (length out.old)) out.old result out.new }
{
    let variant = Variant::try_from(byte)?;
    encoder::encode_interleaved(pcm, channels, rate, variant, gain, out)
}

// Encodes interleaved samples into `out`, as a stream of version 3, and answers its length.
pub fn postlapse_encode(
    pcm: &[i16],
    channels: u8,
    rate: u32,
    variant: u8,
    gain: u8,
    out: &mut [u8],
) -> Answer
    ensures { Fills (encode_for_c variant gain pcm.now channels rate (length out.old))
        out.old result out.new }
{
    Answer::from(encode(pcm, channels, rate, variant, gain, out))
}

// The header of a stream that is sound throughout.
pub fn postlapse_inspect(file: &[u8]) -> HeaderAnswer
    ensures { result ≡ header_answer_of (inspected file.now) }
{
    HeaderAnswer::from(inspect::inspect(file))
}

// Decodes a whole stream into `out`, its channels interleaved, and answers its header.
pub fn postlapse_decode(file: &[u8], out: &mut [i16]) -> HeaderAnswer
    ensures { Decodes (decode_call file.now (length out.old))
        out.old result out.new }
{
    HeaderAnswer::from(decoder::decode(file, out))
}

// Whether a call changes the channel's state: a result of a version whose fragments don't start anew.
#[tactic(auto, using(crate::proofs::Laws::moves_carried, crate::proofs::Laws::moves_anew))]
fn moves(version: u8, answer: &Result<usize, Error>) -> bool
    ensures { result ≡ moves version (answered answer.now) }
{
    !sqv4_format::starts_anew(version) && answer.is_ok()
}

// Decodes one fragment of the variant that a byte names.
fn play(
    version: u8,
    byte: u8,
    state: State,
    fragment: &[u8],
    out: &mut [i16],
) -> WithState<Result<usize, Error>>
    ensures { PlaysAs (fragment_for_c version byte state fragment.now (length out.old)) state out.old (answered result.answer) result.state out.new }
{
    match Variant::try_from(byte) {
        Ok(variant) => fragment::decode_one(version, variant, state, fragment, out),
        Err(error) => WithState {
            answer: Err(error),
            state,
        },
    }
}

// Decodes as many samples of one fragment as `out` has places, at most a frame's, from the channel's state.
pub fn postlapse_decode_fragment(
    version: u8,
    variant: u8,
    predictor: i32,
    index: usize,
    fragment: &[u8],
    out: &mut [i16],
) -> FragmentAnswer
    ensures { PlaysByValue (fragment_for_c version variant (record { predictor = predictor; index = index }) fragment.now (length out.old))
        (record { predictor = predictor; index = index }) out.old result out.new }
{
    let played = play(version, variant, State { predictor, index }, fragment, out);
    FragmentAnswer::from(WithState {
        answer: Answer::from(played.answer),
        state: played.state,
    })
}

// The same with the channel's state lent: predictor and index are stored where the call changes them, and else nothing is.
pub fn postlapse_decode_fragment_lent(
    version: u8,
    variant: u8,
    state: &mut State,
    fragment: &[u8],
    out: &mut [i16],
) -> Answer
    ensures { Plays (fragment_for_c version variant state.old fragment.now (length out.old))
        state.old out.old result state.new out.new }
{
    let played = play(version, variant, *state, fragment, out);
    if moves(version, &played.answer) {
        // Field by field: a caller's bytes between the two, which C's struct has, stay as they were.
        state.predictor = played.state.predictor;
        state.index = played.state.index;
    }
    Answer::from(played.answer)
}

// The lent form with plain parameters: a local state is lent to it, and comes back with the answer. `replay` asks it at every recorded
// fragment beside the form by value, which has the same parameters.
pub fn decode_through_lent(
    version: u8,
    variant: u8,
    state: State,
    fragment: &[u8],
    out: &mut [i16],
) -> WithState<Answer>
    ensures { Plays (fragment_for_c version variant state fragment.now (length out.old))
        state out.old result.answer result.state out.new }
{
    let mut state = state;
    let answer = postlapse_decode_fragment_lent(version, variant, &mut state, fragment, out);
    WithState { answer, state }
}

// What a WAV file says, and where its sample bytes lie.
pub fn postlapse_read_wave(file: &[u8]) -> WaveAnswer
    ensures { result ≡ wave_answer_of (read_wave file.now) }
{
    WaveAnswer::from(wav::read_pcm16_wave(file))
}

// The same for a file with a fmt chunk of 16 or 18 bytes, then data, and nothing after the RIFF end.
pub fn postlapse_read_strict_wave(file: &[u8]) -> WaveAnswer
    ensures { result ≡ wave_answer_of (read_strict file.now) }
{
    WaveAnswer::from(wav::read_strict(file))
}

// Sample bytes as 16-bit numbers, and how many there are.
pub fn postlapse_load_samples(bytes: &[u8], out: &mut [i16]) -> Answer
    ensures { Fills (samples_call bytes.now (length out.old))
        out.old result out.new }
{
    Answer::from(wav_samples::load_samples(bytes, out))
}

// Writes a WAV file of the interleaved samples to the front of `out`, and answers its length.
pub fn postlapse_write_wave(channels: u8, rate: u32, samples: &[i16], out: &mut [u8]) -> Answer
    ensures { Fills (write_call channels rate samples.now (length out.old))
        out.old result out.new }
{
    Answer::from(wav_writer::write_pcm16_wave(channels, rate, samples, out))
}
