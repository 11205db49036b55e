// The calls of postlapse for C: the archive libpostlapse.a has one export for each, with the same promise. include/postlapse.h
// declares them. Each is the twin of a call of postlapse: an archive for C exports only functions of its own crate.
#![tactic(auto)]

ghost use Rattle.std.specs.Prelude.{◌≡◌, length};
ghost use Rattle.sqv4_format.specs.Inspect.{inspected, decode_call};
ghost use Rattle.wav_format.specs.Samples.{samples_call};
ghost use Rattle.wav_format.specs.Wave.{read_wave, read_strict};
ghost use Rattle.wav_writer.specs.Writer.{write_call};
ghost use Rattle.postlapse.specs.Answers.{answer_of, header_answer_of, wave_answer_of};
ghost use Rattle.postlapse.specs.Promises.{encode_for_c, fragment_for_c, Fills, Decodes, Plays, PlaysByValue};
ghost use Rattle.postlapse.specs.Lengths.{library_version, fragment_size_for_c, frame_count_for_c, stream_length_for_c};

use postlapse::{Answer, FragmentAnswer, HeaderAnswer, WaveAnswer};
use sqv4_format::State;

// The library's version as a number: major * 10000 + minor * 100 + patch.
#[unsafe(no_mangle)]
pub extern "C" fn postlapse_version() -> u32
    ensures { result ≡ library_version }
{
    postlapse::postlapse_version()
}

// Bytes of a fragment.
#[unsafe(no_mangle)]
pub extern "C" fn postlapse_fragment_size(version: u8, variant: u8) -> Answer
    ensures { result ≡ answer_of (fragment_size_for_c version variant) }
{
    postlapse::postlapse_fragment_size(version, variant)
}

// Frames of a stream of `samples` samples a channel.
#[unsafe(no_mangle)]
pub extern "C" fn postlapse_frame_count(version: u8, samples: u32) -> Answer
    ensures { result ≡ answer_of (frame_count_for_c version samples) }
{
    postlapse::postlapse_frame_count(version, samples)
}

// Bytes of a whole stream of `samples` samples a channel.
#[unsafe(no_mangle)]
pub extern "C" fn postlapse_stream_length(
    version: u8,
    variant: u8,
    channels: u8,
    samples: u32,
) -> Answer
    ensures { result ≡ answer_of (stream_length_for_c version variant channels samples) }
{
    postlapse::postlapse_stream_length(version, variant, channels, samples)
}

// Encodes interleaved samples into `out`, as a stream of version 3, and answers its length.
#[unsafe(no_mangle)]
pub extern "C" fn postlapse_encode(
    pcm: &[i16],
    channels: u8,
    rate: u32,
    variant: u8,
    gain: u8,
    out: &mut [u8],
) -> Answer
    ensures { Fills (encode_for_c variant gain pcm.now channels rate (length out.old))
        out.old result out.new }
{
    postlapse::postlapse_encode(pcm, channels, rate, variant, gain, out)
}

// The header of a stream that is sound throughout.
#[unsafe(no_mangle)]
pub extern "C" fn postlapse_inspect(file: &[u8]) -> HeaderAnswer
    ensures { result ≡ header_answer_of (inspected file.now) }
{
    postlapse::postlapse_inspect(file)
}

// Decodes a whole stream into `out`, its channels interleaved, and answers its header.
#[unsafe(no_mangle)]
pub extern "C" fn postlapse_decode(file: &[u8], out: &mut [i16]) -> HeaderAnswer
    ensures { Decodes (decode_call file.now (length out.old))
        out.old result out.new }
{
    postlapse::postlapse_decode(file, out)
}

// Decodes as many samples of one fragment as `out` has places, at most a frame's, from the channel's state.
#[unsafe(no_mangle)]
pub extern "C" fn postlapse_decode_fragment(
    version: u8,
    variant: u8,
    predictor: i32,
    index: usize,
    fragment: &[u8],
    out: &mut [i16],
) -> FragmentAnswer
    ensures { PlaysByValue (fragment_for_c version variant (record { predictor = predictor; index = index }) fragment.now (length out.old))
        (record { predictor = predictor; index = index }) out.old result out.new }
{
    postlapse::postlapse_decode_fragment(version, variant, predictor, index, fragment, out)
}

// The same with the channel's state lent: predictor and index are stored where the call changes them, and else nothing is.
#[unsafe(no_mangle)]
pub extern "C" fn postlapse_decode_fragment_lent(
    version: u8,
    variant: u8,
    state: &mut State,
    fragment: &[u8],
    out: &mut [i16],
) -> Answer
    ensures { Plays (fragment_for_c version variant state.old fragment.now (length out.old))
        state.old out.old result state.new out.new }
{
    postlapse::postlapse_decode_fragment_lent(version, variant, state, fragment, out)
}

// What a WAV file says, and where its sample bytes lie.
#[unsafe(no_mangle)]
pub extern "C" fn postlapse_read_wave(file: &[u8]) -> WaveAnswer
    ensures { result ≡ wave_answer_of (read_wave file.now) }
{
    postlapse::postlapse_read_wave(file)
}

// The same for a file with a fmt chunk of 16 or 18 bytes, then data, and nothing after the RIFF end.
#[unsafe(no_mangle)]
pub extern "C" fn postlapse_read_strict_wave(file: &[u8]) -> WaveAnswer
    ensures { result ≡ wave_answer_of (read_strict file.now) }
{
    postlapse::postlapse_read_strict_wave(file)
}

// Sample bytes as 16-bit numbers, and how many there are.
#[unsafe(no_mangle)]
pub extern "C" fn postlapse_load_samples(bytes: &[u8], out: &mut [i16]) -> Answer
    ensures { Fills (samples_call bytes.now (length out.old))
        out.old result out.new }
{
    postlapse::postlapse_load_samples(bytes, out)
}

// Writes a WAV file of the interleaved samples to the front of `out`, and answers its length.
#[unsafe(no_mangle)]
pub extern "C" fn postlapse_write_wave(
    channels: u8,
    rate: u32,
    samples: &[i16],
    out: &mut [u8],
) -> Answer
    ensures { Fills (write_call channels rate samples.now (length out.old))
        out.old result out.new }
{
    postlapse::postlapse_write_wave(channels, rate, samples, out)
}

// Each export is the call of its name: a promise changed together with its body away from the header for C would pass the proofs, and the
// program `replay` asks the crate postlapse. The answers are 01's: cases 1, 3 and 7, and a file with a byte behind its RIFF end.
#[cfg(test)]
mod tests {
    use super::*;

    // The WAV file of one sample 1000, mono at 8000, and a byte that strict reading refuses with 42.
    const WAVE: [u8; 47] = [
        82, 73, 70, 70, 38, 0, 0, 0, 87, 65, 86, 69, 102, 109, 116, 32, 16, 0, 0, 0, 1, 0, 1, 0,
        64, 31, 0, 0, 128, 62, 0, 0, 2, 0, 16, 0, 100, 97, 116, 97, 2, 0, 0, 0, 232, 3, 9,
    ];

    // The stream of case 3.
    const STREAM: [u8; 50] = [
        83, 81, 86, 52, 3, 0, 1, 0, 64, 31, 0, 0, 1, 0, 0, 0, 0x08, 0x51, 0x07, 0, 0, 0, 0, 0, 0,
        0, 0, 0, 0, 0, 0, 0, 0, 0, 0, 0, 0, 0, 0, 0, 0, 0, 0, 0, 0, 0, 0, 0, 0, 0,
    ];

    // What an answer with a header says.
    fn said(h: HeaderAnswer) -> (usize, u8, u8, u8, u32, u32) {
        (
            h.refusal, h.version, h.variant, h.channels, h.rate, h.samples,
        )
    }

    // What an answer of a count says.
    fn counted(a: Answer) -> (usize, usize, usize) {
        (a.refusal, a.first, a.second)
    }

    // Every version and variant, and frames that end at 63 samples and at 64.
    #[test]
    fn lengths(rt: HostRuntime) {
        assert_eq!(rt; postlapse_version(), 10000);
        assert_eq!(rt; counted(postlapse_fragment_size(1, 0)), (0, 33, 0));
        assert_eq!(rt; counted(postlapse_fragment_size(1, 1)), (0, 25, 0));
        assert_eq!(rt; counted(postlapse_fragment_size(1, 2)), (0, 25, 0));
        assert_eq!(rt; counted(postlapse_fragment_size(2, 0)), (0, 33, 0));
        assert_eq!(rt; counted(postlapse_fragment_size(2, 1)), (0, 25, 0));
        assert_eq!(rt; counted(postlapse_fragment_size(2, 2)), (0, 25, 0));
        assert_eq!(rt; counted(postlapse_fragment_size(3, 0)), (0, 34, 0));
        assert_eq!(rt; counted(postlapse_fragment_size(3, 1)), (0, 26, 0));
        assert_eq!(rt; counted(postlapse_fragment_size(3, 2)), (0, 26, 0));
        assert_eq!(rt; counted(postlapse_fragment_size(4, 3)), (8, 3, 0));
        assert_eq!(rt; counted(postlapse_fragment_size(4, 2)), (7, 4, 0));
        assert_eq!(rt; counted(postlapse_frame_count(3, 64)), (0, 2, 0));
        assert_eq!(rt; counted(postlapse_frame_count(2, 64)), (0, 1, 0));
        assert_eq!(rt; counted(postlapse_frame_count(0, 64)), (7, 0, 0));
        assert_eq!(rt; counted(postlapse_stream_length(3, 0, 2, 64)), (0, 152, 0));
        assert_eq!(rt; counted(postlapse_stream_length(2, 1, 1, 65)), (0, 66, 0));
        assert_eq!(rt; counted(postlapse_stream_length(4, 3, 3, 64)), (8, 3, 0));
        assert_eq!(rt; counted(postlapse_stream_length(4, 2, 3, 64)), (7, 4, 0));
        assert_eq!(rt; counted(postlapse_stream_length(3, 2, 3, 64)), (1, 3, 0));
    }

    #[test]
    fn streams(rt: HostRuntime) {
        let mut stream = [0u8; 50];
        let a = postlapse_encode(&[1000], 1, 8000, 0, 255, &mut stream);
        assert_eq!(rt; counted(a), (0, 50, 0));
        assert_eq!(rt; stream, STREAM);
        let h = postlapse_inspect(&STREAM);
        assert_eq!(rt; said(h), (0, 3, 0, 1, 8000, 1));
        let mut pcm = [0i16; 1];
        let h = postlapse_decode(&STREAM, &mut pcm);
        assert_eq!(rt; said(h), (0, 3, 0, 1, 8000, 1));
        assert_eq!(rt; pcm, [989]);
    }

    // Version 3 gives back the state that it was given; in version 2 code 7 leads from 0, 0 to 11, 8.
    #[test]
    fn fragments(rt: HostRuntime) {
        let mut pcm = [0i16; 1];
        let a = postlapse_decode_fragment(3, 0, 5, 3, &STREAM[16..], &mut pcm);
        assert_eq!(rt; (a.refusal, a.first, a.predictor, a.index), (0, 1, 5, 3));
        assert_eq!(rt; pcm, [989]);
        let mut fragment = [0u8; 33];
        fragment[0] = 255;
        fragment[1] = 7;
        let mut state = State {
            predictor: 0,
            index: 0,
        };
        let a = postlapse_decode_fragment_lent(2, 0, &mut state, &fragment, &mut pcm);
        assert_eq!(rt;
            (a.refusal, a.first, state.predictor, state.index),
            (0, 1, 11, 8)
        );
        assert_eq!(rt; pcm, [11]);
    }

    #[test]
    fn waves(rt: HostRuntime) {
        let w = postlapse_read_wave(&WAVE);
        assert_eq!(rt;
            (w.refusal, w.channels, w.rate, w.start, w.size),
            (0, 1, 8000, 44, 2)
        );
        assert_eq!(rt; postlapse_read_strict_wave(&WAVE).refusal, 42);
        let mut pcm = [0i16; 1];
        let a = postlapse_load_samples(&WAVE[44..46], &mut pcm);
        assert_eq!(rt; counted(a), (0, 1, 0));
        assert_eq!(rt; pcm, [1000]);
        let mut file = [9u8; 47];
        let a = postlapse_write_wave(1, 8000, &[1000], &mut file);
        assert_eq!(rt; counted(a), (0, 46, 0));
        assert_eq!(rt; file, WAVE);
    }
}
