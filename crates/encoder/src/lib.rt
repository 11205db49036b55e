// The encoder of whole streams: the header, and each frame's fragments, left before right.
#![tactic(auto)]

ghost use Rattle.std.specs.Prelude.{◌≡◌, ◌++◌, ◌+◌, ◌-◌, ◌*◌, ◌/◌, ◌<◌, ◌≤◌, pos, length, take, drop, get_or};
ghost use Rattle.lists.specs.Lists.{joined, written};
ghost use Rattle.outcome.specs.Table.{Gives};
ghost use Rattle.sqv4_format.specs.Layout.{encoder_version, fragment_size, header_bytes, frames, stream_length};
ghost use Rattle.sqv4_format.specs.Encode.{fragment_for, header_written, encode_call};

use encoder_step::Coder;
use layout::Place;
use outcome::Error;
use sqv4_format::{Header, Settings, Variant};

// The 16 bytes of a header, by the definition's name.
fn header_bytes(h: Header) -> [u8; 16]
    ensures { result ≡ header_bytes h }
{
    let mut bytes = [
        b'S',
        b'Q',
        b'V',
        b'4',
        h.version,
        u8::from(h.variant),
        h.channels,
        0,
        0,
        0,
        0,
        0,
        0,
        0,
        0,
        0,
    ];
    digits::put_le::<4>(&mut bytes, 8, h.rate as u64);
    digits::put_le::<4>(&mut bytes, 12, h.samples as u64);
    bytes
}

// The 16 bytes of a header, at the front of `out`.
fn put_header(out: &mut [u8], h: Header)
    requires { 16 ≤ length out.old }
    ensures { out.new ≡ header_bytes h ++ drop 16 out.old }
{
    out[..layout::HEADER_SIZE].copy_from_slice(&header_bytes(h));
}

// The fragments of the encoding with this header, in file order, behind the 16 bytes of the header. Each part of the output is lent by its
// place, since a proof doesn't know what `chunks_exact_mut` leaves.
fn put_fragments(coder: &Coder, pcm: &[i16], h: Header, out: &mut [u8])
    requires some { 0 < h.channels }
    requires written { h ≡ header_written coder.now.settings pcm.now h.channels h.rate }
    requires long { stream_length h ≤ length out.old }
    ensures { out.new ≡ written out.old 16 (joined (fragment_for coder.now.settings pcm.now h.channels) (frames h * h.channels)) }
{
    let channels = h.channels as usize;
    let size = h.coding().fragment_size();
    for p in 0..layout::fragment_count(h) {
        let place = Place { header: h, p };
        let mut samples = [0i16; Variant::FRAGMENT_SAMPLES];
        let samples = &mut samples[..place.samples()];
        interleave::gather(pcm, place.first(), channels, place.channel(), samples);
        let at = place.start();
        let end = at + size;
        encoder_fragment::encode_fragment(coder, samples, &mut out[at..end]);
    }
}

// Encodes interleaved samples at the caller's settings into `out`, as a stream of version 3, and answers its length. A refusal leaves the
// output as it was. Samples, channels and rate stay three parameters here, in the WAV writer and in the calls for C, as in the reference
// Rust: a struct would be made and taken apart at each.
#[tactic(auto, using(outcome::proofs::Laws::checks), unfolding(sqv4_format::specs::Encode::encode_call, sqv4_format::specs::Encode::too_many, sqv4_format::specs::Encode::header_written, outcome::specs::Outcome::on_result, outcome::specs::Outcome::output_after))]
pub fn encode(
    settings: Settings,
    pcm: &[i16],
    channels: u8,
    rate: u32,
    out: &mut [u8],
) -> Result<usize, Error>
    ensures { Gives (encode_call settings pcm.now channels rate (length out.old)) out.old result out.new }
{
    let version = layout::version_for(channels);
    if !layout::channels_fit(version, channels) {
        return Err(Error::InvalidChannels(channels));
    }
    if rate == 0 {
        return Err(Error::ZeroSampleRate);
    }
    let count = channels as usize;
    if pcm.len() % count != 0 {
        return Err(Error::MisalignedInterleavedSamples);
    }
    let Ok(samples) = u32::try_from(pcm.len() / count) else {
        return Err(Error::TooManySamples);
    };
    let h = Header {
        version,
        variant: settings.variant,
        channels,
        rate,
        samples,
    };
    let needed = layout::stream_length(h);
    if out.len() < needed {
        return Err(Error::OutputTooShort(needed));
    }
    put_header(out, h);
    put_fragments(&Coder::new(settings), pcm, h, out);
    Ok(needed)
}

// The same, by the reference Rust's name and with its parameters: README and DECISIONS name it as an entry point.
pub fn encode_interleaved(
    pcm: &[i16],
    channels: u8,
    rate: u32,
    variant: Variant,
    gain: u8,
    out: &mut [u8],
) -> Result<usize, Error>
    ensures { Gives (encode_call (record { variant = variant; gain = gain }) pcm.now channels rate (length out.old)) out.old result out.new }
{
    encode(Settings { variant, gain }, pcm, channels, rate, out)
}
