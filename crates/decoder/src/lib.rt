// The decoder of whole streams: each fragment in file order, with one state for each channel.
#![tactic(auto)]

ghost use Rattle.std.specs.Prelude.{◌≡◌, ℕ, ◌+◌, ◌*◌, ◌%◌, ◌<◌, ◌≤◌, List, ℤ, pos, length};
ghost use Rattle.sqv4_format.specs.Layout.{frames};
ghost use Rattle.layout.specs.declared.TheConstants.{MOST_CHANNELS};
ghost use Rattle.sqv4_format.specs.Promises.{AsDecoded};
ghost use Rattle.decoder.specs.Loops.{put_at, InStep, Decoding, loop_out};

use decoder_fragment::Player;
use layout::{Place, Stream};
use outcome::Error;
use sqv4_format::{Header, Reached};

// The samples of the fragment at a place go into the output, sample t of channel c to t * channels + c. The output's length stands in three
// contracts: a type for it would have to hold the place here, the player there, and lend `out`. In line: else decoding took a tenth longer.
#[inline(always)]
fn put(place: Place, samples: &[i16; 64], out: &mut [i16])
    requires { place.header.samples * place.header.channels ≤ length out.old }
    ensures { out.new ≡ put_at place.header place.p samples.now out.old }
{
    interleave::spread(
        out,
        &samples[..place.samples()],
        place.first(),
        place.header.channels as usize,
        place.channel(),
    );
}

// The turns of N fragments from place `p` on, side by side: their samples go into the output, and their channels' states move on. There is
// a state for each channel.
fn decode_lanes<const N: usize>(player: Player, p: usize, states: &mut [Reached], out: &mut [i16])
    requires some { 0 < N }
    requires within { p + N ≤ frames player.stream.header * player.stream.header.channels }
    requires in_step { InStep player.stream.header p N }
    requires states { player.stream.header.channels ≤ length states.old }
    requires room { player.stream.header.samples * player.stream.header.channels ≤ length out.old }
    ensures { (o : List ℤ) → Decoding player.entry.stream.header player.entry.stream.file.now o p out.old states.old
        → Decoding player.entry.stream.header player.entry.stream.file.now o (p + N) out.new states.new }
{
    let channels = player.stream.header.channels as usize;
    let mut before = [Reached::zero(); N];
    for (k, state) in before.iter_mut().enumerate() {
        *state = states[(p + k) % channels];
    }
    let mut samples = [[0i16; 64]; N];
    let after = player.play(p, before, &mut samples);
    for (k, state) in after.iter().enumerate() {
        put(player.stream.place(p + k), &samples[k], out);
        states[(p + k) % channels] = *state;
    }
}

// How many pairs of fragments are decoded side by side: the two channels of a frame, or any two fragments that start anew, do not
// wait for each other.
fn pairs(header: Header, fragments: usize) -> usize
    ensures { (2 * result ≤ fragments) × (header.channels ≡ 2 → fragments < 2 * result + 2) × ((i : ℕ) → i < result → InStep header (2 * i) 2) }
{
    if header.channels == 2 || header.coding().starts_anew() {
        fragments / 2
    } else {
        0
    }
}

// The samples of every fragment, in file order, with one state for each channel. Here alone the number of channels has a bound.
fn decode_fragments(player: Player, out: &mut [i16])
    requires { (player.stream.header.channels ≤ MOST_CHANNELS) × (player.stream.header.samples * player.stream.header.channels ≤ length out.old) }
    ensures { out.new ≡ loop_out player.entry.stream.header player.entry.stream.file.now out.old (frames player.entry.stream.header * player.entry.stream.header.channels) }
{
    let fragments = player.stream.fragments();
    let pairs = pairs(player.stream.header, fragments);
    let mut states = [Reached::zero(); layout::MOST_CHANNELS];
    for i in 0..pairs {
        decode_lanes::<2>(player, 2 * i, &mut states, out);
    }
    for p in 2 * pairs..fragments {
        decode_lanes::<1>(player, p, &mut states, out);
    }
}

// Decodes a whole stream into `out`: sample t of channel c goes to t * channels + c. Inspection comes first, then the check of the
// output's room; a refusal leaves the output as it was.
pub fn decode(file: &[u8], out: &mut [i16]) -> Result<Header, Error>
    ensures { AsDecoded file.now out.old result out.new }
{
    let header = inspect::inspect(file)?;
    let needed = header.samples as usize * header.channels as usize;
    if out.len() < needed {
        return Err(Error::OutputTooShort(needed));
    }
    decode_fragments(Player::of(Stream { file, header }), out);
    Ok(header)
}
