// Where the fragments of a stream lie: frames and their counts, sizes, places.
#![tactic(auto)]

ghost use Rattle.std.specs.Prelude.{◌≡◌, ◌+◌, ◌-◌, ◌*◌, ◌/◌, ◌%◌, ◌^◌, ◌≤◌, ◌<◌, length};
ghost use Rattle.sqv4_format.specs.Layout.{version_for, channels_fit, whole_frame, frames, count, size_in, stream_length, fragment_at_place};

use sqv4_format::{Coded, Header};

// Bytes of a stream's header.
pub const HEADER_SIZE: usize = 16;

// How many frames a stream has. None is empty.
#[tactic(auto, using(sqv4_format::proofs::Sizes::frames_few), unfolding(sqv4_format::specs::Layout::frames))]
fn frame_count(h: Header) -> usize
    ensures { (result ≡ frames h) × (result ≤ h.samples) }
{
    (h.samples as usize).div_ceil(h.coding().frame_samples())
}

// Samples per channel of frame `f`, 0 past the last frame.
#[tactic(auto, unfolding(sqv4_format::specs::Layout::count))]
fn count_at(h: Header, f: usize) -> usize
    ensures { (result ≡ count h f) × (result ≤ 64) }
{
    let whole = h.coding().frame_samples();
    let left = (h.samples as usize).saturating_sub(f.saturating_mul(whole));
    left.min(whole)
}

// Samples per channel of the last frame, 0 where there is none.
fn last_count(h: Header) -> usize
    ensures { (result ≡ count h (frames h - 1)) × (result ≤ 64) }
{
    count_at(h, frame_count(h).saturating_sub(1))
}

// How many fragments a stream has.
pub fn fragment_count(h: Header) -> usize
    ensures { (result ≡ frames h * h.channels) × (result < 2 ^ 40) }
{
    frame_count(h) * (h.channels as usize)
}

// The length of a stream with this header.
pub fn stream_length(h: Header) -> usize
    ensures { result ≡ stream_length h }
{
    HEADER_SIZE + fragment_count(h) * h.coding().fragment_size()
}

// No version has more channels.
pub const MOST_CHANNELS: usize = 2;

// Whether the version has this channel count. No call of `wav_format::one_or_two`: that is the rule of WAV's channel field, this one
// SQV4's, where the version may matter.
#[tactic(auto, unfolding(sqv4_format::specs::Layout::channels_fit))]
pub fn channels_fit(version: u8, channels: u8) -> bool
    ensures { result ≡ channels_fit version channels }
{
    channels == 1 || channels == 2
}

// The version that the encoder writes for a channel count.
pub fn version_for(channels: u8) -> u8
    ensures { result ≡ version_for channels }
{
    sqv4_format::VERSION
}

// The place of a fragment in the file order of a stream: frame by frame, left before right.
#[derive(Clone, Copy)]
pub struct Place {
    pub header: Header,
    pub p: usize,
    ghost within: { p < frames header * header.channels },
}

impl Place {
    // The frame.
    pub fn frame(self) -> usize
        ensures { result ≡ self.p / self.header.channels }
    {
        self.p / (self.header.channels as usize)
    }

    // The channel.
    pub fn channel(self) -> usize
        ensures { (result ≡ self.p % self.header.channels) × (result < self.header.channels) }
    {
        self.p % (self.header.channels as usize)
    }

    // Which of its channel's samples the fragment's first one is.
    #[tactic(auto, using(crate::proofs::Places::frame_start))]
    pub fn first(self) -> usize
        ensures { result ≡ self.p / self.header.channels * whole_frame self.header }
    {
        self.frame() * self.header.coding().frame_samples()
    }

    // How many samples the fragment has: those of a whole frame before the last frame. They lie in the channel. A loop over the places
    // divides nothing at a turn.
    pub fn samples(self) -> usize
        ensures value { result ≡ count self.header (self.p / self.header.channels) }
        ensures high { result ≤ 64 }
        ensures inside { self.p / self.header.channels * whole_frame self.header + result ≤ self.header.samples }
    {
        let header = self.header;
        let fragments = fragment_count(header);
        if self.p + (header.channels as usize) < fragments {
            header.coding().frame_samples()
        } else {
            last_count(header)
        }
    }

    // The byte of the stream where the fragment begins. It ends within the stream.
    #[tactic(auto, using(crate::proofs::Places::places_few, crate::proofs::Places::place_end))]
    pub fn start(self) -> usize
        ensures { (result ≡ 16 + self.p * size_in self.header) × (result + size_in self.header ≤ stream_length self.header) }
    {
        HEADER_SIZE + self.p * self.header.coding().fragment_size()
    }
}

// A file with its header, which has channels and says how long the file is.
#[derive(Clone, Copy)]
pub struct Stream<'a> {
    pub file: &'a [u8],
    pub header: Header,
    ghost channels: { 0 < header.channels },
    ghost whole: { length file.now ≡ stream_length header },
}

impl<'a> Stream<'a> {
    // How many fragments there are.
    pub fn fragments(&self) -> usize
        ensures { (result ≡ frames self.now.header * self.now.header.channels) × (result < 2 ^ 40) }
    {
        fragment_count(self.header)
    }

    // The place `p` of the file order.
    pub fn place(&self, p: usize) -> Place
        requires { p < frames self.now.header * self.now.header.channels }
        ensures { (result.header ≡ self.now.header) × (result.p ≡ p) }
    {
        Place {
            header: self.header,
            p,
        }
    }

    // The fragment at the place `p`.
    #[tactic(auto, using(crate::proofs::Places::part_place))]
    pub fn fragment(&self, p: usize) -> Coded<'a>
        requires { p < frames self.now.header * self.now.header.channels }
        ensures { result.bytes.now ≡ fragment_at_place self.now.header self.now.file.now p }
    {
        let at = self.place(p).start();
        let end = at + self.header.coding().fragment_size();
        Coded {
            bytes: &self.file[at..end],
        }
    }
}
