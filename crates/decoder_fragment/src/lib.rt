// Decoding the fragments of a stream by tables: their codes are unpacked, the depths of all predictors found, then the output gain
// applied to all, so that each loop is small and has no branch. Fragments that do not wait for each other go side by side, in lanes.
#![tactic(auto)]

ghost use Rattle.std.specs.Prelude.{◌≡◌, ℕ, ◌+◌, ◌*◌, ◌/◌, ◌<◌, ◌≤◌, ◌^◌, pos, ◌-ℤ◌, [], length, get_or};
ghost use Rattle.lists.specs.Lists.{tabulate};
ghost use Rattle.digits.specs.Digits.{unpacked};
ghost use Rattle.sqv4_format.specs.Layout.{bits, payload_bytes, fragment_size, frames, count};
ghost use Rattle.sqv4_format.specs.Gain.{output_gain};
ghost use Rattle.sqv4_format.specs.declared.Reached.{Reached};
ghost use Rattle.decoder_tables.specs.Lookup.{state_of};
ghost use Rattle.decoder_tables.specs.declared.Kept.{Kept};
ghost use Rattle.decoder_fragment.specs.Groups.{Groups};
ghost use Rattle.decoder_fragment.specs.Play.{AllRan, Started, Finished, Played};

use decoder_tables::{Kept, Tables};
use layout::Stream;
use sqv4_format::{Coded, Coding, Reached, Variant};

// Codes of BITS bits, CODES of them in BYTES bytes. The loop's end is no constant, so that sixteen bytes of codes of 4 bits are unpacked
// at a time.
fn unpack_groups<const BITS: usize, const BYTES: usize, const CODES: usize>(
    payload: &[u8],
    codes: &mut [u8; 64],
)
    requires { Groups BITS BYTES CODES (length payload.now) }
    ensures { codes.new ≡ unpacked BITS 64 payload.now }
{
    for i in 0..payload.len() / BYTES {
        let mut word = digits::le::<BYTES>(payload, BYTES * i);
        for j in 0..CODES {
            codes[CODES * i + j] = (word % (1 << BITS)) as u8;
            word = word / (1 << BITS);
        }
    }
}

// The sixty-four codes of a payload. `digits::unpack_codes` gives the same codes, at any width and a byte at a time; this one has the
// widths as constants, for whole streams, and of H it unpacks sixteen bytes at a time. By the plain forms of this and of `run` single
// fragments are decoded at 1.6 times the Rust's speed (docs/SPEED.md), and the bar of whole streams is 4.
fn unpack(variant: Variant, payload: &[u8], codes: &mut [u8; 64])
    requires { length payload.now ≡ payload_bytes variant }
    ensures { codes.new ≡ unpacked (bits variant) 64 payload.now }
{
    // A match, since the widths are constants, and the variant a value that the stream names.
    match variant {
        Variant::H => unpack_groups::<4, 1, 2>(payload, codes),
        Variant::L | Variant::LPlus => unpack_groups::<3, 3, 8>(payload, codes),
    }
}

// The depths after each of the first n codes of each lane, and the states after them. `fragment_plain::decode_codes` gives the same states
// by arithmetic: it is the plain form, which stays for the decoder of single fragments. Sixty-four places, of which n are used: the loop
// of the gain has a constant end.
fn run<const N: usize>(
    tables: Tables,
    lanes: &mut [Kept; N],
    codes: &[[u8; 64]; N],
    n: usize,
    depths: &mut [[u16; 64]; N],
)
    requires few { n ≤ 64 }
    requires same { (k : ℕ) → k < N → (d : Kept) → (get_or lanes.old k d).variant ≡ tables.coding.variant }
    requires small { (k i : ℕ) → k < N → get_or (get_or codes.now k []) i 0 < 2 ^ bits tables.coding.variant }
    requires long { (k : ℕ) → k < N → length (get_or depths.old k []) ≡ 64 }
    ensures { AllRan tables.coding.version tables.coding.variant codes.now lanes.old N n depths.new lanes.new }
{
    // In each turn every lane runs one code, so that no lane waits for another; the index serves three arrays.
    for i in 0..n {
        for k in 0..N {
            let next = tables.step(lanes[k], codes[k][i]);
            depths[k][i] = next.depth();
            lanes[k] = next;
        }
    }
}

// The output gain, for every depth.
fn apply_gain(coding: Coding, depths: &[u16; 64], volume: u8, samples: &mut [i16; 64])
    ensures { samples.new ≡ tabulate (λ i. output_gain coding.version volume (pos 32767 -ℤ pos (get_or depths.now i 0))) 64 }
{
    for (i, sample) in samples.iter_mut().enumerate() {
        *sample = gain::output_gain(coding, signed::at_depth(depths[i] as u32), volume);
    }
}

// A fragment is unpacked, and its lane stands at the state before its first code.
fn start(tables: Tables, fragment: &Coded, state: Reached, codes: &mut [u8; 64]) -> Kept
    requires { length fragment.now.bytes.now ≡ fragment_size tables.coding.version tables.coding.variant }
    ensures { Started tables.coding.version tables.coding.variant fragment.now.bytes.now state.state codes.new result }
{
    let coding = tables.coding;
    unpack(coding.variant, fragment.payload(coding), codes);
    tables.keep(fragment_plain::state_before(coding, state, fragment))
}

// The samples of a fragment from its depths, and the state after it.
fn finish(
    coding: Coding,
    fragment: &Coded,
    state: Reached,
    lane: Kept,
    depths: &[u16; 64],
    samples: &mut [i16; 64],
) -> Reached
    ensures { Finished coding.version fragment.now.bytes.now state.state (state_of lane.variant lane.table_state) depths.now samples.new result.state }
{
    apply_gain(coding, depths, fragment.volume(), samples);
    fragment_plain::state_after(coding, state, lane.state())
}

// A stream with the tables of its coding.
#[derive(Clone, Copy)]
pub struct Player<'a> {
    pub stream: Stream<'a>,
    tables: Tables,
    ghost same_version: { tables.coding.version ≡ stream.header.version },
    ghost same_variant: { tables.coding.variant ≡ stream.header.variant },
}

impl<'a> Player<'a> {
    // The player of a stream.
    pub fn of(stream: Stream<'a>) -> Player<'a>
        ensures { (result.stream.header ≡ stream.entry.header) × (result.stream.file.now ≡ stream.entry.file.now) }
    {
        Player {
            stream,
            tables: Tables::of(stream.header.coding()),
        }
    }

    // The fragments from place `p` on, one for each state: as many samples of each as the first has, at the front, and the states after
    // them.
    pub fn play<const N: usize>(
        self,
        p: usize,
        states: [Reached; N],
        samples: &mut [[i16; 64]; N],
    ) -> [Reached; N]
        requires { (0 < N) × (p + N ≤ frames self.stream.header * self.stream.header.channels) }
        ensures { (k : ℕ) → k < N → (d : Reached) → Played self.entry.stream.header self.entry.stream.file.now (p + k)
            (count self.entry.stream.header (p / self.entry.stream.header.channels)) (get_or states.entry k d).state (get_or result k d).state (get_or samples.new k []) }
    {
        // Codes, lanes, depths and samples are arrays of their own, not one array of structs: so each loop is small, and that of the
        // gain goes over 16-bit numbers alone, several at a time (docs/SPEED.md). The loops over k use their index for all of them.
        let mut codes = [[0u8; 64]; N];
        let mut lanes = [self.tables.keep(Reached::zero()); N];
        for k in 0..N {
            lanes[k] = start(
                self.tables,
                &self.stream.fragment(p + k),
                states[k],
                &mut codes[k],
            );
        }
        let n = self.stream.place(p).samples();
        let mut depths = [[0u16; 64]; N];
        run(self.tables, &mut lanes, &codes, n, &mut depths);
        let mut after = states;
        for k in 0..N {
            let fragment = self.stream.fragment(p + k);
            after[k] = finish(
                self.tables.coding,
                &fragment,
                states[k],
                lanes[k],
                &depths[k],
                &mut samples[k],
            );
        }
        after
    }
}
