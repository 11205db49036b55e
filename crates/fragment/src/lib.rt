// The public decoder for one fragment, by value: its checks.
#![tactic(auto)]

ghost use Rattle.std.specs.Prelude.{◌≡◌, true, false, length, MatchResult};
ghost use Rattle.sqv4_format.specs.Layout.{anew};
ghost use Rattle.sqv4_format.specs.Decode.{fragment_fits, state_fits};
ghost use Rattle.sqv4_format.specs.Promises.{AsCalled};
ghost use Rattle.fragment.specs.Tried.{Filled, Refused};

use outcome::Error;
use sqv4_format::{Coded, Coding, Reached, State, Variant};

// Whether the fragment has its size, and an output of `n` samples is not too long for it.
#[tactic(auto, using(outcome::proofs::Laws::checks), unfolding(sqv4_format::specs::Decode::fragment_fits))]
fn fragment_fits(coding: Coding, fragment: &[u8], n: usize) -> bool
    ensures { result ≡ fragment_fits coding.version coding.variant fragment.now n }
{
    fragment.len() == coding.fragment_size() && n <= coding.frame_samples()
}

// The state to decode from, if it is one of a decoding; a fragment that starts anew takes any, and the zero state stands for it. No
// Option: such a fragment does not use the state, and `fragment_plain` takes one in every version, so the choice would only move there.
#[tactic(auto, unfolding(sqv4_format::specs::Decode::state_fits))]
fn usable(coding: Coding, state: State) -> Result<Reached, Error>
    ensures { MatchResult result (λ reached. (state_fits coding.version state ≡ true) × (anew coding.version ≡ false → reached.state ≡ state))
        (λ error. (error ≡ Error.InvalidState) × (state_fits coding.version state ≡ false)) }
{
    if coding.starts_anew() {
        return Ok(Reached::zero());
    }
    Reached::try_from(state)
}

// The state after a fragment, whose samples fill the output; an error leaves the output as it was.
#[tactic(auto, using(outcome::proofs::Laws::checks, sqv4_format::proofs::Range::fits_size, sqv4_format::proofs::Sizes::payload_few, sqv4_format::proofs::Range::returned_anew, fragment_plain::proofs::Fragments::samples_anew), unfolding(sqv4_format::specs::Decode::fragment_call))]
fn decode(coding: Coding, state: State, fragment: &[u8], out: &mut [i16]) -> Result<State, Error>
    ensures { MatchResult result (Filled coding.version coding.variant state fragment.now out.old out.new)
        (Refused coding.version coding.variant state fragment.now out.old out.new) }
{
    if !sqv4_format::known_version(coding.version) {
        return Err(Error::UnsupportedVersion(coding.version));
    }
    if !fragment_fits(coding, fragment, out.len()) {
        return Err(Error::InvalidFragment);
    }
    let start = usable(coding, state)?;
    let end = fragment_plain::decode_fragment(coding, start, &Coded { bytes: fragment }, out);
    // Not by `fragment_plain::state_after`: that one takes a `Reached`, and where fragments start anew the given state may be none.
    if coding.starts_anew() {
        Ok(state)
    } else {
        Ok(end.state)
    }
}

// What the decoder of one fragment gives: its answer, and the channel's state after the call.
#[derive(Clone, Copy)]
pub struct WithState<A> {
    pub answer: A,
    pub state: State,
}

// Decodes as many samples of one fragment as the output has places, at most a frame's. Versions 1 and 2 go on from the state and
// return the one after the last sample; version 3 returns the given state. A refusal leaves the state and the output as they were.
// Version and variant come apart, as the reference Rust and the calls for C have them.
pub fn decode_one(
    version: u8,
    variant: Variant,
    state: State,
    fragment: &[u8],
    out: &mut [i16],
) -> WithState<Result<usize, Error>>
    ensures { AsCalled version variant state fragment.now out.old
        result.answer result.state out.new }
{
    let coding = Coding { version, variant };
    match decode(coding, state, fragment, out) {
        Ok(next) => WithState {
            answer: Ok(out.len()),
            state: next,
        },
        Err(error) => WithState {
            answer: Err(error),
            state,
        },
    }
}
