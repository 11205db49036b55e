// Which start index a fragment gets: the sum of the trial from each start, given up once it can no longer win, and the least.
#![tactic(auto)]

ghost use Rattle.std.specs.Prelude.{◌≡◌, map, ◌+◌, ◌<◌, ◌≤◌, true, nat_abs, ◌-ℤ◌, length, MatchOption};
ghost use Rattle.std.specs.Int.Signed.{mag};
ghost use Rattle.sqv4_format.specs.Layout.{encoder_version};
ghost use Rattle.sqv4_format.specs.Gain.{output_gain};
ghost use Rattle.sqv4_format.specs.Encode.{target, square, best_trial};
ghost use Rattle.encoder_search.specs.Search.{key, Ran, Beaten, Beats, equal_wins, start_at, Tried};

use encoder_step::Coder;
use sqv4_format::{Reached, State};

// How many starts are tried first, as bounds: normalised samples are loud, and want large steps.
const BOUNDS: u8 = 4;

// A fragment to be encoded by a coder: its volume, its pre-gained samples, and their targets. Two slices and not one of pairs: the volume
// is found from the samples alone, and the loops that make them each go over 16-bit numbers that lie side by side, several at a time.
#[derive(Clone, Copy)]
pub struct Fragment<'a> {
    pub coder: &'a Coder,
    pub volume: u8,
    pub xs: &'a [i16],
    pub targets: &'a [i16],
    ghost loud: { 0 < volume },
    ghost few: { length xs.now ≤ 63 },
    ghost full_scale: { targets.now ≡ map (target coder.now.settings volume) xs.now },
}

// Where a trial stands before a sample: its sum so far, and its state, as one number: H is encoded faster so.
#[derive(Clone, Copy)]
struct Mark {
    sum: u64,
    key: u64,
}

// The start index whose trial has the least sum, the lowest at equality, and that sum.
#[derive(Clone, Copy)]
pub struct Found {
    pub index: u8,
    pub sum: u64,
}

// The best trial so far: its start index and its sum, and where it stood before each sample.
#[derive(Clone, Copy)]
struct Best {
    found: Found,
    marks: [Mark; 63],
}

// The square of the distance from a pre-gained sample to the sample that a predictor gives, which comes in 32 bits, as in a state.
pub fn squared_error(sample: i16, predictor: i32, volume: u8) -> u64
    requires { mag predictor ≤ 32767 }
    ensures { (result ≡ square (nat_abs (sample -ℤ output_gain encoder_version volume predictor))) × (result ≤ 4294967296) }
{
    let x = signed::raise(sample as i32);
    let d = x.abs_diff(gain::raised_output(predictor, volume)) as u64;
    d * d
}

// A state as one number.
#[tactic(auto, using(signed::proofs::Laws::read16), unfolding(crate::specs::Search::key))]
fn key_of(state: Reached) -> u64
    ensures { result ≡ key state.state }
{
    128 * (signed::raise(state.state.predictor) as u64) + state.state.index as u64
}

// Whether a trial with this key and sum stands where the marked one stood, with no sum that wins against it. The mark comes by reference:
// by value the sum is compared first, which is slower.
fn meets(mark: &Mark, key: u64, equal_wins: u64, sum: u64) -> bool
    ensures { result ≡ true → (mark.now.key ≡ key) × (mark.now.sum + equal_wins ≤ sum) }
{
    mark.key == key && equal_wins <= sum && mark.sum <= sum - equal_wins
}

// 1 where a sum equal to the best's wins, since its start is the lower, else 0: the sums below the best's with this added win.
fn equal_wins(index: u8, best: u8) -> u64
    ensures { result ≡ equal_wins index best }
{
    u64::from(index < best)
}

// The start that an attempt tries: first 88, 80, 72 and 64, then all in ascending order. It is a byte, as a fragment stores it.
#[tactic(auto, unfolding(crate::specs::Search::start_at))]
fn start_at(attempt: u8) -> u8
    requires { attempt < 93 }
    ensures { (result ≡ start_at attempt) × (result ≤ 88) }
{
    if attempt < BOUNDS {
        State::MAX_STEP_INDEX - 8 * attempt
    } else {
        attempt - BOUNDS
    }
}

// Whether a start was tried before an attempt, as a bound.
#[tactic(auto, using(crate::proofs::Leading::bound_tried))]
fn is_tried(attempt: u8, index: u8) -> bool
    requires { index ≤ 88 }
    ensures { result ≡ true → Tried attempt index }
{
    BOUNDS <= attempt && 64 <= index && index % 8 == 0
}

impl<'a> Fragment<'a> {
    // The sum of the trial from a start index. Where it stood before each sample is left in `trace`.
    fn whole_sum(&self, index: u8, trace: &mut [Mark; 63]) -> u64
        ensures { Ran self.now.coder.now.settings self.now.volume self.now.xs.now (record { found = record { index = index; sum = result }; marks = trace.new }) }
    {
        let mut state = Reached::fragment_start(index);
        let mut sum: u64 = 0;
        for (i, x) in self.xs.iter().enumerate() {
            trace[i] = Mark {
                sum,
                key: key_of(state),
            };
            state = self.coder.next(state, self.targets[i]);
            sum += squared_error(*x, state.state.predictor, self.volume);
        }
        sum
    }

    // The sum of the trial from a start index, if it wins against the best. The trial is given up where its sum can no longer win, and
    // where it meets the best one: from there on the two go alike. One function with `whole_sum`, over an `Option`, is slower.
    #[tactic(auto, using(crate::proofs::Meeting::met))]
    fn winning_sum(&self, index: u8, best: &Best, trace: &mut [Mark; 63]) -> Option<u64>
        requires { Ran self.now.coder.now.settings self.now.volume self.now.xs.now best.now }
        ensures { MatchOption result (Beaten self.now.coder.now.settings self.now.volume self.now.xs.now index best.now)
            (λ sum. Beats self.now.coder.now.settings self.now.volume self.now.xs.now best.now (record { found = record { index = index; sum = sum }; marks = trace.new })) }
    {
        let equal_wins = equal_wins(index, best.found.index);
        let limit = best.found.sum + equal_wins;
        let mut state = Reached::fragment_start(index);
        let mut sum: u64 = 0;
        for (i, x) in self.xs.iter().enumerate() {
            if limit <= sum {
                return None;
            }
            let key = key_of(state);
            if meets(&best.marks[i], key, equal_wins, sum) {
                return None;
            }
            trace[i] = Mark { sum, key };
            state = self.coder.next(state, self.targets[i]);
            sum += squared_error(*x, state.state.predictor, self.volume);
        }
        if sum < limit { Some(sum) } else { None }
    }

    // The best start: of the trials from 0..=88 the one with the least sum, the lowest at equality.
    #[tactic(auto, using(crate::proofs::Leading::leading_all))]
    pub fn best_start(&self) -> Found
        ensures index_value { result.index ≡ (best_trial self.now.coder.now.settings self.now.volume self.now.xs.now).start }
        ensures sum_value { result.sum ≡ (best_trial self.now.coder.now.settings self.now.volume self.now.xs.now).sum }
    {
        let mut trace = [Mark { sum: 0, key: 0 }; 63];
        let index = start_at(0);
        let sum = self.whole_sum(index, &mut trace);
        let mut best = Best {
            found: Found { index, sum },
            marks: trace,
        };
        for attempt in 1..93u8 {
            let index = start_at(attempt);
            if is_tried(attempt, index) {
                continue;
            }
            if let Some(sum) = self.winning_sum(index, &best, &mut trace) {
                best = Best {
                    found: Found { index, sum },
                    marks: trace,
                };
            }
        }
        best.found
    }
}
