// The state after the code that the encoder chooses, without the code: for H by what is left of the distance, for L and L+ by three
// comparisons instead of eight candidates. The plain form, `encoder_choice::encode_code` and `adpcm::update`, would be too slow for a
// search.
#![tactic(auto)]

ghost use Rattle.std.specs.Prelude.{◌≡◌, ◌+◌, ◌-◌, ◌*◌, ◌<◌, ◌≤◌, min, if◌then◌else◌};
ghost use Rattle.lists.specs.Lists.{tabulate};
ghost use Rattle.signed.specs.Signed.{raised};
ghost use Rattle.sqv4_format.specs.Layout.{encoder_version, bits};
ghost use Rattle.sqv4_format.specs.Step.{step_at, stepped};
ghost use Rattle.sqv4_format.specs.Encode.{h_code, l_code, code_for};
ghost use Rattle.sqv4_format.specs.declared.Variant.TheVariants as variants;
ghost use Rattle.encoder_step.specs.Advance.{size_entry, Sized, Ordered, Within, Landed};

use sqv4_format::{Coding, Reached, Settings, State, StepIndex, Variant};

// The index moved up, to at most 88, or down by 1, to at least 0.
fn moved(index: StepIndex, up: bool, by: u32) -> usize
    ensures { result ≡ (if up then min (index.value + by) 88 else index.value - 1) }
{
    let high = (index.value + by as usize).min(State::MAX_STEP_INDEX as usize);
    let low = index.value.saturating_sub(1);
    if up { high } else { low }
}

// A raised sample x, and the raised predictor p that goes toward it.
#[derive(Clone, Copy)]
struct Pair {
    x: u32,
    p: u32,
    ghost raised: { (x ≤ 65535) × (p ≤ 65535) },
}

impl Pair {
    // A normalised sample and the predictor of a state.
    fn of(state: Reached, input: i16) -> Pair
        ensures { (result.x ≡ raised input) × (result.p ≡ raised state.state.predictor) }
    {
        Pair {
            x: signed::raise(input as i32),
            p: signed::raise(state.state.predictor),
        }
    }

    // How far they are apart.
    fn distance(self) -> u32
        ensures { result ≡ self.x - self.p + (self.p - self.x) }
    {
        self.x.abs_diff(self.p)
    }

    // Where the predictor lands by an H code, which leaves `last` of the distance: short of x by that, and on by an eighth of
    // the step.
    fn h_landed(self, eighth: u32, last: u32) -> u32
        requires { (eighth ≤ 4095) × (last ≤ self.x - self.p + (self.p - self.x)) }
        ensures down { self.x < self.p → result ≡ self.x + last - eighth }
        ensures up { self.p ≤ self.x → result ≡ min (self.x + eighth - last) 65535 }
        ensures small { result ≤ 65535 }
    {
        if self.x < self.p {
            (self.x + last).saturating_sub(eighth)
        } else {
            (self.x + eighth - last).min(65535)
        }
    }

    // How far the predictor can go toward x.
    fn headroom(self) -> u32
        ensures { (self.x < self.p → result ≡ self.p) × (self.p ≤ self.x → result ≡ 65535 - self.p) }
    {
        if self.x < self.p {
            self.p
        } else {
            65535 - self.p
        }
    }

    // Where the predictor lands by an L or L+ code, `offset` being the nearest toward x: there, unless the limit behind it is
    // nearer, or, where the code toward x is the higher, as near.
    fn l_landed(self, offset: u32) -> u32
        requires { (self.x < self.p → offset ≤ self.p) × (self.p ≤ self.x → offset ≤ 65535 - self.p) }
        ensures { Landed self.x self.p (2 * (self.x - self.p + (self.p - self.x))) offset result }
    {
        let twice = 2 * self.distance();
        if self.x < self.p {
            if twice + (65535 - self.p) <= offset {
                65535
            } else {
                self.p - offset
            }
        } else {
            if twice + self.p < offset {
                0
            } else {
                self.p + offset
            }
        }
    }
}

// The state after the H code for a normalised sample, without the code.
fn h_next(state: Reached, input: i16) -> Reached
    ensures { result.state ≡ stepped encoder_version variants.H state.state (h_code state.state input) }
{
    let index = state.index();
    let step = adpcm::step_size(index);
    let pair = Pair::of(state, input);
    let d = pair.distance();
    let half = encoder_choice::take_off(step, d);
    let quarter = encoder_choice::take_off(step / 2, half);
    let last = encoder_choice::take_off(step / 4, quarter);
    let by = 2 + adpcm::part_of(step / 2 <= half, 4) + adpcm::part_of(step / 4 <= quarter, 2);
    Reached {
        state: State {
            predictor: signed::lower(pair.h_landed(step / 8, last)),
            index: moved(index, step <= d, by),
        },
    }
}

// The sizes of the differences of L or L+, by the code's two low bits.
#[derive(Clone, Copy)]
pub struct Sizes {
    pub a: u32,
    pub b: u32,
    pub c: u32,
    pub d: u32,
}

// The sizes cut off at a limit. Most often none is, and then nothing waits for it.
fn within(sizes: Sizes, limit: u32) -> Sizes
    requires { Ordered sizes }
    ensures { Within sizes limit result }
{
    if sizes.d <= limit {
        return sizes;
    }
    Sizes {
        a: sizes.a.min(limit),
        b: sizes.b.min(limit),
        c: sizes.c.min(limit),
        d: limit,
    }
}

// What the encoder needs at each sample: the settings, and the sizes of L or L+ at each index, a row of four for each, one behind the
// other, so that one `tabulate` says what they are; of H zeros, which nothing reads.
#[derive(Drop)]
pub struct Coder {
    pub settings: Settings,
    sizes: [u32; 356],
    ghost sized: { sizes ≡ tabulate (size_entry settings.variant) 356 },
}

impl Coder {
    // The coder of these settings.
    pub fn new(settings: Settings) -> Coder
        ensures { result.settings ≡ settings }
    {
        let coding = Coding::written(settings.variant);
        let mut sizes = [0u32; 356];
        for (k, size) in sizes.iter_mut().enumerate() {
            let level = adpcm::level(coding, (k % 4) as u8);
            let step = adpcm::step_size(StepIndex { value: k / 4 });
            *size = adpcm::l_size(level, step);
        }
        Coder { settings, sizes }
    }

    // The four sizes at an index.
    fn sizes_at(&self, index: StepIndex) -> Sizes
        ensures { Sized self.now.settings.variant (step_at index.value) result }
    {
        let row = 4 * index.value;
        Sizes {
            a: self.sizes[row],
            b: self.sizes[row + 1],
            c: self.sizes[row + 2],
            d: self.sizes[row + 3],
        }
    }

    // The state after the L or L+ code for a normalised sample, without the eight candidates: of the four toward the sample the nearest
    // is the last that lies, together with the one before it, short of twice the distance.
    fn l_next(&self, state: Reached, input: i16) -> Reached
        requires { bits self.now.settings.variant ≡ 3 }
        ensures { result.state ≡ stepped encoder_version self.now.settings.variant state.state (l_code self.now.settings.variant state.state input) }
    {
        let index = state.index();
        let pair = Pair::of(state, input);
        let twice = 2 * pair.distance();
        let sizes = within(self.sizes_at(index), pair.headroom());
        let a = sizes.a;
        let b = sizes.b;
        let c = sizes.c;
        let d = sizes.d;
        // Three tests, and no chain for `m` and `offset` together, which is compiled to jumps: noise makes one of them go wrong every other
        // time, and encoding takes 1.2 to 1.4 times as long.
        let past_a = a + b < twice;
        let past_b = b + c < twice;
        let past_c = c + d < twice;
        let m = u32::from(past_a) + u32::from(past_b) + u32::from(past_c);
        let offset = if past_c {
            d
        } else if past_b {
            c
        } else if past_a {
            b
        } else {
            a
        };
        Reached {
            state: State {
                predictor: signed::lower(pair.l_landed(offset)),
                index: moved(index, past_a, 2 * m),
            },
        }
    }

    // The state after the code for a normalised sample.
    pub fn next(&self, state: Reached, input: i16) -> Reached
        ensures { result.state ≡ stepped encoder_version self.now.settings.variant state.state (code_for self.now.settings.variant state.state input) }
    {
        match self.settings.variant {
            Variant::H => h_next(state, input),
            Variant::L | Variant::LPlus => self.l_next(state, input),
        }
    }
}
