ghost use Rattle.std.specs.Prelude.{◌≡◌, ◌≤◌, ◌<◌, length, replicate, take, drop, slice_index, pos};
ghost use Rattle.std.specs.Int.{from_le_bytes, w32, w64};
ghost use Rattle.records.specs.Bytes.{predictor_of};

use sqv4_format::State;

// What is left of a question: numbers, of which the lowest byte comes first, and then bytes.
#[derive(Clone, Copy)]
pub struct Question<'a> {
    pub rest: &'a [u8],
}

// What is asked of the fragment decoder: with a place for each of `count` samples.
#[derive(Clone, Copy)]
pub struct Fragment<'a> {
    pub version: u8,
    pub variant: u8,
    pub count: u8,
    pub state: State,
    pub bytes: &'a [u8],
}

impl<'a> Question<'a> {
    // The next N bytes, and zeros where fewer are left.
    fn chunk<const N: usize>(&mut self) -> [u8; N]
        ensures bytes { N ≤ length self.old.rest.now → result ≡ take N self.old.rest.now }
        ensures zeros { length self.old.rest.now < N → result ≡ replicate N 0 }
        ensures rest { self.new.rest.now ≡ drop N self.old.rest.now }
    {
        match self.rest.split_first_chunk::<N>() {
            Some((bytes, rest)) => {
                self.rest = rest;
                *bytes
            }
            None => {
                self.rest = &[];
                [0; N]
            }
        }
    }

    // The next byte, 0 where none is left.
    pub fn get_u8(&mut self) -> u8
        ensures value { result ≡ slice_index self.old.rest.now 0 }
        ensures rest { self.new.rest.now ≡ drop 1 self.old.rest.now }
    {
        self.chunk::<1>()[0]
    }

    // The next number of four bytes, 0 where fewer are left. This and `get_u64` have two types of result, and a line each over `chunk`.
    pub fn get_u32(&mut self) -> u32
        ensures value { 4 ≤ length self.old.rest.now → result ≡ from_le_bytes w32 (take 4 self.old.rest.now) }
        ensures none { length self.old.rest.now < 4 → result ≡ 0 }
        ensures rest { self.new.rest.now ≡ drop 4 self.old.rest.now }
    {
        u32::from_le_bytes(self.chunk())
    }

    // The next number of eight bytes: where fewer are left, that of the first four, 0 where these are not left either.
    pub fn get_u64(&mut self) -> u64
        ensures value { 8 ≤ length self.old.rest.now → result ≡ from_le_bytes w64 (take 8 self.old.rest.now) }
        ensures low { 4 ≤ length self.old.rest.now → length self.old.rest.now < 8 → result ≡ from_le_bytes w32 (take 4 self.old.rest.now) }
        ensures none { length self.old.rest.now < 4 → result ≡ 0 }
        ensures rest { self.new.rest.now ≡ drop 8 self.old.rest.now }
    {
        if self.rest.len() < 8 {
            let low = self.get_u32();
            self.rest = &[];
            return u64::from(low);
        }
        u64::from_le_bytes(self.chunk())
    }

    // The next decoder's state: whether the predictor is negative, its magnitude in eight bytes, of which the low four count, and the
    // index. A predictor that is too large is the least. Numbers that are cut short are what `get_u32` and `get_u64` give.
    pub fn state(&mut self) -> State
        ensures predictor { 5 ≤ length self.old.rest.now
            → result.predictor ≡ predictor_of (slice_index self.old.rest.now 0) (from_le_bytes w32 (take 4 (drop 1 self.old.rest.now))) }
        ensures no_predictor { length self.old.rest.now < 5 → result.predictor ≡ pos 0 }
        ensures index { 17 ≤ length self.old.rest.now → result.index ≡ from_le_bytes w64 (take 8 (drop 9 self.old.rest.now)) }
        ensures index_low { 13 ≤ length self.old.rest.now → length self.old.rest.now < 17
            → result.index ≡ from_le_bytes w32 (take 4 (drop 9 self.old.rest.now)) }
        ensures no_index { length self.old.rest.now < 13 → result.index ≡ 0 }
        ensures rest { self.new.rest.now ≡ drop 17 self.old.rest.now }
    {
        let negative = self.get_u8() == 1;
        let magnitude = self.get_u32();
        self.get_u32();
        let predictor = match i32::try_from(magnitude) {
            Ok(magnitude) if negative => -magnitude,
            Ok(magnitude) => magnitude,
            Err(_) => i32::MIN,
        };
        State {
            predictor,
            index: self.get_u64() as usize,
        }
    }

    // The question as one to the fragment decoder: version, variant, count, state, a fragment.
    pub fn fragment(mut self) -> Fragment<'a>
        ensures version { result.version ≡ slice_index self.entry.rest.now 0 }
        ensures variant { result.variant ≡ slice_index self.entry.rest.now 1 }
        ensures count { result.count ≡ slice_index self.entry.rest.now 2 }
        ensures predictor { 8 ≤ length self.entry.rest.now
            → result.state.predictor ≡ predictor_of (slice_index self.entry.rest.now 3) (from_le_bytes w32 (take 4 (drop 4 self.entry.rest.now))) }
        ensures no_predictor { length self.entry.rest.now < 8 → result.state.predictor ≡ pos 0 }
        ensures index { 20 ≤ length self.entry.rest.now → result.state.index ≡ from_le_bytes w64 (take 8 (drop 12 self.entry.rest.now)) }
        ensures index_low { 16 ≤ length self.entry.rest.now → length self.entry.rest.now < 20
            → result.state.index ≡ from_le_bytes w32 (take 4 (drop 12 self.entry.rest.now)) }
        ensures no_index { length self.entry.rest.now < 16 → result.state.index ≡ 0 }
        ensures bytes { result.bytes.now ≡ drop 20 self.entry.rest.now }
    {
        let version = self.get_u8();
        let variant = self.get_u8();
        let count = self.get_u8();
        let state = self.state();
        Fragment {
            version,
            variant,
            count,
            state,
            bytes: self.rest,
        }
    }
}
