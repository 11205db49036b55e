// The state after a code by tables instead of arithmetic, for decoding whole streams: an index leads to the row of the next one, and
// a predictor is kept as its depth below 32767, which needs no signed number. That this is the step of the definitions is shown in
// proofs/Steps.
#![tactic(auto)]

ghost use Rattle.std.specs.Prelude.{◌≡◌, ◌+◌, ◌<◌, ◌≤◌, ◌^◌, length, get_or};
ghost use Rattle.signed.specs.Signed.{depth};
ghost use Rattle.sqv4_format.specs.Layout.{bits};
ghost use Rattle.sqv4_format.specs.Step.{stepped};
ghost use Rattle.decoder_tables.specs.Lookup.{Lookup, Held, kept, lowered, looked, state_of};

use entries::{
    H_DIFFERENCES, H_NEXTS, L_DIFFERENCES, L_NEXTS, L_PLUS_DIFFERENCES, LEGACY_L_PLUS_DIFFERENCES,
};
use sqv4_format::{Coding, Reached, State, Variant};

mod entries;

// The two tables of a coding: the differences, and the next rows. Two, not one of pairs: L and L+ of every version share the next rows.
#[derive(Clone, Copy)]
pub struct Tables {
    pub coding: Coding,
    differences: &'static [u32],
    nexts: &'static [u16],
    ghost looked_up: { Lookup coding.version coding.variant differences.now nexts.now },
}

impl Tables {
    // A coding with its tables.
    fn new(coding: Coding, differences: &'static [u32], nexts: &'static [u16]) -> Tables
        requires { Lookup coding.version coding.variant differences.now nexts.now }
        ensures { result.coding ≡ coding }
    {
        Tables {
            coding,
            differences,
            nexts,
        }
    }

    // The tables of a coding; L+ has differences of its own in version 1. A match: the variant is a value that the stream names, and each
    // has its own tables, of H of another length.
    pub fn of(coding: Coding) -> Tables
        ensures { result.coding ≡ coding }
    {
        match coding.variant {
            Variant::H => Tables::new(coding, &H_DIFFERENCES, &H_NEXTS),
            Variant::L => Tables::new(coding, &L_DIFFERENCES, &L_NEXTS),
            Variant::LPlus => if coding.version == 1 {
                Tables::new(coding, &LEGACY_L_PLUS_DIFFERENCES, &L_NEXTS)
            } else {
                Tables::new(coding, &L_PLUS_DIFFERENCES, &L_NEXTS)
            }
        }
    }

    // A state, as the tables take it.
    pub fn keep(self, state: Reached) -> Kept
        ensures { (result.variant ≡ self.coding.variant) × (result.table_state ≡ kept self.coding.variant state.state)
            × (state_of self.coding.variant result.table_state ≡ state.state) }
    {
        let variant = self.coding.variant;
        let State { predictor, index } = state.state;
        let depth = signed::depth(predictor);
        let row = index * row_size(variant);
        Kept {
            variant,
            table_state: TableState { depth, row },
        }
    }

    // The state after a code.
    pub fn step(self, kept: Kept, code: u8) -> Kept
        requires { (kept.variant ≡ self.coding.variant) × (code < 2 ^ bits self.coding.variant) }
        ensures { (result.variant ≡ self.coding.variant)
            × (state_of self.coding.variant result.table_state ≡ stepped self.coding.version self.coding.variant (state_of self.coding.variant kept.table_state) code) }
    {
        let table_state = step(kept.table_state, code, self.differences, self.nexts);
        Kept {
            variant: self.coding.variant,
            table_state,
        }
    }
}

// The state after a code, on any two tables: it promises more than `Tables::step`. The next row is read from the table's rest behind the
// code, so that it waits for the row alone.
#[tactic(auto, using(crate::proofs::Steps::rest_at), unfolding(crate::specs::Lookup::looked))]
pub fn step(s: TableState, code: u8, differences: &[u32], nexts: &[u16]) -> TableState
    requires { (s.depth ≤ 65535) × (s.row + code < length differences.now) × (length nexts.now ≡ length differences.now)
        × (65535 ≤ get_or differences.now (s.row + code) 0) }
    ensures { (result ≡ looked differences.now nexts.now s code) × (result.depth ≤ 65535) }
{
    let from = s.row;
    let code = code as usize;
    let depth = move_depth(s.depth, differences[from + code]);
    let rest = &nexts[code..];
    let row = rest[from] as usize;
    TableState { depth, row }
}

// A state, as the tables gave it. It takes every depth up to 65535, and `Kept::state` only those of states that a decoding reaches.
#[tactic(auto, using(signed::proofs::Laws::back16, signed::proofs::Laws::back32), unfolding(crate::specs::Lookup::state_of))]
pub fn state_of(variant: Variant, s: TableState) -> State
    requires { s.depth ≤ 65535 }
    ensures { result ≡ state_of variant s }
{
    let predictor = signed::at_depth(s.depth) as i32;
    let index = s.row / row_size(variant);
    State { predictor, index }
}

// How far a predictor lies below 32767, at most 65535, and where the row of an index begins. The bound stands in the contracts of the free
// functions and in `Kept`, not here: `step` promises the same of any two tables.
#[derive(Clone, Copy)]
pub struct TableState {
    pub depth: u32,
    pub row: usize,
}

// A state that a decoding reaches, as the tables of its coding take it.
#[derive(Clone, Copy)]
pub struct Kept {
    pub variant: Variant,
    pub table_state: TableState,
    ghost held: { Held variant table_state },
}

impl Kept {
    // How far the predictor lies below 32767.
    #[tactic(auto, using(crate::proofs::Steps::held_depth))]
    pub fn depth(self) -> u16
        ensures { result ≡ depth (state_of self.variant self.table_state).predictor }
    {
        self.table_state.depth as u16
    }

    // The state, as the tables gave it.
    #[tactic(auto, using(crate::proofs::Steps::held_depth))]
    pub fn state(self) -> Reached
        ensures { result.state ≡ state_of self.variant self.table_state }
    {
        Reached {
            state: state_of(self.variant, self.table_state),
        }
    }
}

// Entries of a row: one for each code.
fn row_size(variant: Variant) -> usize
    ensures { result ≡ 2 ^ bits variant }
{
    1 << variant.bits()
}

// A depth after a difference as a table holds it. Each limit is kept by a difference cut at 0, so that no jump is taken.
fn move_depth(depth: u32, entry: u32) -> u32
    requires { (depth ≤ 65535) × (65535 ≤ entry) }
    ensures { (result ≡ lowered depth entry) × (result ≤ 65535) }
{
    65535u32.saturating_sub((entry - depth).saturating_sub(65536))
}
