// A part of the caller's own bytes: where it begins and how long it is, and the part as a slice.
#![tactic(auto)]

ghost use Rattle.std.specs.Prelude.{◌≡◌};
ghost use Rattle.parts.specs.Parts.{part_in};

// So many bytes from byte `start` on.
#[derive(Clone, Copy)]
pub struct Part {
    pub start: usize,
    pub size: usize,
}

// The part, as a slice. Of one that goes past the end there is what the bytes have.
pub fn shown(bytes: &[u8], part: Part) -> &[u8]
    ensures { result.now ≡ part_in bytes.now part }
{
    let rest = bytes.get(part.start..).unwrap_or(&[]);
    rest.get(..part.size).unwrap_or(rest)
}
