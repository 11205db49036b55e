// Printing for the programs: words and decimal numbers, one behind the other in a lent output.
#![tactic(auto)]

ghost use Rattle.std.specs.Prelude.{◌≡◌, ◌++◌, ◌+◌, ◌≤◌, length, take};
ghost use Rattle.text.specs.Text.{decimal};

use itoa::Buffer;

// A lent output, and the place in it where the next piece goes. What does not fit is left out.
#[derive(Drop)]
pub struct Printer<'a> {
    out: &'a mut [u8],
    at: usize,
    ghost within: { at ≤ length out.now },
}

impl<'a> Printer<'a> {
    ghost use Rattle.text.specs.Printer.{Printed};

    // A printer at the front of an output.
    pub fn new(out: &'a mut [u8]) -> Printer<'a>
        ensures same_reference { result.out.ghost_name ≡ out.entry.ghost_name }
        ensures front { (result.at ≡ 0) × (result.out.now ≡ out.old) }
    {
        Printer { out, at: 0 }
    }

    // How many bytes are printed.
    pub fn count(&self) -> usize
        ensures { result ≡ self.now.at }
    {
        self.at
    }

    // What is printed.
    pub fn text(&self) -> &[u8]
        ensures { result.now ≡ take self.now.at self.now.out.now }
    {
        &self.out[..self.at]
    }

    // A piece of text.
    pub fn put(&mut self, piece: &[u8])
        ensures { Printed self.old piece.now self.new }
    {
        let size = piece.len().min(self.out.len() - self.at);
        let end = self.at + size;
        self.out[self.at..end].copy_from_slice(&piece[..size]);
        self.at = end;
    }

    // A decimal number, which has at most 20 digits.
    #[tactic(auto, using(crate::proofs::Laws::spelled, crate::proofs::Laws::decimal_few))]
    pub fn number(&mut self, n: u64)
        ensures prints { Printed self.old (decimal n) self.new }
        ensures few { self.new.at ≤ self.old.at + 20 }
    {
        let mut buffer = Buffer::new();
        self.put(buffer.format(n).as_bytes());
    }

    // A label and a decimal number.
    pub fn field(&mut self, label: &[u8], n: u64)
        ensures prints { Printed self.old (label.now ++ decimal n) self.new }
        ensures few { self.new.at ≤ self.old.at + length label.now + 20 }
    {
        self.put(label);
        self.number(n);
    }
}
