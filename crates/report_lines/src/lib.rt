// The lines that the programs print: a refusal's, and those of the inspector's report. Each function prints the text of its definition
// in specs/, which has at most 128 bytes.
#![tactic(auto)]

ghost use Rattle.std.specs.Prelude.{◌≡◌, ◌*◌, ◌<◌, ◌≤◌, length};
ghost use Rattle.outcome.specs.Table.{number_of, values_of, listed};
ghost use Rattle.sqv4_format.specs.Layout.{frames};
ghost use Rattle.text.specs.Printer.{Printed};
ghost use Rattle.report_lines.specs.Lines.{refusal_line, spaced_values, variant_name, header_line, index_field, fragment_line};

use layout::Stream;
use outcome::{Error, ReturnedNumbers};
use sqv4_format::{Coded, Coding, Header, Variant};
use text::Printer;

// The numbers that a refusal returns, each after a space.
#[tactic(auto, using(text::proofs::Laws::printed_none, text::proofs::Laws::then_printed, crate::proofs::Lines::no_values, crate::proofs::Lines::one_value, crate::proofs::Lines::two_values), unfolding(crate::specs::Lines::spaced_values, text::specs::Text::letters))]
fn values(page: &mut Printer, values: ReturnedNumbers)
    ensures prints { Printed page.old (spaced_values (listed values)) page.new }
    ensures short { length (spaced_values (listed values)) ≤ 42 }
{
    match values {
        ReturnedNumbers::Zero => {}
        ReturnedNumbers::One(first) => page.field(b" ", first as u64),
        ReturnedNumbers::Two(first, second) => {
            page.field(b" ", first as u64);
            page.field(b" ", second as u64);
        }
    }
}

// The line of a refusal.
#[tactic(auto, using(crate::proofs::Lines::refusal_few))]
pub fn refusal_line(page: &mut Printer, error: Error)
    ensures prints { Printed page.old (refusal_line (number_of error) (values_of error)) page.new }
    ensures short { length (refusal_line (number_of error) (values_of error)) ≤ 128 }
{
    page.field(b"refused ", error.number() as u64);
    values(page, error.values());
    page.put(b"\n");
}

// A variant's name. It is no `Display`: of what a formatter writes, std's `fmt::Write` says too little to prove the whole line.
#[tactic(auto, unfolding(crate::specs::Lines::variant_name, text::specs::Text::letters))]
fn name(variant: Variant) -> &'static [u8]
    ensures { result.now ≡ variant_name variant }
{
    match variant {
        Variant::H => b"H",
        Variant::L => b"L",
        Variant::LPlus => b"L+",
    }
}

// The header's line.
#[tactic(auto, using(crate::proofs::Lines::header_few))]
pub fn header_line(page: &mut Printer, h: Header)
    ensures prints { Printed page.old (header_line h) page.new }
    ensures short { length (header_line h) ≤ 128 }
{
    page.field(b"version ", h.version as u64);
    page.put(b" variant ");
    page.put(name(h.variant));
    page.field(b" channels ", h.channels as u64);
    page.field(b" rate ", h.rate as u64);
    page.field(b" samples ", h.samples as u64);
    page.put(b"\n");
}

// The index field of a fragment.
#[tactic(auto, using(crate::proofs::Lines::index_few), unfolding(crate::specs::Lines::index_field, text::specs::Text::letters))]
fn index_field(page: &mut Printer, coding: Coding, fragment: &Coded)
    ensures prints { Printed page.old (index_field coding.version fragment.now.bytes.now) page.new }
    ensures short { length (index_field coding.version fragment.now.bytes.now) ≤ 20 }
{
    match fragment.index(coding) {
        Some(index) => page.number(index as u64),
        None => page.put(b"-"),
    }
}

// The line of the fragment at the place `p` of a stream.
#[tactic(auto, using(crate::proofs::Lines::fragment_few))]
pub fn fragment_line(page: &mut Printer, stream: &Stream, p: usize)
    requires { p < frames stream.now.header * stream.now.header.channels }
    ensures prints { Printed page.old (fragment_line stream.now.header stream.now.file.now p) page.new }
    ensures short { length (fragment_line stream.now.header stream.now.file.now p) ≤ 128 }
{
    let place = stream.place(p);
    let fragment = stream.fragment(p);
    page.number(place.frame() as u64);
    page.field(b" ", place.channel() as u64);
    page.field(b" ", place.samples() as u64);
    page.field(b" ", fragment.volume() as u64);
    page.put(b" ");
    index_field(page, stream.header.coding(), &fragment);
    page.put(b"\n");
}
