// Inspection: the checks of the header, then of each fragment in file order.
#![tactic(auto)]

ghost use Rattle.std.specs.Prelude.{◌≡◌, ◌*◌, ◌/◌, ◌≤◌, length};
ghost use Rattle.outcome.specs.Outcome.{in_order};
ghost use Rattle.sqv4_format.specs.Layout.{header_of, frames, fragment_at_place};
ghost use Rattle.sqv4_format.specs.Inspect.{same_letters, field_checks, header_checks, fragment_checks, inspected};
ghost use Rattle.outcome.specs.Table.{answered};

use layout::{Place, Stream};
use outcome::Error;
use sqv4_format::{Coded, Header, State, Variant};

// Whether the first four bytes are "SQV4".
#[tactic(auto, using(lists::proofs::Letters::letters_equal), unfolding(sqv4_format::specs::Inspect::same_letters))]
fn same_letters(file: &[u8]) -> bool
    requires { 4 ≤ length file.now }
    ensures { result ≡ same_letters file.now }
{
    file.starts_with(b"SQV4")
}

// What the first 16 bytes state, where the variant byte names this variant. By the definition's name: it takes two things.
#[tactic(auto, unfolding(sqv4_format::specs::Layout::header_of))]
fn header_of(file: &[u8], variant: Variant) -> Header
    requires { 16 ≤ length file.now }
    ensures { result ≡ header_of file.now variant }
{
    Header {
        version: file[4],
        variant,
        channels: file[6],
        rate: digits::le::<4>(file, 8) as u32,
        samples: digits::le::<4>(file, 12) as u32,
    }
}

// The checks 1, 9, 2, 10, in this order.
#[tactic(auto, using(outcome::proofs::Laws::checks), unfolding(sqv4_format::specs::Inspect::field_checks))]
fn field_checks(file: &[u8], h: Header) -> Result<Header, Error>
    requires { 16 ≤ length file.now }
    ensures { answered result ≡ field_checks file.now h }
{
    if !layout::channels_fit(h.version, h.channels) {
        return Err(Error::InvalidChannels(h.channels));
    }
    let reserved = file[7];
    if reserved != 0 {
        return Err(Error::InvalidReservedByte(reserved));
    }
    if h.rate == 0 {
        return Err(Error::ZeroSampleRate);
    }
    let expected = layout::stream_length(h);
    if file.len() != expected {
        return Err(Error::InvalidFileLength {
            expected,
            actual: file.len(),
        });
    }
    Ok(h)
}

// The checks 5, 6, 7, 8, then 1, 9, 2, 10.
#[tactic(auto, using(outcome::proofs::Laws::checks), unfolding(outcome::specs::Outcome::and_then, sqv4_format::specs::Inspect::header_checks))]
fn header_checks(file: &[u8]) -> Result<Header, Error>
    ensures { answered result ≡ header_checks file.now }
{
    if file.len() < layout::HEADER_SIZE {
        return Err(Error::TruncatedHeader);
    }
    if !same_letters(file) {
        return Err(Error::InvalidMagic);
    }
    let version = file[4];
    if !sqv4_format::known_version(version) {
        return Err(Error::UnsupportedVersion(version));
    }
    let variant = Variant::try_from(file[5])?;
    field_checks(file, header_of(file, variant))
}

// The checks 11 and 12 of the fragment at a place.
#[tactic(auto, using(outcome::proofs::Laws::checks), unfolding(sqv4_format::specs::Inspect::fragment_checks, sqv4_format::specs::Inspect::index_too_high, sqv4_format::specs::Inspect::unused_zero))]
fn fragment_checks(place: Place, fragment: &Coded) -> Result<Header, Error>
    ensures { answered result ≡ fragment_checks place.header (place.p / place.header.channels) fragment.now.bytes.now }
{
    let h = place.header;
    if let Some(index) = fragment.index(h.coding())
        && State::MAX_STEP_INDEX < index
    {
        return Err(Error::InvalidStepIndex(index));
    }
    let used = h.variant.bits() * place.samples();
    if !digits::unused_bits_zero(fragment.payload(h.coding()), used) {
        return Err(Error::NonZeroPadding);
    }
    Ok(h)
}

// The checks of every fragment, in file order. The first refusal counts.
#[tactic(auto, unfolding(outcome::specs::Outcome::in_order))]
fn check_fragments(stream: &Stream) -> Result<Header, Error>
    ensures { answered result ≡ in_order stream.now.header (λ p. fragment_checks stream.now.header (p / stream.now.header.channels) (fragment_at_place stream.now.header stream.now.file.now p)) (frames stream.now.header * stream.now.header.channels) }
{
    for p in 0..stream.fragments() {
        fragment_checks(stream.place(p), &stream.fragment(p))?;
    }
    Ok(stream.header)
}

// Inspection: the header of a stream that is accepted, or the first refusal.
#[tactic(auto, unfolding(outcome::specs::Outcome::and_then, sqv4_format::specs::Inspect::inspected))]
pub fn inspect(file: &[u8]) -> Result<Header, Error>
    ensures { answered result ≡ inspected file.now }
{
    let header = header_checks(file)?;
    check_fragments(&Stream { file, header })
}
