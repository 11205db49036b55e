ghost use Rattle.std.specs.Prelude.{◌≡◌, ◌<◌, ◌≤◌, MatchResult};
ghost use Rattle.records.specs.Kinds.{number_of};

// What a question is put to.
#[derive(Clone, Copy)]
pub enum Kind {
    Encoder,
    Inspection,
    Decoder,
    WaveReader,
    Converter,
    Inspector,
    FragmentDecoder,
    WaveWriter,
    StrictReader,
    SampleReader,
}

// A number that is no kind's.
#[derive(Clone, Copy)]
pub struct UnknownKind;

// The kind that the first byte of a question names.
impl TryFrom<u8> for Kind {
    type Error = UnknownKind;

    ghost try_from_gives = { λ number answer. MatchResult answer (λ kind. number_of kind ≡ number) (λ _. 0 < number → 10 < number) };

    fn try_from(number: u8) -> Result<Kind, UnknownKind> {
        match number {
            1 => Ok(Kind::Encoder),
            2 => Ok(Kind::Inspection),
            3 => Ok(Kind::Decoder),
            4 => Ok(Kind::WaveReader),
            5 => Ok(Kind::Converter),
            6 => Ok(Kind::Inspector),
            7 => Ok(Kind::FragmentDecoder),
            8 => Ok(Kind::WaveWriter),
            9 => Ok(Kind::StrictReader),
            10 => Ok(Kind::SampleReader),
            _ => Err(UnknownKind),
        }
    }
}

impl Kind {
    // The kind of a question that begins with this byte: the inspector's where it names none.
    pub fn of(number: u8) -> Kind
        ensures named { 0 < number → number ≤ 10 → number_of result ≡ number }
        ensures unnamed { (0 < number → 10 < number) → number_of result ≡ 6 }
    {
        Kind::try_from(number).unwrap_or(Kind::Inspector)
    }
}
