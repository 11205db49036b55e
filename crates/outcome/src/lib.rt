// What a call answers, a result or a refusal, and what it leaves of a lent output: definitions (specs/) and their laws (proofs/). `Error`
// is the table of refusals, of the codec, of WAV files and of the programs.
#![tactic(auto)]

ghost use Rattle.std.specs.Prelude.{◌≡◌};
ghost use Rattle.outcome.specs.Table.{number_of, values_of, listed};

// The numbers that a refusal returns.
#[derive(Clone, Copy)]
pub enum ReturnedNumbers {
    Zero,
    One(usize),
    Two(usize, usize),
}

// Why a call refuses: a case for each line of the table, in its order. Those of the codec have the reference Rust's names, but 13 to 15,
// which it has not; `OutputTooShort` is of all calls that fill an output.
#[derive(Clone, Copy)]
pub enum Error {
    InvalidChannels(u8),
    ZeroSampleRate,
    MisalignedInterleavedSamples,
    TooManySamples,
    TruncatedHeader,
    InvalidMagic,
    UnsupportedVersion(u8),
    InvalidVariant(u8),
    InvalidReservedByte(u8),
    InvalidFileLength { expected: usize, actual: usize },
    InvalidStepIndex(u8),
    NonZeroPadding,
    OutputTooShort(usize),
    InvalidFragment,
    InvalidState,
    // Reading a WAV file.
    NotWave,
    RiffEnd,
    ChunkHeader,
    ChunkEnd,
    FormatChunk,
    DataChunk,
    NoFormat,
    Encoding,
    WaveChannels,
    ZeroWaveRate,
    ByteRate,
    Inconsistent,
    NoData,
    PartialFrame,
    // Writing one.
    WriterChannels,
    DataSize,
    RiffSize,
    WriterByteRate,
    // The programs.
    InputSize,
    // Strict reading.
    StrictFormat,
    StrictOrder,
    StrictEnd,
}

impl Error {
    // The number in the table.
    pub fn number(self) -> u8
        ensures { result ≡ number_of self }
    {
        match self {
            Error::InvalidChannels(_) => 1,
            Error::ZeroSampleRate => 2,
            Error::MisalignedInterleavedSamples => 3,
            Error::TooManySamples => 4,
            Error::TruncatedHeader => 5,
            Error::InvalidMagic => 6,
            Error::UnsupportedVersion(_) => 7,
            Error::InvalidVariant(_) => 8,
            Error::InvalidReservedByte(_) => 9,
            Error::InvalidFileLength {
                expected: _,
                actual: _,
            } => 10,
            Error::InvalidStepIndex(_) => 11,
            Error::NonZeroPadding => 12,
            Error::OutputTooShort(_) => 13,
            Error::InvalidFragment => 14,
            Error::InvalidState => 15,
            Error::NotWave => 20,
            Error::RiffEnd => 21,
            Error::ChunkHeader => 22,
            Error::ChunkEnd => 23,
            Error::FormatChunk => 24,
            Error::DataChunk => 25,
            Error::NoFormat => 26,
            Error::Encoding => 27,
            Error::WaveChannels => 28,
            Error::ZeroWaveRate => 29,
            Error::ByteRate => 30,
            Error::Inconsistent => 31,
            Error::NoData => 32,
            Error::PartialFrame => 33,
            Error::WriterChannels => 34,
            Error::DataSize => 35,
            Error::RiffSize => 36,
            Error::WriterByteRate => 37,
            Error::InputSize => 38,
            Error::StrictFormat => 40,
            Error::StrictOrder => 41,
            Error::StrictEnd => 42,
        }
    }

    // The numbers returned with it.
    pub fn values(self) -> ReturnedNumbers
        ensures { listed result ≡ values_of self }
    {
        match self {
            Error::InvalidChannels(byte)
            | Error::UnsupportedVersion(byte)
            | Error::InvalidVariant(byte)
            | Error::InvalidReservedByte(byte)
            | Error::InvalidStepIndex(byte) => ReturnedNumbers::One(byte as usize),
            Error::InvalidFileLength { expected, actual } => ReturnedNumbers::Two(expected, actual),
            Error::OutputTooShort(needed) => ReturnedNumbers::One(needed),
            _ => ReturnedNumbers::Zero,
        }
    }
}
