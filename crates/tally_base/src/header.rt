// Record types and the header of a file.
ghost use Rattle.std.specs.Prelude.{◌≡◌, ◌≤◌, length};
ghost use Rattle.tally_base.specs.RecordTypes.{name_of, mode_of, code_of, type_of};

/// What the time of a record counts.
#[derive(Clone, Copy, PartialEq, Eq)]
pub enum Mode {
    /// Ticks of the device.
    T2,
    /// Sync periods. A photon has a time after its sync too, in ticks.
    T3,
}

/// The record types of PicoQuant's unified TTTR format.
#[derive(Clone, Copy, PartialEq, Eq)]
pub enum RecordType {
    PicoHarpT2,
    PicoHarpT3,
    HydraHarpT2,
    HydraHarpT3,
    HydraHarp2T2,
    HydraHarp2T3,
    TimeHarp260NT2,
    TimeHarp260NT3,
    TimeHarp260PT2,
    TimeHarp260PT3,
    MultiHarpT2,
    MultiHarpT3,
}

impl RecordType {
    /// The record type of a value of the tag `TTResultFormat_TTTRRecType`. None exactly for values
    /// that are no record type's.
    #[tactic(auto, unfolding(crate::specs::RecordTypes::type_with))]
    pub fn of(value: i64) -> Option<RecordType>
        ensures { result ≡ type_of value }
    {
        match value {
            0x0001_0203 => Some(RecordType::PicoHarpT2),
            0x0001_0303 => Some(RecordType::PicoHarpT3),
            0x0001_0204 => Some(RecordType::HydraHarpT2),
            0x0001_0304 => Some(RecordType::HydraHarpT3),
            0x0101_0204 => Some(RecordType::HydraHarp2T2),
            0x0101_0304 => Some(RecordType::HydraHarp2T3),
            0x0001_0205 => Some(RecordType::TimeHarp260NT2),
            0x0001_0305 => Some(RecordType::TimeHarp260NT3),
            0x0001_0206 => Some(RecordType::TimeHarp260PT2),
            0x0001_0306 => Some(RecordType::TimeHarp260PT3),
            0x0001_0207 => Some(RecordType::MultiHarpT2),
            0x0001_0307 => Some(RecordType::MultiHarpT3),
            _ => None,
        }
    }

    /// The value of the tag `TTResultFormat_TTTRRecType` in a file of this type.
    pub fn code(&self) -> u32
        ensures { result ≡ code_of self.now }
    {
        match self {
            RecordType::PicoHarpT2 => 0x0001_0203,
            RecordType::PicoHarpT3 => 0x0001_0303,
            RecordType::HydraHarpT2 => 0x0001_0204,
            RecordType::HydraHarpT3 => 0x0001_0304,
            RecordType::HydraHarp2T2 => 0x0101_0204,
            RecordType::HydraHarp2T3 => 0x0101_0304,
            RecordType::TimeHarp260NT2 => 0x0001_0205,
            RecordType::TimeHarp260NT3 => 0x0001_0305,
            RecordType::TimeHarp260PT2 => 0x0001_0206,
            RecordType::TimeHarp260PT3 => 0x0001_0306,
            RecordType::MultiHarpT2 => 0x0001_0207,
            RecordType::MultiHarpT3 => 0x0001_0307,
        }
    }

    /// What the times of a file of this type count.
    pub fn mode(&self) -> Mode
        ensures { result ≡ mode_of self.now }
    {
        match self {
            RecordType::PicoHarpT2
            | RecordType::HydraHarpT2
            | RecordType::HydraHarp2T2
            | RecordType::TimeHarp260NT2
            | RecordType::TimeHarp260PT2
            | RecordType::MultiHarpT2 => Mode::T2,
            RecordType::PicoHarpT3
            | RecordType::HydraHarpT3
            | RecordType::HydraHarp2T3
            | RecordType::TimeHarp260NT3
            | RecordType::TimeHarp260PT3
            | RecordType::MultiHarpT3 => Mode::T3,
        }
    }

    /// The name that is printed.
    pub fn name(&self) -> &'static str
        ensures text { result.now ≡ name_of self.now }
        ensures short { length result.now ≤ 14 }
    {
        match self {
            RecordType::PicoHarpT2 => "PicoHarpT2",
            RecordType::PicoHarpT3 => "PicoHarpT3",
            RecordType::HydraHarpT2 => "HydraHarpT2",
            RecordType::HydraHarpT3 => "HydraHarpT3",
            RecordType::HydraHarp2T2 => "HydraHarp2T2",
            RecordType::HydraHarp2T3 => "HydraHarp2T3",
            RecordType::TimeHarp260NT2 => "TimeHarp260NT2",
            RecordType::TimeHarp260NT3 => "TimeHarp260NT3",
            RecordType::TimeHarp260PT2 => "TimeHarp260PT2",
            RecordType::TimeHarp260PT3 => "TimeHarp260PT3",
            RecordType::MultiHarpT2 => "MultiHarpT2",
            RecordType::MultiHarpT3 => "MultiHarpT3",
        }
    }
}

/// What the program takes from the header of a file.
#[derive(Clone, Copy, PartialEq, Eq)]
pub struct Header {
    /// How the words of its records are laid out (`TTResultFormat_TTTRRecType`).
    pub record_type: RecordType,
    /// The number of records that the header announces (`TTResult_NumberOfRecords`). It may differ from
    /// the number of records in the file.
    pub count: Option<i64>,
    /// The bits of `MeasDesc_GlobalResolution`, the duration of a sync period or T2 tick in seconds.
    pub global: Option<u64>,
    /// The bits of `MeasDesc_Resolution`, the duration of a T3 tick in seconds.
    pub resolution: Option<u64>,
    /// The version text of the file.
    pub version: [u8; 8],
}
