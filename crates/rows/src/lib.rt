// The rows of documents 01 and 02 that turn a call back.
#![tactic(auto)]

ghost use Rattle.std.specs.Prelude.{◌≡◌};
ghost use Rattle.rows.specs.Numbers.{number, Numbers};

// The row that turns a call back.
#[derive(Clone, Copy, Debug, PartialEq, Eq)]
pub enum Refusal {
    ImageTooShort,
    UnknownLayout,
    SizesOutOfRange,
    BufferTooShort,
    BadPositions,
    BadRecord,
    BadSlots,
    BadState,
    OperationPending,
    NothingPending,
    BadArgument,
    WriterOpen,
    WriterNotOpen,
    LineHeld,
    NoFreeSlot,
    PageWithoutSlot,
    PageHeld,
    JournalFull,
    UnknownEvent,
    AmountOutOfRange,
    NoSlotToFree,
    TransactionPrepared,
    WriterNotPrepared,
    BadTableLine,
    ModulusOutOfRange,
    MeterNotBelow,
    NoWideRounds,
    OtherOpen,
    EntriesUsed,
}

// A number that no row has.
#[derive(Clone, Copy, Debug, PartialEq, Eq)]
pub struct UnknownRow(pub usize);

impl From<Refusal> for usize {
    ghost from_gives = { λ r n. n ≡ number r };

    fn from(r: Refusal) -> usize {
        match r {
            Refusal::ImageTooShort => 1,
            Refusal::UnknownLayout => 2,
            Refusal::SizesOutOfRange => 3,
            Refusal::BufferTooShort => 4,
            Refusal::BadPositions => 5,
            Refusal::BadRecord => 6,
            Refusal::BadSlots => 7,
            Refusal::BadState => 8,
            Refusal::OperationPending => 9,
            Refusal::NothingPending => 10,
            Refusal::BadArgument => 11,
            Refusal::WriterOpen => 12,
            Refusal::WriterNotOpen => 13,
            Refusal::LineHeld => 14,
            Refusal::NoFreeSlot => 15,
            Refusal::PageWithoutSlot => 17,
            Refusal::PageHeld => 18,
            Refusal::JournalFull => 19,
            Refusal::UnknownEvent => 20,
            Refusal::AmountOutOfRange => 21,
            Refusal::NoSlotToFree => 22,
            Refusal::TransactionPrepared => 23,
            Refusal::WriterNotPrepared => 24,
            Refusal::BadTableLine => 25,
            Refusal::ModulusOutOfRange => 26,
            Refusal::MeterNotBelow => 27,
            Refusal::NoWideRounds => 28,
            Refusal::OtherOpen => 29,
            Refusal::EntriesUsed => 30,
        }
    }
}

impl TryFrom<usize> for Refusal {
    type Error = UnknownRow;

    ghost try_from_gives = { Numbers };

    fn try_from(n: usize) -> Result<Self, UnknownRow> {
        match n {
            1 => Ok(Refusal::ImageTooShort),
            2 => Ok(Refusal::UnknownLayout),
            3 => Ok(Refusal::SizesOutOfRange),
            4 => Ok(Refusal::BufferTooShort),
            5 => Ok(Refusal::BadPositions),
            6 => Ok(Refusal::BadRecord),
            7 => Ok(Refusal::BadSlots),
            8 => Ok(Refusal::BadState),
            9 => Ok(Refusal::OperationPending),
            10 => Ok(Refusal::NothingPending),
            11 => Ok(Refusal::BadArgument),
            12 => Ok(Refusal::WriterOpen),
            13 => Ok(Refusal::WriterNotOpen),
            14 => Ok(Refusal::LineHeld),
            15 => Ok(Refusal::NoFreeSlot),
            17 => Ok(Refusal::PageWithoutSlot),
            18 => Ok(Refusal::PageHeld),
            19 => Ok(Refusal::JournalFull),
            20 => Ok(Refusal::UnknownEvent),
            21 => Ok(Refusal::AmountOutOfRange),
            22 => Ok(Refusal::NoSlotToFree),
            23 => Ok(Refusal::TransactionPrepared),
            24 => Ok(Refusal::WriterNotPrepared),
            25 => Ok(Refusal::BadTableLine),
            26 => Ok(Refusal::ModulusOutOfRange),
            27 => Ok(Refusal::MeterNotBelow),
            28 => Ok(Refusal::NoWideRounds),
            29 => Ok(Refusal::OtherOpen),
            30 => Ok(Refusal::EntriesUsed),
            _ => Err(UnknownRow(n)),
        }
    }
}
