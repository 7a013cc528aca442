// Every refusal of docs/RULES.md as one enum, each case with its place in the kind of number that the place is.
#![tactic(auto)]

ghost use Rattle.std.specs.Prelude.{◌≡◌};
ghost use Rattle.answers.specs.Refusals.{number_of, place_of};

use units::{ByteCount, Frame, FrameNo, ModuleNo, Offset, RecordNo, TaskNo};

#[derive(Clone, Copy, PartialEq, Eq)]
pub enum Refusal {
    // 1 to 5: the plan's records and what they say.
    BadRecords(Offset),
    // The kind whose count is outside its range.
    BadCount(u8),
    NotThere(RecordNo),
    OutOfRange(RecordNo),
    Unfit(RecordNo),
    // 6 to 11: what the plan asks of the bus.
    NoBusTask,
    PeriodDoesNotDivide,
    PeriodOffResolution,
    TooManyFrames,
    PayloadTooLarge,
    ControlTooLong,
    // 12, 13 and 19: the making of a table, in lent memory.
    NoRoom(FrameNo),
    BufferTooShort(ByteCount),
    TooFewRows,
    // 20 to 28: the checker.
    BadTableRecords(Offset),
    WrongHeader,
    WrongControlRow(RecordNo),
    NoNewFrame(RecordNo),
    WrongTime(RecordNo),
    BeforeRelease(RecordNo),
    AfterDeadline(RecordNo),
    GapBroken(RecordNo),
    NoGapAtEnd(RecordNo),
    // 40 to 44: the played station.
    NotBegun(ModuleNo),
    NotAwaited(TaskNo),
    ResultTooLarge(TaskNo),
    ResultOverdue(TaskNo),
    ChangeNotAllowed(ModuleNo),
    // 62: the number that is no edition's.
    NoEdition(u8),
}

impl Refusal {
    pub fn number(self) -> u32
        ensures { result ≡ number_of self }
    {
        match self {
            Refusal::BadRecords(_) => 1,
            Refusal::BadCount(_) => 2,
            Refusal::NotThere(_) => 3,
            Refusal::OutOfRange(_) => 4,
            Refusal::Unfit(_) => 5,
            Refusal::NoBusTask => 6,
            Refusal::PeriodDoesNotDivide => 7,
            Refusal::PeriodOffResolution => 8,
            Refusal::TooManyFrames => 9,
            Refusal::PayloadTooLarge => 10,
            Refusal::ControlTooLong => 11,
            Refusal::NoRoom(_) => 12,
            Refusal::BufferTooShort(_) => 13,
            Refusal::TooFewRows => 19,
            Refusal::BadTableRecords(_) => 20,
            Refusal::WrongHeader => 21,
            Refusal::WrongControlRow(_) => 22,
            Refusal::NoNewFrame(_) => 23,
            Refusal::WrongTime(_) => 24,
            Refusal::BeforeRelease(_) => 25,
            Refusal::AfterDeadline(_) => 26,
            Refusal::GapBroken(_) => 27,
            Refusal::NoGapAtEnd(_) => 28,
            Refusal::NotBegun(_) => 40,
            Refusal::NotAwaited(_) => 41,
            Refusal::ResultTooLarge(_) => 42,
            Refusal::ResultOverdue(_) => 43,
            Refusal::ChangeNotAllowed(_) => 44,
            Refusal::NoEdition(_) => 62,
        }
    }

    pub fn place(self) -> usize
        ensures { result ≡ place_of self }
    {
        match self {
            Refusal::BadRecords(offset) => offset.0,
            Refusal::BadCount(kind) => usize::from(kind),
            Refusal::NotThere(record) => record.0,
            Refusal::OutOfRange(record) => record.0,
            Refusal::Unfit(record) => record.0,
            Refusal::NoBusTask => 0,
            Refusal::PeriodDoesNotDivide => 0,
            Refusal::PeriodOffResolution => 0,
            Refusal::TooManyFrames => 0,
            Refusal::PayloadTooLarge => 0,
            Refusal::ControlTooLong => 0,
            Refusal::NoRoom(frame) => frame.0,
            Refusal::BufferTooShort(needed) => needed.count(),
            Refusal::TooFewRows => Frame::MOST,
            Refusal::BadTableRecords(offset) => offset.0,
            Refusal::WrongHeader => 0,
            Refusal::WrongControlRow(record) => record.0,
            Refusal::NoNewFrame(record) => record.0,
            Refusal::WrongTime(record) => record.0,
            Refusal::BeforeRelease(record) => record.0,
            Refusal::AfterDeadline(record) => record.0,
            Refusal::GapBroken(record) => record.0,
            Refusal::NoGapAtEnd(record) => record.0,
            Refusal::NotBegun(home) => home.place(),
            Refusal::NotAwaited(task) => task.place(),
            Refusal::ResultTooLarge(task) => task.place(),
            Refusal::ResultOverdue(task) => task.place(),
            Refusal::ChangeNotAllowed(home) => home.place(),
            Refusal::NoEdition(edition) => usize::from(edition),
        }
    }
}
