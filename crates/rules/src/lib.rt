// The register's types. Every value of them is allowed everywhere: the definitions in specs/ are total.
// Days are gas days, 0 is 1 January 2000; holder 0 is the operator's account; volumes are in thousandths.
#![tactic(auto)]

ghost use Rattle.std.specs.Prelude.{◌≡◌, ℕ};
ghost use Rattle.std.proofs.Common.{rules};

// A volume of one kind, as a number of thousandths: what is done alike with both kinds is written once, over this trait.
pub trait Thousandths: Copy {
    ghost amount: { Self → ℕ };

    fn from_thousandths(n: u64) -> Self
        ensures { amount result ≡ n };

    fn thousandths(self) -> u64
        ensures { result ≡ amount self };

    // Two volumes of one amount are one volume.
    ghost one: { (a b : Self) → amount a ≡ amount b → a ≡ b };
}

// What the wheels of a meter count: cubic metres (OBIS 7-1:3.0.0), or normal ones where the meter counts these. The two
// volumes are two tuple structs, and not one generic type, since the buyer asks for that form (docs/RULES.md).
#[derive(Clone, Copy)]
pub struct Volume(pub u64);

impl Thousandths for Volume {
    ghost amount = { λ v. v.0 };

    ghost one = { Prim.search rules };

    fn from_thousandths(n: u64) -> Volume {
        Volume(n)
    }

    fn thousandths(self) -> u64 {
        let Volume(n) = self;
        n
    }
}

// Normal cubic metres (OBIS 7-1:13.2.0). The one way to them from what the wheels count is a meter's factor.
#[derive(Clone, Copy)]
pub struct NormalVolume(pub u64);

impl Thousandths for NormalVolume {
    ghost amount = { λ v. v.0 };

    ghost one = { Prim.search rules };

    fn from_thousandths(n: u64) -> NormalVolume {
        NormalVolume(n)
    }

    fn thousandths(self) -> u64 {
        let NormalVolume(n) = self;
        n
    }
}

// A supplier period: it starts on a day and runs to the next period's start.
#[derive(Clone, Copy)]
pub struct Period {
    pub start: u32,
    pub holder: u8,
    pub volume: Volume,
    pub normal: NormalVolume,
}

// A point's periods, the oldest first, in the first count slots. An array with its count: there is no allocation, and
// the slots past the count stay as they are (docs/DECISIONS.md, 7).
#[derive(Clone, Copy)]
pub struct History {
    pub count: usize,
    pub periods: [Period; 24],
}

// How a point is supplied; default and last-resort supply end on a deadline, the first day of what comes after.
#[derive(Clone, Copy)]
pub enum SupplyKind {
    None,
    Contract,
    Default(u32),
    LastResort(u32),
}

// The pending request of a point: supplier and effective day. An enum, which the buyer asks for (docs/RULES.md).
#[derive(Clone, Copy)]
pub enum Pending {
    Nothing,
    Request(u8, u32),
}

// What events change of a point.
#[derive(Clone, Copy)]
pub struct Supply {
    pub holder: u8,
    pub kind: SupplyKind,
    pub pending: Pending,
}

// What a meter counts. An enum of its own and no Option of a factor: its cases are the codes.
#[derive(Clone, Copy)]
pub enum Code {
    // Normal cubic metres, OBIS 7-1:13.2.0.
    Normal,
    // Cubic metres, OBIS 7-1:3.0.0, and the factor that makes them normal ones, in ten-thousandths.
    Cubic(u32),
}

// A meter: its wheels before and after the comma, and what they count.
#[derive(Clone, Copy)]
pub struct Meter {
    pub before: u8,
    pub after: u8,
    pub code: Code,
}

// A reading: its day, and the index in units of the last wheel.
#[derive(Clone, Copy)]
pub struct Reading {
    pub day: u32,
    pub index: u64,
}

// What the register and the day book keep of a point alike. `enrolled` is a field and no Option round the others, since
// both keep the fields of a point that was never enrolled (`blank`), and `day_book_agrees` compares them.
#[derive(Clone, Copy)]
pub struct Fields {
    pub enrolled: bool,
    pub supply: Supply,
    pub key: u32,
    // 0, or 1 where access is suspended. No bool: what the calls and questions promise, they promise of every number here, and
    // `Unseen` says so.
    pub mark: u8,
    pub meter: Meter,
    pub reading: Reading,
}

#[derive(Clone, Copy)]
pub struct Point {
    pub fields: Fields,
    pub history: History,
}

// What the checks may look at of a point.
#[derive(Clone, Copy)]
pub struct View {
    pub fields: Fields,
    // the number of marked cells, which is that of periods
    pub marks: usize,
    // today's cell is one of them already; a fact of the point beside its count, which means the same either way
    pub marked: bool,
}

// W working days to cancel, A and B days of default and of last-resort supply, and the two suppliers.
#[derive(Clone, Copy)]
pub struct Settings {
    pub w: u8,
    pub a: u16,
    pub b: u16,
    pub default: u8,
    pub resort: u8,
}

// contracts[s] says that supplier s is under contract; points[p - 1] is point p.
#[derive(Clone, Copy)]
pub struct Register {
    pub settings: Settings,
    pub day: u32,
    pub contracts: [bool; 100],
    pub points: [Point; 32],
}

// An opening, with any numbers.
#[derive(Clone, Copy)]
pub struct Opening {
    pub day: u64,
    pub w: u64,
    pub a: u64,
    pub b: u64,
    pub default: u64,
    pub resort: u64,
}

// One of the twelve calls with its day, today, and any numbers. Nine of them name a point.
#[derive(Clone, Copy)]
pub struct Call {
    pub today: u64,
    pub action: Action,
}

#[derive(Clone, Copy)]
pub enum Action {
    Contract { supplier: u64 },
    Failure { supplier: u64 },
    At { point: u64, act: PointAction },
    Day,
}

// A meter as a call brings it: its wheels, the index that it starts with, its code and its factor. Any numbers, the code
// too: `not_meter` refuses the others.
#[derive(Clone, Copy)]
pub struct NewMeter {
    pub before: u64,
    pub after: u64,
    pub index: u64,
    pub code: u64,
    pub factor: u64,
}

#[derive(Clone, Copy)]
pub enum PointAction {
    Enrol {
        meter: NewMeter,
    },
    IntoService {
        supplier: u64,
        key: u64,
    },
    DefaultSupply {
        key: u64,
    },
    Request {
        supplier: u64,
        key: u64,
        day: u64,
    },
    Cancel {
        supplier: u64,
    },
    Reading {
        day: u64,
        index: u64,
        zero: u64,
    },
    MeterChange {
        index: u64,
        zero: u64,
        meter: NewMeter,
    },
    OutOfService,
    Suspend {
        mark: u64,
    },
}

// Why a call, an opening or a line is refused, by the trade's words of document 01's table; specs/Answers has the numbers.
#[derive(Clone, Copy)]
pub enum Rejection {
    NoTransportContract,
    FalseIdpc,
    DateIncompatible,
    NameDiffers,
    OtherRequest,
    NoPerimeter,
    AccessSuspended,
    // With the deadline of default supply.
    LastResortUnderWay(u32),
    OffTheCalendar,
    DayRunsBack,
    FieldOutOfRange,
    AlreadyEnrolled,
    AlreadyServed,
    NothingPending,
    TooLate,
    ReadingOutOfTime,
    IndexDisagrees,
    ProtectedSupplier,
    PeriodsFull,
    UnreadableLine,
    FactorOutOfRange,
    // A number by itself: what takes an answer takes every number (docs/LOOK-BACK.md). No row of the table gives one.
    Number(u8),
}

// The answer to a call: accepted, accepted with its effective day, or refused. An enum and not a Result, since `number`
// and `date` of specs/Answers give the paper's number and date for each of its cases.
#[derive(Clone, Copy)]
pub enum Answer {
    Accepted,
    AcceptedOn(u32),
    Refused(Rejection),
}

// The answer, and the whole register after the call.
#[derive(Clone, Copy)]
pub struct Outcome {
    pub answer: Answer,
    pub register: Register,
}

// What falls due first at a point by a day. An enum with the supply inside its case, which the buyer asks for
// (docs/RULES.md).
#[derive(Clone, Copy)]
pub enum Due {
    Nothing,
    // A holder is named on the day: the supply from then on.
    Naming { day: u32, supply: Supply },
}

// What a reading books: an advance of the wheels from one day to a later one, the volume of one unit, and the factor
// that makes it normal cubic metres.
#[derive(Clone, Copy)]
pub struct Span {
    pub from: u32,
    pub to: u32,
    pub advance: u64,
    pub unit: u64,
    pub factor: u64,
}

// What an event or an accepted call does to a point: the fields after it, and what goes with them.
#[derive(Clone, Copy)]
pub enum Effect {
    // No holder is named.
    Keep(Fields),
    // The fields' holder is named.
    Name(Fields),
    // The point is enrolled, and the fields' holder is named.
    Enrol(Fields),
    // A reading is booked.
    Read(Span, Fields),
    // A request waits for its day, which the answer carries.
    Request(u32, Fields),
}
