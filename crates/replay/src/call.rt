// A recorded call, and the memory that calls are lent.
use streams::Buffer;

// Which call.
#[derive(Clone, Copy, PartialEq, Eq, Debug)]
pub enum Kind {
    Check,
    Pack,
    Start,
    Pass,
    Run,
    Audit,
    Page,
    TakeBack,
    Desks,
}

// A byte that names no kind.
#[derive(Clone, Copy, PartialEq, Eq, Debug)]
pub struct UnknownKind(pub u8);

impl TryFrom<u8> for Kind {
    type Error = UnknownKind;

    fn try_from(byte: u8) -> Result<Self, UnknownKind> {
        match byte {
            1 => Ok(Kind::Check),
            2 => Ok(Kind::Pack),
            3 => Ok(Kind::Start),
            4 => Ok(Kind::Pass),
            5 => Ok(Kind::Run),
            6 => Ok(Kind::Audit),
            7 => Ok(Kind::Page),
            8 => Ok(Kind::TakeBack),
            9 => Ok(Kind::Desks),
            _ => Err(UnknownKind(byte)),
        }
    }
}

impl Kind {
    pub fn takes_table(self) -> bool {
        !matches!(self, Kind::Check | Kind::Pack)
    }

    pub fn takes_note(self) -> bool {
        matches!(self, Kind::Pass | Kind::TakeBack)
    }

    // A check has the output too, at length 0.
    pub fn takes_output(self) -> bool {
        matches!(self, Kind::Check | Kind::Pack | Kind::Page)
    }
}

// A call, and what it is handed besides what it is lent; 0 where it takes none.
#[derive(Clone, Copy)]
pub struct Call {
    pub kind: Kind,
    pub share: u32,
    pub budget: u32,
    pub excess: u16,
    pub desks: u32,
    pub allowance: u32,
}

// What a call of several desks is lent at a seat, and handed for it.
#[derive(Drop)]
pub struct Seat {
    pub file: Buffer<u8, 65540>,
    pub table: Buffer<u32, 32800>,
    pub budget: u32,
    pub excess: u16,
}

impl Seat {
    fn new() -> Seat {
        Seat {
            file: Buffer::new(0),
            table: Buffer::new(0),
            budget: 0,
            excess: 0,
        }
    }
}

#[derive(Drop)]
pub struct Seats {
    pub seat_0: Seat,
    pub seat_1: Seat,
    pub seat_2: Seat,
    pub seat_3: Seat,
    pub seat_4: Seat,
    pub seat_5: Seat,
    pub seat_6: Seat,
    pub seat_7: Seat,
}

impl Seats {
    pub fn new() -> Seats {
        Seats {
            seat_0: Seat::new(),
            seat_1: Seat::new(),
            seat_2: Seat::new(),
            seat_3: Seat::new(),
            seat_4: Seat::new(),
            seat_5: Seat::new(),
            seat_6: Seat::new(),
            seat_7: Seat::new(),
        }
    }
}

// The file, and what calls are lent. The output is a pack's, or a page slice. Its memory holds the bytes of a table or a
// note too, while they are read. The seats are lent to several desks alone.
#[derive(Drop)]
pub struct Lent {
    pub file: Buffer<u8, 65540>,
    pub table: Buffer<u32, 32800>,
    pub note: Buffer<u16, 8400>,
    pub output: Buffer<u8, 131200>,
    pub seats: Seats,
}
