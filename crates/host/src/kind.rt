// The numbers of docs/HOST.md: the kind of a call, which is the byte that it and its answer begin with, and the flags of events.
ghost use Rattle.host.specs.Kind.{Decodes};

// An answer of this kind is the last: behind it stands the status.
pub const END: u8 = 255;

#[derive(Clone, Copy)]
pub enum Kind {
    Put = 1,
    Deliver = 2,
    Step = 3,
    Cancel = 4,
    Reset = 5,
    Burst = 6,
    Lend = 7,
}

// A byte that says no kind of call.
#[derive(Clone, Copy)]
pub struct UnknownKind(pub u8);

impl TryFrom<u8> for Kind {
    type Error = UnknownKind;

    ghost try_from_gives = { Decodes };

    fn try_from(b: u8) -> Result<Self, UnknownKind> {
        match b {
            1 => Ok(Kind::Put),
            2 => Ok(Kind::Deliver),
            3 => Ok(Kind::Step),
            4 => Ok(Kind::Cancel),
            5 => Ok(Kind::Reset),
            6 => Ok(Kind::Burst),
            7 => Ok(Kind::Lend),
            _ => Err(UnknownKind(b)),
        }
    }
}

// What occurred, each a bit of one byte.
pub const TRANSACTION: u8 = 1;

pub const EOF_SENT: u8 = 2;

pub const FAULT: u8 = 4;

pub const FINISHED: u8 = 8;

pub const ACK_TIMER: u8 = 16;

pub const CHECK_TIMER: u8 = 32;
