// Why no more calls are run; its number is the status behind the answers.
use crate::kind::UnknownKind;

#[derive(Clone, Copy)]
pub enum Stop {
    UnknownKind = 1,
    Cut = 2,
    NoRoom = 3,
}

impl From<UnknownKind> for Stop {
    fn from(_: UnknownKind) -> Self {
        Stop::UnknownKind
    }
}
