// The numbers of 727 and document 01 in words.
// Stays: numbers, which this module is there to name.
use std::fmt;
use types::{FinishedParams, Refusal};

pub fn condition(c: u8) -> &'static str {
    match c {
        0 => "no error",
        1 => "positive ACK limit reached",
        2 => "keep alive limit reached",
        3 => "invalid transmission mode",
        4 => "filestore rejection",
        5 => "file checksum failure",
        6 => "file size error",
        7 => "NAK limit reached",
        8 => "inactivity detected",
        9 => "invalid file structure",
        10 => "check limit reached",
        11 => "unsupported checksum type",
        14 => "suspend request received",
        15 => "cancel request received",
        _ => "reserved condition",
    }
}

fn delivery(d: u8) -> &'static str {
    match d {
        0 => "data complete",
        _ => "data incomplete",
    }
}

fn status(s: u8) -> &'static str {
    match s {
        0 => "file discarded",
        1 => "file rejected by the filestore",
        2 => "file retained",
        _ => "file status unreported",
    }
}

// What a Finished PDU says.
#[derive(Clone, Copy)]
pub struct Finished(pub FinishedParams);

impl fmt::Display for Finished {
    fn fmt<W: fmt::Write>(&self, f: &mut fmt::Formatter<W>) -> fmt::Result {
        let condition = condition(self.0.condition);
        let delivery = delivery(self.0.delivery);
        let status = status(self.0.status);
        write!(f, "{condition}, {delivery}, {status}")
    }
}

// What a handler does on a fault.
pub fn action(a: u8) -> &'static str {
    match a {
        1 => "cancel",
        3 => "ignore",
        _ => "abandon",
    }
}

// A refusal with its number.
pub fn refusal(r: Refusal) -> &'static str {
    match r {
        Refusal::AlreadyBusy => "1 AlreadyBusy",
        Refusal::BadIdWidth => "2 BadIdWidth",
        Refusal::NoRemoteCfgFound => "3 NoRemoteCfgFound",
        Refusal::BadConfig => "4 BadConfig",
        Refusal::BadNameLength => "5 BadNameLength",
        Refusal::SourceFileNotValidUtf8 => "6 SourceFileNotValidUtf8",
        Refusal::DestFileNotValidUtf8 => "7 DestFileNotValidUtf8",
        Refusal::PacketLimit => "8 PacketLimit",
        Refusal::Malformed => "20 Malformed",
        Refusal::CantProcessPacketType => "21 CantProcessPacketType",
        Refusal::UnexpectedPdu => "22 UnexpectedPdu",
        Refusal::OtherTransaction => "23 OtherTransaction",
        Refusal::InvalidNakPdu => "24 InvalidNakPdu",
        Refusal::RetransmitFull => "25 RetransmitFull",
        Refusal::FileChanged => "30 FileChanged",
        Refusal::OutTooSmall => "31 OutTooSmall",
        Refusal::BurstTooLong => "32 BurstTooLong",
    }
}
