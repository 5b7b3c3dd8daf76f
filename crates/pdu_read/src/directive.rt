// A body in its frame: which reader its directive code picks, and what the frame refuses.
// Which PDUs are a sender's: after cfdp-rs 0.3.0, src/lib.rs (Apache-2.0); changed, see NOTICE.
ghost use Rattle.std.specs.Prelude.{◌≡◌, ◌-◌};
ghost use Rattle.basis.specs.Bytes.{part};
ghost use Rattle.rules_pdu.specs.Reading.{directive_in, directed as directedIs, body_of};
ghost use Rattle.pdu_read.specs.Directive.{directive_of};

use crate::ack::ack_in;
use crate::field::part_of;
use crate::finished::finished_in;
use crate::keep_alive::keep_alive_in;
use crate::nak::nak_in;
use types::{Frame, Meaning, ReadError};

// The directives, each with its code.
#[derive(Clone, Copy)]
pub enum Directive {
    Eof = 4,
    Finished = 5,
    Ack = 6,
    Metadata = 7,
    Nak = 8,
    Prompt = 9,
    KeepAlive = 12,
}

// A code that no directive has.
#[derive(Clone, Copy)]
pub struct UnknownCode {
    pub code: u8,
}

#[tactic(auto, using(crate::proofs::Tests::tests), unfolding(crate::specs::Directive::directive_of))]
impl TryFrom<u8> for Directive {
    type Error = UnknownCode;

    ghost try_from_gives = { λ code r. r ≡ directive_of code };

    fn try_from(code: u8) -> Result<Directive, UnknownCode> {
        match code {
            4 => Ok(Directive::Eof),
            5 => Ok(Directive::Finished),
            6 => Ok(Directive::Ack),
            7 => Ok(Directive::Metadata),
            8 => Ok(Directive::Nak),
            9 => Ok(Directive::Prompt),
            12 => Ok(Directive::KeepAlive),
            _ => Err(UnknownCode { code }),
        }
    }
}

// What an ACK says that it is of: the acked code with the subtype that goes with it.
pub const OF_EOF: u8 = 0x40;

pub const OF_FINISHED: u8 = 0x51;

// b has its code byte in front.
#[tactic(auto, using(crate::proofs::Tests::tests), unfolding(rules_pdu::specs::Reading::directive_in, crate::specs::Directive::directive_of))]
pub fn directive_in(large: bool, code: u8, b: &[u8]) -> Result<Meaning, ReadError>
    ensures { result ≡ directive_in large code b.now }
{
    match Directive::try_from(code) {
        Ok(Directive::Finished) => finished_in(b),
        Ok(Directive::Ack) => ack_in(b),
        Ok(Directive::Nak) => nak_in(large, b),
        Ok(Directive::KeepAlive) => keep_alive_in(large, b),
        Ok(Directive::Eof | Directive::Metadata | Directive::Prompt) => Err(ReadError::CantProcess),
        Err(_) => Err(ReadError::Malformed),
    }
}

// What is no Malformed is refused in the direction towards the receiver.
fn directed(tosender: bool, m: Result<Meaning, ReadError>) -> Result<Meaning, ReadError>
    ensures { result ≡ directedIs tosender m }
{
    match m {
        Ok(_) if !tosender => Err(ReadError::CantProcess),
        m => m,
    }
}

// b is the body, with its code byte in front.
#[tactic(auto, using(crate::proofs::Tests::tests), unfolding(rules_pdu::specs::Reading::body_of, basis::specs::Bytes::byte))]
fn body_in(f: Frame, b: &[u8]) -> Result<Meaning, ReadError>
    ensures { result ≡ body_of f b.now }
{
    if f.filedata {
        return Err(ReadError::CantProcess);
    }
    if b.len() == 0 {
        return Err(ReadError::Malformed);
    }
    directed(f.tosender, directive_in(f.head.large, b[0], b))
}

// The body that a frame's places cut out of the delivered bytes; any frame at all.
pub fn read_body(s: &[u8], f: Frame) -> Result<Meaning, ReadError>
    ensures { result ≡ body_of f (part s.now f.start (f.end - f.start)) }
{
    body_in(f, part_of(s, f.start, f.end.saturating_sub(f.start)))
}
