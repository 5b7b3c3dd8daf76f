// One call after another on one state.
use crate::kind::{END, Kind, UnknownKind};
use crate::read::Calls;
use crate::stop::Stop;
use crate::write::Answers;
use types::{Refusal, State};

// An out buffer is never longer: no PDU is longer than 4,096 bytes.
const SPACE: usize = 4608;

// The calls that are left, the file, the part of it that the calls lend, the answers and the state.
#[derive(Drop)]
struct Host<'a, 'b> {
    calls: Calls<'a>,
    file: &'a [u8],
    lent: &'a [u8],
    answers: &'a mut Answers<'b>,
    state: State,
}

// At most the first n bytes.
fn front(s: &[u8], n: usize) -> &[u8] {
    &s[..n.min(s.len())]
}

impl Host<'_, '_> {
    // A record's kind, and the refusal's number, 0 if accepted.
    fn answer(&mut self, kind: Kind, a: Result<(), Refusal>) {
        self.answers
            .add(&[kind as u8, source::answers::answer_no(a)]);
    }

    // Configuration, request, eight bytes of size, then two names.
    fn put(&mut self) -> Result<(), Stop> {
        let c = self.calls.config()?;
        let q = self.calls.request()?;
        let size = self.calls.long()?;
        let from = self.calls.name()?;
        let to = self.calls.name()?;
        let put = source::put(&mut self.state, c, q, from, to, size);
        self.answer(Kind::Put, put);
        Ok(())
    }

    // Behind the answer stands, in four bytes, how many of the delivered bytes are the PDU's.
    fn deliver(&mut self) -> Result<(), Stop> {
        let delivery = self.calls.delivery()?;
        let d = source::deliver(&mut self.state, delivery);
        self.answer(Kind::Deliver, d.answer);
        self.answers.add(&d.length.to_be_bytes()[4..]);
        Ok(())
    }

    // The expiry flag, lent length, the out buffer's.
    fn step(&mut self) -> Result<(), Stop> {
        let expired = self.calls.byte()? != 0;
        let lent = front(self.lent, self.calls.length()?);
        let room = self.calls.length()?.min(SPACE);
        // Stays: a fixed space, here and below; no heap.
        let mut space = [0u8; SPACE];
        let step = source::step(&mut self.state, lent, expired, &mut space[..room]);
        self.answer(Kind::Step, step.map(|_| ()));
        match step {
            Ok(made) => {
                self.answers.add_made(made, &space);
            }
            Err(_) => self.answers.add_nothing(),
        }
        Ok(())
    }

    // An entity id and a sequence number.
    fn cancel(&mut self) -> Result<(), Stop> {
        let source = self.calls.entity()?;
        let number = self.calls.number()?;
        let yes = source::cancel(&mut self.state, source, number);
        self.answers.add(&[Kind::Cancel as u8, u8::from(yes)]);
        Ok(())
    }

    fn reset(&mut self) {
        source::reset(&mut self.state);
        self.answers.add(&[Kind::Reset as u8]);
    }

    // The expiry flag, the count, lent length, the out buffer's.
    fn burst(&mut self) -> Result<(), Stop> {
        let expired = self.calls.byte()? != 0;
        let count = usize::from(self.calls.byte()?);
        let lent = front(self.lent, self.calls.length()?);
        let room = self.calls.length()?.min(SPACE);
        let mut space = [0u8; SPACE];
        let burst = source::burst(&mut self.state, lent, expired, count, &mut space[..room]);
        self.answer(Kind::Burst, burst.map(|_| ()));
        match burst {
            Ok(b) => {
                self.answers.add(&b.count.to_be_bytes()[7..]);
                let made = b.count.min(b.steps.len());
                self.answers.add_steps(&b.steps[..made], &space);
            }
            Err(_) => self.answers.add(&[0]),
        }
        Ok(())
    }

    // A place in the file, from which on the calls behind this one lend.
    fn lend(&mut self) -> Result<(), Stop> {
        let place = self.calls.length()?;
        self.lent = self.file.get(place..).unwrap_or(&[]);
        self.answers.add(&[Kind::Lend as u8]);
        Ok(())
    }

    // A record takes at most 4,648 bytes, that of a burst 5,155: 4,608 of PDUs and sixteen times 34; and two more close the answers.
    fn call(&mut self, kind: Result<Kind, UnknownKind>) -> Result<(), Stop> {
        let record = if matches!(kind, Ok(Kind::Burst)) {
            5200
        } else {
            4650
        };
        if self.answers.room() < record {
            return Err(Stop::NoRoom);
        }
        match kind? {
            Kind::Put => self.put(),
            Kind::Deliver => self.deliver(),
            Kind::Step => self.step(),
            Kind::Cancel => self.cancel(),
            Kind::Reset => {
                self.reset();
                Ok(())
            }
            Kind::Burst => self.burst(),
            Kind::Lend => self.lend(),
        }
    }
}

// The list begins with the number that the handler is made with; files are lent from the first byte on. Every call takes bytes, so there are no more
// of them than bytes.
fn run_all<'a>(
    mut calls: Calls<'a>,
    file: &'a [u8],
    answers: &'a mut Answers<'_>,
) -> Result<(), Stop> {
    let number = calls.number()?;
    let mut host = Host {
        calls,
        file,
        lent: file,
        answers,
        state: source::new(number),
    };
    for _ in 0..calls.len() {
        let Some(kind) = host.calls.kind() else {
            break;
        };
        host.call(Kind::try_from(kind))?;
    }
    Ok(())
}

pub fn run(calls: &[u8], file: &[u8], answers: &mut [u8]) -> u64 {
    let mut answers = Answers::new(answers);
    let status = match run_all(Calls(calls), file, &mut answers) {
        Ok(()) => 0,
        Err(stop) => stop as u8,
    };
    answers.add(&[END]);
    answers.add(&[status]);
    answers.written() as u64
}
