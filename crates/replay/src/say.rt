// One line for each answer of the handler, and one more for each step of a burst; docs/HOST.md has the format of the answers.
use crate::Ids;
use host::kind::{Kind, UnknownKind};
use std::io;
use stream::Stream;

// The numbers of docs/HOST.md, said here once more and not taken from `host`: what is printed is held to its code.
const END: u8 = 255;

const TRANSACTION: u8 = 1;

const EOF_SENT: u8 = 2;

const FAULT: u8 = 4;

const FINISHED: u8 = 8;

const ACK_TIMER: u8 = 16;

const CHECK_TIMER: u8 = 32;

// Where lines are printed, what is left of the answers, and how events tell the source id and number.
#[derive(Drop)]
struct Say<'a, R: Print> {
    rt: &'a R,
    answers: Stream<'a>,
    ids: Ids,
}

impl<R: Print> Say<'_, R> {
    fn refusal(&mut self, name: &str) -> io::Result<()> {
        let no = self.answers.byte();
        println!(self.rt; "  {name} {no}")
    }

    // How many of the delivered bytes are the PDU's; the Rust tells none.
    fn delivered(&mut self) -> io::Result<()> {
        let no = self.answers.byte();
        let length = self.answers.number(4);
        match self.ids {
            Ids::Tagged => println!(self.rt; "  deliver {no} {length}"),
            Ids::ByValue => println!(self.rt; "  deliver {no}"),
        }
    }

    fn cancelled(&mut self) -> io::Result<()> {
        let word = if self.answers.byte() == 1 {
            "yes"
        } else {
            "no"
        };
        println!(self.rt; "  cancel {word}")
    }

    // The Rust's events tell ids by value, and its timers tell none.
    fn events(&mut self) -> io::Result<()> {
        let flags = self.answers.byte();
        if flags == 0 {
            return Ok(());
        }
        let idw = self.answers.byte();
        let id = self.answers.number(8);
        let seqw = self.answers.byte();
        let number = self.answers.number(8);
        if flags & TRANSACTION != 0 {
            print!(self.rt; " transaction")?;
        }
        if flags & EOF_SENT != 0 {
            print!(self.rt; " eof-sent")?;
        }
        if flags & FAULT != 0 {
            let action = self.answers.byte();
            let condition = self.answers.byte();
            let progress = self.answers.number(8);
            print!(self.rt; " fault {action} {condition} {progress}")?;
        }
        if flags & FINISHED != 0 {
            let condition = self.answers.byte();
            let delivery = self.answers.byte();
            let status = self.answers.byte();
            print!(self.rt; " finished {condition} {delivery} {status}")?;
        }
        if flags & ACK_TIMER != 0 {
            print!(self.rt; " ack-timer")?;
        }
        if flags & CHECK_TIMER != 0 {
            print!(self.rt; " check-timer")?;
        }
        match self.ids {
            Ids::Tagged => print!(self.rt; " of {idw}:{id} {seqw}:{number}"),
            Ids::ByValue if flags & !(ACK_TIMER | CHECK_TIMER) != 0 => print!(self.rt;
                " of {id} {number}"
            ),
            Ids::ByValue => Ok(()),
        }
    }

    // What a step made: its PDU and its events.
    fn made(&mut self) -> io::Result<()> {
        let pdu = self.answers.blob(2);
        print!(self.rt; " ")?;
        if pdu.is_empty() {
            print!(self.rt; "-")?;
        }
        for b in pdu {
            print!(self.rt; "{b:02x}")?;
        }
        self.events()?;
        println!(self.rt; "")
    }

    fn stepped(&mut self) -> io::Result<()> {
        let no = self.answers.byte();
        print!(self.rt; "  step {no}")?;
        self.made()
    }

    // A line more for each step.
    fn bursted(&mut self) -> io::Result<()> {
        let no = self.answers.byte();
        let count = self.answers.byte();
        println!(self.rt; "  burst {no} {count}")?;
        for _ in 0..count {
            print!(self.rt; "   ")?;
            self.made()?;
        }
        Ok(())
    }

    // Behind an answer of no kind nobody knows where the next one begins.
    fn line(&mut self) -> io::Result<()> {
        match Kind::try_from(self.answers.byte()) {
            Ok(Kind::Put) => self.refusal("put"),
            Ok(Kind::Deliver) => self.delivered(),
            Ok(Kind::Step) => self.stepped(),
            Ok(Kind::Cancel) => self.cancelled(),
            Ok(Kind::Reset) => println!(self.rt; "  reset"),
            Ok(Kind::Burst) => self.bursted(),
            Ok(Kind::Lend) => println!(self.rt; "  lend"),
            Err(UnknownKind(END)) => self.refusal("end"),
            Err(_) => {
                self.answers = Stream(&[]);
                println!(self.rt; "  no answer")
            }
        }
    }
}

// Every answer takes bytes, so there are no more of them than bytes.
pub fn lines(rt: &impl Print, answers: &[u8], ids: Ids) -> io::Result<()> {
    let mut say = Say {
        rt,
        answers: Stream(answers),
        ids,
    };
    for _ in 0..answers.len() {
        if say.answers.is_empty() {
            break;
        }
        say.line()?;
    }
    Ok(())
}
