// One pass: put, then step after step until the handler is idle or waits for an answer that nobody gives. An answer is delivered after each
// step that emits nothing; with a limit, and no answer left, such a step is made again with the timer expired.
use crate::frames::Frames;
use crate::output::Output;
use send_text::pdu::sum_of;
use send_text::tell;
use send_text::tell::Tally;
use source_queue::served;
use source_state::is_idle;
use std::io::Error;
use types::{Burst, Events, Made, Refusal, State};

// What a pass is made with.
#[derive(Clone, Copy)]
pub struct Given<'a> {
    pub file: &'a [u8],
    pub answers: Frames<'a>,
    // how many answers there are
    pub count: usize,
    // the timer expires
    pub timed: bool,
    // steps a call, 0: no bursts
    pub burst: u8,
}

// The handler, the answers that are left, how many were delivered, the timer, whether to go on, and what has left.
#[derive(Clone, Copy)]
pub struct Pass<'a> {
    given: Given<'a>,
    output: Output<'a>,
    pub state: State,
    answers: Frames<'a>,
    pub delivered: usize,
    expired: bool,
    going: bool,
    pub tally: Tally,
}

// What a pass was before a burst: the handler, the timer, and how many PDUs had left.
#[derive(Clone, Copy)]
struct Before {
    state: State,
    expired: bool,
    pdus: u64,
}

impl<'a> Pass<'a> {
    pub fn new(given: Given<'a>, output: Output<'a>, state: State) -> Self {
        Pass {
            given,
            output,
            state,
            answers: given.answers,
            delivered: 0,
            expired: false,
            going: true,
            tally: Tally::default(),
        }
    }

    // ---- what leaves

    fn count(&mut self, pdu: &[u8], repair: bool) {
        let t = self.tally;
        self.tally = Tally {
            pdus: t.pdus.saturating_add(1),
            bytes: t.bytes.saturating_add(pdu.len() as u64),
            repairs: t.repairs.saturating_add(u64::from(repair)),
            sum: sum_of(pdu).or(t.sum),
        };
    }

    // A sign of life after every 256 PDUs.
    fn say_progress(&self) {
        if self.tally.pdus % 256 == 0 {
            let done = self.state.file.progress;
            let size = self.state.fixed.size;
            tell::line(self.output.rt, format_args!("{done} of {size} bytes"));
        }
    }

    // How many PDUs have left or come.
    fn passed(&self) -> u64 {
        self.tally.pdus.saturating_add(self.delivered as u64)
    }

    // Puts PDU number k of the pass into the capture.
    fn keep(&mut self, k: u64, pdu: &[u8]) {
        if let Err(e) = self.output.keep(k, pdu) {
            tell::cut_short(self.output.rt, "capture", k, e);
            self.going = false;
        }
    }

    fn cut_short(&self, e: Error) {
        tell::cut_short(self.output.rt, "output", self.tally.pdus, e);
    }

    fn emit(&mut self, state: State, events: Events, pdu: &[u8], repair: bool) {
        match self.output.write(pdu, repair) {
            Ok(()) => {
                tell::events(self.output.rt, events);
                let k = self.passed();
                self.count(pdu, repair);
                self.state = state;
                self.expired = false;
                self.say_progress();
                self.keep(k, pdu);
            }
            Err(e) => {
                self.cut_short(e);
                self.going = false;
            }
        }
    }

    // ---- what comes

    // Says what was refused of answer k, and what stands behind its PDU, the first `own` of n bytes.
    fn say_answer(&self, k: usize, answer: Result<(), Refusal>, own: usize, n: usize) {
        let rt = self.output.rt;
        if let Err(r) = answer {
            tell::refused(rt, format_args!("answer {k}"), r);
        }
        if 0 < own && own < n {
            let fill = n - own;
            tell::line(
                rt,
                format_args!(
                    "answer {k}: {fill} of its {n} bytes stand behind the PDU and are fill"
                ),
            );
        }
    }

    fn deliver(&mut self, pdu: &[u8], behind: Frames<'a>) {
        let d = source::deliver(&mut self.state, pdu);
        let number = self.delivered.saturating_add(1);
        self.say_answer(number, d.answer, d.length, pdu.len());
        match self.output.show(pdu, d.answer) {
            Ok(()) => {
                let k = self.passed();
                self.answers = behind;
                self.delivered = number;
                self.expired = false;
                self.keep(k, pdu);
            }
            Err(e) => {
                self.cut_short(e);
                self.going = false;
            }
        }
    }

    // ---- one step

    // After a step that emitted nothing.
    fn quiet(&mut self, state: State) {
        self.state = state;
        if is_idle(state.step) {
            self.going = false;
        } else if let Some((pdu, behind)) = self.answers.first() {
            self.deliver(pdu, behind);
        } else {
            // goes on only with the timer, once
            self.going = self.given.timed && !self.expired;
            self.expired = self.going;
        }
    }

    fn refused(&mut self, r: Refusal) {
        tell::refused(self.output.rt, "step", r);
        self.going = false;
    }

    fn accepted(&mut self, state: State, made: Made, space: &[u8]) {
        let pdu = space.get(..made.length).unwrap_or(&[]);
        if pdu.is_empty() {
            tell::events(self.output.rt, made.events);
            self.quiet(state);
        } else {
            let repair = self.state.queue.count > 0;
            self.emit(state, made.events, pdu, repair);
        }
    }

    // The state stays until the PDU has left.
    fn step(&mut self) {
        // Stays: a fixed buffer, here and below, which `source` writes PDUs into; none is longer than 4,096 bytes.
        let mut space = [0u8; 4096];
        let mut state = self.state;
        match source::step(&mut state, self.given.file, self.expired, &mut space) {
            Err(r) => self.refused(r),
            Ok(made) => self.accepted(state, made, &space),
        }
    }

    // ---- bursts

    // No burst goes past the PDU that has a sign of life beside it, which shows the state behind it.
    fn burst_length(&self) -> usize {
        let left = 256 - self.tally.pdus % 256;
        left.min(u64::from(self.given.burst)) as usize
    }

    // The PDUs of a burst, end to end in space; a place without a step has none. What is known between two of them is the queue: it holds what `served`
    // leaves, so that a repair is known.
    fn lay(&mut self, state: State, b: Burst, space: &[u8]) {
        let mut queue = self.state.queue;
        let segment = self.state.fixed.segment;
        let mut rest = space;
        for made in b.steps.iter().filter(|made| made.length > 0) {
            if !self.going {
                break;
            }
            let (pdu, behind) = rest.split_at(made.length.min(rest.len()));
            self.emit(state, made.events, pdu, queue.count > 0);
            queue = served(segment, queue);
            rest = behind;
        }
    }

    // A write failed within a burst: the state behind the PDUs that are whole, which the same steps make again.
    fn cut(&mut self, before: Before) {
        let whole = self.tally.pdus.saturating_sub(before.pdus) as usize;
        let mut space = [0u8; 65536];
        self.state = before.state;
        let _ = source::burst(
            &mut self.state,
            self.given.file,
            before.expired,
            whole,
            &mut space,
        );
    }

    // Behind the PDUs of a burst: its last step may have emitted nothing.
    fn behind(&mut self, last: Made, state: State) {
        if last.length == 0 {
            tell::events(self.output.rt, last.events);
            self.quiet(state);
        }
    }

    fn burst_accepted(&mut self, state: State, b: Burst, space: &[u8]) {
        let before = Before {
            state: self.state,
            expired: self.expired,
            pdus: self.tally.pdus,
        };
        self.lay(state, b, space);
        if self.going {
            self.behind(b.steps[b.count.saturating_sub(1).min(15)], state);
        } else {
            self.cut(before);
        }
    }

    // No PDU is longer than 4,096 bytes, so sixteen have room.
    fn burst(&mut self) {
        let mut space = [0u8; 65536];
        let n = self.burst_length();
        let mut state = self.state;
        match source::burst(&mut state, self.given.file, self.expired, n, &mut space) {
            Err(r) => self.refused(r),
            Ok(b) => self.burst_accepted(state, b, &space),
        }
    }

    // ---- from the first step to the last

    // Nothing says that a pass ends, so the turns are counted, up to a number that no pass uses up.
    pub fn go(&mut self) {
        for _ in 0..u64::MAX {
            if !self.going {
                break;
            }
            if self.given.burst == 0 {
                self.step();
            } else {
                self.burst();
            }
        }
    }
}
