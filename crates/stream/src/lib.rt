// Bytes taken from the front of what a program has read: one, a number, a run, a run behind its length. Past the end there are none, and what is
// taken there is zero or shorter.
#![tactic(auto)]

ghost use Rattle.std.specs.Prelude.{◌≡◌, ◌≤◌, ◌==◌, ◌-◌, length, take, drop, get_or};
ghost use Rattle.basis.specs.Bytes.{num as num_of};

use basis::fields::num;

// What is left.
#[derive(Clone, Copy)]
pub struct Stream<'a>(pub &'a [u8]);

impl<'a> Stream<'a> {
    pub fn is_empty(&self) -> bool
        ensures { result ≡ (length self.now.0.now == 0) }
    {
        self.0.is_empty()
    }

    pub fn byte(&mut self) -> u8
        ensures value { result ≡ get_or self.old.0.now 0 0 }
        ensures rest { self.new.0.now ≡ drop 1 self.old.0.now }
    {
        self.0.split_off_first().copied().unwrap_or(0)
    }

    // The next n bytes, or as many as are left.
    pub fn run(&mut self, n: usize) -> &'a [u8]
        ensures value { result.now ≡ take n self.old.0.now }
        ensures rest { self.new.0.now ≡ drop n self.old.0.now }
    {
        let (run, rest) = self.0.split_at(n.min(self.0.len()));
        self.0 = rest;
        run
    }

    // The number in the next w bytes, highest first, or in as many as are left.
    pub fn number(&mut self, w: usize) -> u64
        requires { w ≤ 8 }
        ensures value { result ≡ num_of (take w self.old.0.now) }
        ensures rest { self.new.0.now ≡ drop w self.old.0.now }
    {
        num(self.run(w))
    }

    // A run of bytes behind its length in w bytes.
    pub fn blob(&mut self, w: usize) -> &'a [u8]
        requires { w ≤ 8 }
        ensures value { result.now ≡ take (num_of (take w self.old.0.now)) (drop w self.old.0.now) }
        ensures rest { self.new.0.now ≡ drop (num_of (take w self.old.0.now)) (drop w self.old.0.now) }
        ensures shorter { length self.new.0.now ≤ length self.old.0.now - w }
    {
        let n = self.number(w);
        self.run(n as usize)
    }
}
