// The sending handler: seven calls over one state, which is lent; a refusal leaves it as it was. Each takes any state value, any bytes and any
// numbers, in any order, and returns; its contract is one relation of crate `rules` and nothing beside it, so what is proved of the relations holds of
// these calls. The code stands in source_put, source_deliver and source_step.
// To read it: `(x : A) → P` "for every x of A, P", and `P → Q` "if P, then Q"; `(x : A) × P` "there is an x of A with P", and `P × Q` "P and Q"; `P ⊎ Q` "P or Q"; `¬ P` "not P"; `P ↔ Q` "P exactly
// if Q"; `⊥` what never holds; `a ≡ b` "a equals b". `x.f` is the field f of x, `p.0` and `p.1` are the parts of a pair. `[]` is the empty list, `x ∷ l` one that begins with x, `l ++ m` both joined, `map f l` f of
// each. In a contract `result` is what the function returns, `x.now` are the bytes behind x, and `x.old` and `x.new` those when the call begins and when it ends.
// After cfdp-rs 0.3.0, src/source.rs (Apache-2.0); changed, see NOTICE.
#![tactic(auto)]

pub mod answers;

ghost use Rattle.std.specs.Prelude.{◌≡◌};
ghost use Rattle.rules.specs.Calls.{stepped_as, bursted_as, PutMeets, DeliverMeets, StepMeets, BurstMeets, CancelMeets, ResetMeets, NewMeets};

use types::{
    Burst, Delivery, EntityId, LocalEntityConfig, Made, PutRequest, Refusal, State,
    TransactionSeqNum,
};

// Stays: the seven calls are named here once more beside the crates that have their code: they are the public ones, which hosts, the seam and the tests use by these names.
// Stays: their parameters stand apart, as `PutMeets`, `StepMeets` and `BurstMeets` name them and as C lends them.

// A handler whose first put takes this number.
pub fn new(number: TransactionSeqNum) -> State
    ensures { NewMeets number result }
{
    source_step::new(number)
}

// Puts a file of `size` bytes: refusals 1 to 8, or SendingMetadata.
pub fn put(
    s: &mut State,
    c: LocalEntityConfig,
    q: PutRequest,
    source: &[u8],
    destination: &[u8],
    size: u64,
) -> Result<(), Refusal>
    ensures { PutMeets s.old c q source.now destination.now size (record { answer = result; state = s.new }) }
{
    source_put::put(s, c, q, source, destination, size)
}

// Takes a PDU from the link, with or without fill behind it: refusals 20, 21, 23, 22, 24, 25, or what the table of steps says; and how many of the bytes are the
// PDU's, on a refusal too (0: Malformed).
pub fn deliver(s: &mut State, bytes: &[u8]) -> Delivery
    ensures { DeliverMeets s.old bytes.now (record { answer = result.answer; length = result.length; state = s.new }) }
{
    source_deliver::deliver(s, bytes)
}

// Makes one step over the lent file and emits at most one PDU, in front of `out`: refusals 30 and 31, or items 1 to 9.
pub fn step(s: &mut State, file: &[u8], expired: bool, out: &mut [u8]) -> Result<Made, Refusal>
    ensures { StepMeets s.old file.now expired out.old out.new (stepped_as s.old result s.new) }
{
    source_step::step(s, file, expired, out)
}

// Makes up to sixteen steps, their PDUs end to end in front of `out`: refusal 32, or 30 and 31 of the first step.
pub fn burst(
    s: &mut State,
    file: &[u8],
    expired: bool,
    count: usize,
    out: &mut [u8],
) -> Result<Burst, Refusal>
    ensures { BurstMeets s.old file.now expired count out.old out.new (bursted_as result s.new) }
{
    source_step::burst(s, file, expired, count, out)
}

// The user's cancel: yes or no.
pub fn cancel(s: &mut State, source: EntityId, number: TransactionSeqNum) -> bool
    ensures { CancelMeets s.old source number (record { yes = result; state = s.new }) }
{
    source_step::cancel(s, source, number)
}

// Idle, with the sequence number kept.
pub fn reset(s: &mut State)
    ensures { ResetMeets s.old s.new }
{
    source_step::reset(s)
}
