// What a put asks of its ids, of the configuration, and of the names' lengths.
// After cfdp-rs 0.3.0, src/source.rs and src/lib.rs (Apache-2.0); changed, see NOTICE.
ghost use Rattle.std.specs.Prelude.{◌≡◌};
ghost use Rattle.rules.specs.Put.{ids_fit, known_type, known_action, all_known, good_entry, good_config, good_length, good_lengths};
ghost use Rattle.source_put.specs.Entry.{entry_found};

use crate::numbers::fits;
use types::{EntityId, LocalEntityConfig, RemoteEntityConfig, TransactionSeqNum};

// What is no BadIdWidth.
#[tactic(auto, unfolding(rules::specs::Put::ids_fit))]
pub fn ids_fit(a: EntityId, b: EntityId, n: TransactionSeqNum) -> bool
    ensures { result ≡ ids_fit a b n }
{
    fits(a.0, a.1) && fits(b.0, b.1) && fits(n.0, n.1)
}

// The entry that is used: the first with the id value v among those looked at. None is NoRemoteCfgFound.
// Stays: eight entries with their number beside them, 01's form of the table; no heap.
pub fn entry_found(c: LocalEntityConfig, v: u64) -> Option<RemoteEntityConfig>
    ensures { result ≡ entry_found c v }
{
    let n = c.count.min(8);
    c.remotes[..n].iter().find(|e| e.id.1 == v).copied()
}

// Stays: a type and an action are numbers, as the configuration has them (01) and the definitions `known_type` and `known_action`.
#[tactic(auto, unfolding(rules::specs::Put::known_type))]
fn known_type(t: u8) -> bool
    ensures { result ≡ known_type t }
{
    matches!(t, 0 | 2 | 3 | 15)
}

// 1 cancel, 3 ignore, 4 abandon.
#[tactic(auto, unfolding(rules::specs::Put::known_action))]
fn known_action(a: u8) -> bool
    ensures { result ≡ known_action a }
{
    matches!(a, 1 | 3 | 4)
}

fn all_known(actions: [u8; 16]) -> bool
    ensures { result ≡ all_known actions }
{
    actions.iter().all(|a| known_action(*a))
}

#[tactic(auto, unfolding(rules::specs::Put::good_entry))]
fn good_entry(e: RemoteEntityConfig) -> bool
    ensures { result ≡ good_entry e }
{
    e.maxpacket <= 4096 && e.maxsegment != 0 && known_type(e.checksum)
}

// What is no BadConfig.
#[tactic(auto, unfolding(rules::specs::Put::good_config))]
pub fn good_config(e: RemoteEntityConfig, actions: [u8; 16]) -> bool
    ensures { result ≡ good_config e actions }
{
    good_entry(e) && all_known(actions)
}

#[tactic(auto, unfolding(rules::specs::Put::good_length))]
fn good_length(n: usize) -> bool
    ensures { result ≡ good_length n }
{
    matches!(n, 1..=255)
}

// What is no BadNameLength.
#[tactic(auto, unfolding(rules::specs::Put::good_lengths))]
pub fn good_lengths(n: usize, m: usize) -> bool
    ensures { result ≡ good_lengths n m }
{
    good_length(n) && good_length(m)
}
