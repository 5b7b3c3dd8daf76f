// The condition that bodies carry.
ghost use Rattle.std.specs.Prelude.{◌≡◌};
ghost use Rattle.rules_pdu.specs.Reading.{reserved};

// "Conditions 12 and 13 are reserved"
#[tactic(auto, using(crate::proofs::Tests::tests), unfolding(rules_pdu::specs::Reading::reserved))]
pub(crate) fn is_reserved(condition: u8) -> bool
    ensures { result ≡ reserved condition }
{
    matches!(condition, 12 | 13)
}
