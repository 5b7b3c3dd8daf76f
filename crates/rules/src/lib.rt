// What is right of the handler: document 01 as definitions (specs/), in its order and with its names, and the promises that follow from them (specs/ and
// proofs/). Numbers and PDU bytes stand in `rules_pdu`, what 01 takes from others (UTF-8, checksums) in `rules_leaves`, the types in `types`. No code runs here.
#![tactic(auto)]
