#![tactic(auto)]

// Every refusal has one of document 01's numbers, and what a call tells can be read back; all of it stands in `specs/` and `proofs/`.
