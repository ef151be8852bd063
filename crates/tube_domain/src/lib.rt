#![tactic(auto)]

// Of inputs of document 01's domain every end on the way to a side is finite, so that what the tube says of them asks nothing more; all of it stands in `specs/` and `proofs/`.
