#![tactic(auto)]

// What the sense of a shell says of space: its six-fold volume in exact arithmetic; all of it stands in `specs/` and `proofs/`.
