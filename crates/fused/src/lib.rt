#![tactic(auto)]

// The bodies of a Boolean operation, from two cells on: the definition in words of the arrangement, what an arrangement's slices mean
// to fusing, and demand 3 of every answer; all of it stands in `specs/`.
