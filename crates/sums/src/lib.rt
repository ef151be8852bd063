#![tactic(auto)]

// Sums over lists, ordered maps as lists and connected classes, with their laws; all of it stands in `specs/`.
