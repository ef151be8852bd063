#![tactic(auto)]

// Walks over lists and their laws; all of it stands in `specs/`.
