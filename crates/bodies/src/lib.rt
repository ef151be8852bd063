#![tactic(auto)]

// Fusing after `conform`: its definition, and demand 3 proved of it; all of it stands in `specs/`.
