#![tactic(auto)]

// Document 01's worked cases; all of it stands in `specs/`.
