#![tactic(auto)]

// Document 01's worked cases that are proved, in one table; all of it stands in `specs/`.
