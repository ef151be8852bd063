#![tactic(auto)]

// Document 01's worked cases of the offset and the hollow solid; all of it stands in `specs/`.
