#![tactic(auto)]

// Document 01's worked case of the cell Boolean; all of it stands in `specs/`.
