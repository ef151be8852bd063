#![tactic(auto)]

// What a cut says of space: where the corners that it gives lie, in exact arithmetic; all of it stands in `specs/`.
