// How telling constraints to the tables goes: where one step of it stops, and the whole. A mark is the length of the trail and the
// number of applications. The functions are those of work_meets to work_ranges; definitions and laws stand here.
#![tactic(auto)]

// Why a step stopped, with the length of the trail after it: at a clash, or because the trail is full.
#[derive(Clone, Copy)]
pub enum Stop {
    Clash(usize),
    Full(usize),
}

// How telling went, with the mark after it: all was told, or it failed by a clash, or a table has no room.
// An enum of its own: of a loop over a Result of two numbers, taken apart by `?`, the check did not come to an end.
#[derive(Clone, Copy)]
pub enum Told {
    All(usize, usize),
    Failed(usize, usize),
    NoRoom(usize, usize),
}
