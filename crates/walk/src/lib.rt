// State after state expanded, until there is no further state or they outnumber the room.
#![tactic(auto)]

ghost use Rattle.walk.specs.Walked.{WalkAsks, WalkedAs, GrowAsks, MadeAs};

use expand::expand;
use kinds::plan::Plan;
use marks::chains::Index;
use moves::put_first;
use search::seek;

// Expands state after state, from the one value in place 0, until there is no further state or they outnumber the room: then None.
pub fn walk(plan: &Plan, table: &mut [u8], vectors: &mut [u8], index: &mut Index) -> Option<usize>
    requires { WalkAsks plan.now table.old vectors.old index.old }
    ensures { WalkedAs plan.now table.old table.new vectors.old vectors.new result }
{
    let mut held = 1;
    let mut i = 0;
    // Expanding a state adds states, so no range says beforehand how far this goes.
    while i < held {
        held = expand(plan, i, held, table, vectors, index)?;
        i += 1;
    }
    Some(held)
}

// Makes a whole construction: its states in their places with zeros in the places after them, and its table.
pub fn grow(plan: &Plan, table: &mut [u8], vectors: &mut [u8]) -> Option<usize>
    requires { GrowAsks plan.now table.old vectors.old }
    ensures { MadeAs plan.now table.old table.new vectors.old vectors.new result }
{
    let mut index = Index::new();
    put_first(plan, vectors);
    seek(plan, vectors, &mut index, 0);
    let held = walk(plan, table, vectors, &mut index)?;
    vectors[held * plan.stride..(plan.room + 1) * plan.stride].fill(0);
    Some(held)
}
