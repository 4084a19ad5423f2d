// The commands that change a hall's store, and those on lists of lines and on maps. A command takes the store, its second
// argument and the place of the others one by one: hub calls each from one row of its table, and the second is a UUID to
// one command, a file to another.
#![tactic(auto)]

pub mod census;
pub mod choosing;
pub mod demo;
pub mod editing;
pub mod exporting;
pub mod filing;
pub mod held_maps;
pub mod inserting;
pub mod lint;
pub mod map_changes;
pub mod mappings;
pub mod removing;
pub mod reports;
pub mod saving;
pub mod test_args;
pub mod testing;
