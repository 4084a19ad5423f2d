// The map of a build, by the same puts as its line.
ghost use Rattle.std.specs.Prelude.{◌≡◌};
ghost use Rattle.map.specs.Inner.{PutsSlots, put_map_of};
ghost use Rattle.line.specs.Maps.{empty_map};

use crate::from_data::NAME_START;
use crate::from_data::filled::{Pairs, Placed};
use line::mapping::Mapping;

// The entries of the filled slots put into a map, which has room for them: none is refused.
fn put_slots(map: &mut Mapping, slots: &[Placed])
    ensures { PutsSlots slots.now map.old map.new }
{
    for slot in slots {
        let _ = map.put(slot.entry);
    }
}

// The pairs of both put into the empty map, its name of so many bytes.
pub fn put_map(map: &mut Mapping, pairs: &Pairs, name_len: usize)
    requires { map.old ≡ empty_map }
    ensures { map.new ≡ put_map_of pairs.now name_len }
{
    map.name_start = NAME_START;
    map.name_len = name_len;
    put_slots(map, pairs.buttons.as_slice());
    put_slots(map, pairs.axes.as_slice());
}
