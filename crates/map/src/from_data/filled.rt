// The filled slots as entries, in ascending order, each with the place of its code.
ghost use Rattle.map.specs.Inner.{Ungathered};

use crate::mapping_data::BUTTONS;
use arrayvec::ArrayVec;
use line::mapping::Entry;

// A filled slot: its entry, and the place of its code in the list of codes.
#[derive(Clone, Copy)]
pub struct Placed {
    pub entry: Entry,
    pub place: usize,
}

// What stands where no slot is. Written out, since an `Entry` has no default that could be derived from.
impl Default for Placed {
    fn default() -> Placed {
        Placed {
            entry: Entry::UNUSED,
            place: 0,
        }
    }
}

// The filled slots of one kind.
pub type Filled = ArrayVec<Placed, BUTTONS>;

// What a line has of the slots: the pairs of the buttons, and those of the axes.
#[derive(Drop)]
pub struct Pairs {
    pub buttons: Filled,
    pub axes: Filled,
}

impl Pairs {
    // Those of no slot.
    pub fn new() -> Pairs
        ensures { Ungathered result }
    {
        Pairs {
            buttons: ArrayVec::new(),
            axes: ArrayVec::new(),
        }
    }
}
