// The lists of a pad's codes.
ghost use Rattle.std.specs.Prelude.{◌≡◌, ◌==◌, position};
ghost use Rattle.line.specs.Reading.{lists_fit};
ghost use Rattle.map.specs.Lists.{in_list};
ghost use Rattle.map.specs.Default.{in_its_list};

use line::ev::Code;
use line::reading::LIST_MAX;

// The codes of a pad's buttons, and those of its axes.
#[derive(Clone, Copy)]
pub struct Codes<'a> {
    pub buttons: &'a [u32],
    pub axes: &'a [u32],
}

impl Codes<'_> {
    // Neither list is over the limit.
    pub fn fit(self) -> bool
        ensures { result ≡ lists_fit self.entry.buttons.now self.entry.axes.now }
    {
        self.buttons.len() <= LIST_MAX && self.axes.len() <= LIST_MAX
    }

    // The code of a button is sought among the buttons, that of an axis among the axes.
    #[tactic(auto, unfolding(crate::specs::Default::in_its_list))]
    pub fn contains(self, code: Code) -> bool
        ensures { result ≡ in_its_list self.entry.buttons.now self.entry.axes.now code }
    {
        if code.0 < Code::AXIS_LSTICKX.0 {
            return in_list(self.buttons, code);
        }
        in_list(self.axes, code)
    }
}

// The first place of a code, if the list has it.
pub fn find_code(list: &[u32], code: Code) -> Option<usize>
    ensures { result ≡ position (λ x. x == code.0) list.now }
{
    list.iter().position(|x| *x == code.0)
}

#[tactic(auto, using(crate::proofs::FilledLaws::some_place))]
fn in_list(list: &[u32], code: Code) -> bool
    ensures { result ≡ in_list code list.now }
{
    find_code(list, code).is_some()
}
