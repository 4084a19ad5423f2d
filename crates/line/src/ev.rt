// Gamepad elements: event codes, buttons and axes by their fixed numbers, and the element calls.
mod nec;

ghost use Rattle.std.specs.Prelude.{◌≡◌};
ghost use Rattle.line.specs.Elements.{counted_of, to_nec_of, is_dpad_of, is_stick_of, is_stick_axis_of, second_axis_of};
ghost use Rattle.line.specs.Elements.{is_button_of};

// An event code.
#[derive(Clone, Copy, PartialEq, Eq, PartialOrd, Ord)]
pub struct Code(pub u32);

// A button's number. A number, and no enum: a C program may hand in any, and one over the last counts as unknown.
#[derive(Clone, Copy, PartialEq, Eq)]
pub struct Button(pub u16);

// An axis's number, any as well.
#[derive(Clone, Copy, PartialEq, Eq)]
pub struct Axis(pub u16);

#[derive(Clone, Copy, PartialEq, Eq)]
pub enum AxisOrBtn {
    Btn(Button),
    Axis(Axis),
}

// The greatest number of a button and of an axis.
pub const BUTTON_LAST: u16 = 19;

pub const AXIS_LAST: u16 = 8;

impl Button {
    pub const Unknown: Button = Button(0);

    pub const South: Button = Button(1);

    pub const East: Button = Button(2);

    pub const C: Button = Button(3);

    pub const North: Button = Button(4);

    pub const West: Button = Button(5);

    pub const Z: Button = Button(6);

    pub const LeftTrigger: Button = Button(7);

    pub const RightTrigger: Button = Button(8);

    pub const LeftTrigger2: Button = Button(9);

    pub const RightTrigger2: Button = Button(10);

    pub const Select: Button = Button(11);

    pub const Start: Button = Button(12);

    pub const Mode: Button = Button(13);

    pub const LeftThumb: Button = Button(14);

    pub const RightThumb: Button = Button(15);

    pub const DPadUp: Button = Button(16);

    pub const DPadDown: Button = Button(17);

    pub const DPadLeft: Button = Button(18);

    pub const DPadRight: Button = Button(19);

    // The native code of a button; Unknown has none.
    #[tactic(auto, unfolding(crate::specs::Elements::to_nec_of))]
    pub fn to_nec(self) -> Option<Code>
        ensures { result ≡ to_nec_of self }
    {
        match counted(self.0, BUTTON_LAST) {
            0 => None,
            n => Some(nec::BUTTONS[n as usize]),
        }
    }

    // Whether a button is a stick's, pressed.
    #[tactic(auto, unfolding(crate::specs::Elements::is_stick_of))]
    pub fn is_stick(self) -> bool
        ensures { result ≡ is_stick_of self }
    {
        matches!(
            Button(counted(self.0, BUTTON_LAST)),
            Button::LeftThumb | Button::RightThumb
        )
    }

    // Whether a button is one of the DPad. Like `is_stick` but for its buttons: gilrs has a method for each, and one match
    // for both would hand the buttons over as a list.
    #[tactic(auto, unfolding(crate::specs::Elements::is_dpad_of))]
    pub fn is_dpad(self) -> bool
        ensures { result ≡ is_dpad_of self }
    {
        matches!(
            Button(counted(self.0, BUTTON_LAST)),
            Button::DPadUp | Button::DPadDown | Button::DPadLeft | Button::DPadRight
        )
    }
}

impl Axis {
    pub const Unknown: Axis = Axis(0);

    pub const LeftStickX: Axis = Axis(1);

    pub const LeftStickY: Axis = Axis(2);

    pub const LeftZ: Axis = Axis(3);

    pub const RightStickX: Axis = Axis(4);

    pub const RightStickY: Axis = Axis(5);

    pub const RightZ: Axis = Axis(6);

    pub const DPadX: Axis = Axis(7);

    pub const DPadY: Axis = Axis(8);

    // Whether an axis is one of a stick.
    #[tactic(auto, unfolding(crate::specs::Elements::is_stick_axis_of))]
    pub fn is_stick(self) -> bool
        ensures { result ≡ is_stick_axis_of self }
    {
        matches!(
            Axis(counted(self.0, AXIS_LAST)),
            Axis::LeftStickX | Axis::LeftStickY | Axis::RightStickX | Axis::RightStickY
        )
    }

    // The other axis of the same stick, or of the DPad.
    #[tactic(auto, unfolding(crate::specs::Elements::second_axis_of))]
    pub fn second_axis(self) -> Option<Axis>
        ensures { result ≡ second_axis_of self }
    {
        match Axis(counted(self.0, AXIS_LAST)) {
            Axis::LeftStickX => Some(Axis::LeftStickY),
            Axis::LeftStickY => Some(Axis::LeftStickX),
            Axis::RightStickX => Some(Axis::RightStickY),
            Axis::RightStickY => Some(Axis::RightStickX),
            Axis::DPadX => Some(Axis::DPadY),
            Axis::DPadY => Some(Axis::DPadX),
            _ => None,
        }
    }
}

impl AxisOrBtn {
    // Whether an element is a button.
    pub fn is_button(self) -> bool
        ensures { result ≡ is_button_of self }
    {
        matches!(self, AxisOrBtn::Btn(_))
    }
}

// A number over the greatest counts as 0.
fn counted(n: u16, last: u16) -> u16
    ensures { result ≡ counted_of last n }
{
    if n <= last { n } else { 0 }
}
