// Native event codes: numbers of the Linux input headers, kind times 65536 plus number.
use crate::ev::Code;

impl Code {
    pub const BTN_SOUTH: Code = Code(0x10130);

    pub const BTN_EAST: Code = Code(0x10131);

    pub const BTN_C: Code = Code(0x10132);

    pub const BTN_NORTH: Code = Code(0x10133);

    pub const BTN_WEST: Code = Code(0x10134);

    pub const BTN_Z: Code = Code(0x10135);

    pub const BTN_LT: Code = Code(0x10136);

    pub const BTN_RT: Code = Code(0x10137);

    pub const BTN_LT2: Code = Code(0x10138);

    pub const BTN_RT2: Code = Code(0x10139);

    pub const BTN_SELECT: Code = Code(0x1013a);

    pub const BTN_START: Code = Code(0x1013b);

    pub const BTN_MODE: Code = Code(0x1013c);

    pub const BTN_LTHUMB: Code = Code(0x1013d);

    pub const BTN_RTHUMB: Code = Code(0x1013e);

    pub const BTN_DPAD_UP: Code = Code(0x10220);

    pub const BTN_DPAD_DOWN: Code = Code(0x10221);

    pub const BTN_DPAD_LEFT: Code = Code(0x10222);

    pub const BTN_DPAD_RIGHT: Code = Code(0x10223);

    pub const AXIS_LSTICKX: Code = Code(0x30000);

    pub const AXIS_LSTICKY: Code = Code(0x30001);

    pub const AXIS_LEFTZ: Code = Code(0x30002);

    pub const AXIS_RSTICKX: Code = Code(0x30003);

    pub const AXIS_RSTICKY: Code = Code(0x30004);

    pub const AXIS_RIGHTZ: Code = Code(0x30005);

    pub const AXIS_DPADX: Code = Code(0x30010);

    pub const AXIS_DPADY: Code = Code(0x30011);

    pub const AXIS_RT: Code = Code(0x30012);

    pub const AXIS_LT: Code = Code(0x30013);

    pub const AXIS_RT2: Code = Code(0x30014);

    pub const AXIS_LT2: Code = Code(0x30015);
}

// The codes of buttons 1 to 19, each at its number.
pub const BUTTONS: [Code; 20] = [
    Code(0),
    Code::BTN_SOUTH,
    Code::BTN_EAST,
    Code::BTN_C,
    Code::BTN_NORTH,
    Code::BTN_WEST,
    Code::BTN_Z,
    Code::BTN_LT,
    Code::BTN_RT,
    Code::BTN_LT2,
    Code::BTN_RT2,
    Code::BTN_SELECT,
    Code::BTN_START,
    Code::BTN_MODE,
    Code::BTN_LTHUMB,
    Code::BTN_RTHUMB,
    Code::BTN_DPAD_UP,
    Code::BTN_DPAD_DOWN,
    Code::BTN_DPAD_LEFT,
    Code::BTN_DPAD_RIGHT,
];
