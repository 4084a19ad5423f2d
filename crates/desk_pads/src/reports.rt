// What a record of a recorded pad says: a raw event of a button or an axis, or something else.
use desk::codes::Kind;
use desk::input_events::Input;
use line::ev::Code;
use pad::events::Raw;

// Why a record of a button or an axis is no raw event: the button is held, and repeats; or no button or axis has this
// value.
#[derive(Clone, Copy)]
pub enum NoEvent {
    Repeats,
    Beyond(Kind),
}

// A record of a button or an axis: its code, and the raw value that it reports.
#[derive(Clone, Copy)]
pub struct Report {
    pub code: Code,
    pub raw: Result<Raw, NoEvent>,
}

// A button is released by 0 and pressed by 1, and repeats by 2.
fn button_raw(value: i32) -> Result<Raw, NoEvent> {
    match value {
        0 => Ok(Raw::ButtonReleased),
        1 => Ok(Raw::ButtonPressed),
        2 => Err(NoEvent::Repeats),
        _ => Err(NoEvent::Beyond(Kind::Button)),
    }
}

fn axis_raw(value: i32) -> Result<Raw, NoEvent> {
    i16::try_from(value)
        .map(|v| Raw::AxisValueChanged(v))
        .map_err(|_| NoEvent::Beyond(Kind::Axis))
}

// None for a record that is neither a button's nor an axis's (EV_SYN, EV_MSC and others).
pub fn report_of(input: Input) -> Option<Report> {
    let kind = Kind::of_number(input.kind as u32)?;
    Some(Report {
        code: Code(kind.code(input.number)),
        raw: match kind {
            Kind::Button => button_raw(input.value),
            Kind::Axis => axis_raw(input.value),
        },
    })
}
