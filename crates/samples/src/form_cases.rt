// Cases of the forms of a UUID.
use line::parser::first_form;
use parts::cuts::{rest, word};
use text::uuid::{Form, Uuid};

fn name_of(form: Form) -> &'static [u8] {
    match form {
        Form::Simple => b"simple",
        Form::Hyphenated => b"hyphenated",
        Form::Braced => b"braced",
        Form::Urn => b"urn",
        Form::Xinput => b"xinput",
    }
}

// Whether a word names the form, or is `no` where there is none.
fn is_form(form: Option<Form>, name: &[u8]) -> bool {
    match form {
        Some(form) => name_of(form) == name,
        None => matches!(name, b"no"),
    }
}

// `form NAME TEXT`: the form that the reader tells of a text, or `no`.
pub fn form_case(args: &[u8]) -> bool {
    let parsed = Uuid::parse_str(rest(args));
    is_form(parsed.map(|spelled| spelled.form), word(args))
}

// `first-form NAME LINE`: the form in the first token of a line, or `no`.
pub fn first_form_case(args: &[u8]) -> bool {
    is_form(first_form(rest(args)), word(args))
}
