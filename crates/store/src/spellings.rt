// Which lines of an inserted text are filed in another form of the UUID than 32 digits (document 02, P11).
ghost use Rattle.std.specs.Prelude.{◌≡◌, ◌≤◌, take};
ghost use Rattle.store.specs.Book.{other_form, other_spelling, other_spellings};
ghost use Rattle.store.specs.Lines.{lines_of};
ghost use Rattle.store.specs.Lines as specs;

use crate::lines::{line_length, wanted};
use text::search::find_far;
use text::uuid::Form;

// 1 where it is another form than 32 digits.
fn other_form(form: Form) -> usize
    ensures { (result ≡ other_form form) × (result ≤ 1) }
{
    match form {
        Form::Simple => 0,
        Form::Hyphenated | Form::Braced | Form::Urn | Form::Xinput => 1,
    }
}

// The same of a line; 0 where it is not wanted. A first field of 32 bytes has no other form.
fn other_spelling(line: &[u8]) -> usize
    ensures { (result ≡ other_spelling (specs.wanted line.now)) × (result ≤ 1) }
{
    if find_far(line, b',') == 32 {
        return 0;
    }
    wanted(line).map_or(0, |spelled| other_form(spelled.form))
}

// How many of the first `count` lines of a text. The place is kept by hand, as in batch.rt: `split` tests each byte,
// where `find_far` takes 16 at once, and yields an empty part behind a last LF, which is no line.
pub fn other_spellings(lines: &[u8], count: usize) -> usize
    ensures { result ≡ other_spellings (take count (lines_of lines.now)) }
{
    let mut at = 0;
    let mut other = 0;
    for _ in 0..count {
        if lines.len() <= at {
            break;
        }
        let end = find_far(&lines[at..], b'\n');
        let len = line_length(&lines[at..], end);
        let start = at;
        other += other_spelling(&lines[start..start + len]);
        at += end + 1;
    }
    other
}
