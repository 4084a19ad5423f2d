// What `hub help COMMAND` says.
use crate::manual_pads::PAD;

const NEW: &[u8] = b"hub new STORE [large]
  Makes a fresh store file, which holds no line: 131070 bytes, all 0, with 65535 of them for the
  text of the lines. With 'large' it has 17825792 bytes, 16777216 of them for the text.
  A file that stands already is left alone; 'hub grow STORE' makes it large.
";

const GROW: &[u8] = b"hub grow STORE
  Makes a large store of a store file, 17825792 bytes in the place of 131070, with all its lines
  and shares: room for 14 times as many lines, and for 256 times as much text. Says what it holds
  and which room is left. A store that is large already is left alone, and so is one that is not
  sound (19). 'hub undo STORE' takes it back.
";

const INSERT: &[u8] = b"hub insert STORE FILE [only=TEXT] [party=NUMBER]
  Files the lines of a list of at most 4194304 bytes; lines end at LF or CR LF. A line is
  filed when its first field is a UUID, and its 'platform:', if any, says Linux. It takes the
  place of a line that is held under the same UUID. Says how many lines were filed, how many of
  them in place of another, how many can't be read (hub lint says why), and which were passed
  over: empty lines, comments, other platforms, first fields that are no UUID; and how many were
  filed whose UUID is not spelled in 32 digits, the one form that consoles read. It stops at a
  line that is too long (20) or has no room (21 in the index, 25 in the text; 'hub grow STORE'
  makes more), says at which, and keeps the lines before it. A list that is not UTF-8 (10) files
  nothing. 'hub undo STORE' takes an insert back.
  only=TEXT files of the list only the lines with TEXT in the name or in the UUID, capital letters
  or not, and those under the UUID that TEXT is; the lines said are those of them. only=pads files
  those of the pads that are plugged in ('hub help pad').
  party=7 files for league organiser 7, 1 to 255, and takes the place of that organiser's lines
  alone; without it the lines are the hall's. All of them have the room of the store together,
  but for what a share keeps (hub help share).
";

const EDIT: &[u8] = b"hub edit STORE UUID KEY:VALUE .. [party=NUMBER]
  Changes pairs of the line held under that UUID, and keeps the rest, hats and half axes too: a
  pair whose KEY the line has takes its place, another one comes behind the last pair, and KEY:
  with no value takes the pair out. 'hub help elements' lists the keys; bN is button N, aN axis N,
  h0.1 up on hat 0. The new line is read first: where that is refused, nothing is changed. Prints
  the line as it was and as it is, and the elements that are no longer bound.
  To exchange a and b: hub edit hall.store 030000005e0400008e02000014010000 a:b1 b:b0
  'hub undo STORE' takes it back. party=7 changes the line of league organiser 7.
";

const REMOVE: &[u8] = b"hub remove STORE UUID [party=NUMBER]
  Takes the line held under that UUID out of the store. The shares stay, and the other lines in
  their order. 'hub undo STORE' brings the line back.
";

const CLEAR: &[u8] = b"hub clear STORE
  Empties the store, the hall's lines and the organisers', and drops the shares, whether it was
  sound or not. A large store stays large. A file that has not the 131070 or the 17825792 bytes of
  a store file is left alone. 'hub undo STORE' brings all back.
";

const UNDO: &[u8] = b"hub undo STORE
  Brings back the store as it was before the last command that changed it: each such command
  keeps the former store as STORE.old. The present store becomes STORE.old, so that a second
  undo takes the first one back. Where the store is gone, STORE.old is brought back.
";

const FIND: &[u8] = b"hub find STORE UUID|TEXT [party=NUMBER]
  Prints the line held under that UUID, or says 'none'. A UUID has 32 hexadecimal digits, or
  the form with hyphens, also in braces or after 'urn:uuid:'. What is no UUID is sought in the
  names, capital letters or not, and every line that has it there is printed, in the order of
  filing. Recent SDL releases put a checksum into digits 5 to 8: where only the UUID with zeros
  there is held, its line is printed, and 'near' with that UUID said on standard error. Control
  bytes of a line are printed as \\x and two digits. party=7 finds the lines of league organiser 7
  alone; without it the hall's alone are found.
";

const LIST: &[u8] = b"hub list STORE [long]
  Prints a row for each line held, its UUID in 32 digits and its name, in the order of the names,
  and the room left, beside the parties' shares where any is set. 'long' prints the lines whole, in
  the order in which they were filed. A line of a league organiser has its party before it, as
  'party 7: '. Of a large store the room is said as lines take it that start behind the first 65535
  bytes of the text: such a line takes 2 bytes more of the index.
";

const EXPORT: &[u8] = b"hub export STORE [digits] [party=NUMBER]
  Prints the hall's lines, or those of a league organiser, for other programs: in the order in
  which they were filed, whole, and with 'platform:Linux' where a line has no platform. 'digits'
  spells each UUID in 32 digits, the one form that consoles read; such a line gives the same map.
  Control bytes are printed as they are, so send it to a file.
";

const CHECK: &[u8] = b"hub check STORE
  Says that the store is sound, how many lines it holds and which room is left, and where a share
  is set how much of the text the parties claim; or 19.
";

const SHARE: &[u8] = b"hub share STORE PARTY BYTES
  Gives a party a share of the text, which others can't fill: PARTY is 'hall' or a league
  organiser's number from 1 to 255. A line that leaves its party within its share is never
  turned away for want of text, however full the others made it. What counts is the sum over
  all parties of the larger of use and share: a line that would bring it over the text is
  refused (25), and so is a share (26). A share takes 4 bytes of the index, one over 65535 takes
  6 (21 where they are not there). BYTES 0 takes the share away. It may be below what the party
  uses; its lines stay. 'hub undo STORE' takes it back.
";

const SHARES: &[u8] = b"hub shares STORE
  Says of each party that has lines or a share how many bytes of the text it uses, its share, and
  how much of that is kept for it; then what all of them claim, and what is left.
";

const SAVE: &[u8] =
    b"hub save STORE UUID NAME buttons=CODES axes=CODES ELEMENT=CODE .. [party=NUMBER] [anyway]
  Builds a mapping line for the pad and files it; prints the line and its map, and where it
  takes the place of another line, that line and the elements that are no longer bound.
  'hub undo STORE' takes a save back. party=7 saves for league organiser 7, as insert does.
  CODES are all of the pad's button and axis codes, in the order by which lines count them, for
  most pads ascending: a line says which place of the list is meant, so a list that is not the
  pad's own binds other buttons. 'hub pad' prints the lists of a pad that is plugged in, and pad:1
  in the place of the UUID stands for UUID and lists of the first one. 'evtest' prints the codes
  too: buttons under EV_KEY, axes under EV_ABS, in decimal; the axes of a hat (16 and 17) are left
  out. Here a code is hexadecimal: 1 and four digits for a button, 3 and four digits for an axis,
  with 0x before it or not. So evtest's 304 (BTN_SOUTH) is 10130, and its axis 5 is 30005. A list
  has commas and may have ranges: buttons=10130-10134,10220.
  An ELEMENT is an SDL ident (a, b, x, y, leftshoulder, leftx, dpup, ..) or the source's name
  (South, LeftStickX, DPadUp, ..). LeftTrigger is the shoulder, lefttrigger the trigger.
  Not saved unless 'anyway' is added: a line with no element, and one that gives a code to two
  elements, since one of them is lost when the line is read.
  A saved line has buttons and whole axes only. What save can't write: hats (dpup:h0.1),
  triggers that are axes (lefttrigger:a2) and half axes (+a2, a2~). Most lines of real lists have
  one of these; write such a line into a file, and insert that, or put the pairs into a held line
  with 'hub edit'.
  An Xbox 360 pad, with a and b exchanged:
    hub save hall.store 030000005e0400008e02000014010000 'Seat 4' \\
      buttons=10130,10131,10133,10134,10136,10137,1013a-1013e axes=30000-30005 \\
      a=10131 b=10130 x=10133 y=10134 leftx=30000 lefty=30001
";

const SHOW: &[u8] = b"hub show STORE UUID [buttons=CODES axes=CODES] [party=NUMBER]
  Reads the line held under that UUID with the pad's codes, and prints it with its map: each
  code with its element, then name, hat flags and default flag. Without lists it says so, and
  prints the line's pairs: each element with its button, axis or hat, counted from 0. pad:1 stands
  for UUID and lists of a pad that is plugged in ('hub help pad'). Where only the UUID without its
  checksum is held, it goes by that line, and says so as find does. 'hub help save' says how CODES
  are written, and where a pad's codes are to be found. party=7 takes the line of league organiser
  7.
";

const TEST: &[u8] =
    b"hub test STORE UUID buttons=CODES axes=CODES [party=NUMBER] from=FILE [events=N] [seconds=N]
         [after=N:UUID ..]
         [with=FILE [uuid2=UUID] [buttons2=CODES] [axes2=CODES] [after2=N:UUID ..]]
hub test STORE pad:1 [from=FILE] ..
  Reads the line held under that UUID with the pad's codes, and tells what each event of the pad
  gives by it: the code with its raw value, and the element that has another value now, from
  -32768 to 32767, a button's from 0 on.
  pad:1 stands for UUID and lists of a pad that is plugged in ('hub help pad'). Without from=FILE
  the events come from that pad's own device: press and move what is to be tried. It ends after
  30 seconds, or when seconds=N or events=N says so.
  FILE has Linux input events of 24 bytes each, as 'cat /dev/input/event5 > FILE' records them;
  'hub pad' prints the device of each pad. events=N ends after N records of a button or an axis,
  seconds=N after N seconds, 1 to 99999, where FILE has not ended before.
  Buttons (EV_KEY) and axes (EV_ABS) are told, a line each; other kinds are skipped and counted.
  A code is held with its last raw value from its first event on; a 257th is refused (27), and the
  status is then 1. Of the values that its held codes give, an element has the one farthest from
  zero, between equals that of the smallest code, and 0 where there is none. It has no event where
  it keeps its value, and the line says why: another code holds it, the code is not in the map, or
  the map has no value there (the half of an axis that it leaves out). A button that is held and
  repeats gives none, nor does a value that no button or axis has, and the status is then 1: a
  recording does not say which range a pad's axes have, so nothing is scaled.
  after=2:UUID changes the map after the pad's second record of a button or an axis: to that of
  the line held under this UUID, read with the same codes. Each element that has another value by
  it is told, the buttons, then the axes. There may be several; one that the recording ends before
  is said, and the status is 1.
  with=FILE is the recording of a second pad of the same player: an element has the value of the
  pad that moves it farther from zero, the first one's between equals. The events of both are told
  in the order of their times, the first pad's first between equals. The second pad's line and
  codes are the first one's, unless uuid2, buttons2 or axes2 say others; after2 changes its map.
  At the end it says how many codes are held, and each element that is not at 0. Where only the
  UUID without its checksum is held, it goes by that line, and says so as find does. 'hub help
  save' says how CODES are written.
  party=7 goes by the lines of league organiser 7, for both pads.
";

const DEFAULT: &[u8] = b"hub default buttons=CODES axes=CODES
  Prints the map that a pad with these codes gets where no line is held for it.
hub default pad:1
  Prints the same for a pad that is plugged in ('hub help pad').
hub default layout [--csv]
  Prints the default layout of the buttons for the hall's wall: key code, button and SDL
  name, in a table; with --csv with commas between, for a label printer.
";

const LINT: &[u8] = b"hub lint FILE
  Reads every line of a list of at most 4194304 bytes, and shows each refused one, up to 1000,
  with its number, its meaning and a mark under the place, which counts bytes from 0. UUID, name
  and the refused pair are shown; two dots stand where the line is cut, one dot for each byte
  that is no printable ASCII. Names the lines that an insert files whose UUID is not spelled in
  32 digits, the one form that consoles read. Then it says how many lines an insert would pass
  over. Lines that start with # are comments, and not read.
";

const TIDY: &[u8] = b"hub tidy FILE
  Prints a list of at most 4194304 bytes with the pairs of each line by hand side: the left stick,
  shoulder, trigger and the directions; then the right ones, with a, b, c, x, y and z; then the
  rest. FILE itself is not changed. A line gives the same map as before, for every pad whose lists
  have no code twice and none of a hat (10220 to 10223, 30010, 30011). Left alone are comments,
  lines that are refused, lines that bind a button or an axis twice, unlike, since the later pair
  wins there, and lines that bind a direction of a hat to another element than its own.
";

const DEMO: &[u8] = b"hub demo
  Shows the main job on a small list: a fresh store, insert, save, find, read back. The
  store is in memory; no file is touched.
";

const HELP: &[u8] = b"hub help [COMMAND]
  Lists the commands, or says more about one; so do 'hub --help' and 'hub COMMAND --help'.
hub help elements
  Prints the names of the elements, both spellings of each.
hub help NUMBER
  Says what the refusal of that number means, and what can be done.
";

// The page on a command.
pub fn page(command: &[u8]) -> Option<&'static [u8]> {
    match command {
        b"new" => Some(NEW),
        b"grow" => Some(GROW),
        b"insert" => Some(INSERT),
        b"edit" => Some(EDIT),
        b"remove" => Some(REMOVE),
        b"clear" => Some(CLEAR),
        b"undo" => Some(UNDO),
        b"find" => Some(FIND),
        b"list" => Some(LIST),
        b"export" => Some(EXPORT),
        b"check" => Some(CHECK),
        b"share" => Some(SHARE),
        b"shares" => Some(SHARES),
        b"save" => Some(SAVE),
        b"show" => Some(SHOW),
        b"test" => Some(TEST),
        b"default" => Some(DEFAULT),
        b"lint" => Some(LINT),
        b"tidy" => Some(TIDY),
        b"pad" => Some(PAD),
        b"demo" => Some(DEMO),
        b"help" => Some(HELP),
        _ => None,
    }
}
