// A byte and a text sought in a long text: sixteen bytes are tested at once.
ghost use Rattle.std.specs.Prelude.{◌≡◌, true, ◌≤◌, length, take};
ghost use Rattle.std.specs.List.{All};
ghost use Rattle.text.specs.Bytes.{first_of};
ghost use Rattle.text.specs.Search.{first_text};
ghost use Rattle.text.specs.Inner.{Ends};

// The bytes that are tested at once.
const BLOCK: usize = 16;

// Whether every byte passes the test. It goes on behind one that does not: so the processor takes a block of them at once.
fn all_pass<F: Fn(u8) -> bool>(block: &[u8], test: &F) -> bool
    requires { F.IsAlwaysCallable test.now }
    ensures { result ≡ true → All (λ b. F.post test.now b true) block.now }
{
    block.iter().fold(true, |all, byte| all & test(*byte))
}

// A place that bytes which pass the test alone lead to, found a block at a time.
fn passed_front<F: Fn(u8) -> bool>(s: &[u8], test: &F) -> usize
    requires { F.IsAlwaysCallable test.now }
    ensures within { result ≤ length s.now }
    ensures passed { All (λ b. F.post test.now b true) (take result s.now) }
{
    let blocks = s.len() / BLOCK;
    // By the block's number, which tells where it starts: `chunks_exact` would need it beside the block.
    for k in 0..blocks {
        let at = BLOCK * k;
        if !all_pass(&s[at..at + BLOCK], test) {
            return at;
        }
    }
    BLOCK * blocks
}

// The first byte that does not pass the test, or the text's length where there is none.
pub(crate) fn passed_end<F: Fn(u8) -> bool>(s: &[u8], test: F) -> usize
    requires { F.IsAlwaysCallable test }
    ensures { Ends (F.post test) s.now result }
{
    // By place: it is the answer.
    for at in passed_front(s, &test)..s.len() {
        if !test(s[at]) {
            return at;
        }
    }
    s.len()
}

// `find_byte`, for texts in which the byte stands far behind. As there, the text's length where it has none, so that
// what stands before the byte is `&s[..n]` in both cases.
pub fn find_far(s: &[u8], byte: u8) -> usize
    ensures { result ≡ first_of byte s.now }
{
    passed_end(s, |other| other != byte)
}

// The place of the first `p` in a text, or the text's length where it has none. `p` is compared where its byte at `d`
// stands, or its last one where it is shorter: that byte is to be rare, and the answer is the same for each.
pub fn find_text(s: &[u8], p: &[u8], d: usize) -> usize
    ensures { result ≡ first_text p.now s.now }
{
    let Some(last) = p.len().checked_sub(1) else {
        return 0;
    };
    let k = d.min(last);
    let rare = p[k];
    // A `while`: with `windows` and `position` in its place 2.23 million instructions against 207 thousand (618
    // lines).
    let mut i = 0;
    while i + k < s.len() {
        let at = i + find_far(&s[i + k..], rare);
        if s.len() <= at + k {
            return s.len();
        }
        if s[at..].starts_with(p) {
            return at;
        }
        i = at + 1;
    }
    s.len()
}
