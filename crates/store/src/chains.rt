// Keys by number, which is that of their row: chains of the numbers, one for each bucket, show whether a key stands
// twice. Nothing here knows a record's bytes.
ghost use Rattle.std.specs.Prelude.{◌≡◌, ◌+◌, ◌≤◌, ◌<◌, length};
ghost use Rattle.store.specs.Held.{same_key};
ghost use Rattle.store.specs.Keys.{bucket, tag_of, tag_in, NotIn, Linked, Kin, Chained, Seeks, Sought};
ghost use Rattle.store.specs.Keys.{seek_says, told_of, Tells};
ghost use Rattle.store.specs.Rows.{key_in};

use crate::parties::Key;
use crate::rows::Row;

// The most steps in a chain where an order or a tree can be had instead.
pub const CHAIN_MAX: usize = 16;

// Whether a key stands twice, as far as a check shows it: three kinds of their own, and none stands for a missing
// value.
#[derive(Clone, Copy)]
pub enum Verdict {
    Apart,
    Twice,
    Unsure,
}

// What stands by a number: one more than the number before it in its chain, 0 where there is none; and the tag of its own
// key.
#[derive(Clone, Copy)]
pub struct Link {
    pub next: u16,
    pub tag: u16,
}

impl Link {
    // What stands where no number is put.
    pub const UNUSED: Link = Link { next: 0, tag: 0 };
}

// What a key gives: its bucket, a number below `N`, and its tag.
#[derive(Clone, Copy)]
struct Hash {
    bucket: usize,
    tag: u16,
}

// The bucket and the tag of a key. The sum wraps: one division by a prime then serves both halves, and by this one it is
// a product and a shift. The tag is its first 16 bits: those of its quotient are alike for all pads of one bucket, whose
// UUIDs end in zeros.
fn hash_of<const N: usize>(key: Key) -> Hash
    requires { 0 < N }
    ensures bucket { (result.bucket ≡ bucket N key) × (result.bucket < N) }
    ensures tag { result.tag ≡ tag_of key }
{
    let uuid = key.uuid;
    let owner = key.owner as u64;
    let sum = uuid
        .high
        .wrapping_mul(31)
        .wrapping_add(uuid.low)
        .wrapping_add(7919 * owner);
    Hash {
        bucket: (sum % 65449 % N as u64) as usize,
        tag: (sum >> 48) as u16,
    }
}

// Whether number a has the key of number k, whose tag that is. Rows are compared only where the tags are alike: so a step
// in a chain seldom reads a row, which lies far from the one before.
fn has_key(rows: &[Row], links: &[Link], a: usize, k: usize, tag: u16) -> bool
    requires a_lt_rows { (a < length rows.now) × ((a < length links.now) × (k < length rows.now)) }
    requires tagged { (tag_in links.now a ≡ tag_of (key_in rows.now a)) × (tag ≡ tag_of (key_in rows.now k)) }
    ensures { result ≡ same_key (key_in rows.now a) (key_in rows.now k) }
{
    if links[a].tag != tag {
        return false;
    }
    rows[a].key() == rows[k].key()
}

// Seeks the key of number k, whose tag that is, in the chain that starts before `from`: one more than the number that has
// it, 0 where none has it, and k + 1 where the chain has more than `most` steps. So a found number is told as `heads` and
// `links` hold it, in which 0 ends a chain.
fn seek(rows: &[Row], links: &[Link], from: usize, k: usize, tag: u16, most: usize) -> usize
    requires k_lt_rows { (k < length rows.now) × ((k < length links.now) × (from ≤ k)) }
    requires linked { Linked (length links.now) (key_in rows.now) links.now k }
    requires tagged { tag ≡ tag_of (key_in rows.now k) }
    requires kin { Kin (length links.now) (key_in rows.now) k from }
    ensures seeks { Seeks (key_in rows.now) k from result }
    ensures upper_bound { from ≤ most → result ≤ k }
{
    // A `while`, since no index is counted: the next number stands in the table, as a link, which 0 ends.
    let mut c = from;
    let mut left = most;
    while 0 < c {
        if left == 0 {
            return k + 1;
        }
        if has_key(rows, links, c - 1, k, tag) {
            return c;
        }
        c = usize::from(links[c - 1].next);
        left -= 1;
    }
    0
}

// The first step of `seek` in the chain that starts before `from`, of number k, which is linked: `from` where the key
// is found, else what comes behind it. Whether the chain is empty is not asked: number 0 is compared then, and nothing
// comes behind it. The question would cost more than the step that it spares, since a processor cannot foresee its
// answer.
fn first_step(rows: &[Row], links: &[Link], from: usize, k: usize) -> usize
    requires k_lt_rows { (k < length rows.now) × ((k < length links.now) × (from ≤ k)) }
    requires linked { Linked (length links.now) (key_in rows.now) links.now (k + 1) }
    requires kin { Kin (length links.now) (key_in rows.now) k from }
    ensures not_in { NotIn (key_in rows.now) k result from × (result ≤ from) }
    ensures kin_2 { Kin (length links.now) (key_in rows.now) k result }
{
    let at = from.saturating_sub(1);
    if has_key(rows, links, at, k, links[k].tag) {
        return from;
    }
    usize::from(links[at].next)
}

// The lines that are written down by number: a row for each; chains of the numbers by their keys, each by one more
// than its last number; and what stands before each number in its chain. They are arrays, and no map of the library:
// a map allocates memory, which no call does, and the chains are proved. There are as many buckets as rows, a constant:
// a division by a number that varies would cost more than the rest of a step.
#[derive(Drop)]
pub struct Table<const N: usize> {
    pub rows: [Row; N],
    pub heads: [u16; N],
    pub links: [Link; N],
    // Whether a line was filed whose chain is too long to be walked for each line. It only says how the next ones are best
    // sought: nothing rests on it.
    pub long: bool,
}

impl<const N: usize> Table<N> {
    // Nothing is written down.
    pub fn new() -> Table<N>
        requires { N ≤ 65535 }
        ensures { Chained (key_in result.rows) result.heads result.links 0 }
    {
        Table {
            rows: [Row::UNUSED; N],
            heads: [0; N],
            links: [Link::UNUSED; N],
            long: false,
        }
    }

    // Seeks the key of number k among the numbers before it, which are in their chains: one more than the last that
    // has it, or 0.
    pub fn seek_before(&self, k: usize) -> usize
        requires k_lt_rows { k < length self.now.rows }
        requires chained { Chained (key_in self.now.rows) self.now.heads self.now.links k }
        ensures sought { Sought (key_in self.now.rows) k result }
        ensures upper_bound { result ≤ k }
    {
        let hash = hash_of::<N>(self.rows[k].key());
        let head = self.heads[hash.bucket];
        seek(&self.rows, &self.links, usize::from(head), k, hash.tag, N)
    }

    // The same for number k that is in its chain.
    pub fn seek_behind(&self, k: usize) -> usize
        requires k_lt_rows { k < length self.now.rows }
        requires chained { Chained (key_in self.now.rows) self.now.heads self.now.links (k + 1) }
        ensures sought { Sought (key_in self.now.rows) k result }
        ensures upper_bound { result ≤ k }
    {
        let link = self.links[k];
        seek(
            &self.rows,
            &self.links,
            usize::from(link.next),
            k,
            link.tag,
            N,
        )
    }

    // Puts number k in front of its chain, and answers as `seek` does.
    #[inline(always)]
    pub fn link(&mut self, k: usize, most: usize) -> usize
        requires k_lt_rows { k < length self.old.rows }
        requires chained { Chained (key_in self.old.rows) self.old.heads self.old.links k }
        ensures rows_kept { self.new.rows ≡ self.old.rows }
        ensures sought { Sought (key_in self.new.rows) k result }
        ensures chained_2 { Chained (key_in self.new.rows) self.new.heads self.new.links (k + 1) }
    {
        let hash = hash_of::<N>(self.rows[k].key());
        let h = hash.bucket;
        let next = self.heads[h];
        self.links[k] = Link {
            next,
            tag: hash.tag,
        };
        let from = first_step(&self.rows, &self.links, usize::from(next), k);
        let r = seek(&self.rows, &self.links, from, k, hash.tag, most);
        self.heads[h] = (k + 1) as u16;
        r
    }
}

// What `seek` shows of the key of number n: it stands before, it does not, or the chain was too long.
fn shown(n: usize, r: usize) -> Verdict
    ensures { result ≡ seek_says n r }
{
    if n < r {
        return Verdict::Unsure;
    }
    if r == 0 {
        return Verdict::Apart;
    }
    Verdict::Twice
}

// What is known of the first n + 1 numbers, by what is of the first n and what `seek` answers for number n.
pub fn told(known: Verdict, n: usize, r: usize) -> Verdict
    ensures { result ≡ told_of known n r }
{
    if r < 1 {
        return known;
    }
    match known {
        Verdict::Apart => shown(n, r),
        Verdict::Twice => Verdict::Twice,
        Verdict::Unsure => Verdict::Unsure,
    }
}

// How many steps are worth while: none where nothing more is told.
pub fn steps(known: Verdict) -> usize {
    match known {
        Verdict::Apart => CHAIN_MAX,
        Verdict::Twice | Verdict::Unsure => 0,
    }
}

// The keys of the first `count` numbers, which are in their chains.
#[derive(Clone, Copy)]
pub struct Keyed<'a> {
    pub rows: &'a [Row],
    pub links: &'a [Link],
    pub count: usize,
    ghost few: { (count ≤ length rows.now) × ((count ≤ length links.now) × (length links.now ≤ 65535)) },
    ghost linked: { Linked (length links.now) (key_in rows.now) links.now count },
}

// Whether no key stands twice, each sought in its chain to the end.
pub fn seek_all(keys: Keyed) -> bool
    ensures { Tells (key_in keys.entry.rows.now) keys.entry.count result }
{
    // By number: `seek` is asked for a number, whose row it reads itself.
    for k in 0..keys.count {
        let link = keys.links[k];
        let r = seek(
            keys.rows,
            keys.links,
            usize::from(link.next),
            k,
            link.tag,
            k,
        );
        if 0 < r {
            return false;
        }
    }
    true
}
