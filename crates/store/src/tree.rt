// Numbers by their keys in a search tree, for lists whose UUIDs fall into one bucket: a chain would be walked to its end
// for each line there.
ghost use Rattle.std.specs.Prelude.{◌≡◌, ◌+◌, ◌≤◌, ◌<◌, length};
ghost use Rattle.store.specs.Keys.{Sought};
ghost use Rattle.store.specs.Rows.{key_in};
ghost use Rattle.store.specs.Tree.{digit, Treed, Lands};

use crate::parties::Key;
use crate::rows::Row;

// The values of a digit: three bits of a key.
const DIGITS: usize = 8;

// A number in the tree: one more than the number below it at each digit, 0 where there is none; and one more than the
// last number that has its key. A key's digits lead to its place, so no list makes a path longer than a key has digits.
#[derive(Clone, Copy)]
pub struct Node {
    kids: [u16; DIGITS],
    last: u16,
}

impl Node {
    // What stands where no number is put.
    pub const UNUSED: Node = Node {
        kids: [0; DIGITS],
        last: 0,
    };
}

// Where a key is sought in vain or found: the node that has it, or the one below which it would stand, at that digit.
#[derive(Clone, Copy)]
enum Place {
    Found(usize),
    Missing(usize, usize),
}

// The digit of a key at that depth: of the UUID's halves first, then of the owner.
fn digit(key: Key, depth: usize) -> usize
    ensures { (result ≡ digit key depth) × (result < 8) }
{
    let half = if depth < 22 {
        key.uuid.high
    } else if depth < 44 {
        key.uuid.low
    } else {
        u64::from(key.owner)
    };
    ((half >> (3 * (depth % 22))) % 8) as usize
}

// Goes down from number 0 on, by the digits of the key of number n, to the node that has it.
fn descend(nodes: &[Node], rows: &[Row], n: usize) -> Place
    requires n_lt_rows { (0 < n) × ((n < length rows.now) × (n < length nodes.now)) }
    requires treed { Treed (key_in rows.now) nodes.now n }
    ensures { Lands (key_in rows.now) nodes.now n result }
{
    let key = rows[n].key();
    let mut at = 0;
    let mut depth = 0;
    // A `while`, since no index is counted: the node says which one is next.
    while rows[at].key() != key {
        let d = digit(key, depth);
        let kid = usize::from(nodes[at].kids[d]);
        if kid == 0 {
            return Place::Missing(at, d);
        }
        at = kid - 1;
        depth += 1;
    }
    Place::Found(at)
}

// Puts number n, and answers one more than the last number before it with the same key, 0 where none has it. A number
// whose key was put before is no node of the tree: the node of the key names it.
pub fn put(nodes: &mut [Node], rows: &[Row], n: usize) -> usize
    requires n_lt_rows { (n < length rows.now) × ((n < length nodes.old) × (length nodes.old ≤ 65535)) }
    requires treed { Treed (key_in rows.now) nodes.old n }
    ensures sought { Sought (key_in rows.now) n result × (result ≤ n) }
    ensures treed_2 { Treed (key_in rows.now) nodes.new (n + 1) }
{
    let link = (n + 1) as u16;
    nodes[n] = Node {
        kids: [0; DIGITS],
        last: link,
    };
    if n == 0 {
        return 0;
    }
    match descend(nodes, rows, n) {
        Place::Found(at) => {
            let r = nodes[at].last;
            nodes[at].last = link;
            usize::from(r)
        }
        Place::Missing(at, d) => {
            nodes[at].kids[d] = link;
            0
        }
    }
}

// Puts the first `count` numbers.
pub fn grow(nodes: &mut [Node], rows: &[Row], count: usize)
    requires { (count ≤ length rows.now) × ((count ≤ length nodes.old) × (length nodes.old ≤ 65535)) }
    ensures { Treed (key_in rows.now) nodes.new count }
{
    // By number: `put` is asked for a number, whose row it reads itself.
    for k in 0..count {
        put(nodes, rows, k);
    }
}
