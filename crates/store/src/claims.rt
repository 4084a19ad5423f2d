// What the parties claim of the text: of each the larger of its use and its share (document 02, P10).
ghost use Rattle.std.specs.Prelude.{◌≡◌, ◌+◌, ◌-◌, ◌*◌, ◌≤◌};
ghost use Rattle.store.specs.Shares.{owners, no_shares, larger};
ghost use Rattle.store.specs.Claims.{DuesFrom, Addable, Adds, Sums, Covers, row_lengths};

use crate::rows::Row;
use crate::shares::{OWNERS, any_share};
use crate::table::Fill;

// While one party files: what the others claim of the text, what they use of it, and its own share.
#[derive(Clone, Copy, Default)]
pub struct Dues {
    pub others: usize,
    pub theirs: usize,
    pub share: usize,
}

// The larger of a use and a share.
pub fn larger_of(used: usize, share: usize) -> usize
    ensures { result ≡ larger used share }
{
    used.max(share)
}

// What all parties claim once so many bytes of text are in use.
pub fn claimed(dues: Dues, used: usize) -> usize
    requires theirs_le_used { (dues.theirs ≤ used) × (used ≤ 33554432) }
    requires others_bound { (dues.others ≤ owners * 4294967295) × (dues.share ≤ 4294967295) }
    ensures { result ≡ dues.others + larger (used - dues.theirs) dues.share }
{
    dues.others + larger_of(used - dues.theirs, dues.share)
}

// The lines that are written down under the first `count` numbers. Their bytes are no more than those of a text.
#[derive(Clone, Copy)]
pub struct Listed<'a> {
    pub rows: &'a [Row],
    pub count: usize,
    ghost addable: { Addable rows.now count },
}

impl Listed<'_> {
    // Adds up the bytes of each owner's lines.
    pub fn add_uses(&self, uses: &mut [u32; OWNERS])
        requires { uses.old ≡ no_shares }
        ensures { Adds self.now.rows.now self.now.count uses.new }
    {
        let rows = self.rows;
        for row in &rows[..self.count] {
            let o = row.owner as usize;
            uses[o] += row.len as u32;
        }
    }
}

// What all parties claim, by their uses and shares.
pub fn claims_of(uses: &[u32; OWNERS], shares: &[u32; OWNERS]) -> usize
    ensures sums { Sums uses.now shares.now result }
    ensures covers { Covers uses.now shares.now result }
{
    let mut sum = 0;
    for (used, share) in uses.iter().zip(shares) {
        sum += larger_of(*used as usize, *share as usize);
    }
    sum
}

// What the others than an owner claim and use, and its share, by the lines that are written down. Without any share
// all that is claimed is in use.
pub fn dues_of(rows: &[Row], fill: Fill, shares: &[u32; OWNERS], owner: u8) -> Dues
    requires { Addable rows.now fill.count × (row_lengths rows.now fill.count ≤ fill.used) }
    ensures { DuesFrom rows.now fill shares.now owner result }
{
    if !any_share(shares) {
        return Dues::default();
    }
    let mut uses = [0u32; OWNERS];
    let listed = Listed {
        rows,
        count: fill.count,
    };
    listed.add_uses(&mut uses);
    let o = owner as usize;
    let used = uses[o] as usize;
    let share = shares[o] as usize;
    Dues {
        others: claims_of(&uses, shares) - larger_of(used, share),
        theirs: fill.used - used,
        share,
    }
}
