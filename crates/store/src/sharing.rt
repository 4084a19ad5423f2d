// The public calls of the parties' shares of the text (document 02, P10). Each takes any buffers and arguments.
ghost use Rattle.std.specs.Prelude.{◌≡◌, length};
ghost use Rattle.store.specs.Keys.{Enough};
ghost use Rattle.store.specs.Settings.{ClaimsWith, Weighed, Writable, Written};
ghost use Rattle.store.specs.Store.{store_share, store_told};

use crate::calls::StoreError;
use crate::claims::{Listed, claims_of};
use crate::rows::by_area;
use crate::shares::{OWNERS, change_share, share_place, share_size};
use crate::soundness::Ledger;

// A party's share, and the bytes of its lines.
#[derive(Clone, Copy, PartialEq, Eq)]
pub struct ShareUse {
    pub share: usize,
    pub used: usize,
}

// Why nothing is told of a party: the store is not sound.
#[derive(Clone, Copy, PartialEq, Eq)]
pub struct Unsound;

// The share and the use of the party with that owner byte, by a table of that size.
#[inline(never)]
fn share_in<const N: usize>(index: &[u8], text: &[u8], owner: u8) -> Result<ShareUse, Unsound>
    requires { Enough N (length index.now) }
    ensures { result ≡ store_told index.now text.now owner }
{
    let mut ledger = Ledger::<N>::new();
    let stock = ledger.take_stock(index, text).ok_or(Unsound)?;
    let mut uses = [0u32; OWNERS];
    let listed = Listed {
        rows: &ledger.table.rows,
        count: stock.fill.count,
    };
    listed.add_uses(&mut uses);
    let o = owner as usize;
    let share = ledger.shares[o] as usize;
    let used = uses[o] as usize;
    Ok(ShareUse { share, used })
}

// The share and the use of the party with that owner byte; 0 is the hall.
pub fn share_of(index: &[u8], text: &[u8], owner: u8) -> Result<ShareUse, Unsound>
    ensures { result ≡ store_told index.now text.now owner }
{
    by_area!(index, Err(Unsound), share_in(index, text, owner))
}

impl Listed<'_> {
    // What all parties claim with those shares.
    fn claims_with(&self, shares: &[u32; OWNERS]) -> usize
        ensures { ClaimsWith self.now.rows.now self.now.count shares.now result }
    {
        let mut uses = [0u32; OWNERS];
        self.add_uses(&mut uses);
        claims_of(&uses, shares)
    }

    // Whether there is room for those shares: in the text, and in an index of which so many bytes are then in use.
    fn share_room(
        &self,
        shares: &[u32; OWNERS],
        text: usize,
        index: usize,
        end: usize,
    ) -> Result<(), StoreError>
        ensures { Weighed self.now.rows.now self.now.count shares.now text index end result }
    {
        if text < self.claims_with(shares) {
            Err(StoreError::ShareTooLarge)
        } else if index < end {
            Err(StoreError::NoRoom)
        } else {
            Ok(())
        }
    }
}

// Writes the share of an owner into the index, which had another one; it stands among those shares already.
fn write_share(index: &mut [u8], shares: &[u32; OWNERS], owner: u8, had: u32, share: u32)
    requires { Writable index.old shares.now owner had share }
    ensures { Written index.old shares.now owner had share index.new }
{
    let at = share_place(shares, owner as usize);
    change_share(&mut index[at..], owner, had, share);
}

// Sets the share of the party with that owner byte, by a table of that size.
#[inline(never)]
fn set_in<const N: usize>(
    index: &mut [u8],
    text: &[u8],
    owner: u8,
    bytes: usize,
) -> Result<(), StoreError>
    requires { Enough N (length index.old) }
    ensures { record { answer = result; index = index.new; text = text.now }
        ≡ store_share index.old text.now owner bytes }
{
    let mut ledger = Ledger::<N>::new();
    let stock = ledger.take_stock(index, text).ok_or(StoreError::Unsound)?;
    let room = text.len();
    // Told before the share is put among the others, whose numbers have four bytes.
    if room < bytes {
        return Err(StoreError::ShareTooLarge);
    }
    let fill = stock.fill;
    let o = owner as usize;
    let had = ledger.shares[o];
    let share = bytes as u32;
    ledger.shares[o] = share;
    let end = stock.front + fill.end + share_size(share) - share_size(had);
    let listed = Listed {
        rows: &ledger.table.rows,
        count: fill.count,
    };
    listed.share_room(&ledger.shares, room, index.len(), end)?;
    write_share(index, &ledger.shares, owner, had, share);
    Ok(())
}

// Sets the share of the party with that owner byte, 0 being the hall; share 0 takes it away.
pub fn set_share(index: &mut [u8], text: &[u8], owner: u8, bytes: usize) -> Result<(), StoreError>
    ensures { record { answer = result; index = index.new; text = text.now }
        ≡ store_share index.old text.now owner bytes }
{
    by_area!(
        index,
        Err(StoreError::Unsound),
        set_in(index, text, owner, bytes)
    )
}
