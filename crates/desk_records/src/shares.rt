// The parties' shares of the text: the commands share and shares, and who claims what of it.
use crate::parties::owner_of;
use crate::records::{Entry, Record, View};
use crate::refusals::refused_by;
use crate::targets::Target;
use crate::wrong::wrong;
use desk::console::{Console, argument};
use desk::files::{arg_space, load};
use desk::say::{ERR, Failure, OUT, complain, put, put_number};
use desk::words::put_refused;
use std::str;
use store::calls::StoreError;
use store::parties::Party;
use store::sharing::{ShareUse, set_share, share_of};
use text::decimal::parse_u16;

// The owner bytes.
const OWNERS: usize = 256;

// What each party uses of the text of a sound store and its share, by owner byte; and how many bytes the text has. One walk
// over the records tells it: a call of the library for each party would walk so often.
#[derive(Clone, Copy)]
pub struct Ledger {
    told: [ShareUse; OWNERS],
    text: usize,
}

fn larger(told: ShareUse) -> usize {
    told.share.max(told.used)
}

impl Ledger {
    pub fn of(store: View) -> Ledger {
        let mut ledger = Ledger {
            told: [ShareUse { share: 0, used: 0 }; OWNERS],
            text: store.text.len(),
        };
        for record in store.records() {
            ledger.count(record);
        }
        ledger
    }

    fn count(&mut self, record: Record) {
        let told = &mut self.told[usize::from(record.owner)];
        match record.entry {
            Entry::Line { line, .. } => told.used = told.used.wrapping_add(line.len()),
            Entry::Share(bytes) => told.share = bytes,
        }
    }

    fn of_owner(&self, owner: u8) -> ShareUse {
        self.told[usize::from(owner)]
    }

    fn has_shares(&self) -> bool {
        self.told.iter().any(|told| told.share != 0)
    }

    // The sum over all parties of the larger of use and share.
    fn claimed(&self) -> usize {
        self.told
            .iter()
            .fold(0usize, |sum, told| sum.wrapping_add(larger(*told)))
    }

    // How much of the text nobody claims.
    pub fn left(&self) -> usize {
        self.text.saturating_sub(self.claimed())
    }

    // How much of the text the others leave to a party.
    fn left_to(&self, owner: u8) -> usize {
        let others = self.claimed().saturating_sub(larger(self.of_owner(owner)));
        self.text.saturating_sub(others)
    }
}

// `hall` or `party 7`
fn put_party(console: &Console, fd: i32, owner: u8) {
    if owner == 0 {
        put(console, fd, b"hall");
        return;
    }
    put(console, fd, b"party ");
    put_number(console, fd, usize::from(owner));
}

// What a party uses of the text, its share, and what is kept for it.
fn put_use(console: &Console, fd: i32, owner: u8, told: ShareUse) {
    put_party(console, fd, owner);
    put(console, fd, b": ");
    put_number(console, fd, told.used);
    put(console, fd, b" bytes used, ");
    if told.share == 0 {
        put(console, fd, b"no share\n");
        return;
    }
    put(console, fd, b"share ");
    put_number(console, fd, told.share);
    put(console, fd, b", of which ");
    put_number(console, fd, told.share.saturating_sub(told.used));
    put(console, fd, b" are kept for it\n");
}

// A party that has neither lines nor a share is not shown.
fn put_claim(console: &Console, fd: i32, owner: u8, told: ShareUse) {
    if larger(told) == 0 {
        return;
    }
    if fd == ERR {
        put(console, fd, b"    ");
    }
    put_use(console, fd, owner, told);
}

// What each party claims.
fn put_claims(console: &Console, fd: i32, ledger: &Ledger) {
    for owner in 0..=u8::MAX {
        put_claim(console, fd, owner, ledger.of_owner(owner));
    }
}

// `claimed: 513 of 65535 bytes ..`
pub fn put_sum(console: &Console, fd: i32, ledger: &Ledger) {
    put(console, fd, b"claimed: ");
    put_number(console, fd, ledger.claimed());
    put(console, fd, b" of ");
    put_number(console, fd, ledger.text);
    put(
        console,
        fd,
        b" bytes of the text, of each party the larger of use and share; ",
    );
    put_number(console, fd, ledger.left());
    put(console, fd, b" are left\n");
}

// How many bytes a line of a party can have that takes the place of one of `freed` bytes.
pub fn free_for(store: View, party: Party, freed: usize) -> usize {
    let ledger = Ledger::of(store);
    let owner = owner_of(party);
    let used = ledger.of_owner(owner).used;
    ledger
        .left_to(owner)
        .saturating_sub(used.saturating_sub(freed))
}

// Who claims what of the text, where a share is set.
pub fn complain_claims(console: &Console, store: View) {
    let ledger = Ledger::of(store);
    if !ledger.has_shares() {
        return;
    }
    complain(
        console,
        b"  of the text each party claims the larger of use and share (hub share changes a share):\n",
    );
    put_claims(console, ERR, &ledger);
}

// `hub shares STORE`
pub fn list_shares(console: &Console, path: &[u8]) -> Result<(), Failure> {
    let file = load(console, path)?;
    let store = View::from(&file);
    share_of(store.index, store.text, 0).map_err(|e| refused_by(console, e.refusal()))?;
    let ledger = Ledger::of(store);
    put_claims(console, OUT, &ledger);
    put_sum(console, OUT, &ledger);
    Ok(())
}

// The owner byte that `hall` or a number from 1 to 255 names.
fn owner_named(who: &[u8]) -> Option<u8> {
    if who == b"hall".as_slice() {
        return Some(0);
    }
    u8::try_from(parse_u16(who)?)
        .ok()
        .filter(|owner| *owner != 0)
}

// A number of bytes; of those that exceed every text one stands for all.
fn size_named(s: &[u8]) -> Option<usize> {
    if let Some(n) = parse_u16(s) {
        return Some(usize::from(n));
    }
    if s.is_empty() || !s.iter().all(|b| b.is_ascii_digit()) {
        return None;
    }
    let digits = str::from_utf8(s).ok()?;
    Some(digits.parse().unwrap_or(usize::MAX))
}

fn say_set(console: &Console, store: View, owner: u8) {
    let ledger = Ledger::of(store);
    put_use(console, OUT, owner, ledger.of_owner(owner));
    put_sum(console, OUT, &ledger);
}

// What more can be done in a store of the smaller size.
fn complain_growth(console: &Console, store: View) {
    if store.can_grow() {
        complain(
            console,
            b"  hub grow STORE makes the store large, with more room.\n",
        );
    }
}

// 26: how much the party can have at most, and who claims the rest.
fn complain_too_large(console: &Console, store: View, owner: u8) {
    let ledger = Ledger::of(store);
    complain(console, b"  at most ");
    put_number(console, ERR, ledger.left_to(owner));
    complain(console, b" bytes can be the share of ");
    put_party(console, ERR, owner);
    complain(
        console,
        b"; of the text each party claims the larger of use and share:\n",
    );
    put_claims(console, ERR, &ledger);
    complain(
        console,
        b"  what can be done: give less; or lower another share (hub share STORE PARTY BYTES); or keep a second
  store for the league.\n",
    );
    complain_growth(console, store);
}

// A setting that was refused, in a store that is as it was.
fn refused_share(console: &Console, e: StoreError, store: View, owner: u8) -> Failure {
    let number = usize::from(e.refusal().number);
    match e {
        StoreError::ShareTooLarge => {
            put_refused(console, ERR, number);
            complain(console, b"\n");
            complain_too_large(console, store, owner);
        }
        StoreError::NoRoom => {
            put_refused(console, ERR, number);
            complain(
                console,
                b"\n  a share takes 4 bytes of the index, one over 65535 takes 6, and fewer are free; hub shares says who has one\n",
            );
            complain_growth(console, store);
        }
        _ => return refused_by(console, e.refusal()),
    }
    Failure::Refused
}

fn set_in(console: &Console, target: Target, owner: u8, bytes: usize) -> Result<(), Failure> {
    let former = target.load(console)?;
    let mut file = former.clone()?;
    set_share(&mut file.index, &file.text, owner, bytes).map_err(|e| refused_share(
        console,
        e,
        View::from(&file),
        owner,
    ))?;
    target.replace(console, &former, &file)?;
    say_set(console, View::from(&file), owner);
    Ok(())
}

// `hub share STORE PARTY BYTES`; the bytes are argument `at`.
pub fn give_share(console: &Console, target: Target, who: &[u8], at: usize) -> Result<(), Failure> {
    target.may_change(console)?;
    let mut space = arg_space();
    let size = argument(console, at, &mut space);
    let Some(owner) = owner_named(who) else {
        return Err(wrong(
            console,
            who,
            b": a party is 'hall', or a league organiser's number from 1 to 255\n",
        ));
    };
    let Some(bytes) = size_named(size) else {
        return Err(wrong(
            console,
            size,
            b": a share is a number of bytes; 0 takes it away\n",
        ));
    };
    set_in(console, target, owner, bytes)
}
