//! How long a replica stays, and why it ends or goes on.

ghost use Rattle.std.specs.Prelude.{◌&&◌, ◌==◌, ◌||◌, ◌≡◌, false, length, true};
ghost use Rattle.nm_policy.specs.Stays.{leaves, stayed};
ghost use Rattle.nm_replica.specs.Staying.{MayEnd, StaysOn, stay_after};

use crate::acts::Standing;
use crate::replica::Service;
use crate::sisters::all_are_done;
use nm_policy::{Contacts, Stay};
use nm_shared::{Counts, Pass};
use std::sync::Wait;

/// Whether a replica that is done leaves: its links have ended, and it has stayed long enough for
/// those that may call again. A poll was made; `ran_out`: a period was over.
fn may_leave(stay: &mut Stay, contacts: &Contacts, ran_out: bool) -> bool
    ensures stays { stay.new ≡ stayed ran_out contacts.now stay.old }
    ensures leaves { result ≡ leaves contacts.now stay.new }
{
    stay.pass_poll(contacts, ran_out);
    stay.leaves(contacts)
}

/// Whether a replica may end once its records are handed out: its book is done, and it leaves or
/// all replicas are done. A poll was made; `ran_out`: a period was over. How long it stays is
/// counted only once its book is done.
pub(crate) fn may_end<C: Counts, R: Wait>(
    rt: &R,
    service: &Service<'_, C>,
    passes: &mut Vec<Pass<C>>,
    stay: &mut Stay,
    contacts: &Contacts,
    is_done: bool,
    ran_out: bool,
) -> bool
    ensures passes { length passes.new.items ≡ length passes.old.items }
    ensures stay { stay.new ≡ stay_after is_done ran_out contacts.now stay.old }
    ensures ends { result ≡ true
        → MayEnd is_done contacts.now stay.new (length service.now.books.now) }
    ensures goes_on { result ≡ false → StaysOn is_done contacts.now stay.new
        (length service.now.books.now) (length passes.old.items) }
{
    if !is_done {
        return false;
    }
    if may_leave(stay, contacts, ran_out) {
        return true;
    }
    all_are_done(rt, service, passes)
}

/// Whether the book was done, and none of its records is left to hand out unless it keeps them.
pub(crate) fn is_served(standing: &Standing, keeps_records: bool, is_last: bool) -> bool
    ensures { result ≡ standing.now.is_done
        && (keeps_records || is_last || standing.now.handed == standing.now.records) }
{
    standing.is_done && (keeps_records || is_last || standing.handed == standing.records)
}
