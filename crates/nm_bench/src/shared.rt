//! A shared replica of one of two partitions.

use nm_base::PartNo;
use nm_shared::{Pass, Plain, SharedBook};
use nm_topology::Topology;
use std::alloc::Global;
use std::io::{Error, ErrorKind};
use std::sync::{Arc, Wait};

/// A shared replica, and a pass of it.
#[derive(Drop)]
pub(crate) struct Replica {
    pub(crate) book: SharedBook<Plain>,
    pub(crate) pass: Pass<Plain>,
}

/// Replica 0 of a partition.
pub(crate) fn replica_of<R: Wait>(
    rt: &R,
    alloc: Global,
    topology: &Arc<Topology>,
    me: u32,
) -> Result<Replica, Error> {
    let (counts, whole) = Plain::open();
    let shared = Arc::try_clone(topology)?;
    let Ok(book) = SharedBook::new(alloc, shared, PartNo::new(me), 0, counts, whole) else {
        return Err(ErrorKind::InvalidInput.into());
    };
    let pass = book.pass(rt)?;
    Ok(Replica { book, pass })
}
