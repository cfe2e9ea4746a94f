//! A text to its listeners.

ghost use Rattle.std.specs.Prelude.{◌≡◌};
ghost use Rattle.std.specs.List.{list_any};
ghost use Rattle.nm_peers.specs.Listeners.{ReadsListeners, is_listener_of};

use crate::fault::{ListenersFault, NoListeners};
use crate::line::listener_of;
use crate::listener::Listener;
use nm_base::{PartNo, split_once};
use std::alloc::Global;

/// Whether one of the listeners is that of this replica.
fn has(listeners: &[Listener], partition: PartNo, replica: u8) -> bool
    ensures { result ≡ list_any (is_listener_of partition replica) listeners.now }
{
    listeners
        .iter()
        .any(|a| a.partition == partition && a.replica == replica)
}

/// Reads listeners: a line `P R A.B.C.D:PORT` for each replica that takes part, with its line feed,
/// the numbers in decimal without leading zeros. P is below `partitions`, R is 0 or 1, and no two
/// lines have the same P and R. The replica `replica` of `partition` is among them. The listeners
/// come in the order of their lines.
///
/// # Errors
///
/// `Refused` if the text has another form. `Memory` if memory was refused.
pub fn read_listeners(
    alloc: Global,
    text: &[u8],
    partitions: u32,
    partition: PartNo,
    replica: u8,
) -> Result<Vec<Listener>, ListenersFault>
    ensures { ReadsListeners text.now partitions partition replica result }
{
    let mut listeners = Vec::new(alloc);
    let mut rest = text;
    while let Some((line, after)) = split_once(rest, b'\n') {
        let Some(listener) = listener_of(line, partitions) else {
            return Err(ListenersFault::Refused(NoListeners));
        };
        if has(&listeners, listener.partition, listener.replica) {
            return Err(ListenersFault::Refused(NoListeners));
        }
        listeners.push(listener)?;
        rest = after;
    }
    if !rest.is_empty() {
        return Err(ListenersFault::Refused(NoListeners));
    }
    if !has(&listeners, partition, replica) {
        return Err(ListenersFault::Refused(NoListeners));
    }
    Ok(listeners)
}
