//! The word `node`: replicas of two partitions over loopback.

use crate::fixtures::{Ended, run_line};
use mio::net::TcpListener;
use nm_command::Status;
use nm_fixtures::SPLIT;
use nm_program::{MemInputs, Runtime};
use std::alloc::Global;
use std::net::{Ipv4Addr, Net, SocketAddr};
use std::process::Abort;
use std::sync::Wait;
use std::test::Fail;
use std::thread::{Threads, join};
use std::time::Clock;
use std::{io, net};

/// Runs the program on the words of a line. The input `split.toml` is SPLIT, and `addresses` has
/// these lines. One file can be made.
fn run_split<R: AllocGlobal + Runtime>(rt: &R, line: &str, addresses: &str) -> io::Result<Ended> {
    let files = [
        ("split.toml", SPLIT.as_bytes()),
        ("addresses", addresses.as_bytes()),
    ];
    let inputs = MemInputs {
        standard: b"".as_slice(),
        files: &files,
    };
    run_line(rt, line, inputs, 1)
}

/// Addresses of both partitions at ports of 127.0.0.1 that were free.
fn free_addresses<R: Net>(rt: &R, alloc: Global) -> io::Result<String> {
    let any = SocketAddr::from((Ipv4Addr::LOCALHOST, 0));
    let (zero, one) = (TcpListener::bind(rt, any)?, TcpListener::bind(rt, any)?);
    let (zero, one) = (zero.local_addr()?.port(), one.local_addr()?.port());
    Ok(format!(in alloc; "0 0 127.0.0.1:{zero}\n1 0 127.0.0.1:{one}\n")?)
}

/// A node is done: it made one file, of this name and with the octets that `one` writes of the
/// interface, and printed the interface's line.
fn is_done<R: Abort + AllocGlobal + Runtime>(
    rt: &R,
    ended: &Ended,
    iface: &str,
) -> Result<(), Fail> {
    assert!(rt; ended.status == Status::Done);
    let said = format!(in rt.alloc(); "iface {iface} records 1 octets 140\n")?;
    assert!(rt; ended.out.octets() == said.as_bytes());
    assert!(rt; ended.errors.octets().is_empty());
    assert!(rt; ended.files.len() == 1);
    let name = format!(in rt.alloc(); "out/{iface}.pcap")?;
    let line = format!(in rt.alloc(); "one split.toml {iface}")?;
    let wanted = run_split(rt, line.as_str(), "")?;
    for file in &ended.files {
        assert!(rt; file.name.as_str() == name.as_str());
        assert!(rt; file.octets.as_slice() == wanted.out.octets());
    }
    Ok(())
}

/// Both nodes, each in a thread of its own.
fn both<R>(rt: &R, addresses: &str) -> Result<(), Fail>
where
    R: Net<Stream = net::TcpStream, Listener = net::TcpListener>
        + Threads
        + Wait
        + Clock
        + Abort
        + AllocGlobal
        + Sync
        + Drop
        + Copy,
{
    let (zero, one) = join(
        rt,
        || run_split(rt, "node split.toml out 0 0 addresses", addresses),
        || run_split(rt, "node split.toml out 1 0 addresses", addresses),
    );
    is_done(rt, &zero?, "a0")?;
    is_done(rt, &one?, "b0")
}

/// Two nodes write their files as the one event list does.
#[test]
fn two_nodes_write_what_one_writes(rt: HostRuntime) -> Result<(), Fail> {
    let addresses = free_addresses(&rt, rt.alloc())?;
    both(&rt, addresses.as_str())
}
