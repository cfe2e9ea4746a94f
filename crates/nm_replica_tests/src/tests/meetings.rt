//! Connections that meet themselves.

use nm_transport::tcp_wire::{Called, meets_itself};
use std::net::{Ipv4Addr, SocketAddr};
use std::test::Fail;

/// The two ends of a connection, each a host of 127.0.0.0/24 and a port, and whether it meets
/// itself. A connection that another replica began was called from nowhere here, and the system may
/// not tell its own end.
struct Ends {
    own: Option<(u8, u16)>,
    called: Option<(u8, u16)>,
    meets: bool,
}

const ENDS: &[Ends] = &[
    Ends {
        own: Some((1, 40_000)),
        called: Some((1, 40_000)),
        meets: true,
    },
    Ends {
        own: Some((1, 40_000)),
        called: Some((1, 40_001)),
        meets: false,
    },
    Ends {
        own: Some((1, 40_000)),
        called: Some((2, 40_000)),
        meets: false,
    },
    Ends {
        own: Some((1, 40_000)),
        called: None,
        meets: false,
    },
    Ends {
        own: None,
        called: Some((1, 40_000)),
        meets: false,
    },
];

/// The address of an end.
fn address(end: (u8, u16)) -> SocketAddr {
    let (host, port) = end;
    SocketAddr::from((Ipv4Addr::new(127, 0, 0, host), port))
}

/// The call of an end.
fn call(end: (u8, u16)) -> Called {
    Called {
        peer: 0,
        address: address(end),
    }
}

/// A connection meets itself if both ends are one address and one port.
#[test]
fn one_address_and_port_meet_themselves(rt: HostRuntime) -> Result<(), Fail> {
    for ends in ENDS {
        assert!(rt; meets_itself(ends.called.map(call), ends.own.map(address)) == ends.meets);
    }
    Ok(())
}
