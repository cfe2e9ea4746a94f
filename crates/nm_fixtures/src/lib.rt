//! Texts that several crates of tests use, each once: four networks, which are those of the same
//! names in `examples/` (`dev/check/docs` compares them), and values in frames.
#![tactic(auto)]

/// Two hosts, one link, one UDP packet.
pub const DUO: &str = r#"format = 1
stop = 10000000
mtu = 1500
node = [ {name = "a", kind = "host", partition = 0},
  {name = "b", kind = "host", partition = 0, ports = [9]} ]
iface = [ {name = "a0", node = "a", address = "10.0.0.1", queue = 4},
  {name = "b0", node = "b", address = "10.0.0.2", queue = 4} ]
link = [ {a = "a0", b = "b0", rate = 8000000, delay = 1000000} ]
route = [ {node = "a", to = "10.0.0.0/24", via = "a0"} ]
source = [
  {kind = "cbr", node = "a", to = "10.0.0.2", sport = 1000, dport = 9, size = 72, start = 0, interval = 1000000, count = 1} ]
"#;

/// `DUO` cut in two: a is in partition 0, b in partition 1. Channel 0 goes from b to a and comes in
/// at interface 0; channel 1 goes from a to b and comes in at interface 1.
pub const SPLIT: &str = r#"format = 1
stop = 10000000
mtu = 1500
node = [ {name = "a", kind = "host", partition = 0},
  {name = "b", kind = "host", partition = 1, ports = [9]} ]
iface = [ {name = "a0", node = "a", address = "10.0.0.1", queue = 4},
  {name = "b0", node = "b", address = "10.0.0.2", queue = 4} ]
link = [ {a = "a0", b = "b0", rate = 8000000, delay = 1000000} ]
route = [ {node = "a", to = "10.0.0.0/24", via = "a0"} ]
source = [
  {kind = "cbr", node = "a", to = "10.0.0.2", sport = 1000, dport = 9, size = 72, start = 0, interval = 1000000, count = 1} ]
"#;

/// Two hosts, a and b, on both sides of a router. The first link is inside partition 0, so that
/// channel 0 comes in at interface 2 and channel 1 at interface 3.
pub const SHIFT: &str = r#"format = 1
stop = 20000000
mtu = 1500
node = [ {name = "a", kind = "host", partition = 0},
  {name = "r", kind = "router", partition = 0},
  {name = "b", kind = "host", partition = 1, ports = [9]} ]
iface = [ {name = "a0", node = "a", address = "10.0.0.1", queue = 4},
  {name = "r0", node = "r", address = "10.0.0.2", queue = 4},
  {name = "r1", node = "r", address = "10.0.1.1", queue = 4},
  {name = "b0", node = "b", address = "10.0.1.2", queue = 4} ]
link = [ {a = "a0", b = "r0", rate = 8000000, delay = 0},
  {a = "r1", b = "b0", rate = 8000000, delay = 1000000} ]
route = [ {node = "a", to = "0.0.0.0/0", via = "a0"},
  {node = "r", to = "10.0.0.0/24", via = "r0"},
  {node = "r", to = "10.0.1.0/24", via = "r1"},
  {node = "b", to = "0.0.0.0/0", via = "b0"} ]
source = [
  {kind = "cbr", node = "a", to = "10.0.1.2", sport = 1000, dport = 9, size = 72, start = 0, interval = 2000000, count = 3},
  {kind = "echo", node = "b", to = "10.0.0.1", ident = 7, size = 8, start = 500000, interval = 3000000, count = 2} ]
"#;

/// Three routers in a ring, in a partition each.
pub const RING: &str = r#"format = 1
stop = 10000000
mtu = 1500
node = [ {name = "n0", kind = "router", partition = 0},
  {name = "n1", kind = "router", partition = 1},
  {name = "n2", kind = "router", partition = 2, ports = [9]} ]
iface = [ {name = "n0a", node = "n0", address = "10.0.0.1", queue = 4},
  {name = "n1a", node = "n1", address = "10.0.0.2", queue = 4},
  {name = "n1b", node = "n1", address = "10.0.1.1", queue = 4},
  {name = "n2a", node = "n2", address = "10.0.1.2", queue = 4},
  {name = "n2b", node = "n2", address = "10.0.2.1", queue = 4},
  {name = "n0b", node = "n0", address = "10.0.2.2", queue = 4} ]
link = [ {a = "n0a", b = "n1a", rate = 8000000, delay = 1000000},
  {a = "n1b", b = "n2a", rate = 8000000, delay = 1000000},
  {a = "n2b", b = "n0b", rate = 8000000, delay = 1000000} ]
route = [ {node = "n0", to = "10.0.1.0/24", via = "n0a"},
  {node = "n1", to = "10.0.1.0/24", via = "n1b"} ]
source = [
  {kind = "cbr", node = "n0", to = "10.0.1.2", sport = 1000, dport = 9, size = 72, start = 0, interval = 2000000, count = 2} ]
"#;

/// 72 octets of 0 in hexadecimal: what the packet of `DUO` and of `SPLIT` carries.
pub const ZEROS: &str = "000000000000000000000000000000000000000000000000000000000000000000000000\
000000000000000000000000000000000000000000000000000000000000000000000000";
