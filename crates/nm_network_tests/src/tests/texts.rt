//! Texts of networks.

/// a, with 10.0.0.1, and b, with 10.0.1.2, on both sides of r, with 10.0.0.2 and 10.0.1.1. All
/// sources but one are of a.
pub const TRIO: &str = r#"format = 1
stop = 10000000
mtu = 1500
node = [ {name = "a", kind = "host", partition = 0},
  {name = "r", kind = "router", partition = 0, ports = [7]},
  {name = "b", kind = "host", partition = 0, ports = [9, 9, 65535]} ]
iface = [ {name = "a0", node = "a", address = "10.0.0.1", queue = 4},
  {name = "r0", node = "r", address = "10.0.0.2", queue = 4},
  {name = "r1", node = "r", address = "10.0.1.1", queue = 4},
  {name = "b0", node = "b", address = "10.0.1.2", queue = 4} ]
link = [ {a = "a0", b = "r0", rate = 8000000, delay = 1000000},
  {a = "r1", b = "b0", rate = 8000000, delay = 1000000} ]
route = [ {node = "a", to = "10.0.1.0/24", via = "a0"},
  {node = "r", to = "10.0.0.0/24", via = "r0"},
  {node = "r", to = "10.0.1.0/24", via = "r1"},
  {node = "b", to = "0.0.0.0/0", via = "b0"} ]
source = [
  {kind = "cbr", node = "a", to = "10.0.1.2", sport = 1000, dport = 9, size = 72, start = 0, interval = 1000000, count = 1},
  {kind = "cbr", node = "a", to = "10.0.1.2", sport = 1000, dport = 9, size = 0, start = 0, interval = 1, count = 1, ttl = 1},
  {kind = "echo", node = "a", to = "10.0.1.2", ident = 7, size = 0, start = 0, interval = 1, count = 1, ttl = 255},
  {kind = "raw", node = "r", via = "r1", packet = [ {at = 0, data = "45"} ]},
  {kind = "cbr", node = "a", to = "10.0.0.1", sport = 1, dport = 2, size = 1, start = 0, interval = 1, count = 1},
  {kind = "echo", node = "a", to = "11.0.0.1", ident = 7, size = 0, start = 0, interval = 1, count = 1} ]
"#;

/// A ring of three nodes in two of four partitions.
pub const PARTITIONS: &str = r#"format = 1
stop = 1000000000000000
mtu = 576

[[node]]
name = "n0"
kind = "router"
partition = 0
ports = [7, 65535, 7]

[[node]]
name = "n1"
kind = "router"
partition = 3

[[node]]
name = "n2"
kind = "host"
partition = 0

[[iface]]
name = "n1b"
node = "n1"
address = "10.0.1.1"
queue = 0

[[iface]]
name = "n0a"
node = "n0"
address = "10.0.0.1"
queue = 10000

[[iface]]
name = "n2a"
node = "n2"
address = "10.0.1.2"
queue = 1

[[iface]]
name = "n1a"
node = "n1"
address = "10.0.0.2"
queue = 2

[[iface]]
name = "n2b"
node = "n2"
address = "10.0.2.1"
queue = 3

[[iface]]
name = "n0b"
node = "n0"
address = "10.0.2.2"
queue = 5

[[link]]
a = "n0a"
b = "n1a"
rate = 8000000
delay = 1000000

[[link]]
a = "n2a"
b = "n1b"
rate = 1000
delay = 1

[[link]]
a = "n2b"
b = "n0b"
rate = 1000000000000
delay = 0

[[route]]
node = "n1"
to = "10.0.1.0/24"
via = "n1b"

[[route]]
node = "n0"
to = "0.0.0.0/0"
via = "n0a"

[[route]]
node = "n0"
to = "10.0.2.1/32"
via = "n0b"

[[source]]
kind = "echo"
node = "n0"
to = "10.0.1.2"
ident = 65535
size = 548
start = 5
interval = 1000000000000
count = 1000000000
ttl = 255

[[source]]
kind = "raw"
node = "n2"
via = "n2b"
packet = [ {at = 0, data = "45"}, {at = 1000000000000000, data = "00fFAb"} ]

[[source]]
kind = "cbr"
node = "n1"
to = "1.0.0.0"
sport = 0
dport = 65535
size = 0
fill = 255
start = 1000000000000000
interval = 1
count = 0
"#;
