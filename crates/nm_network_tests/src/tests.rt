//! The tests, by what they go over, and what they share.

mod base;
mod events;
mod faults;
mod forward;
mod iface;
mod knowledge;
mod memory;
mod packet;
mod pcap;
mod same;
mod texts;
mod topology;
mod traffic;
