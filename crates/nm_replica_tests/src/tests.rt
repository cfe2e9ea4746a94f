//! The tests, by what they go over, and what they share.

mod boards;
mod callers;
mod cut_transport;
mod latecomers;
mod loopback;
mod meetings;
mod messages;
mod pools;
mod records;
mod scripted;
mod scripts;
mod sides;
mod sisters;
mod talks;
mod wakes;
