//! The tests, by layers.

mod books;
mod frames;
mod parts;
mod replays;
