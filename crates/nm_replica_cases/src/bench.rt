//! What the commands of a case work on.

use nm_base::PartNo;
use nm_book::Book;
use nm_frames::Session;
use nm_topology::Topology;
use std::alloc::Global;
use std::io;
use std::sync::Arc;

/// A network, with replicas of its partitions and sessions between them.
#[derive(Drop)]
pub struct Bench {
    pub text: String,
    pub topology: Arc<Topology>,
    pub books: Vec<Book>,
    pub sessions: Vec<Session>,
    /// The steps of the next replay, a line each.
    pub steps: String,
    /// The lines of the last one's report.
    pub report: String,
}

/// The network of a text, which has to be accepted.
pub fn network(alloc: Global, text: &str) -> io::Result<Arc<Topology>> {
    match Topology::read(alloc, text.as_bytes()) {
        Ok(topology) => Ok(Arc::new(alloc, topology)?),
        Err(_) => Err(io::Error::other("a text that is no network")),
    }
}

/// A replica that knows nothing.
pub fn book_of(
    alloc: Global,
    topology: &Arc<Topology>,
    partition: u32,
    replica: u8,
) -> io::Result<Book> {
    match Book::new(alloc, topology.clone()?, PartNo::new(partition), replica) {
        Ok(book) => Ok(book),
        Err(_) => Err(io::Error::other("there is no such replica")),
    }
}

impl Bench {
    /// A network without replicas.
    pub fn new(alloc: Global, text: String) -> io::Result<Bench> {
        let topology = network(alloc, text.as_str())?;
        Ok(Bench {
            text,
            topology,
            books: Vec::new(alloc),
            sessions: Vec::new(alloc),
            steps: String::new(alloc),
            report: String::new(alloc),
        })
    }
}

/// The replica of this number.
pub fn book(books: &[Book], number: usize) -> io::Result<&Book> {
    match books.get(number) {
        Some(book) => Ok(book),
        None => Err(io::Error::other("there is no such replica")),
    }
}

/// The replica of this number, to be changed.
pub fn book_mut(books: &mut [Book], number: usize) -> io::Result<&mut Book> {
    match books.get_mut(number) {
        Some(book) => Ok(book),
        None => Err(io::Error::other("there is no such replica")),
    }
}
