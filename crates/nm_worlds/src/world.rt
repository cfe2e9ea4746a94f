//! A world: replicas of a network on machines of their own, in one thread, until all have ended.

use crate::flow::Clock;
use crate::hub::{Hub, Shared};
use crate::machine::{Machine, Role};
use crate::scripts::Script;
use crate::transport::WorldTransport;
use crate::weather::{Loss, Schedule, Weather};
use nm_base::PartNo;
use nm_book::Book;
use nm_frames::ReplicaName;
use nm_peers::{Listener, Peers, peers_of};
use nm_replica::seats::Dealt;
use nm_replica::{OwnSeats, Served};
use nm_rounds::certify::certify;
use nm_shared::{ClockBoard, Lending, Plain, SharedBook};
use nm_topology::Topology;
use std::alloc::{AllocError, Global};
use std::cell::{Cell, RefCell};
use std::io::{Error, ErrorKind};
use std::net::{Ipv4Addr, SocketAddr, SocketAddrV4};
use std::rc::Rc;
use std::sync::{Arc, Wait};

/// How much time passes from one poll of a machine to its next, in milliseconds.
const TICK: u64 = 10;

/// So long after the weather has become calm all replicas have ended, in milliseconds.
const LAST: u64 = 20_000;

/// The result of a world.
#[derive(Clone, Copy)]
pub(crate) enum Verdict {
    /// All replicas are done, and their books are certified. So many had not ended: one was done
    /// while the weather was bad, their Bye was lost then, and the peer that sent it left.
    Fine(u64),
    /// The replica of this machine ended otherwise, with this line, or had not ended at last.
    NotDone(usize, &'static str),
    /// The replica of this machine ended at this time, before it was to.
    Early(usize, u64),
    /// So many calls were made, which are too many.
    Calls(usize),
    /// The books are not certified.
    NotCertified,
}

/// How a machine ended.
fn end_of(served: Option<Served>) -> &'static str {
    match served {
        None => "has not ended",
        Some(Served::Ended) => "is done",
        Some(Served::Stalled { .. }) => "is stalled",
        Some(Served::Net) => "was told what cannot be",
        Some(Served::File { .. }) => "failed at a file",
        Some(Served::Memory) => "lacked memory",
    }
}

/// What is given of a world: the network, its replicas, and with whom each speaks.
#[derive(Drop)]
struct Given {
    topology: Arc<Topology>,
    names: Vec<ReplicaName>,
    peers: Vec<Peers>,
    /// Two of each replica: the second one is for a machine that is begun again.
    books: Vec<SharedBook<Plain>>,
    lending: Lending,
}

/// The replicas of a network.
fn names_of(
    alloc: Global,
    topology: &Topology,
    replicas: u8,
) -> Result<Vec<ReplicaName>, AllocError> {
    let mut names = Vec::new(alloc);
    for number in 0..topology.partitions() {
        for replica in 0..replicas {
            names.push(ReplicaName {
                partition: PartNo::new(number),
                replica,
            })?;
        }
    }
    Ok(names)
}

/// The number of a machine as a port.
fn port_of(machine: usize) -> u16 {
    if machine > 65_535 {
        return 65_535;
    }
    machine as u16
}

/// Their addresses: each at its number as a port.
fn listeners_of(alloc: Global, names: &[ReplicaName]) -> Result<Vec<Listener>, AllocError> {
    let mut listeners = Vec::new(alloc);
    for number in 0..names.len() {
        let name = names[number];
        listeners.push(Listener {
            partition: name.partition,
            replica: name.replica,
            address: SocketAddrV4::new(Ipv4Addr::LOCALHOST, port_of(number)),
        })?;
    }
    Ok(listeners)
}

/// The machines of the peers with these addresses.
fn machines_at(alloc: Global, addresses: &[SocketAddr]) -> Result<Vec<usize>, AllocError> {
    let mut machines = Vec::new(alloc);
    for address in addresses {
        machines.push(address.port() as usize)?;
    }
    Ok(machines)
}

/// A replica that knows nothing.
fn book_of(
    alloc: Global,
    topology: &Arc<Topology>,
    name: ReplicaName,
) -> Result<SharedBook<Plain>, Error> {
    let (counts, whole) = Plain::open();
    let topology = Arc::try_clone(topology)?;
    match SharedBook::new(alloc, topology, name.partition, name.replica, counts, whole) {
        Ok(book) => Ok(book),
        Err(_) => Err(ErrorKind::InvalidData.into()),
    }
}

/// What is given of a world over this network with so many replicas of each partition.
fn read_given(alloc: Global, text: &str, replicas: u8) -> Result<Given, Error> {
    let Ok(topology) = Topology::read(alloc, text.as_bytes()) else {
        return Err(ErrorKind::InvalidData.into());
    };
    let topology = Arc::new(alloc, topology)?;
    let names = names_of(alloc, &topology, replicas)?;
    let listeners = listeners_of(alloc, names.as_slice())?;
    let (mut peers, mut books) = (Vec::new(alloc), Vec::new(alloc));
    for name in names.iter() {
        peers.push(peers_of(alloc, &topology, name.partition, listeners.as_slice())?)?;
    }
    for _ in 0..2 {
        for name in names.iter() {
            books.push(book_of(alloc, &topology, *name)?)?;
        }
    }
    Ok(Given {
        topology,
        names,
        peers,
        books,
        lending: Lending::alone(),
    })
}

impl Given {
    /// The role of a machine, in its first life or its second.
    fn role(&self, machine: usize, life: usize) -> Option<Role<'_>> {
        let peers = self.peers.get(machine)?;
        let number = machine.saturating_add(life.saturating_mul(self.names.len()));
        Some(Role {
            topology: &self.topology,
            book: self.books.get(number)?,
            name: *self.names.get(machine)?,
            partitions: peers.partitions.as_slice(),
            callers: peers.callers.as_slice(),
            lending: &self.lending,
        })
    }

    /// The transport of a machine.
    fn transport(
        &self,
        alloc: Global,
        hub: &Shared,
        machine: usize,
        now: u64,
    ) -> Result<WorldTransport, Error> {
        let Some(peers) = self.peers.get(machine) else {
            return Err(ErrorKind::InvalidData.into());
        };
        let machines = machines_at(alloc, peers.addresses.as_slice())?;
        Ok(WorldTransport::new(hub.clone()?, machine, machines, now))
    }
}

/// Whether a machine is stopped.
fn is_paused(hub: &Shared, machine: usize) -> bool {
    match hub.try_borrow_mut() {
        Ok(hub) => hub.is_paused(machine),
        Err(_) => false,
    }
}

/// The replica of a machine has ended.
fn leave(hub: &Shared, machine: usize) {
    if let Ok(mut hub) = hub.try_borrow_mut() {
        hub.leave(machine);
    }
}

/// A life of a machine: its first, which has number 0, or its second, and when it begins.
#[derive(Clone, Copy)]
struct Life {
    machine: usize,
    number: usize,
    begins: u64,
}

/// The machines of a world, and what it is about to lose.
#[derive(Drop)]
struct Fleet<'x> {
    machines: Vec<Option<Machine<'x>>>,
    /// The life of each: 0, or 1 if it was begun again.
    lives: Vec<usize>,
    loss: Option<Loss>,
    /// The seats of the board that nobody has.
    rest: Option<OwnSeats<'x>>,
}

impl<'x> Fleet<'x> {
    /// The seats of a machine, of those that nobody has.
    fn deal(
        &mut self,
        alloc: Global,
        topology: &Topology,
        name: ReplicaName,
    ) -> Result<OwnSeats<'x>, Error> {
        let Some(rest) = self.rest.take() else {
            return Err(ErrorKind::InvalidData.into());
        };
        let Dealt { own, others } = rest.deal(alloc, topology, name)?;
        self.rest = Some(others);
        Ok(own)
    }

    /// A machine begins a life.
    fn begin<R: Wait>(
        &mut self,
        rt: &R,
        alloc: Global,
        given: &Given,
        hub: &Shared,
        life: Life,
    ) -> Result<Machine<'x>, Error> {
        let Some(role) = given.role(life.machine, life.number) else {
            return Err(ErrorKind::InvalidData.into());
        };
        let seats = self.deal(alloc, role.topology, role.name)?;
        let transport = given.transport(alloc, hub, life.machine, life.begins)?;
        Ok(Machine::new(rt, alloc, &role, seats, transport)?)
    }

    /// Whether a machine has not ended and its book is not done: its peers wait for it.
    fn may_lose<R: Wait>(&mut self, rt: &R, given: &Given, number: usize) -> bool {
        self.served(number).is_none() && !self.is_done(rt, given, number)
    }

    /// Loses a machine, or begins it again, if that is due.
    fn lose<R: Wait>(
        &mut self,
        rt: &R,
        alloc: Global,
        given: &Given,
        hub: &Shared,
        now: u64,
    ) -> Result<(), Error> {
        let Some(loss) = self.loss else {
            return Ok(());
        };
        let is_there = matches!(self.machines.get(loss.machine), Some(Some(_)));
        if is_there && now >= loss.at {
            if !loss.may_be_done && !self.may_lose(rt, given, loss.machine) {
                self.loss = None;
                return Ok(());
            }
            if let Some(slot) = self.machines.get_mut(loss.machine) {
                *slot = None;
            }
            if let Ok(mut hub) = hub.try_borrow_mut() {
                hub.lose(loss.machine, loss.is_silent);
            }
        }
        if !is_there && now >= loss.back_at {
            if let Ok(mut hub) = hub.try_borrow_mut() {
                hub.find(loss.machine);
            }
            let life = Life {
                machine: loss.machine,
                number: 1,
                begins: now,
            };
            let anew = self.begin(rt, alloc, given, hub, life)?;
            if let Some(slot) = self.machines.get_mut(loss.machine) {
                *slot = Some(anew);
            }
            if let Some(life) = self.lives.get_mut(loss.machine) {
                *life = 1;
            }
            self.loss = None;
        }
        Ok(())
    }

    /// Each machine makes a poll, unless it is stopped.
    fn poll_all<R: Wait>(&mut self, rt: &R, alloc: Global, given: &Given, hub: &Shared, now: u64) {
        for number in 0..self.machines.len() {
            if is_paused(hub, number) {
                continue;
            }
            let life = match self.lives.get(number) {
                Some(life) => *life,
                None => 0,
            };
            let Some(role) = given.role(number, life) else {
                continue;
            };
            if let Some(Some(machine)) = self.machines.get_mut(number) {
                if machine.poll(rt, alloc, &role, now) {
                    leave(hub, number);
                }
            }
        }
    }

    /// Whether all have ended.
    fn have_ended(&self) -> bool {
        self.machines.iter().all(|slot| match slot {
            Some(machine) => machine.served.is_some(),
            None => false,
        })
    }

    /// Whether a machine ended as done.
    fn has_one_left(&self) -> bool {
        self.machines.iter().any(|slot| match slot {
            Some(machine) => machine.served == Some(Served::Ended),
            None => false,
        })
    }

    /// Whether the book of a machine is done.
    fn has_one_done<R: Wait>(&mut self, rt: &R, given: &Given) -> bool {
        for number in 0..self.machines.len() {
            if self.is_done(rt, given, number) {
                return true;
            }
        }
        false
    }

    /// How a machine ended, if it did.
    fn served(&self, number: usize) -> Option<Served> {
        match self.machines.get(number) {
            Some(Some(machine)) => machine.served,
            _ => None,
        }
    }

    /// Whether the book of a machine is done.
    fn is_done<R: Wait>(&mut self, rt: &R, given: &Given, number: usize) -> bool {
        let life = match self.lives.get(number) {
            Some(life) => *life,
            None => 0,
        };
        let Some(role) = given.role(number, life) else {
            return false;
        };
        match self.machines.get_mut(number) {
            Some(Some(machine)) => machine.is_done(rt, &role),
            _ => false,
        }
    }
}

/// The books of machines that have ended, each of its last life.
fn books_in(alloc: Global, given: Given, fleet: Fleet<'_>) -> Result<Vec<Book>, Error> {
    let count = fleet.machines.len();
    let lives = fleet.lives;
    let mut passes = Vec::new(alloc);
    for slot in fleet.machines {
        passes.push(slot.map(|machine| machine.into_pass()))?;
    }
    let mut books = Vec::new(alloc);
    for (number, book) in given.books.into_iter().enumerate() {
        let (machine, life) = if number < count {
            (number, 0)
        } else {
            (number - count, 1)
        };
        if lives.get(machine) != Some(&life) {
            continue;
        }
        let Some(Some(pass)) = passes.get_mut(machine).map(|slot| slot.take()) else {
            continue;
        };
        let mut own = Vec::new(alloc);
        own.push(pass)?;
        if let Ok(closed) = book.close(own) {
            books.push(closed.book)?;
        }
    }
    Ok(books)
}

/// Whether books are certified.
fn are_certified(alloc: Global, topology: &Topology, books: &[Book]) -> Result<bool, AllocError> {
    let mut all = Vec::new(alloc);
    for number in 0..books.len() {
        all.push(&books[number])?;
    }
    Ok(certify(topology, all.as_slice()).is_ok())
}

/// A world at its beginning: its time, its network, when that is calm, when all have to have ended,
/// and its machines.
#[derive(Drop)]
struct World<'x> {
    clock: Clock,
    hub: Shared,
    calm_at: u64,
    last: u64,
    fleet: Fleet<'x>,
    /// One was done before the weather became calm, so that a Bye may have been lost.
    was_done: bool,
}

/// The time at which all have to have ended.
fn last_of(schedule: Schedule, weather: &Weather) -> u64 {
    match schedule {
        Schedule::Drawn(_) => weather.calm_at.saturating_add(LAST),
        Schedule::Told(script) => script.ends[1],
    }
}

/// How many calls were made.
fn calls_in(hub: &Shared) -> usize {
    match hub.try_borrow_mut() {
        Ok(hub) => hub.made.len(),
        Err(_) => 0,
    }
}

/// The world of a schedule, with these seats.
fn begun<'x, R: Wait>(
    rt: &R,
    alloc: Global,
    given: &Given,
    seats: OwnSeats<'x>,
    schedule: Schedule,
) -> Result<World<'x>, Error> {
    let count = given.names.len();
    let weather = Weather::new(schedule, count);
    let (calm_at, last) = (weather.calm_at, last_of(schedule, &weather));
    let loss = weather.loss;
    let clock: Clock = Rc::new(alloc, Cell::new(0))?;
    let hub = Hub::new(alloc, clock.clone()?, weather, count)?;
    let hub: Shared = Rc::new(alloc, RefCell::new(hub))?;
    let mut fleet = Fleet {
        machines: Vec::new(alloc),
        lives: Vec::new(alloc),
        loss,
        rest: Some(seats),
    };
    for machine in 0..count {
        let life = Life {
            machine,
            number: 0,
            begins: 0,
        };
        let first = fleet.begin(rt, alloc, given, &hub, life)?;
        fleet.machines.push(Some(first))?;
        fleet.lives.push(0)?;
    }
    Ok(World {
        clock,
        hub,
        calm_at,
        last,
        fleet,
        was_done: false,
    })
}

impl<'x> World<'x> {
    /// Time goes on until all have ended, or have to have ended.
    fn go_on<R: Wait>(&mut self, rt: &R, alloc: Global, given: &Given) -> Result<(), Error> {
        for tick in 0..self.last / TICK {
            let now = tick.saturating_mul(TICK);
            self.clock.set(now);
            if let Ok(mut hub) = self.hub.try_borrow_mut() {
                hub.hold();
            }
            self.fleet.lose(rt, alloc, given, &self.hub, now)?;
            self.fleet.poll_all(rt, alloc, given, &self.hub, now);
            if now <= self.calm_at && self.calm_at < now.saturating_add(TICK) {
                self.was_done = self.fleet.has_one_done(rt, given);
            }
            if self.fleet.have_ended() {
                return Ok(());
            }
        }
        Ok(())
    }

    /// How many machines did not end as done, or the first that should have.
    fn judge<R: Wait>(&mut self, rt: &R, given: &Given) -> Result<u64, Verdict> {
        let have_left = self.was_done && self.fleet.has_one_left();
        let mut late = 0u64;
        for number in 0..self.fleet.machines.len() {
            let served = self.fleet.served(number);
            if served == Some(Served::Ended) {
                continue;
            }
            if served.is_some() || !have_left || !self.fleet.is_done(rt, given, number) {
                return Err(Verdict::NotDone(number, end_of(served)));
            }
            late = late.saturating_add(1);
        }
        Ok(late)
    }

    /// If all was listed each machine ended as it was to and when it was to, and no more calls were
    /// made than are to be; or what is wrong.
    fn check(&self, script: &Script) -> Result<(), Verdict> {
        for number in 0..self.fleet.machines.len() {
            if !script.expects(self.fleet.served(number)) {
                let end = end_of(self.fleet.served(number));
                return Err(Verdict::NotDone(number, end));
            }
            if let Some(Some(machine)) = self.fleet.machines.get(number) {
                if machine.ended_at < script.ends[0] {
                    return Err(Verdict::Early(number, machine.ended_at));
                }
            }
        }
        let calls = calls_in(&self.hub);
        if calls > script.calls {
            return Err(Verdict::Calls(calls));
        }
        Ok(())
    }
}

/// A world of this schedule over a network with so many replicas of each partition.
pub(crate) fn try_world<R: Wait>(
    rt: &R,
    alloc: Global,
    text: &str,
    replicas: u8,
    schedule: Schedule,
) -> Result<Verdict, Error> {
    let given = read_given(alloc, text, replicas)?;
    let (board, owners, _) = ClockBoard::new(alloc, &given.topology)?;
    let mut world = begun(rt, alloc, &given, OwnSeats::all(&board, owners), schedule)?;
    world.go_on(rt, alloc, &given)?;
    if let Schedule::Told(script) = schedule {
        if let Err(verdict) = world.check(&script) {
            return Ok(verdict);
        }
        if script.stalls {
            return Ok(Verdict::Fine(0));
        }
    }
    let late = match world.judge(rt, &given) {
        Ok(late) => late,
        Err(verdict) => return Ok(verdict),
    };
    let topology = Arc::try_clone(&given.topology)?;
    let books = books_in(alloc, given, world.fleet)?;
    if are_certified(alloc, &topology, books.as_slice())? {
        Ok(Verdict::Fine(late))
    } else {
        Ok(Verdict::NotCertified)
    }
}
