//! A long-running node: the command `node`.

ghost use Rattle.std.specs.Prelude.{◌≡◌, ◌+◌, ◌<◌, ◌≤◌};
ghost use Rattle.std.specs.Thread.{IsSend, IsSync};

use crate::following::{Followed, FollowingGuest, Giving, begin_following, guests_of};
use crate::head::{Heads, heads_of, note_text};
use crate::link_reporter::LinkReporter;
use crate::listening::{many_listener_of, most_files, port_of, socket_listener};
use crate::memory::share_of_memory;
use crate::metering::meters_of;
use crate::outcome::Begun;
use crate::serve::{UNPROVED, budget_of, stop_of, tell_unproved};
use crate::starting::begin;
use crate::texts::{Backlog, MOST_WAITING, Text, TextWriter, write_texts};
use crossbeam_channel::{Sender, bounded};
use hk_budgets::PartsBudget;
use hk_cli_calls::{
    IS_PROVED, Level, MOST_SOURCES, OtherPort, OutputForm, PartsLimit, Start, Stay,
};
use hk_cli_commands::Output;
use hk_cli_events::WrappedWords;
use hk_cli_input::Stop;
use hk_cli_reasons::Place;
use hk_host::{Bell, NetFault};
use hk_meters::Meters;
use hk_net::{Door, Limits, bell_of, serve_forever};
use hk_node::{NewList, Node, NodeName, ReaderSeat, start};
use hk_types::{Config, Refusal};
use log::warn;
use mio::Poll;
use std::alloc::{AllocError, Global};
use std::fs::{File, Files};
use std::io::Write;
use std::marker::Brand;
use std::net::{Net, SocketAddr, TcpListener, TcpStream};
use std::os::unix::net::UnixListener;
use std::rt::Clock;
use std::sync::Wait;
use std::thread::{Scope, Threads};
use std::{mem, thread};

/// How many workers give short answers at most: a node has 64 seats, one for each worker.
const MOST_WORKERS: usize = 31;

const MOST_SEATS: usize = 64;

/// How many files a node has open beside its connections: at most for its standard streams and listeners, and for each worker for short
/// answers and that for long ones.
const OTHER_FILES: u64 = 12;

const FILES_A_WORKER: u64 = 4;

/// The line where a node that needs data can have none.
const NO_DATA: &str =
    "stopped: there is no data, and --need-data is given; see the lines above, or start it without\n";

/// The line where a file is there and none is whole.
const NO_FILE: &str =
    "stopped: a file of --load is there, and none is whole; see the lines above. Give another by --load, put it elsewhere, or begin \
without it by --load-or-empty: 'hkrep save' to its name takes its place then\n";

/// The listeners of the ports and sockets, of those that there are.
#[derive(Drop)]
struct Listeners {
    open: TcpListener,
    feeding: Option<TcpListener>,
    reading: Option<TcpListener>,
    socket: Option<UnixListener>,
    read_socket: Option<UnixListener>,
}

/// The listener of a further port, if there is one.
fn other_listener<R: Net<Listener = TcpListener, Stream = TcpStream>, W: Write, E: Write>(
    rt: &R,
    stay: &Stay<'_>,
    other: Option<OtherPort>,
    output: &mut Output<'_, W, E>,
) -> Result<Option<TcpListener>, Stop> {
    match other {
        None => Ok(None),
        Some(other) => {
            let listener = many_listener_of(rt, stay.address, other.port, output)?;
            Ok(Some(listener))
        }
    }
}

/// Opens the further ports and the sockets.
fn open_others<R, W: Write, E: Write>(
    rt: &R,
    stay: &Stay<'_>,
    listeners: &mut Listeners,
    output: &mut Output<'_, W, E>,
) -> Result<(), Stop>
where
    R: Net<Listener = TcpListener, Stream = TcpStream> + Files + Alloc<A = Global>,
{
    listeners.feeding = other_listener(rt, stay, stay.feeding, output)?;
    listeners.reading = other_listener(rt, stay, stay.reading, output)?;
    listeners.socket = socket_listener(rt, stay.socket, output)?;
    listeners.read_socket = socket_listener(rt, stay.read_socket, output)?;
    Ok(())
}

/// The listeners of all ports and sockets.
fn listeners_of<R, W: Write, E: Write>(
    rt: &R,
    stay: &Stay<'_>,
    output: &mut Output<'_, W, E>,
) -> Result<Listeners, Stop>
where
    R: Net<Listener = TcpListener, Stream = TcpStream> + Files + Alloc<A = Global>,
{
    let mut listeners = Listeners {
        open: many_listener_of(rt, stay.address, stay.port, output)?,
        feeding: None,
        reading: None,
        socket: None,
        read_socket: None,
    };
    open_others(rt, stay, &mut listeners, output)?;
    Ok(listeners)
}

/// How many connections a further port serves at once.
fn links_of(other: Option<OtherPort>) -> usize
    ensures { result ≤ 65535 }
{
    match other {
        Some(other) => usize::from(other.links),
        None => 0,
    }
}

/// What connections may make a node keep.
#[derive(Drop)]
struct Budgets {
    /// Those of the port and the socket for read-only connections, where there is one.
    reading: Option<PartsBudget>,
    /// All others.
    others: PartsBudget,
}

impl Budgets {
    /// So many bytes: half of them for read-only connections where these have a port or a socket, so that they take nothing of what
    /// feeders need.
    fn new(alloc: Global, bytes: u64, stay: &Stay<'_>) -> Result<Budgets, AllocError> {
        let half = if stay.reading.is_some() || stay.read_socket.is_some() {
            Some(bytes / 2)
        } else {
            None
        };
        let rest = bytes.saturating_sub(half.unwrap_or(0));
        Ok(Budgets {
            reading: budget_of(alloc, half)?,
            others: PartsBudget::new(alloc, rest)?,
        })
    }

    /// That of read-only connections.
    fn of_readers(&self) -> &PartsBudget {
        self.reading.as_ref().unwrap_or(&self.others)
    }
}

/// Adds a door, of whose connections each change is reported too where that is asked for.
fn add_door<'d, J: NodeName, N: Wait + Drop>(
    stay: &Stay<'_>,
    door: Door<'d, J, N>,
    doors: &mut Vec<Door<'d, J, N>>,
) -> Result<(), AllocError> {
    let door = if stay.level == Level::Changes {
        door.with_changes()
    } else {
        door
    };
    doors.push(door)?;
    Ok(())
}

/// Adds the doors of a node's ports.
fn add_ports<'d, J: NodeName, N: Wait + Drop>(
    node: &'d Node<J, N>,
    stay: &Stay<'_>,
    listeners: &'d Listeners,
    budgets: &'d Budgets,
    doors: &mut Vec<Door<'d, J, N>>,
) -> Result<(), AllocError> {
    let links = usize::from(stay.links);
    let others = &budgets.others;
    add_door(
        stay,
        Door::open(&listeners.open, node, links, others),
        doors,
    )?;
    if let Some(listener) = &listeners.feeding {
        let links = links_of(stay.feeding);
        add_door(stay, Door::feeding(listener, node, links, others), doors)?;
    }
    if let Some(listener) = &listeners.reading {
        let links = links_of(stay.reading);
        add_door(
            stay,
            Door::reading(listener, links, budgets.of_readers()),
            doors,
        )?;
    }
    Ok(())
}

/// Adds the doors of its sockets.
fn add_sockets<'d, J: NodeName, N: Wait + Drop>(
    node: &'d Node<J, N>,
    stay: &Stay<'_>,
    listeners: &'d Listeners,
    budgets: &'d Budgets,
    doors: &mut Vec<Door<'d, J, N>>,
) -> Result<(), AllocError> {
    let links = usize::from(stay.links);
    if let Some(listener) = &listeners.socket {
        add_door(
            stay,
            Door::open_unix(listener, node, links, &budgets.others),
            doors,
        )?;
    }
    if let Some(listener) = &listeners.read_socket {
        add_door(
            stay,
            Door::reading_unix(listener, links, budgets.of_readers()),
            doors,
        )?;
    }
    Ok(())
}

/// The doors of a node: that of its port, and those of the further ports and sockets that there are.
fn doors_of<'d, J: NodeName, N: Wait + Drop>(
    alloc: Global,
    node: &'d Node<J, N>,
    stay: &Stay<'_>,
    listeners: &'d Listeners,
    budgets: &'d Budgets,
) -> Result<Vec<Door<'d, J, N>>, AllocError> {
    let mut doors = Vec::new(alloc);
    add_ports(node, stay, listeners, budgets, &mut doors)?;
    add_sockets(node, stay, listeners, budgets, &mut doors)?;
    Ok(doors)
}

/// How many workers give short answers, and as many long ones: so many as are asked for, or as there are processors.
fn workers_of<R: Threads>(rt: &R, stay: &Stay<'_>) -> usize
    ensures { (0 < result) × (result ≤ 31) }
{
    let asked = usize::from(stay.workers);
    let count = if asked > 0 {
        asked
    } else {
        match thread::available_parallelism(rt) {
            Ok(count) => count.get(),
            Err(_error) => 1,
        }
    };
    count.clamp(1, MOST_WORKERS)
}

/// How many nodes it follows.
fn follows_of(stay: &Stay<'_>) -> usize
    ensures { result ≤ 8 }
{
    let mut count = 0usize;
    for place in &stay.start.follows {
        if place.is_some() {
            count = count.saturating_add(1);
        }
    }
    count.min(MOST_SOURCES)
}

/// How many workers give short answers where it follows so many nodes.
fn workers_beside(workers: usize, follows: usize) -> usize
    requires { (0 < workers) × (workers ≤ 31) × (follows ≤ 8) }
    ensures { (0 < result) × (result ≤ 31) × (result + result + follows ≤ 64) }
{
    workers.min((MOST_SEATS - follows) / 2)
}

/// What a node found as it opened.
#[derive(Clone, Copy)]
struct Opened {
    /// Its port, which the system may have chosen.
    port: u16,
    /// How many bytes all connections keep at most.
    parts_bytes: u64,
}

/// Adds what a further port is for, its address, and for how many connections it is.
fn put_other(
    stay: &Stay<'_>,
    what: &str,
    other: Option<OtherPort>,
    out: &mut String,
) -> Result<(), AllocError> {
    if let Some(other) = other {
        let address = SocketAddr::from((stay.address, other.port));
        let links = other.links;
        write!(out, ", {what} on {address} for {links}")?;
    }
    Ok(())
}

/// Adds what a node opened.
fn put_opened(
    config: Config,
    stay: &Stay<'_>,
    opened: Opened,
    out: &mut String,
) -> Result<(), AllocError> {
    let address = SocketAddr::from((stay.address, opened.port));
    let links = stay.links;
    write!(out, "listening on {address} for {links} connections")?;
    put_other(stay, "feeding", stay.feeding, out)?;
    put_other(stay, "reading", stay.reading, out)?;
    let (log, streams) = (config.log(), config.streams());
    let guarded = if stay.is_guarded {
        "guarded"
    } else {
        "not guarded"
    };
    let bytes = opened.parts_bytes;
    writeln!(
        out,
        "; log {log}, streams {streams}, {guarded}, chunks {bytes} bytes"
    )
}

/// Prints in one line what a node opened.
fn tell_opened<W: Write, E: Write>(
    alloc: Global,
    config: Config,
    stay: &Stay<'_>,
    opened: Opened,
    output: &mut Output<'_, W, E>,
) -> Result<(), Stop> {
    let mut line = String::new(alloc);
    put_opened(config, stay, opened, &mut line)?;
    output.send(line.as_bytes())
}

/// How many connections are served at most, at all ports and sockets together.
fn links_wanted(stay: &Stay<'_>) -> u64 {
    let read_sockets = usize::from(stay.read_socket.is_some());
    let sockets = usize::from(stay.socket.is_some()).saturating_add(read_sockets);
    let first = usize::from(stay.links).saturating_mul(sockets.saturating_add(1));
    let others = links_of(stay.feeding).saturating_add(links_of(stay.reading));
    first.saturating_add(others) as u64
}

/// Says so where the process may open too few files for its connections: further ones wait then.
fn tell_files<C: Clock, W: Write, E: Write>(
    heads: &Heads<'_, C>,
    workers: usize,
    stay: &Stay<'_>,
    output: &mut Output<'_, W, E>,
)
    requires { workers ≤ 31 }
{
    let others = OTHER_FILES + FILES_A_WORKER * workers as u64 + follows_of(stay) as u64;
    let links = links_wanted(stay);
    let wanted = links.saturating_add(others);
    let Some(most) = most_files().filter(|most| *most < wanted) else {
        return;
    };
    let served = most.saturating_sub(others);
    let log = heads.log_text();
    let nobody: Option<SocketAddr> = None;
    warn!(log; peer = nobody, event = "files", served:% = served, connections:% = links, files:% = most;
        "{served} of {links} connections are served at once: the program may open {most} files; \
raise that by 'ulimit -n', or by LimitNOFILE= of its unit");
    note_text(log, output);
}

/// How many bytes all connections keep at most.
fn parts_bytes_of<R: Files + Alloc<A = Global>>(rt: &R, stay: &Stay<'_>) -> u64 {
    match stay.parts {
        PartsLimit::Bytes(bytes) => bytes,
        PartsLimit::Percent(percent) => share_of_memory(rt, percent),
    }
}

/// For how long connections may do nothing, and how slowly frames may come.
fn limits_of(stay: &Stay<'_>) -> Limits {
    Limits {
        read_seconds: stay.read_seconds,
        read_rate: stay.read_rate,
        write_seconds: stay.write_seconds,
        idle_seconds: stay.idle_seconds,
    }
}

/// What connections are served with.
#[derive(Drop)]
struct Service<'d, J: NodeName, N: Wait + Drop> {
    meters: &'d Meters<'d>,
    limits: Limits,
    bell: &'d Bell,
    polls: Vec<Poll>,
    seats: Vec<ReaderSeat<J>>,
    doors: Vec<Door<'d, J, N>>,
}

/// Serves connections without an end, and hands on what is printed of them.
fn serve_doors<
    'd,
    J: NodeName + Send + Sync,
    N: Wait + Drop + Send + Sync,
    R: Net<Listener = TcpListener, Stream = TcpStream> + Threads + Wait + Clock + Sync,
>(
    rt: &'d R,
    alloc: Global,
    heads: Heads<'d, R>,
    level: Level,
    service: Service<'d, J, N>,
    texts: Sender<Text>,
    backlog: &Backlog,
) -> Result<(), NetFault> {
    let words = TextWriter::new(rt, alloc, &texts, backlog);
    let mut reporter = LinkReporter::new(alloc, &heads, words, level);
    let Service {
        meters,
        limits,
        bell,
        polls,
        seats,
        doors,
    } = service;
    let watch = &mut reporter;
    serve_forever(rt, alloc, doors, seats, polls, bell, limits, meters, watch)
}

/// Starts the thread of each guest. Returns false where one can't be started.
fn start_guests<'s, E, J: NodeName + Send + Sync + 's, N: Wait + Drop + Send + Sync + 's, R>(
    scope: &Scope<'s, E>,
    rt: &'s R,
    bell: &'s Bell,
    guests: Vec<(FollowingGuest<'s, J, N>, ReaderSeat<J>)>,
) -> bool
where
    R: Net<Listener = TcpListener, Stream = TcpStream> + Clock + Alloc<A = Global>,
    R: Threads + Wait + Sync,
{
    let mut all = true;
    for (guest, seat) in guests {
        all &= scope.spawn(move || guest.stay(rt, seat, bell)).is_ok();
    }
    all
}

/// Takes as many seats from the last ones as it follows nodes.
fn seats_of_guests<J: NodeName>(
    alloc: Global,
    stay: &Stay<'_>,
    seats: &mut Vec<ReaderSeat<J>>,
) -> Result<Vec<ReaderSeat<J>>, AllocError> {
    let mut taken = Vec::new(alloc);
    for _ in 0..follows_of(stay) {
        if let Some(seat) = seats.pop() {
            taken.push(seat)?;
        }
    }
    Ok(taken)
}

/// The same beside what follows others, and writes what is printed: this thread alone waits where nobody reads it.
fn serve_writing<
    'd,
    W: Write,
    E: Write,
    J: NodeName + Send + Sync,
    N: Wait + Drop + Send + Sync,
    R: Net<Listener = TcpListener, Stream = TcpStream>
        + Clock
        + Alloc<A = Global>
        + Threads
        + Wait
        + Sync,
>(
    rt: &'d R,
    stay: &'d Stay<'d>,
    service: Service<'d, J, N>,
    followed: Followed<'d, J, N>,
    output: &mut Output<'_, W, E>,
) -> Result<(), NetFault> {
    let alloc = rt.alloc();
    let (level, heads) = (stay.level, heads_of(rt, alloc, stay));
    let told_heads = heads_of(rt, alloc, stay);
    let (bell, giving) = (service.bell, followed.giving);
    let backlog = Backlog::new();
    let backlog = &backlog;
    let (texts, told) = bounded::<Text, _>(alloc, MOST_WAITING)?;
    let guests = guests_of(alloc, followed, stay, &texts, backlog)?;
    thread::scope(
        thread::scope_env(),
        rt,
        |scope| -> Result<(), NetFault>
            requires { IsSend J.row × IsSync J.row × IsSend N.row × IsSync N.row × IsSync R.row }
        {
            let serving = scope.spawn(move || {
                let served = serve_doors(rt, alloc, heads, level, service, texts, backlog);
                giving.end();
                served
            });
            match serving {
                Ok(serving) => {
                    if !start_guests(scope, rt, bell, guests) {
                        output.tell_known(Place::Whole, "not started", 90);
                    }
                    write_texts(rt, &told_heads, &told, backlog, output);
                    serving.join(rt)
                }
                Err(_unstarted) => Err(NetFault::Memory),
            }
        },
    )
}

/// Puts a seat back to the others.
fn put_back<J: NodeName>(
    seat: Option<ReaderSeat<J>>,
    seats: &mut Vec<ReaderSeat<J>>,
) -> Result<(), Stop> {
    let Some(seat) = seat else {
        return Ok(());
    };
    match seats.push(seat) {
        Ok(_kept) => Ok(()),
        Err(_memory) => Err(Stop::Refused(Refusal::Memory)),
    }
}

/// Refuses where a file is there and none is whole, and where nothing was taken and something has to be.
fn begun_checked<W: Write, E: Write>(
    start: &Start<'_>,
    begun: Begun,
    output: &mut Output<'_, W, E>,
) -> Result<(), Stop> {
    match begun {
        Begun::Refused => {
            output.note(NO_FILE);
            Err(Stop::Quit)
        }
        Begun::Empty if start.needs_data => {
            output.note(NO_DATA);
            Err(Stop::NetTold)
        }
        _begins => Ok(()),
    }
}

/// Prints a line where the program was built without proofs.
fn tell_if_unproved<R: Clock, W: Write, E: Write>(
    heads: &Heads<'_, R>,
    output: &mut Output<'_, W, E>,
) {
    if !heads.are_json() {
        tell_unproved(output);
    } else if !IS_PROVED {
        let log = heads.log_text();
        let nobody: Option<SocketAddr> = None;
        let words = UNPROVED.trim_end();
        warn!(log; peer = nobody, event = "unproved"; "{words}");
        note_text(log, output);
    }
}

/// What a node is opened with: what it runs by, its log, and what is asked of it.
#[derive(Drop)]
struct Opening<'o, R> {
    rt: &'o R,
    config: Config,
    stay: &'o Stay<'o>,
}

impl<'o, R> Opening<'o, R>
where
    R: Net<Listener = TcpListener, Stream = TcpStream>
        + Clock
        + Files<File = File>
        + Alloc<A = Global>,
    R: Threads + Wait + Sync,
{
    /// Has a node take what it begins with, on one of its seats: last what the first of those that it follows has that gives something.
    fn take_on_seat<J: NodeName, N: Wait + Drop, W: Write, E: Write>(
        &self,
        node: &Node<J, N>,
        giving: &mut Giving,
        seats: &mut Vec<ReaderSeat<J>>,
        output: &mut Output<'_, W, E>,
    ) -> Result<Begun, Stop> {
        let (rt, stay) = (self.rt, self.stay);
        let mut seat = seats.pop();
        let heads = heads_of(rt, rt.alloc(), stay);
        let mut begun = begin(rt, &heads, node, &mut seat, &stay.start, output);
        if !matches!(begun, Begun::Refused)
            && begin_following(rt, node, &mut seat, stay, giving, output)?
        {
            begun = Begun::WithData;
        }
        put_back(seat, seats)?;
        Ok(begun)
    }

    /// Has a node take what it begins with. It refuses where it may not begin with that.
    fn take_start<J: NodeName, N: Wait + Drop, W: Write, E: Write>(
        &self,
        node: &Node<J, N>,
        giving: &mut Giving,
        seats: &mut Vec<ReaderSeat<J>>,
        output: &mut Output<'_, W, E>,
    ) -> Result<(), Stop> {
        let begun = self.take_on_seat(node, giving, seats, output)?;
        output.flush()?;
        begun_checked(&self.stay.start, begun, output)
    }

    /// The meters of a node with so many doors, and prints that connections can be opened.
    fn begun<'d, W: Write, E: Write>(
        &self,
        budgets: &'d Budgets,
        doors: usize,
        opened: Opened,
        output: &mut Output<'_, W, E>,
    ) -> Result<Meters<'d>, Stop> {
        let meters = meters_of(self.rt, &budgets.others, budgets.reading.as_ref(), doors)?;
        tell_opened(self.rt.alloc(), self.config, self.stay, opened, output)?;
        Ok(meters)
    }

    /// Serves connections at the doors of a node without an end.
    fn stay_at<J: NodeName + Send + Sync, W: Write, E: Write>(
        &self,
        node: &Node<J, &'o R>,
        giving: &Giving,
        doors: Vec<Door<'_, J, &'o R>>,
        seats: &mut Vec<ReaderSeat<J>>,
        budgets: &Budgets,
        opened: Opened,
        output: &mut Output<'_, W, E>,
    ) -> Result<(), Stop> {
        let (rt, stay) = (self.rt, self.stay);
        let meters = self.begun(budgets, doors.len(), opened, output)?;
        let mut seats = mem::replace(seats, Vec::new(rt.alloc()));
        let others = seats_of_guests(rt.alloc(), stay, &mut seats)?;
        let (polls, bell) = bell_of(rt, rt.alloc(), seats.len()).map_err(stop_of)?;
        let service = Service {
            meters: &meters,
            limits: limits_of(stay),
            bell: &bell,
            polls,
            seats,
            doors,
        };
        let followed = Followed {
            node,
            giving,
            seats: others,
        };
        serve_writing(rt, stay, service, followed, output).map_err(stop_of)
    }

    /// Opens the ports and sockets of a node, and serves connections to it without an end.
    fn stay_open<J: NodeName + Send + Sync, W: Write, E: Write>(
        &self,
        node: &Node<J, &'o R>,
        giving: &Giving,
        seats: &mut Vec<ReaderSeat<J>>,
        output: &mut Output<'_, W, E>,
    ) -> Result<(), Stop> {
        let (rt, stay) = (self.rt, self.stay);
        let listeners = listeners_of(rt, stay, output)?;
        let heads = heads_of(rt, rt.alloc(), stay);
        tell_files(&heads, workers_of(rt, stay), stay, output);
        output.flush()?;
        let opened = Opened {
            port: port_of(&listeners.open, stay.port),
            parts_bytes: parts_bytes_of(rt, stay),
        };
        let budgets = Budgets::new(rt.alloc(), opened.parts_bytes, stay)?;
        let doors = doors_of(rt.alloc(), node, stay, &listeners, &budgets)?;
        self.stay_at(node, giving, doors, seats, &budgets, opened, output)
    }

    /// Has a new node of this list take what it begins with, and serves connections to it without an end.
    fn stay_list<J: NodeName + Send + Sync, W: Write, E: Write>(
        &self,
        list: NewList,
        output: &mut Output<'_, W, E>,
    ) -> Result<(), Stop>
        requires { list ≡ (J.book, J.kind) }
    {
        let (rt, stay) = (self.rt, self.stay);
        let follows = follows_of(stay);
        let workers = workers_beside(workers_of(rt, stay), follows);
        let wanted = workers + workers + follows;
        let (node, mut seats) = start::<J, &'o R>(rt, rt.alloc(), list, wanted)?;
        let mut giving = Giving::new(rt.alloc());
        self.take_start(&node, &mut giving, &mut seats, output)?;
        self.stay_open(&node, &giving, &mut seats, output)
    }

    /// Starts a node of a log, and serves connections to it without an end.
    fn stay_printing<W: Write, E: Write>(&self, output: &mut Output<'_, W, E>) -> Result<(), Stop> {
        tell_if_unproved(&heads_of(self.rt, self.rt.alloc(), self.stay), output);
        let list = NewList::of(self.config, self.stay.is_guarded);
        self.stay_list::<Brand, W, E>(list, output)
    }
}

/// Prints why serving ended, where it did. The status of the command.
fn status_of<W: Write, E: Write>(ended: Result<(), Stop>, output: &mut Output<'_, W, E>) -> u8
    ensures { result ≤ 1 }
{
    match ended {
        Ok(()) => 0,
        Err(stop) => output.stop(stop),
    }
}

/// Starts a node of a log, and serves connections to it without an end: a place is free again when its connection ends. It first takes
/// what a file of `save` has, and then what the first of other nodes that answers has above that; neither needs to be there, unless it
/// is asked for. It follows nodes from then on, each in a thread of its own, and takes what one of them has and it lacks, as it comes.
/// Prints one line of what it opened once connections can be opened, and no other.
///
/// It ends, and the status is 1, only where one of these happens: a port can't be listened to, memory ran out for the node or its
/// threads, that line can't be written, or nothing was taken that is asked for. Each connection that opens and ends, each change that
/// is refused, and each accept that failed is printed to `errors` in words, as far as the level asks for it, and each change that takes
/// effect: with the time, how grave it is, and the peer's address, or where the call has it so in lines of JSON. Lines that can't be
/// written are lost, and the node serves on. Of one kind of line and one port at most 10 are printed in a second, and then how many more
/// there were. No connection waits for a line to be written: where 1,024 texts wait, further lines are dropped, and how many is printed
/// once there is room. Cost: that of `start`, of what is taken, and of `serve_forever`.
pub fn run_stay<R, W: Write, E: Write>(
    rt: &R,
    config: Config,
    stay: &Stay<'_>,
    writer: &mut W,
    errors: &mut E,
) -> u8
where
    R: Net<Listener = TcpListener, Stream = TcpStream>
        + Clock
        + Files<File = File>
        + Alloc<A = Global>,
    R: Threads + Wait + Sync,
    ensures { result ≤ 1 }
{
    let alloc = rt.alloc();
    let opening = Opening { rt, config, stay };
    if stay.in_json {
        let mut wrapped = WrappedWords::new(alloc, rt, errors);
        let mut output = Output::of_form(alloc, OutputForm::Bytes, writer, &mut wrapped);
        let ended = opening.stay_printing(&mut output);
        status_of(ended, &mut output)
    } else {
        let mut output = Output::of_form(alloc, OutputForm::Bytes, writer, errors);
        let ended = opening.stay_printing(&mut output);
        status_of(ended, &mut output)
    }
}
