//! A node that follows others: a thread for each of them, with a connection of its own.

use crate::head::{heads_of, note_text};
use crate::telling::{Standing, Told, put_stop};
use crate::texts::{Backlog, Text, TextWriter};
use crossbeam_channel::Sender;
use hk_cli_calls::{Limits, MOST_SOURCES, NodePlace, OutputForm, Stay};
use hk_cli_commands::Output;
use hk_cli_input::Stop;
use hk_cli_remote::{Delta, Upstream};
use hk_follow::{Follower, Taken, first_difference};
use hk_fragment::Fragment;
use hk_host::Bell;
use hk_model::{StreamTold, StreamsTold};
use hk_node::{Node, NodeName, ReaderSeat};
use hk_types::{Refusal, Time, VersionKey};
use std::alloc::{AllocError, Global};
use std::io::Write;
use std::net::{Net, TcpListener, TcpStream};
use std::rt::Clock;
use std::sync::Wait;
use std::sync::atomic::{AtomicU64, Ordering};
use std::thread::Threads;
use std::time::{Duration, Instant};
use std::{io, mem, thread};

/// For how many seconds a node may let a request wait, or a full snapshot.
const REPLY_SECONDS: u64 = 10;

const WHOLE_SECONDS: u64 = 60;

/// The same until a first reply came over a connection.
const FIRST_SECONDS: u64 = 1;

/// For how many seconds nodes are tried, one after the other, before this one listens.
const BEGIN_SECONDS: u64 = 10;

/// For how many milliseconds another node lets a wait stand.
const TURN: u32 = 1_000;

/// How many milliseconds pass at first and at most before a node that is away is tried again.
const PAUSE: u64 = 50;

const MOST_PAUSE: u64 = 1_000;

/// How many milliseconds a node that didn't give last leaves to each before it.
const GRACE: u64 = 2;

/// For how many turns a node of another log is left alone.
const LEFT_ALONE: u64 = 60;

/// Which node gave last, up to where the own one was compared with those that it follows, and how it stood with them before it listened.
#[derive(Drop)]
pub(crate) struct Giving {
    /// Its number, counted from 1; 0 where none did, or it has to be compared again.
    giver: AtomicU64,
    /// The number of a time; 0 where it was not.
    compared: AtomicU64,
    /// By their numbers, of those that were tried.
    begun: Vec<Standing>,
    /// 1 where connections are served no more, and so nobody follows either.
    ended: AtomicU64,
}

impl Giving {
    pub(crate) fn new(alloc: Global) -> Giving {
        Giving {
            giver: AtomicU64::new(0),
            compared: AtomicU64::new(0),
            begun: Vec::new(alloc),
            ended: AtomicU64::new(0),
        }
    }

    /// Connections are served no more: who follows ends at his next turn.
    pub(crate) fn end(&self) {
        self.ended.store(1, Ordering::SeqCst);
    }

    /// Whether they are served no more.
    fn has_ended(&self) -> bool {
        self.ended.load(Ordering::SeqCst) > 0
    }

    /// How it stood with the node of this number before this one listened.
    fn begun(&self, number: u64) -> Standing {
        let place = number.saturating_sub(1) as usize;
        match self.begun.get(place) {
            Some(standing) => *standing,
            None => Standing::Unknown,
        }
    }

    /// Whether the node of this number gave last.
    fn is_giver(&self, number: u64) -> bool {
        self.giver.load(Ordering::SeqCst) == number
    }

    /// A node of this number has to be compared again.
    fn forget(&self, number: u64) {
        if self.is_giver(number) {
            self.giver.store(0, Ordering::SeqCst);
        }
    }

    /// The time up to which the own node was compared, if it was, where the node of this number may be of another history.
    fn compared_for(&self, number: u64) -> Option<Time> {
        if self.is_giver(number) {
            return None;
        }
        match self.compared.load(Ordering::SeqCst) {
            0 => Some(Time::last()),
            compared => Some(Time::new(compared).unwrap_or(Time::last())),
        }
    }

    /// The node of this number gave what is readable up to this time.
    fn note(&self, number: u64, readable: Time) {
        self.giver.store(number, Ordering::SeqCst);
        self.compared.fetch_max(readable.number(), Ordering::SeqCst);
    }
}

/// What came of asking a node for what it has.
#[derive(Clone, Copy, PartialEq, Eq)]
enum Gain {
    /// It was taken.
    Came,
    /// Nothing is taken for now.
    Nothing,
    /// It is of another log.
    Other,
}

/// Whether a stream of another node has what the own one lacks, as far as that can be seen.
fn has_more(theirs: &StreamTold, own: &StreamTold) -> bool {
    theirs.prefix > own.prefix
        || theirs.closed > own.closed
        || (theirs.extra > 0 || theirs.waiting > 0) && theirs != own
}

/// Whether one of its streams has.
fn have_more(theirs: &StreamsTold, own: &StreamsTold) -> bool {
    theirs
        .streams
        .iter()
        .zip(own.streams.iter())
        .any(|(one, other)| has_more(one, other))
}

/// Whether less than half of a turn is over.
fn is_short<C: Clock>(rt: &C, began: Option<Instant>) -> bool {
    match began {
        Some(began) => match began.elapsed(rt) {
            Ok(gone) => gone < Duration::from_millis(u64::from(TURN / 2)),
            Err(_unknown) => true,
        },
        None => true,
    }
}

/// Whether a node that begins may ask one more before it listens.
fn is_early<C: Clock>(rt: &C, began: Option<Instant>) -> bool {
    match began {
        Some(began) => match began.elapsed(rt) {
            Ok(gone) => gone < Duration::from_secs(BEGIN_SECONDS),
            Err(_unknown) => false,
        },
        None => false,
    }
}

/// Rests for a turn.
fn rest<C: Clock>(rt: &C) {
    thread::sleep(rt, Duration::from_millis(u64::from(TURN)));
}

/// How long another node is waited for at first: it is tried once.
fn limits_of(stay: &Stay<'_>) -> Limits {
    Limits {
        connect_seconds: 0,
        reply_seconds: FIRST_SECONDS,
        read_rate: stay.start.read_rate,
    }
}

/// Waits for so long as a node of another log is left alone, or its connection ends: it may be another one then.
fn leave_alone<C: Clock>(rt: &C, giving: &Giving, up: &mut Upstream) -> Result<(), Stop> {
    for _ in 0..LEFT_ALONE {
        if giving.has_ended() {
            return Ok(());
        }
        let began = Instant::now(rt).ok();
        up.front_after(Time::last(), TURN)?;
        if is_short(rt, began) {
            rest(rt);
        }
    }
    Ok(())
}

/// A node that is followed.
#[derive(Drop)]
struct Following<'a, J: NodeName, N: Wait + Drop> {
    node: &'a Node<J, N>,
    stay: &'a Stay<'a>,
    place: NodePlace<'a>,
    /// Its number among those that are followed, counted from 1.
    number: u64,
    giving: &'a Giving,
}

impl<'a, J: NodeName, N: Wait + Drop> Following<'a, J, N> {
    /// Where the other node's history is another one.
    fn difference<R: Threads + Wait + Sync>(
        &self,
        own: &mut Follower<'_, J, N, R>,
        up: &mut Upstream,
        base: Time,
    ) -> Result<Option<VersionKey>, Stop> {
        let Delta::Given(theirs) = up.delta(base)? else {
            return Ok(None);
        };
        let held = own.delta_since(base)?;
        let resolved = own.front()?.readable;
        Ok(first_difference(&held, &theirs, resolved))
    }

    /// What was given is refused by the own node.
    fn refused<R: Threads + Wait + Clock + Sync, V: Write>(
        &self,
        own: &mut Follower<'_, J, N, R>,
        up: &mut Upstream,
        base: Time,
        why: Refusal,
        told: &mut Told<'_, R, V>,
    ) -> Result<Gain, Stop> {
        match why {
            Refusal::Conflict => {
                let where_it_is = self.difference(own, up, base)?;
                told.other_history(where_it_is);
                Ok(Gain::Other)
            }
            Refusal::ForeignLog | Refusal::WrongStreams => {
                told.other_log(why);
                Ok(Gain::Other)
            }
            _other => {
                told.refused(why);
                Ok(Gain::Nothing)
            }
        }
    }

    /// What was given is taken.
    fn joined<R: Threads + Wait + Clock + Sync, V: Write>(
        &self,
        own: &mut Follower<'_, J, N, R>,
        bell: Option<&Bell>,
        told: &mut Told<'_, R, V>,
    ) -> Result<Gain, Stop> {
        let readable = own.front()?.readable;
        self.giving.note(self.number, readable);
        if let Some(bell) = bell {
            bell.ring(readable);
        }
        told.gives();
        Ok(Gain::Came)
    }

    /// What a node has whose oldest readable time is above that of which it was asked: since that one, or all where the own node isn't so
    /// far; `None` where all would end times that stay here.
    fn newer<R: Threads + Wait + Clock + Sync, V: Write>(
        &self,
        own: &mut Follower<'_, J, N, R>,
        up: &mut Upstream,
        horizon: Time,
        told: &mut Told<'_, R, V>,
    ) -> Result<Option<Fragment>, Stop> {
        if horizon <= own.front()?.readable {
            if let Delta::Given(fragment) = up.delta(horizon)? {
                return Ok(Some(fragment));
            }
        }
        if own.keeps_out(horizon)? {
            told.kept_out(own.front()?.horizon, horizon);
            return Ok(None);
        }
        up.wait_at_most(WHOLE_SECONDS)?;
        let whole = up.whole()?;
        up.wait_at_most(REPLY_SECONDS)?;
        Ok(Some(whole))
    }

    /// What the other node has since a time, or what it has in place of that.
    fn given<R: Threads + Wait + Clock + Sync, V: Write>(
        &self,
        own: &mut Follower<'_, J, N, R>,
        up: &mut Upstream,
        base: Time,
        told: &mut Told<'_, R, V>,
    ) -> Result<Option<Fragment>, Stop> {
        match up.delta(base)? {
            Delta::Given(fragment) => Ok(Some(fragment)),
            Delta::TooOld(horizon) => self.newer(own, up, horizon, told),
        }
    }

    /// Takes what the other node has above what the own one has; where it may be of another history, some of both is compared.
    fn gain<R: Threads + Wait + Clock + Sync, V: Write>(
        &self,
        own: &mut Follower<'_, J, N, R>,
        up: &mut Upstream,
        bell: Option<&Bell>,
        told: &mut Told<'_, R, V>,
    ) -> Result<Gain, Stop> {
        let base = own.base(self.giving.compared_for(self.number))?;
        let Some(given) = self.given(own, up, base, told)? else {
            return Ok(Gain::Nothing);
        };
        match own.take(given) {
            Ok(taken) => self.taken(own, bell, taken, told),
            Err(why) => self.refused(own, up, base, why, told),
        }
    }

    /// What was given was taken so.
    fn taken<R: Threads + Wait + Clock + Sync, V: Write>(
        &self,
        own: &mut Follower<'_, J, N, R>,
        bell: Option<&Bell>,
        taken: Taken,
        told: &mut Told<'_, R, V>,
    ) -> Result<Gain, Stop> {
        match taken {
            Taken::Joined(_ops) => self.joined(own, bell, told),
            Taken::Kept(mine, theirs) => {
                told.kept_out(mine, theirs);
                Ok(Gain::Nothing)
            }
        }
    }

    /// Whether the other node has more than the own one, once it has, or a turn is over. Each leaves those before it some time to give
    /// first, unless it gave last.
    fn has_news<R: Threads + Wait + Clock + Sync, V: Write>(
        &self,
        rt: &R,
        own: &mut Follower<'_, J, N, R>,
        up: &mut Upstream,
        told: &mut Told<'_, R, V>,
    ) -> Result<bool, Stop> {
        let readable = own.front()?.readable;
        let next = Time::new(readable.number().saturating_add(1)).unwrap_or(readable);
        let front = up.front_after(next, TURN)?;
        told.answers();
        if front.readable <= readable {
            let theirs = up.streams()?;
            return Ok(have_more(&theirs, &own.streams()?));
        }
        if !self.giving.is_giver(self.number) {
            thread::sleep(rt, Duration::from_millis(self.number.saturating_mul(GRACE)));
        }
        Ok(front.readable > own.front()?.readable)
    }

    /// A turn: waits until the other node has more, and takes that. Where nothing came and nothing was waited for it rests.
    fn turn<R: Threads + Wait + Clock + Sync, V: Write>(
        &self,
        rt: &R,
        own: &mut Follower<'_, J, N, R>,
        up: &mut Upstream,
        bell: &Bell,
        told: &mut Told<'_, R, V>,
    ) -> Result<Gain, Stop> {
        let began = Instant::now(rt).ok();
        let before = own.front()?.readable;
        let gain = if self.has_news(rt, own, up, told)? {
            self.gain(own, up, Some(bell), told)?
        } else {
            Gain::Nothing
        };
        if gain != Gain::Other && own.front()?.readable <= before && is_short(rt, began) {
            rest(rt);
        }
        Ok(gain)
    }

    /// A connection to the other node; where there is none, why is in the words.
    fn opened<R>(&self, rt: &R, words: &mut Vec<u8>) -> Option<Upstream>
    where
        R: Net<Listener = TcpListener, Stream = TcpStream> + Clock + Alloc<A = Global>,
    {
        let (alloc, mut none) = (rt.alloc(), io::sink());
        let limits = limits_of(self.stay);
        let mut output = Output::of_form(alloc, OutputForm::Bytes, &mut none, words);
        match Upstream::open(rt, alloc, self.place, limits, &mut output) {
            Ok(up) => Some(up),
            Err(stop) => {
                let _status = output.stop(stop);
                None
            }
        }
    }

    /// Compares some of what both have, and then turns at the other node until that fails. It says whether a turn went well.
    fn turns_over<R: Threads + Wait + Clock + Sync, V: Write>(
        &self,
        rt: &R,
        bell: &Bell,
        own: &mut Follower<'_, J, N, R>,
        up: &mut Upstream,
        told: &mut Told<'_, R, V>,
    ) -> (bool, Stop) {
        let mut went_well = false;
        let mut gain = match self.first_gain(Some(bell), own, up, told) {
            Ok(gain) => gain,
            Err(stop) => return (went_well, stop),
        };
        for _ in rt.forever() {
            if self.giving.has_ended() {
                return (went_well, Stop::Quit);
            }
            match self.next_turn(rt, bell, own, up, gain, told) {
                Ok(next) => gain = next,
                Err(stop) => return (went_well, stop),
            }
            went_well = true;
        }
        (went_well, Stop::NetFault)
    }

    /// Takes what the other node has for the first time over a connection, where some of both is compared: once it is seen that it answers,
    /// and reads messages of version 2.
    fn first_gain<R: Threads + Wait + Clock + Sync, V: Write>(
        &self,
        bell: Option<&Bell>,
        own: &mut Follower<'_, J, N, R>,
        up: &mut Upstream,
        told: &mut Told<'_, R, V>,
    ) -> Result<Gain, Stop> {
        up.front_after(Time::zero(), 0)?;
        up.wait_at_most(REPLY_SECONDS)?;
        let gain = self.gain(own, up, bell, told)?;
        told.answers();
        Ok(gain)
    }

    /// A turn after one with this outcome: a node of another log is left alone before.
    fn next_turn<R: Threads + Wait + Clock + Sync, V: Write>(
        &self,
        rt: &R,
        bell: &Bell,
        own: &mut Follower<'_, J, N, R>,
        up: &mut Upstream,
        gain: Gain,
        told: &mut Told<'_, R, V>,
    ) -> Result<Gain, Stop> {
        if gain == Gain::Other {
            self.giving.forget(self.number);
            leave_alone(rt, self.giving, up)?;
        }
        self.turn(rt, own, up, bell, told)
    }

    /// Follows the other node over a connection until that fails; why is in the words then. It says whether a turn went well.
    fn turns<R, V: Write>(
        &self,
        rt: &R,
        own: &mut Follower<'_, J, N, R>,
        bell: &Bell,
        told: &mut Told<'_, R, V>,
        words: &mut Vec<u8>,
    ) -> bool
    where
        R: Net<Listener = TcpListener, Stream = TcpStream> + Clock + Alloc<A = Global>,
        R: Threads + Wait + Sync,
    {
        self.giving.forget(self.number);
        let Some(mut up) = self.opened(rt, words) else {
            return false;
        };
        let (went_well, stop) = self.turns_over(rt, bell, own, &mut up, told);
        put_stop(rt.alloc(), stop, words);
        went_well
    }

    /// Follows the other node without an end: where it is away it is tried again.
    fn follow<R, V: Write>(
        &self,
        rt: &R,
        own: &mut Follower<'_, J, N, R>,
        bell: &Bell,
        told: &mut Told<'_, R, V>,
    )
    where
        R: Net<Listener = TcpListener, Stream = TcpStream> + Clock + Alloc<A = Global>,
        R: Threads + Wait + Sync,
    {
        let mut pause = PAUSE;
        for _ in rt.forever() {
            if self.giving.has_ended() {
                return;
            }
            let mut words = Vec::new(rt.alloc());
            if self.turns(rt, own, bell, told, &mut words) {
                pause = PAUSE;
            }
            told.away(&words);
            thread::sleep(rt, Duration::from_millis(pause));
            pause = pause.saturating_mul(2).min(MOST_PAUSE);
        }
    }

    /// Takes once what the other node has, before this one listens. It says whether something came.
    fn begin<R, V: Write>(
        &self,
        rt: &R,
        own: &mut Follower<'_, J, N, R>,
        told: &mut Told<'_, R, V>,
    ) -> bool
    where
        R: Net<Listener = TcpListener, Stream = TcpStream> + Clock + Alloc<A = Global>,
        R: Threads + Wait + Sync,
    {
        let mut words = Vec::new(rt.alloc());
        if let Some(mut up) = self.opened(rt, &mut words) {
            match self.first_gain(None, own, &mut up, told) {
                Ok(gain) => return gain == Gain::Came,
                Err(stop) => put_stop(rt.alloc(), stop, &mut words),
            }
        }
        told.away(&words);
        false
    }
}

/// The nodes that one follows, in their order.
fn followings_of<'a, J: NodeName, N: Wait + Drop>(
    alloc: Global,
    node: &'a Node<J, N>,
    stay: &'a Stay<'a>,
    giving: &'a Giving,
) -> Result<Vec<Following<'a, J, N>>, AllocError> {
    let mut followings = Vec::new(alloc);
    let mut number = 0u64;
    for place in &stay.start.follows {
        number = number.saturating_add(1);
        if let Some(place) = *place {
            followings.push(Following {
                node,
                stay,
                place,
                number,
                giving,
            })?;
        }
    }
    Ok(followings)
}

/// Has a node take what the first of those that it follows has that gives something, by a seat of it, which is there again after. It
/// says whether one did. Where that takes long the rest of them is tried only once it listens.
pub(crate) fn begin_following<J: NodeName, N: Wait + Drop, R, W: Write, E: Write>(
    rt: &R,
    node: &Node<J, N>,
    seat: &mut Option<ReaderSeat<J>>,
    stay: &Stay<'_>,
    giving: &mut Giving,
    output: &mut Output<'_, W, E>,
) -> Result<bool, AllocError>
where
    R: Net<Listener = TcpListener, Stream = TcpStream> + Clock + Alloc<A = Global>,
    R: Threads + Wait + Sync,
{
    let alloc = rt.alloc();
    let (heads, began) = (heads_of(rt, alloc, stay), Instant::now(rt).ok());
    let mut standings = Vec::with_capacity(alloc, MOST_SOURCES)?;
    let followings = followings_of(alloc, node, stay, giving)?;
    let Some(reader) = mem::take(seat) else {
        return Ok(false);
    };
    let mut own = Follower::new(rt, alloc, node, reader, stay.start.follow_prunes);
    let mut came = false;
    for following in &followings {
        if !came && is_early(rt, began) {
            let words = Vec::new(alloc);
            let mut told = Told::new(alloc, &heads, following.place, words, Standing::Unknown);
            came = following.begin(rt, &mut own, &mut told);
            standings.push(told.standing())?;
            note_text(told.into_log(), output);
        }
    }
    *seat = Some(own.into_seat());
    drop(followings);
    giving.begun = standings;
    Ok(came)
}

/// A node that is followed, with where its lines go.
#[derive(Drop)]
pub(crate) struct FollowingGuest<'a, J: NodeName, N: Wait + Drop> {
    following: Following<'a, J, N>,
    texts: Sender<Text>,
    backlog: &'a Backlog,
}

/// A node that follows others, with a seat of it for each of them.
#[derive(Drop)]
pub(crate) struct Followed<'a, J: NodeName, N: Wait + Drop> {
    pub(crate) node: &'a Node<J, N>,
    pub(crate) giving: &'a Giving,
    pub(crate) seats: Vec<ReaderSeat<J>>,
}

/// The threads of those nodes that one follows, with a seat of it for each.
pub(crate) fn guests_of<'a, J: NodeName, N: Wait + Drop>(
    alloc: Global,
    followed: Followed<'a, J, N>,
    stay: &'a Stay<'a>,
    texts: &Sender<Text>,
    backlog: &'a Backlog,
) -> Result<Vec<(FollowingGuest<'a, J, N>, ReaderSeat<J>)>, AllocError> {
    let Followed {
        node,
        giving,
        seats,
    } = followed;
    let mut guests = Vec::new(alloc);
    let followings = followings_of(alloc, node, stay, giving)?;
    for (following, seat) in followings.into_iter().zip(seats) {
        let guest = FollowingGuest {
            following,
            texts: texts.clone()?,
            backlog,
        };
        guests.push((guest, seat))?;
    }
    Ok(guests)
}

impl<'a, J: NodeName, N: Wait + Drop> FollowingGuest<'a, J, N> {
    /// Follows the node by a seat for as long as connections are served. The bell wakes those that wait for what becomes readable by it.
    pub(crate) fn stay<R>(self, rt: &R, seat: ReaderSeat<J>, bell: &Bell)
    where
        R: Net<Listener = TcpListener, Stream = TcpStream> + Clock + Alloc<A = Global>,
        R: Threads + Wait + Sync,
    {
        let alloc = rt.alloc();
        let following = &self.following;
        let stay = following.stay;
        let begun = following.giving.begun(following.number);
        let words = TextWriter::new(rt, alloc, &self.texts, self.backlog);
        let heads = heads_of(rt, alloc, stay);
        let mut told = Told::new(alloc, &heads, following.place, words, begun);
        let mut own = Follower::new(rt, alloc, following.node, seat, stay.start.follow_prunes);
        following.follow(rt, &mut own, bell, &mut told);
    }
}
