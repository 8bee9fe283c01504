//! The calls that the arguments of the commands make.

use crate::forms::{CommandForm, QueryForm, query_named};
use crate::node;
use crate::places::{is_alone, is_decimal, place_of, source_of};
use crate::serve::serve_call;
use clap::ArgMatches;
use hk_cli_calls::{Alone, Bodies, Call, Kept, Limits, NodeCall, NodePlace, Order, OutputForm};
use hk_cli_reasons::number_named;
use hk_model::Query;
use hk_types::{Config, Key, Table, Tag, Time};

/// How many items a batch has by default.
const BATCH: u64 = 4_096;

/// For how many seconds a command tries to connect by default.
const CONNECT_SECONDS: u64 = 3;

/// For how many seconds a command that only asks waits for a reply by default; the others wait without a limit.
const REPLY_SECONDS: u64 = 30;

/// The number of this name, where it is given. (This and the next are all that ask for numbers of 64 and 16 bits, since the
/// contract of the call makes what follows harder to prove.)
pub(crate) fn u64_of(matches: &ArgMatches<'_>, name: &str) -> Option<u64> {
    matches.get_one::<u64>(name)
}

pub(crate) fn u16_of(matches: &ArgMatches<'_>, name: &str) -> Option<u16> {
    matches.get_one::<u16>(name)
}

/// Whether the option of this name is given.
pub(crate) fn has_flag(matches: &ArgMatches<'_>, name: &str) -> bool {
    matches.get_flag(name)
}

fn table_of(matches: &ArgMatches<'_>) -> Option<Table> {
    u16_of(matches, "table").map(Table::new)
}

fn key_of(matches: &ArgMatches<'_>, name: &str) -> Option<Key> {
    u64_of(matches, name).map(Key::new)
}

fn time_of(matches: &ArgMatches<'_>) -> Option<Time> {
    Time::new(u64_of(matches, "time")?).ok()
}

fn tag_of(matches: &ArgMatches<'_>) -> Option<Tag> {
    matches.get_one::<u32>("tag").map(Tag::new)
}

pub(crate) fn port_of(matches: &ArgMatches<'_>) -> Option<u16> {
    u16_of(matches, "port")
}

/// The log that the arguments name, where they are in their ranges.
pub(crate) fn config_of(matches: &ArgMatches<'_>) -> Option<Config> {
    let log = u64_of(matches, "log")?;
    let streams = u16_of(matches, "streams")?;
    Config::new(log, streams).ok()
}

/// The form of lines.
fn form_of(matches: &ArgMatches<'_>) -> OutputForm {
    if has_flag(matches, "json") {
        OutputForm::Json
    } else {
        OutputForm::Lines
    }
}

/// The form of a full snapshot.
fn whole_form_of(matches: &ArgMatches<'_>) -> OutputForm {
    if has_flag(matches, "json") {
        OutputForm::Json
    } else {
        OutputForm::Bytes
    }
}

/// How long a command waits, which by default waits for so many seconds for a reply.
fn limits_of(matches: &ArgMatches<'_>, reply: u64) -> Limits {
    let connect_seconds = u64_of(matches, "connect-seconds");
    let reply_seconds = u64_of(matches, "reply-seconds");
    Limits {
        connect_seconds: connect_seconds.unwrap_or(CONNECT_SECONDS),
        reply_seconds: reply_seconds.unwrap_or(reply),
        read_rate: 0,
    }
}

/// The call of an order to the node at a place.
fn node_of<'a>(
    matches: &ArgMatches<'a>,
    place: NodePlace<'a>,
    reply: u64,
    order: Order,
) -> Call<'a> {
    let limits = limits_of(matches, reply);
    Call::Node(NodeCall {
        place,
        source: source_of(matches),
        limits,
        order,
    })
}

fn range_of(table: Table, words: &ArgMatches<'_>) -> Option<Query> {
    let low = key_of(words, "low")?;
    let high = key_of(words, "high")?;
    Some(Query::Range { table, low, high })
}

/// The query that the words behind the time make.
fn query_of(name: &str, words: &ArgMatches<'_>) -> Option<Query> {
    let table = table_of(words)?;
    match query_named(name)? {
        QueryForm::Get => key_of(words, "key").map(|key| Query::Get { table, key }),
        QueryForm::Range => range_of(table, words),
        QueryForm::ByTag => tag_of(words).map(|tag| Query::ByTag { table, tag }),
        QueryForm::Count => Some(Query::Count { table }),
    }
}

/// The call of `at`: in JSON it is the question for one row.
fn at_call<'a>(matches: &ArgMatches<'a>) -> Option<Call<'a>> {
    let config = config_of(matches)?;
    let time = time_of(matches)?;
    let table = table_of(matches)?;
    let key = key_of(matches, "key")?;
    match form_of(matches) {
        OutputForm::Lines => Some(Call::Alone(Alone::At {
            config,
            time,
            table,
            key,
        })),
        form => Some(Call::Alone(Alone::Ask {
            config,
            time,
            query: Query::Get { table, key },
            form,
        })),
    }
}

/// The time that a query is asked at, where one is given: before the query, or behind it.
pub(crate) fn asked_time(matches: &ArgMatches<'_>, words: &ArgMatches<'_>) -> Option<Time> {
    let first = u64_of(matches, "time").or(u64_of(matches, "at"));
    Time::new(first.or(u64_of(words, "at"))?).ok()
}

/// Whether a question waits until its time can be read: the flag stands before the query, or behind it.
pub(crate) fn waits(matches: &ArgMatches<'_>, words: &ArgMatches<'_>) -> bool {
    has_flag(matches, "wait") || has_flag(words, "wait")
}

/// The call of an order that only asks, of what is done alone where a log is named, else to a node.
fn either<'a>(
    matches: &ArgMatches<'a>,
    named: Option<&'a str>,
    order: Order,
    alone: Option<Alone>,
) -> Option<Call<'a>> {
    if is_alone(matches) {
        return Some(Call::Alone(alone?));
    }
    let place = place_of(matches, named)?;
    Some(node_of(matches, place, REPLY_SECONDS, order))
}

/// The call of a query of item frames.
fn alone_ask<'a>(matches: &ArgMatches<'a>, time: Option<Time>, query: Query) -> Option<Call<'a>> {
    Some(Call::Alone(Alone::Ask {
        config: config_of(matches)?,
        time: time?,
        query,
        form: form_of(matches),
    }))
}

/// The call of a query over a connection, or of item frames.
fn ask_call<'a>(matches: &ArgMatches<'a>, named: Option<&'a str>) -> Option<Call<'a>> {
    let (name, words) = matches.subcommand()?;
    let query = query_of(name, words)?;
    let time = asked_time(matches, words);
    if is_alone(matches) {
        return alone_ask(matches, time, query);
    }
    let form = form_of(matches);
    let place = place_of(matches, named)?;
    let order = Order::Ask {
        time,
        waits: waits(matches, words),
        query,
        form,
    };
    Some(node_of(matches, place, REPLY_SECONDS, order))
}

fn front_call<'a>(matches: &ArgMatches<'a>, named: Option<&'a str>) -> Option<Call<'a>> {
    let form = form_of(matches);
    let alone = config_of(matches).map(|config| Alone::Front { config, form });
    let wait = u64_of(matches, "wait").and_then(|time| Time::new(time).ok());
    either(matches, named, Order::Front { wait, form }, alone)
}

fn status_call<'a>(matches: &ArgMatches<'a>, named: Option<&'a str>) -> Option<Call<'a>> {
    let form = form_of(matches);
    let alone = config_of(matches).map(|config| Alone::Status { config, form });
    let order = Order::Status {
        stats: has_flag(matches, "stats"),
        tables: has_flag(matches, "tables"),
        form,
    };
    either(matches, named, order, alone)
}

fn batch_of(matches: &ArgMatches<'_>) -> u64 {
    u64_of(matches, "batch").unwrap_or(BATCH)
}

/// Whether messages of version 2 are meant too.
pub(crate) fn is_second(matches: &ArgMatches<'_>) -> bool {
    u64_of(matches, "messages").unwrap_or(1) > 1
}

fn push_order(matches: &ArgMatches<'_>) -> Order {
    Order::Push {
        with_second: is_second(matches),
    }
}

fn save_order(matches: &ArgMatches<'_>) -> Order {
    Order::Save {
        form: whole_form_of(matches),
        is_plain: has_flag(matches, "plain"),
    }
}

/// How a shell prints the bodies of rows.
fn shell_order(matches: &ArgMatches<'_>) -> Order {
    let bodies = if has_flag(matches, "hex") {
        Bodies::Digits
    } else if has_flag(matches, "text") {
        Bodies::Text
    } else {
        Bodies::Guessed
    };
    Order::Shell { bodies }
}

fn prune_order(matches: &ArgMatches<'_>) -> Option<Order> {
    Some(Order::Prune {
        horizon: time_of(matches)?,
    })
}

fn feed_order(matches: &ArgMatches<'_>, follows: bool) -> Order {
    Order::Feed {
        batch: batch_of(matches),
        with_second: is_second(matches),
        follows,
    }
}

/// What a command asks of a node alone.
fn order_of(form: CommandForm, matches: &ArgMatches<'_>) -> Option<Order> {
    match form {
        CommandForm::Push => Some(push_order(matches)),
        CommandForm::Shell => Some(shell_order(matches)),
        CommandForm::Load => Some(Order::Load),
        CommandForm::Pull => Some(Order::Pull),
        CommandForm::Prune => prune_order(matches),
        _other => None,
    }
}

fn node_call<'a>(
    form: CommandForm,
    matches: &ArgMatches<'a>,
    named: Option<&'a str>,
) -> Option<Call<'a>> {
    let order = order_of(form, matches)?;
    let place = place_of(matches, named)?;
    Some(node_of(matches, place, 0, order))
}

/// The call of `save`: to standard output, or into a file.
fn save_call<'a>(matches: &ArgMatches<'a>, named: Option<&'a str>) -> Option<Call<'a>> {
    let call = NodeCall {
        place: place_of(matches, named)?,
        source: None,
        limits: limits_of(matches, 0),
        order: save_order(matches),
    };
    match matches.get_str("out") {
        Some(name) => Some(Call::Into(
            call,
            Kept {
                name,
                is_forced: has_flag(matches, "force"),
            },
        )),
        None => Some(Call::Node(call)),
    }
}

/// The call of `feed`: of standard input, or of a log in a file.
fn feed_call<'a>(matches: &ArgMatches<'a>, named: Option<&'a str>) -> Option<Call<'a>> {
    let name = matches.get_str("follow");
    let call = NodeCall {
        place: place_of(matches, named)?,
        source: None,
        limits: limits_of(matches, 0),
        order: feed_order(matches, name.is_some()),
    };
    match name {
        Some(name) => Some(Call::Follow(call, name)),
        None => Some(Call::Node(call)),
    }
}

fn items_call<'a>(matches: &ArgMatches<'a>) -> Option<Call<'a>> {
    let form = form_of(matches);
    Some(Call::Alone(Alone::Items { form }))
}

/// The number that a word names, by its digits or as the name of a refusal.
pub(crate) fn refusal_named(word: &str) -> Option<u64> {
    if is_decimal(word) {
        return word.parse::<u64>().ok();
    }
    number_named(word).map(u64::from)
}

fn explain_call<'a>(matches: &ArgMatches<'a>) -> Option<Call<'a>> {
    let number = match matches.get_str("refusal") {
        Some(word) => Some(refusal_named(word)?),
        None => None,
    };
    Some(Call::Alone(Alone::Explain { number }))
}

fn world_call<'a>(matches: &ArgMatches<'a>) -> Option<Call<'a>> {
    Some(Call::World {
        items: matches.get_str("items"),
    })
}

/// The call that the arguments of a command make, where each of them is in its range; where they name no node, that of the
/// environment's word is meant.
pub(crate) fn call_of<'a>(
    form: CommandForm,
    matches: &ArgMatches<'a>,
    named: Option<&'a str>,
) -> Option<Call<'a>> {
    match form {
        CommandForm::At => at_call(matches),
        CommandForm::Ask => ask_call(matches, named),
        CommandForm::Front => front_call(matches, named),
        CommandForm::Status => status_call(matches, named),
        CommandForm::Items => items_call(matches),
        CommandForm::Frames => Some(Call::Alone(Alone::Frames)),
        CommandForm::Rewrite => Some(Call::Alone(Alone::Rewrite)),
        CommandForm::World => world_call(matches),
        CommandForm::Save => save_call(matches, named),
        CommandForm::Feed => feed_call(matches, named),
        CommandForm::Explain => explain_call(matches),
        CommandForm::Serve => serve_call(matches),
        CommandForm::Node => node::node_call(matches),
        node => node_call(node, matches, named),
    }
}
