//! The texts of the help.

pub(crate) const AT_ABOUT: &str =
    "Absorb the item frames of standard input, and print a row at a time";

pub(crate) const AT_EXAMPLE: &str = "Example:
  hkrep at --log 7 --streams 1 1 1 5 < examples/first.bin
prints '9 41': at time 1 the row of table 1, key 5 has the tag 9 and the body 41 (hexadecimal). \
It prints 'none' where there is no such row, and 'refused 26 readable R' where the replica can \
be read up to R only.";

pub(crate) const ASK_ABOUT: &str =
    "Absorb the item frames of standard input, or without --log ask a node \
that runs, and print the answer to a query at a time";

pub(crate) const ASK_EXAMPLE: &str = "Example:
  hkrep ask --log 7 --streams 1 1 range 1 0 9 < examples/first.bin
prints '5 9 41', the key, tag and body of each row of table 1 with a key from 0 to 9 at time 1, and \
then 'rows 1'. What is refused is printed as at 'hkrep at'. The time may stand behind the query, as \
'get 1 5 --at 1'. Without --log it asks a node that runs, and reads at the resolved time where no time is given:
  hkrep ask --port 7426 get 1 5
or at a time, once that can be read:
  hkrep ask --port 7426 get 1 5 --at 1 --wait";

pub(crate) const GET_ABOUT: &str = "The row at a key: prints 'TAG BODY' or 'none'";

pub(crate) const RANGE_ABOUT: &str =
    "The rows with keys from LOW to HIGH: prints 'KEY TAG BODY' for each, and 'rows COUNT'";

pub(crate) const TAG_ABOUT: &str =
    "The rows with a tag: prints 'KEY TAG BODY' for each, and 'rows COUNT'";

pub(crate) const COUNT_ABOUT: &str = "How many rows there are: prints 'count COUNT'";

pub(crate) const FRONT_ABOUT: &str =
    "Absorb the item frames of standard input, or without --log ask a node \
that runs, and print the range of readable times";

pub(crate) const FRONT_EXAMPLE: &str = "Example:
  hkrep front --log 7 --streams 1 < examples/first.bin
prints 'front horizon 0 readable 1': times from 0 to 1 can be read. Of a node that runs:
  hkrep front --port 7426";

pub(crate) const STATUS_ABOUT: &str =
    "Absorb the item frames of standard input, or without --log ask a node \
that runs, and print how far each stream is";

pub(crate) const STATUS_EXAMPLE: &str = "Example:
  hkrep status --log 7 --streams 2 < examples/first.bin
prints
  stream 1 prefix 1 extra 0 closed 1 waiting 0 open
  stream 2 prefix 0 extra 0 closed 0 waiting 0 holds
  front horizon 0 readable 0
Of each stream: the number up to which all entries are there, how many are there above it, the time \
up to which marks close it, how many marks wait for entries, and whether it holds the resolved time \
back while another is closed further ('holds'), doesn't ('open') or is retired ('retired'). Of a node that runs, with its numbers and its tables:
  hkrep status --port 7426 --stats --tables";

pub(crate) const EXPLAIN_ABOUT: &str = "Print what the numbers of refusals mean, and what to do";

pub(crate) const EXPLAIN_EXAMPLE: &str = "Example:
  hkrep explain 26
prints the number, the name, the meaning and what to do, as 'hkrep explain NotYet' does. Without a number it \
lists all. A number or a name that no refusal has ends with status 2.";

pub(crate) const ITEMS_ABOUT: &str =
    "Print the head of each item of the frames of standard input, and how much is in it";

pub(crate) const ITEMS_EXAMPLE: &str = "Example:
  hkrep items < examples/first.bin
prints
  commit log 7 stream 1 number 1 time 1 ends 0 rows 1
  mark log 7 stream 1 n 1 m 1
A fault of the input is printed after the items before it, as 'refused NUMBER'. With --json each item is \
printed in full, as a line of JSON that 'hkrep frames' reads; docs/FORMATS.md has the lines.";

pub(crate) const REWRITE_ABOUT: &str = "Write the item frames of standard input in version 2";

pub(crate) const REWRITE_EXAMPLE: &str = "Example:
  hkrep rewrite < examples/first.bin > second.bin
writes the same items, their ends and rows in groups of one table. Where the input has a fault no frame is \
written, and standard error says why.";

pub(crate) const WORLD_ABOUT: &str =
    "Play the script of standard input: a primary, and replicas that apply its items";

pub(crate) const WORLD_EXAMPLE: &str =
    "The first line makes the world; the others are commands, one a line, in any order:
  world LOG STREAMS REPLICAS      1 to 64 streams, 1 to 16 replicas, which are counted from 1
  begin SLOT                      a transaction begins in a slot, 1 to 16, and reads at the last commit
  put SLOT TABLE KEY TAG BODY     it puts a row; the body is - or pairs of hexadecimal digits
  remove SLOT TABLE KEY           it removes a row
  commit SLOT STREAM              it commits on a stream; the primary emits an entry
  mark STREAM                     the primary emits a mark, which closes the stream so far
  retire STREAM                   it emits the last mark of a stream, which accepts no more commits
  absorb REPLICA ITEM             a replica applies an item; items are counted from 1 as they are emitted
  batch REPLICA ITEM ITEM ..      a replica applies up to 64 items at once
  prune REPLICA TIME              a replica discards the versions that no read at TIME or later needs
  merge TO FROM                   a replica merges all that another has
  delta TO FROM BASE              a replica joins what another applied since a time
  ask REPLICA TIME get TABLE KEY           the row at a key; replica 0 is the primary
  ask REPLICA TIME range TABLE LOW HIGH    the rows of a range of keys
  ask REPLICA TIME tag TABLE TAG           the rows with a tag
  ask REPLICA TIME count TABLE             how many rows there are
  front REPLICA                   the range of a replica's readable times

Example:
  hkrep world <<END
  world 7 1 1
  begin 1
  put 1 1 5 9 41
  commit 1 1
  mark 1
  absorb 1 1
  front 1
  absorb 1 2
  ask 1 1 get 1 5
  END
plays the script line by line, and prints the reply to each line: 'begun 1 at 0', 'ok', 'committed 1', \
'mark stream 1 n 1 m 1', 'taken', 'front horizon 0 readable 0', 'taken' and '9 41'. With --items FILE the \
frames of the two items are written to FILE at the end of the script, none where it stopped before. A refused command \
prints its refusal and changes nothing; a line that is no command prints 'line N: bad command' and ends \
the script. Standard error says why. examples/world has longer scripts, and a README that explains them.";

pub(crate) const PUSH_ABOUT: &str =
    "Send the requests of standard input to a node, and print each reply";

pub(crate) const PUSH_EXAMPLE: &str =
    "A request is sent once the reply to the one before was printed. 'refused' and a number ends it \
where the input or a reply is malformed (1 to 10; 1 where the replies end), a read (91) or a \
write (92) fails, or nobody listens (93). docs/PROTOCOL.md describes the messages of a connection.

Example, a node and a feeder:
  hkrep serve --log 7 --streams 1 --port 7426 --links 1 &
  hkrep push --port 7426 < examples/links/first.bin
The node prints 'listening 7426' once connections can be opened. The feeder sends two items and asks \
for a row: it prints 'done 2' and '9 41'. When the connections have ended, the node prints 'ended 0' for \
each, or the number of what ended it.";

pub(crate) const FRAMES_ABOUT: &str =
    "Write the frames of the items of standard input, one in JSON a line";

pub(crate) const FRAMES_EXAMPLE: &str = "Example:
  hkrep items --json < examples/first.bin | hkrep frames > second.bin
writes the same items in version 2. A line that is no item ends it with status 1: standard error has its \
number, the column and what was expected, and nothing is written for it.";

pub(crate) const SAVE_ABOUT: &str = "Write a full snapshot of a node, for 'hkrep load'";

pub(crate) const SAVE_EXAMPLE: &str = "Example:
  hkrep save --port 7426 > whole.bin
writes one frame, or those of its chunks, and then one with their checksum, by which 'hkrep load' sees that it is corrupt; --plain leaves that out. With --json it prints a line of the head and one of each version. With --out FILE the file is whole, or as it was, \
and what it had before is in FILE.1. Where the node has nothing and FILE has something it stays, and the status is 3, unless --force is given:
  hkrep save --port 7426 --out whole.bin";

pub(crate) const LOAD_ABOUT: &str = "Send what 'hkrep save' wrote to a node";

pub(crate) const LOAD_EXAMPLE: &str = "Example:
  hkrep load --port 7426 < whole.bin
prints 'done' and the number of the node's operation. A fragment is joined once its checksum was read and is right; one that is wrong is \
refused 6, and standard error says where. A file without one, as of --plain, is joined too, and a line says that.";

pub(crate) const PULL_ABOUT: &str = "Copy missing data from another node";

pub(crate) const PULL_EXAMPLE: &str = "Example:
  hkrep pull --port 7427 --from 7426
asks the node on 7426, which may be an address as well, for a delta since the resolved time of the one on 7427, or for a full snapshot where \
it can't cut one there, sends it to that one, and prints 'done' and the number of its operation.";

pub(crate) const PRUNE_ABOUT: &str = "Discard the versions that no read at TIME or later needs";

pub(crate) const PRUNE_EXAMPLE: &str = "Example:
  hkrep prune --port 7426 1
prints 'done' and the number of the node's operation.";

pub(crate) const FEED_ABOUT: &str =
    "Send the item frames of standard input, or of a log in a file, to a node";

pub(crate) const FEED_EXAMPLE: &str = "Example:
  hkrep feed --port 7426 < examples/first.bin
prints 'done' and the number of the node's last operation. Standard error says how many items a second went. \
The first batch that is refused ends it; those before it are applied. With --messages 2, to a node that answers these, \
standard error also says how many of the items the node didn't know before: 'new 2 of 2'.
'hkrep feed --port 7426 --follow orders.log' sends what the log has, as far as orders.log.sums reaches, and then what comes, until it is ended \
or the node is gone. Nothing is sent before the disk has it.";

pub(crate) const SHELL_ABOUT: &str = "Answer the lines of standard input from a node that runs";

pub(crate) const SHELL_EXAMPLE: &str = "Example:
  echo 'range 1 0 9' | hkrep shell --port 7426
prints the rows of table 1 with a key from 0 to 9 at the resolved time as a table, and how many they are. The lines:
  get TABLE KEY | range TABLE LOW HIGH | tag TABLE TAG | count TABLE      at the resolved time
  get TABLE KEY --at TIME | at TIME get TABLE KEY                         the same at a time
  front | status | help | quit
In a table a body that is text is shown as that, another one as \\x and hexadecimal digits. On a terminal each line \
has a prompt, and 'rlwrap hkrep shell' edits lines. A refusal is printed, and the next line goes on.";

pub(crate) const ABOUT: &str = "Read replicas of an in-memory multiversion primary";

pub(crate) const LONG_ABOUT: &str = "Read replicas of an in-memory multiversion primary.

A primary writes a log in 1 to 64 streams of item frames: entries, which say what a transaction \
put in and ended, and marks, which say that a stream is complete up to a time. A replica applies them in \
any order, late or twice, and answers at a past time with exactly the primary's rows of \
that time, or with a numbered refusal.

Answers and refusals go to standard output, and why something was refused, in words, to standard \
error; 'hkrep explain' lists all refusals. The status is 0; 1 where a line 'refused', 'line N: bad \
command' or 'ended N' with N above 0 was printed, where 'frames', 'rewrite' or 'save' was stopped, \
which only standard error shows, or where a write failed; 2 for a bad command line.";

pub(crate) const SERVE_ABOUT: &str =
    "Start a node, and serve so many connections to it on a port of 127.0.0.1";

pub(crate) const SERVE_LONG_ABOUT: &str =
    "Start a node, and serve connections to it on a port of 127.0.0.1.

It serves --links connections, side by side, and ends when all have ended. It prints \
'refused 93' where the port can't be listened to. docs/PROTOCOL.md describes the messages of a connection.

With --guard a change that conflicts with the node is refused 23 and changes nothing, where else the node \
fails and has to be rebuilt; docs/SECURITY.md has what it doesn't refuse.

With --messages 2 it answers messages of version 2 too: full snapshots in chunks, pages of rows, the latest answer, \
and pins, which end with their connection. What the connections keep for these is at most --link-bytes, \
all together; what would be more is refused 46.

NOTHING IS ENCRYPTED OR AUTHENTICATED. A node that serves without an end is started by 'hkrep node'.";

pub(crate) const SERVE_EXAMPLE: &str = "Example, a node and a feeder:
  hkrep serve --log 7 --streams 1 --port 7426 --links 1 &
  hkrep push --port 7426 < examples/links/first.bin
The node prints 'listening 7426' once connections can be opened. The feeder sends two items and asks \
for a row: it prints 'done 2' and '9 41'. When the connections have ended, the node prints 'ended 0' for \
each, or the number of what ended it.";

pub(crate) const NODE_ABOUT: &str =
    "Start a node that runs until it is ended, on port 7420 of 127.0.0.1, with what another node or a file has";

pub(crate) const NODE_LONG_ABOUT: &str =
    "Start a node that runs until it is ended, on port 7420 of 127.0.0.1, with what another node or a file has.

It is guarded: a change that conflicts is refused 23 and changes nothing. It answers messages of both versions. Before it listens it takes \
what a file of 'hkrep save --out' has, of several the first that is whole, and then what the first node that answers has above that. Each is \
taken whole or not at all, and standard error says what came of it. Where a file is there and none is whole, it ends with status 1, or goes \
on without one where --load-or-empty is given; where nothing can be had it begins empty, or ends with status 1 where --need-data is given.

Standard output has one line, of what it opened. Standard error has a line for each connection that opens or ends, and for each change \
that is refused: the time in UTC, info, warn or error, the peer's address, and what happened. No connection waits where nobody reads \
these lines: what finds no room is dropped, and counted. Of one kind of line and one port at most 10 are printed in a second, and then \
how many more there were. With --log-format json each line is an object (docs/FORMATS.md).

NOTHING IS ENCRYPTED OR AUTHENTICATED: whoever reaches the port may write (docs/SECURITY.md).";

pub(crate) const NODE_EXAMPLE: &str = "Example, a node, and a file with what it has:
  hkrep node --log 7 --streams 1 --port 7426 &
  hkrep feed --port 7426 < examples/first.bin
  hkrep save --port 7426 --out whole.bin
A node that begins with what that had, or what it had before, and what another node has above it:
  hkrep node --log 7 --streams 1 --port 7426 --load whole.bin --load whole.bin.1 --from 7427 &";
