//! The help texts of the program and its commands, with the words that one command alone has.
use crate::words::{HOME, JSON, LOG, SCRIPT, WAIT, Word, flag, option, required};

/// A command's help.
pub(crate) struct Usage {
    pub(crate) name: &'static str,
    /// One line on what it does.
    pub(crate) about: &'static str,
    /// The end of its help.
    pub(crate) after_help: &'static str,
    /// The words after it.
    pub(crate) words: &'static [Word],
}

pub(crate) const PROGRAM: Usage = Usage {
    name: "jbench",
    about: "Runs journal scripts over a disk in memory that loses power, and judges what is left; makes, prints and recovers logs",
    after_help: "\
jbench help COMMAND prints the help of a command, as --help after it does. build
[--status] is a word of the script ./jbench: it makes the proved program, or
says how far that is.

Exit status: 0 done; 1 refused: words, a file, a script, a log; 2 a verdict is
false.

Example: jbench run examples/one_write.json --stop 4 --keep 4",
    words: &[],
};

pub(crate) const RUN: Usage = Usage {
    name: "run",
    about: "Runs a script, stops the device, opens what the stop left, and judges it",
    after_help: "\
The device is formatted and opened before the first operation. After that its
writes and its calls are numbered from 1. In the image each block has the latest
unflushed write that --keep names, or else what was flushed last.

A refused operation prints its refusal, and counts as done. The script ends with
the first operation that is refused because the device failed. With --fail it
goes on: call K fails and does nothing, and from then on the journal refuses
operations with 'refused 3 Aborted'.

With --stop2 the opening of the image stops at its own write K, counted from 1.
It keeps those of its unflushed writes that --keep2 names. What it leaves is
opened once more, and judged by what the image had. An opening that makes fewer
writes does not stop.

With --image-log and --image-home the image is written to two files, byte for
byte, before it is opened. Other programs can judge it there: jbench recover of
them ends as the line 'open' says. Both files are made before the script runs.
They lose what they held once the script is accepted. A home area of more than
1048576 blocks has no image.

With --json it prints one object instead of lines, once all is done.
\"operations\" is a list of objects with \"operation\" and \"answer\", the two sides
of a line. \"stopped\" is the write, or null. \"dump\" and \"openings\" are lists of
lines. \"home\" is a list of objects with \"block\" and \"begins\". \"verdict\" comes
last.

A script is a JSON object with these keys; only \"ops\" is required:
  \"block\"   bytes of a block: 1024, 2048 or 4096 [default: 1024]
  \"length\"  blocks of the log, 17 to 1048576 [default: 33]
  \"home\"    blocks of the home area, 1 to 1048576, in a wide log
            to 1099511627776 [default: 64]
  \"uuid\"    the journal's UUID, 32 hex digits [default: aa 16 times]
  \"wide\"    whether block numbers have 64 bits, true or false [default: false]
  \"ops\"     a list of at most 100,000 operations; H names a handle, 0 to 9999:
  [\"start\", H, n]       a handle with n credits
  [\"write\", H, b, hex]  home block b becomes these bytes, at most a block, and
                        zeros after them
  [\"revoke\", H, b]      no earlier copy of home block b is to come back
  [\"read\", H, b]        the first bytes of home block b, as the handle's
                        transaction sees it
  [\"extend\", H, n]      the handle gets n more credits
  [\"restart\", H, n]     the handle ends; another with n credits takes its name
  [\"stop\", H]           the handle ends
  [\"request\", H]        asks for the commit of its transaction
  [\"lock\"]              the running transaction takes no more handles
  [\"turn\"]              takes one commit turn
  [\"commit\"]            takes commit turns until one has nothing to do, or waits
                        for an open handle
  [\"ckturn\"]            takes one checkpoint turn
  [\"check\"]             takes checkpoint turns until one has nothing to do
  [\"status\", H]         whether its transaction is committed
  [\"wait\", H]           its receipt, if its transaction is committed
  [\"direct\", b, hex]    writes home block b past the log, if no copy in the log
                        could overwrite it later
  [\"sync\"]              makes direct writes durable

Exit status: 0 done, verdict ok; 1 refused: the words, the file, the script, or
the log; 2 verdict false.

Example: jbench run examples/one_write.json --stop 4 --keep 4",
    words: &[
        SCRIPT,
        option! { "stop", "K", "Stop the device at write K, at least 1 [default: at the end]" },
        option! { "fail", "K", "Let call K of the device fail, at least 1: reads, writes and flushes count; not with --stop" },
        option! { "keep", "LIST", "Unflushed writes that the image keeps: numbers with commas [default: none]" },
        option! { "stop2", "K", "Stop the opening of the image at its write K, at least 1 [default: it does not stop]" },
        option! { "keep2", "LIST", "Unflushed writes that the stop of --stop2 keeps: numbers with commas [default: none]" },
        option! { "image-log", "PATH", "The file that gets the log of the image; with --image-home [default: none]" },
        option! { "image-home", "PATH", "The file that gets the home area of the image; with --image-log [default: none]" },
        JSON,
    ],
};

pub(crate) const SWEEP: Usage = Usage {
    name: "sweep",
    about: "Runs a script with a stop at each of its writes, opens what each stop may have left, and judges it",
    after_help: "\
jbench run --help has the form of a script. The script is stopped at each of its
writes. Each choice of the last four writes up to the stop gives an image, which
is opened and judged. The opening of each image is stopped at each of its own
writes in the same way. What it leaves is opened once more, and judged by what
the image had.

It prints 'sweep writes=W images=I again=A false=F': W writes of the run, I
images, A openings after a stopped one. F counts the openings of both kinds that
are refused or have a false verdict. Each of these is named on standard error,
with the options of run that show it.

With --fail the script also runs once for each of its C device calls: reads,
writes and flushes after the first opening. That call fails and does nothing.
The script goes on, and the device stops at the end. Each choice of that run's
last four writes is kept, opened and judged. A second line is 'fail calls=C
false=F'.

With --json it prints one object instead of lines, once all is done. \"writes\",
\"images\", \"again\" and \"false\" are numbers. With --fail \"fail\" is an object of
the numbers \"calls\" and \"false\". \"verdict\" is \"ok\" or \"false\".

Exit status: 0 done, all verdicts ok; 1 refused: the words, the file, or the
script; 2 an F is not 0.

Example: jbench sweep examples/two_blocks.json --fail",
    words: &[
        SCRIPT,
        flag! { "fail", "Let each device call of the script fail in turn, too" },
        JSON,
    ],
};

pub(crate) const CHECK: Usage = Usage {
    name: "check",
    about: "Says whether a script is good, or which key or operation is bad, and why",
    after_help: "\
jbench run --help has the form of a script. Nothing is run. For a good script it
prints 'good operations=N'. For a bad one standard error has 'jbench: bad
script: ' and what is wrong: with a key, or with an operation, which is named by
its number from 1 on and its text.

A script with the key \"clients\" has the form in jbench threads --help. If it is
good, it prints 'good clients=N handles=N receipts=N': how many clients, starts
and waits it has. If it is bad, the line names a key, or a client and the number
of its operation, each from 1 on.

Exit status: 0 the script is good; 1 it is not, or the words or the file were
refused.

Example: jbench check examples/two_blocks.json",
    words: &[SCRIPT],
};

pub(crate) const THREADS: Usage = Usage {
    name: "threads",
    about: "Runs the clients of a script, each in a thread of its own over one journal, and judges what came of them",
    after_help: "\
The journal is over a disk in memory. A client that waits commits for all that
do, so handles of several clients come to one commit, and writes home after it.
Threads beside the clients do the same for handles that nobody waits for. When
all clients have ended it prints 'clients N', 'handles N' and 'receipts N': how
many clients, starts and waits the script has. Four verdicts follow, each 'ok'
or 'false':
  verdict credits   the held credits are those of the entries of the running
                    transaction
  verdict receipts  each handle that was waited for is in the record, in a
                    committed transaction
  verdict order     the transactions of a client's handles never fall
  verdict recovery  an opening after a stop has each transaction that was waited
                    for, with the blocks that it wrote
A refused client ends, and 'jbench: client I refused N Name' says so on standard
error. Nothing is judged then.

A script is a JSON object with the key \"clients\": a list of 1 to 64 lists, with
at most 100,000 operations in all. It may have the keys \"block\", \"length\",
\"home\", \"uuid\" and \"wide\" of a script of run. A client has one handle at a time.
Its operations:
  [\"start\", n]       a handle with n credits: one for each block that it touches,
                     at most what a transaction can have
  [\"write\", b, hex]  home block b becomes these bytes, at most a block, and zeros
                     after them
  [\"revoke\", b]      no earlier copy of home block b is to come back
  [\"stop\"]           the handle ends; each one that is started has to
  [\"wait\"]           after a stop: the client goes on once that handle's
                     transaction is committed

Exit status: 0 done, all verdicts ok; 1 refused: the words, the file, the
script, or a client; 2 a verdict is false.

Example: jbench threads examples/two_clients.json",
    words: &[SCRIPT],
};

pub(crate) const FORMAT: Usage = Usage {
    name: "format",
    about: "Makes two files an empty log and a home area of zeros, or makes a log beside a home area that is kept",
    after_help: "\
LOG gets M blocks of B bytes: the superblock, and zeros. HOME gets N blocks of
zeros; each is written, so they have room if the disk is full later. A missing
file is made. Both files lose what they held; standard error says what LOG held.
With --new a file that exists is refused, and stays as it is.

A log with transactions that are not home, a damaged one and a refused one are
kept, and nothing is written: recover them first, or with recover
--before-damage as many transactions as can be had. With --discard what such a
log holds is lost.

No file is changed before both are open and locked. The disk gets room for both
before anything in them is lost; if it is too small, they stay as they were. No
file is ever removed: if one was made and the other can't be opened, the new one
stays, empty, and the message says so.

Linux takes only logs of 1024 blocks and more: give --length 1024 to a log that
it is to read.

With --wide the log's block numbers have 64 bits. What it then holds is read by
this program alone: nothing is claimed of others.

With --keep-home HOME stays as it is, byte for byte, and is synced. It must
exist, with N blocks or more (default: 1).

LOG and HOME may be block devices. A device keeps its length: the log has its
first M blocks, and the home area is all of it, whatever N says. HOME is then
kept, unless --zero-home has zeros written over all of it. A device that shows a
file system, a volume or a partition table is kept, unless --force is given, or
--keep-home if it is HOME. One that is mounted, is swap, or is part of another
device is refused, and so are blocks shorter than its logical sectors.

Exit status: 0 done; 1 refused: the words, a file, the log that LOG holds, or
the device.

Example: jbench format log home --block 4096 --length 1024",
    words: &[
        LOG,
        HOME,
        option! { "block", "B", "Bytes of a block: 1024, 2048 or 4096 [default: 1024]" },
        option! { "length", "M", "Blocks of the log, 17 to 1048576 [default: 33]" },
        option! { "home", "N", "Blocks of the home area, 1 to 1048576 [default: 64]; with --keep-home the fewest that it may have [default: 1]" },
        option! { "uuid", "DIGITS", "The journal's UUID, 32 hex digits [default: aa 16 times]" },
        flag! { "wide", "Give the log block numbers of 64 bits" },
        flag! { "keep-home", "Leave HOME as it is: make an empty log beside it" },
        flag! { "new", "Refuse a file that exists: both must be new, or with --keep-home the log" },
        flag! { "discard", "Make the log even if that loses transactions: those that are not home, or what a refused log holds" },
        flag! { "zero-home", "Write zeros over all of a block device that is HOME; not with --keep-home" },
        flag! { "force", "Make the log even if a block device shows that another program keeps something there" },
    ],
};

pub(crate) const DUMP: Usage = Usage {
    name: "dump",
    about: "Prints the log in a file: its superblock, and each block of its complete transactions",
    after_help: "\
The block size is the number at 0x0c of LOG if that is 1024, 2048 or 4096, else
1024. LOG is not written. If the log is refused nothing is printed, except with
--damaged or --copy. A log that an opening refuses with 21 Ahead is printed
whole.

With --damaged a log that is refused with 22 Damage is printed up to the damaged
block: its complete transactions before that. The refusal follows on standard
error, and the exit status is 1.

With --copy PLACE it prints one copy instead of the log: the one in block PLACE
of LOG, as an opening would write it home, in hex, 32 bytes a line. It must be
in a complete transaction, which may be before a damaged block. The dump has a
line 'PLACE copy N block=B' for it.

With --json it prints one object instead of lines. \"super\", \"blocks\", and \"end\"
or \"empty\" have the words of these lines with their numbers. \"blocks\" is a list
of objects with \"place\", \"kind\", \"transaction\" and the other words of their
line.

Exit status: 0 done; 1 refused: the words, the file, or the log, or that block
holds no copy.

Examples:
  jbench dump log
  jbench dump log --copy 8",
    words: &[
        LOG,
        flag! { "damaged", "Print a log that is refused as damaged up to the damaged block" },
        option! { "copy", "PLACE", "Print the bytes of the copy in this block of LOG, in hex; not with --damaged or --json" },
        JSON,
    ],
};

pub(crate) const CAT: Usage = Usage {
    name: "cat",
    about: "Prints a block of the home area as an opening of its log would leave it",
    after_help: "\
It prints the bytes of block BLOCK of HOME, counted from 0, as they are. These
are the newest copy of the block in a complete transaction of LOG that no revoke
covers, or, without one, what HOME has. Both files are read, and nothing is
written; other programs may read them too. A log that an opening would refuse is
refused. The blocks of LOG are held in memory.

Exit status: 0 done; 1 refused: the words, a file, or the log, or HOME has no
such block.

Example: jbench cat log home 9 | xxd",
    words: &[
        LOG,
        HOME,
        required! { "block", "BLOCK", "The block of the home area, counted from 0" },
        option! { "wait", "SECONDS", "Wait at most so long for a file that another program writes, 1 to 86400 [default: not at all]" },
    ],
};

pub(crate) const SHOW: Usage = Usage {
    name: "show",
    about: "Prints each field of the superblock by its name, whatever its value is, and what the ring holds",
    after_help: "\
Below a field that fails a test of an opening it prints the refusal, and what is
wanted. Features have their names. The last lines say whether an opening takes
the superblock. If it does not, they may say what the owner of the log can do.
If it does, they tell how many blocks of the ring are used and free, and the
numbers of the oldest and newest transaction there; a line below names a damaged
block after them. The block size is the number at 0x0c of LOG if that is 1024,
2048 or 4096, else 1024. LOG is not written.

With --json it prints one object instead of lines. \"log\" has \"blocks\" and
\"blocksize\". \"superblock\" has the fields by their names, and
\"s_feature_compat_names\" and so on, lists of the known names. \"failed\" is a list
of objects with \"field\", \"refusal\" and \"wanted\". \"refusal\" is that of the
superblock alone, or null: an opening may still refuse the log for its ring.
\"advice\" is a list of lines on it. \"ring\" has the words of its line, and as
\"damaged\" the block of the line below, if there is one; it is null if the
superblock is refused. A refusal has \"number\" and \"name\".

Exit status: 0 done, whatever the superblock is; 1 refused: the words, the file,
or a log without a whole block.

Example: jbench show log",
    words: &[LOG, JSON],
};

pub(crate) const RECOVER: Usage = Usage {
    name: "recover",
    about: "Opens the log in a file: brings the copies of its complete transactions home, and leaves it clean",
    after_help: "\
The block size is the number at 0x0c of LOG if that is 1024, 2048 or 4096, else
1024. Before LOG is read, the part of it that counts is written once more as it
is, and synced. Then each block of HOME gets the newest copy that no revoke
covers. For a clean log nothing more is written. For a refused log nothing more
is written, unless memory or a file failed: then call it again.

It prints 'clean next=N', or
'recovered end=E next=N transactions=C'. N is the number of the next
transaction, E the number after the last complete one, C how many complete ones
there were. N is none if the recovery used the last number. The log is clean
then: make a new one beside the same home, by format --keep-home.

After 'refusal 2 Device', of this command or another one, see to the disk first:
the system may show what its disk lacks. Then recover, with no other program on
the files. In doubt, unmount their file system and mount it again first.

With --before-damage a log that is refused with 22 Damage or 21 Ahead is opened
in spite of that. Damage: the complete transactions before the damaged block go
home. Ahead: those of the log as it reads, as if no block were ahead. All later
ones are given up, so keep a copy of both files, and look at --dry-run first. A
second line, '  transactions A to B, stopped by refusal 22 Damage K', has the
numbers of the transactions that were taken, or '  no transactions', and block K
of LOG. A log that is not refused is opened as without the option; other
refusals stay. If it ends with '10 SequenceEnd', no number is left above those
in the log. If show says s_start 0 then, make an empty log by format
--keep-home; if not, that would lose what is in the log.

With --dry-run nothing is written. Both files are read, and other programs may
read them too. It prints what the same command without it would find: 'clean
next=N', or 'would recover end=E next=N transactions=C blocks=H', where H is how
many blocks of HOME it would write. The second line of --before-damage follows.

With --json it prints one object instead of lines. \"outcome\" is clean, recovered
or would recover. The other words of that line have their numbers, and \"next\" is
null for none. The second line, if there is one, gives \"stopped_by\", an object
with \"number\", \"name\" and \"place\". It gives \"first\" and \"last\", the numbers A
and B, unless it says 'no transactions'. With --dry-run \"advice\" is a list of
lines on that.

Exit status: 0 done; 1 refused: the words, a file, or the log.

Examples:
  jbench recover log home
  jbench recover log home --before-damage --dry-run",
    words: &[
        LOG,
        HOME,
        flag! { "before-damage", "If the log is refused as damaged or ahead, take the complete transactions before the damage" },
        flag! { "dry-run", "Write nothing, and tell what would be done" },
        WAIT,
        JSON,
    ],
};

pub(crate) const UPGRADE: Usage = Usage {
    name: "upgrade",
    about: "Gives the empty log in a file block numbers of 64 bits: format --wide makes such a log from the start",
    after_help: "\
Four bytes of LOG's superblock change, and nothing else; the home area is not
needed. It prints 'upgraded sequence=S', the number in the superblock: the next
transaction has the one after it, as before. A log that is not empty is refused
with 24 NotEmpty: recover it first. One that has such numbers is refused with 23
AlreadyWide. If power fails meanwhile, the log is as before or upgraded. What an
upgraded log then holds is read by this program alone: nothing is claimed of
others.

Before the superblock is read it is written once more as it is, and synced. If
the log is refused, nothing else is written. After 'refusal 2 Device' see to the
disk first, and then call it again.

Exit status: 0 done; 1 refused: the words, the file, or the log.

Example: jbench upgrade log",
    words: &[LOG],
};

pub(crate) const APPLY: Usage = Usage {
    name: "apply",
    about: "Opens the log in a file, and does the operations of a script over it and its home area",
    after_help: "\
The log is opened as by recover, and that line is printed, always with the
number that this opening uses. Then the operations are done, with the lines of
run. Then the journal is closed: the log is clean, HOME has all that was
committed, and 'closed next=N' has the number of the next transaction. With
--stay it is not closed: what was committed stays in the log for the next
opening. Handles that are open at the end are stopped.

jbench run --help has the form of the script. If it has keys on the device,
these must agree with the files. What one handle writes is there whole or not at
all, whenever power fails. What a 'wait' or 'status' line shows committed is
there.

The first refused operation ends the work after its line, and so does a refused
close. The journal is not closed then: what was committed stays in the log, and
nothing of the running transaction is there. With --keep-going only an operation
that is refused because a file failed ends the work; any other is printed with
its refusal, and the work goes on.

A commit for which the log has no room is refused, unless --make-room is given.
Then what is committed goes home first, as by 'check', and the operation is done
after that. Its line says what came of it; the round has none.

With --json it prints an object on a line instead of each line, at once. The
first has \"outcome\", and so has the last if the journal is closed: clean,
recovered or closed, with the other words of the line and their numbers; \"next\"
is null for none. That of an operation has \"operation\", its name, and the
numbers after it as \"handle\", \"credits\" and \"block\". It has either \"answer\",
which is a transaction's number, a word, or for read the block's first 8 bytes
in hex; or \"refusal\", an object with \"number\" and \"name\". A turn that sealed,
committed or released a transaction has that as \"transaction\", too.

Exit status: 0 done; 1 refused: the words, a file, the script, the log, or the
end of the work.

Example: blocks 9 and 10 of the home area change together:
  jbench format log home
  jbench apply log home examples/two_blocks.json",
    words: &[
        LOG,
        HOME,
        SCRIPT,
        flag! { "stay", "Do not close the journal: leave what was committed in the log" },
        flag! { "keep-going", "Go on after an operation that is refused, unless a file failed" },
        flag! { "make-room", "If the log has no room for a commit, bring home what is committed, and then do it" },
        WAIT,
        flag! { "json", "Print a JSON object for each line" },
    ],
};

pub(crate) const BENCH: Usage = Usage {
    name: "bench",
    about: "Opens the log in a file, overwrites blocks all over its home area in transactions of one handle, and tells how many a second were durable",
    after_help: "\
The log is opened as by recover. Then transactions are committed one after the
other, each by one handle that writes K blocks of HOME. HOME has K parts of the
same length, and each gets a block, at a place that the generator xoshiro256++
draws from the seed 1. What these blocks held is lost. Once half of the ring is
taken, or 128 transactions are in it, a part of a checkpoint round follows each
commit. If the ring still has no room, whole rounds come first. The journal is
closed at the end.

With --threads N clients do so at once over one journal, with the seeds 1 to N,
each in a thread of its own. A client that waits commits the transaction that
all have joined by then, unless another one does; a part of a round comes before
it. --transactions is for all of them together. One more line tells how many
commits there were, and how many handles each had.

It prints how many transactions and blocks were durable, in which time from the
opened log to the last commit, and how many a second. Then it prints the
nanoseconds that a commit took, from its request until its client went on, with
the rounds made meanwhile: the median, what 99 of 100 did not exceed, and the
most. Then it prints how many reads and writes of one block, and how many
flushes, each area got, with those of the opening and of the close. On a
terminal it says on standard error each second how many transactions are durable
so far, and how many a second that is. If it is interrupted these figures are
all.

With --csv it prints two lines with commas instead, the names of the columns and
their values. The columns also have the times that 1, 5, 10, 25, 50, 75, 90, 95
and 99 of 100 commits did not exceed.

Exit status: 0 done; 1 refused: the words, a file, the log, or the device.

Example: jbench bench log home --seconds 10 --copies 4",
    words: &[
        LOG,
        HOME,
        option! { "seconds", "N", "Begin no transaction after so many seconds, 1 to 86400 [default: 10, or with --transactions no end]" },
        option! { "transactions", "N", "Commit at most so many transactions, at least 1 [default: no end]" },
        option! { "copies", "K", "Blocks of a transaction, at least 1 [default: 4]" },
        option! { "threads", "N", "Let N clients commit at once over one journal, 1 to 64, each in a thread [default: one, over the journal of one thread]" },
        flag! { "csv", "Print a line of column names and one of values, with commas" },
        WAIT,
    ],
};

pub(crate) const SERVE: Usage = Usage {
    name: "serve",
    about: "Serves the home area of a log as a block device over NBD, on standard input and output, to one client",
    after_help: "\
The log is opened as by recover. The client speaks on standard input and output,
which may be a socket. libnbd starts the server by itself; systemd and inetd
start one for each connection. The server ends with its client. Then all that
was written is committed, and the log is left clean, unless the device or memory
failed. Messages go to standard error: the first failure of a file when it
happens, and when few transaction numbers are left.

A write of no more blocks than a transaction can have is there whole after a
crash, or not at all. That is about a quarter of the log; the export's
description says how many blocks. A longer one is several such writes, in order.
What was answered before a flush was sent is durable once the flush is answered.
So is an answered write with FUA. What no flush asks for is committed within the
commit interval. docs/BLOCK-DEVICE.md says how to connect.

Exit status: 0 the client ended between two messages; 1 refused: the words, a
file, the log, or the device; or the client ended within a message, could not be
read or written, or sent no NBD.

Example:
  nbdsh -c 'h.connect_command([\"jbench\", \"serve\", \"log\", \"home\"])' -c 'print(h.get_size())'",
    words: &[
        LOG,
        HOME,
        flag! { "read-only", "Refuse each request that changes bytes" },
        option! { "export", "NAME", "The name of the export, which is the default one too [default: the empty name]" },
        option! { "commit-interval", "SECONDS", "Commit what was answered so long after at the latest, 0 to 86400; 0: once much waits [default: 5]" },
        WAIT,
    ],
};

pub(crate) const COMPLETIONS: Usage = Usage {
    name: "completions",
    about: "Prints what a shell needs to complete the words of jbench",
    after_help: "\
bash and fish take it as it is, zsh after compinit. The shell must find jbench
in PATH.

Exit status: 0 done; 1 refused: the words.

Examples:
  source <(jbench completions bash)
  source <(jbench completions zsh)
  jbench completions fish | source",
    words: &[required! { "shell", "SHELL", "bash, zsh or fish" }],
};

pub(crate) const MAN: Usage = Usage {
    name: "man",
    about: "Prints the page of jbench for man, which has the help of each command",
    after_help: "\
Exit status: 0 done; 1 refused: the words.

Example: jbench man > jbench.1 && man ./jbench.1",
    words: &[],
};

/// The commands, in the help's order.
pub(crate) fn commands() -> [&'static Usage; 15] {
    [
        &RUN,
        &SWEEP,
        &CHECK,
        &THREADS,
        &FORMAT,
        &DUMP,
        &SHOW,
        &CAT,
        &RECOVER,
        &UPGRADE,
        &APPLY,
        &BENCH,
        &SERVE,
        &COMPLETIONS,
        &MAN,
    ]
}

/// The command of this name, if there is one.
pub(crate) fn usage_named(name: &str) -> Option<&'static Usage> {
    for usage in &commands() {
        if usage.name == name {
            return Some(usage);
        }
    }
    None
}
