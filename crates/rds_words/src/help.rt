//! What `--help` says of the program and of each command, and what the topics of `help` are.

/// Which texts a command has. A table that has the texts themselves takes the prover too long.
#[derive(Clone, Copy)]
pub enum Page {
    Init,
    Grow,
    Set,
    Add,
    Del,
    Clear,
    Inc,
    Dec,
    Edit,
    Get,
    Show,
    Dump,
    Compact,
    Pair,
    Sync,
    Serve,
    Ask,
    Answer,
    Take,
    Merge,
    Run,
    Status,
    Check,
    Conflicts,
    Diff,
    Watch,
    Join,
    Sim,
    Files,
    Faults,
}

impl Page {
    /// Whether it is a topic: its text is all that is printed.
    pub fn is_topic(self) -> bool {
        matches!(self, Page::Files | Page::Faults)
    }

    /// What the command does, in a few words.
    pub fn about(self) -> &'static str {
        match self {
            Page::Init => INIT_ABOUT,
            Page::Grow => GROW_ABOUT,
            Page::Set => SET_ABOUT,
            Page::Add => ADD_ABOUT,
            Page::Del => DEL_ABOUT,
            Page::Clear => CLEAR_ABOUT,
            Page::Inc => INC_ABOUT,
            Page::Dec => DEC_ABOUT,
            Page::Edit => EDIT_ABOUT,
            Page::Get => GET_ABOUT,
            Page::Show => SHOW_ABOUT,
            Page::Dump => DUMP_ABOUT,
            Page::Compact => COMPACT_ABOUT,
            Page::Pair => PAIR_ABOUT,
            Page::Sync => SYNC_ABOUT,
            Page::Serve => SERVE_ABOUT,
            Page::Ask => ASK_ABOUT,
            Page::Answer => ANSWER_ABOUT,
            Page::Take => TAKE_ABOUT,
            Page::Merge => MERGE_ABOUT,
            Page::Run => RUN_ABOUT,
            Page::Status => STATUS_ABOUT,
            Page::Check => CHECK_ABOUT,
            Page::Conflicts => CONFLICTS_ABOUT,
            Page::Diff => DIFF_ABOUT,
            Page::Watch => WATCH_ABOUT,
            Page::Join => JOIN_ABOUT,
            Page::Sim => SIM_ABOUT,
            Page::Files => FILES_ABOUT,
            Page::Faults => FAULTS_ABOUT,
        }
    }

    /// How the command is called, which stands first. A topic has none.
    pub fn example(self) -> &'static str {
        match self {
            Page::Init => INIT_EXAMPLE,
            Page::Grow => GROW_EXAMPLE,
            Page::Set => SET_EXAMPLE,
            Page::Add => ADD_EXAMPLE,
            Page::Del => DEL_EXAMPLE,
            Page::Clear => CLEAR_EXAMPLE,
            Page::Inc => INC_EXAMPLE,
            Page::Dec => DEC_EXAMPLE,
            Page::Edit => EDIT_EXAMPLE,
            Page::Get => GET_EXAMPLE,
            Page::Show => SHOW_EXAMPLE,
            Page::Dump => DUMP_EXAMPLE,
            Page::Compact => COMPACT_EXAMPLE,
            Page::Pair => PAIR_EXAMPLE,
            Page::Sync => SYNC_EXAMPLE,
            Page::Serve => SERVE_EXAMPLE,
            Page::Ask => ASK_EXAMPLE,
            Page::Answer => ANSWER_EXAMPLE,
            Page::Take => TAKE_EXAMPLE,
            Page::Merge => MERGE_EXAMPLE,
            Page::Run => RUN_EXAMPLE,
            Page::Status => STATUS_EXAMPLE,
            Page::Check => CHECK_EXAMPLE,
            Page::Conflicts => CONFLICTS_EXAMPLE,
            Page::Diff => DIFF_EXAMPLE,
            Page::Watch => WATCH_EXAMPLE,
            Page::Join => JOIN_EXAMPLE,
            Page::Sim => SIM_EXAMPLE,
            Page::Files | Page::Faults => "",
        }
    }

    /// What is peculiar to the command, which stands last.
    pub fn text(self) -> &'static str {
        match self {
            Page::Init => INIT_TEXT,
            Page::Grow => GROW_TEXT,
            Page::Set => SET_TEXT,
            Page::Add => ADD_TEXT,
            Page::Del => DEL_TEXT,
            Page::Clear => CLEAR_TEXT,
            Page::Inc => INC_TEXT,
            Page::Dec => DEC_TEXT,
            Page::Edit => EDIT_TEXT,
            Page::Get => GET_TEXT,
            Page::Show => SHOW_TEXT,
            Page::Dump => DUMP_TEXT,
            Page::Compact => COMPACT_TEXT,
            Page::Pair => PAIR_TEXT,
            Page::Sync => SYNC_TEXT,
            Page::Serve => SERVE_TEXT,
            Page::Ask => ASK_TEXT,
            Page::Answer => ANSWER_TEXT,
            Page::Take => TAKE_TEXT,
            Page::Merge => MERGE_TEXT,
            Page::Run => RUN_TEXT,
            Page::Status => STATUS_TEXT,
            Page::Check => CHECK_TEXT,
            Page::Conflicts => CONFLICTS_TEXT,
            Page::Diff => DIFF_TEXT,
            Page::Watch => WATCH_TEXT,
            Page::Join => JOIN_TEXT,
            Page::Sim => SIM_TEXT,
            Page::Files => FILES_TEXT,
            Page::Faults => FAULTS_TEXT,
        }
    }
}

pub const ABOUT: &str =
    "Keeps replicas of one document, which are edited apart and joined in any order.";

pub const VERSION: &str = "0.1.0, reads formats 1 and 2, writes format 2";

pub const AFTER_HELP: &str = "\
Commands, by what they are for:
  documents  init, grow, set, add, del, clear, inc, dec, edit, get, show, dump, compact
  meeting    pair, sync, serve, ask, answer, take, merge
  serving    run
  looking    status, check, conflicts, diff, watch
  machines   join, sim
'rds_node COMMAND --help' has an example of each, and what is peculiar to it.
'rds_node help files' tells how files are read and written, and what PATH and VALUE are.
'rds_node help faults' tells what the faults are, and the exit status.

Example: rds_node init notes.a notes a a b; rds_node set notes.a title --text Shopping";

const FILES_ABOUT: &str = "Tells how files are read and written";

/// What `help files` prints.
pub const FILES_TEXT: &str = "\
How files are read and written, and what the words of commands are.

Writing: a command that changes FILE does so under a lock, for which it waits ten
seconds at most. FILE is a snapshot with its checksum, and records of changes behind it:
the command adds a record, syncs FILE, and then answers. What changes nothing adds none.
Where the change has more than 65,536 bytes, or all records would have more than that and
more than the snapshot, or FILE is of format 1, it writes FILE anew, as 'compact' does:
FILE.new is made beside it with mode 0600, gets FILE's mode, is written and synced, and
then renamed to FILE. A record that wasn't written to its end is passed over, of which
standard error tells, and the next one takes its place. So FILE holds what it held before
a command or what it holds after it, whole. What isn't said to change FILE only reads it.
Each command compares the checksums of what it reads: fault 13 where one differs.

Places: a FILE that is a link is followed, and stays a link. One that has several names
(hard links), or no write bit, isn't changed: fault 24. One whose name ends in '.new' is
fault 27.

Nodes: in grow, set, add, del, clear, inc, dec, edit, get, show, conflicts, status, ask,
answer and take, FILE may be the address of a node, as http://127.0.0.1:7780. The node
does it, and its answer is printed. What --from of 'init' names may be one too. A node's
token is read from the file whose path RDS_TOKEN_FILE has in the environment.
--if-changed is for files alone. Where a node can't write its FILE anew, it adds records
up to twice FILE's length, and then tries again. It refuses edits and ends where FILE was
moved or another was put there, and makes anew one that was removed.

Copies: a name is used at one file alone. A copy is for reading, for a backup, or for
'merge'; never edit one beside the original, nor go on with a backup under its name
(docs/FAULTS.md, 'Back to a backup'). To edit at a second place make the next replica,
by 'init NEW --from FILE OWN'.

Words: PATH is 1 to 8 keys with '/' between them, and a key 1 to 64 bytes without '/'.
VALUE is JSON: null, true, false, a whole number of 64 bits, or a text of at most 1,024
bytes. Counters stand at the root, so each has a KEY. Options stand before any two
dashes, '--'; behind them a word may begin with a hyphen.

Example: rds_node set notes.a shopping/shelf -- -3
         rds_node get http://127.0.0.1:7780 shopping/shelf
";

const FAULTS_ABOUT: &str = "Tells what the faults are";

/// What `help faults` prints.
pub const FAULTS_TEXT: &str = "\
What the faults are. Each is one line of output, 'fault N: Name', and standard error has
a line for people beside it, but not for those of 'join' and 'sim', nor of the lines
that 'edit' reads. Those of 'get --raw', 'dump', 'conflicts', 'diff', 'ask' and 'answer'
are told on standard error alone.

   1 Memory          there was no memory to go on
   2 BadName         no name: a to z first, then a to z, 0 to 9 and '-', at most 16
   3 BadKey          no key: 1 to 64 bytes without '/'
   4 BadPath         more than 8 keys, or the root where a value has to stand
   5 BadScalar       no value: a whole number of 64 bits, a text, true, false or null
   6 BadRoster       no name, more than 256, or one twice
   7 SeqFull         this replica has used its last dot
   8 CounterFull     a counter would pass its limit
   9 Conflict        both sides have different entries for one dot: a copy was edited
  10 OwnAhead        FILE is older than what its replica has sent: a backup was put back
  11 WrongAsker      an answer to another replica, or to another question
  12 Cut             the bytes end too early: no rds file, or a part of one
  13 Bad             no rds file, or a damaged one, or no text of a session
  14 Extra           more bytes behind a whole text
  15 TooLong         a text, a line or an input above its limit
  17 BadCertificate  the certificate of a delta doesn't hold
  18 WrongVersion    the peer speaks another version
  19 WrongGroup      two replicas of different groups
  20 WrongRoster     two rosters that have grown apart
  21 SameReplica     the same replica at both ends, or a name that is used
  22 OutOfTurn       the peer sent another message than the one awaited
  23 PeerEnded       the peer ended before the exchange was done
  24 Device          a file or an address can't be used; standard error says why
  25 BadLine         a line is no command, or VALUE no JSON
  26 NoSuch          no such replica, ask or answer
  27 Usage           words that the program doesn't take
  28 Forked          both ends have seen the same, and hold different entries
  29 Unsure          FILE is written, and may not last: read it before you repeat

Exit status: 0 where the command succeeded, 1 where it answered a fault, 2 for fault 27,
3 where 'get --raw' finds nothing, and where 'conflicts' or 'diff' finds something.

Example: rds_node get --raw notes.a title || echo status $?
";

const INIT_ABOUT: &str = "Makes a file that holds an empty replica, or the next one of a group";

const INIT_EXAMPLE: &str = "\
Example: rds_node init notes.a notes a a b c
         rds_node init notes.b --from notes.a b";

const INIT_TEXT: &str = "\
FILE must not be there. With --from two words stand, the new file and its own name: group,
names and all that was seen come from the other file. Output: {\"ok\":true}.
Faults of its own: 21 where OWN is used, 26 where it is none of NAMES, 27 for such a FILE.";

const GROW_ABOUT: &str = "Adds replicas to the group of the replica in a file";

const GROW_EXAMPLE: &str = "\
Example: rds_node grow notes.a d e";

const GROW_TEXT: &str = "\
Puts NAMES behind those of the group; the numbers of the others stay. Each other replica
grows by its next session with one that has, and the file of a new one is made by 'init
NEW --from FILE OWN'. Grow a group at one file alone: two that got different names can't
meet any more, fault 20.
Output: {\"ok\":true}.
Faults of its own: 2 for a bad name, 6 for one that is there, stands twice or is too many.";

const SET_ABOUT: &str = "Writes a register of the replica in a file";

const SET_EXAMPLE: &str = "\
Example: rds_node set notes.a title '\"Shopping\"'
         rds_node set notes.a title --text Shopping";

const SET_TEXT: &str = "\
What stood at PATH is taken away. A VALUE below 0 stands behind two dashes: -- -3.
Output: {\"dot\":[\"a\",1],\"killed\":0}: the new entry's name, and how many were taken away;
{\"dot\":null,\"killed\":0} where nothing was written. 'help faults' has 3 to 5, 7 and 25.";

const ADD_ABOUT: &str = "Adds an element to a set of the replica in a file";

const ADD_EXAMPLE: &str = "\
Example: rds_node add notes.a shopping/fruit '\"apple\"'
         rds_node add notes.a shopping/fruit --text apple";

const ADD_TEXT: &str = "\
Adds VALUE to the set at PATH. A VALUE below 0 stands behind two dashes: -- -3.
Output: {\"dot\":[\"a\",1],\"killed\":0}: the new entry's name, and how many were taken away;
{\"dot\":null,\"killed\":0} where nothing was written. 'help faults' has 3 to 5, 7 and 25.";

const DEL_ABOUT: &str = "Deletes an element of a set of the replica in a file";

const DEL_EXAMPLE: &str = "\
Example: rds_node del notes.a shopping/fruit '\"apple\"'
         rds_node del notes.a shopping/fruit --text apple";

const DEL_TEXT: &str = "\
Deletes VALUE from the set at PATH. A VALUE below 0 stands behind two dashes: -- -3.
Output: {\"dot\":null,\"killed\":1}, with the number of entries taken away.
Faults of its own: 3 and 4 for a bad PATH, 25 and 5 for a bad VALUE.";

const CLEAR_ABOUT: &str = "Empties a part of the replica in a file";

const CLEAR_EXAMPLE: &str = "\
Example: rds_node clear notes.a shopping
         rds_node clear notes.a --all";

const CLEAR_TEXT: &str = "\
Takes away each entry at PATH or below it; with --all, which takes no PATH, those of the
whole document. Counters stay.
Output: {\"dot\":null,\"killed\":2}, with the number of entries taken away.
Faults of its own: 3 and 4 for a bad PATH, as an empty one.";

const INC_ABOUT: &str = "Raises a counter of the replica in a file";

const INC_EXAMPLE: &str = "\
Example: rds_node inc notes.a visits 1";

const INC_TEXT: &str = "\
Raises the counter KEY by BY. To count the other way, use 'dec': BY is never below 0.
Output: {\"dot\":null,\"killed\":0}.
Faults of its own: 27 for a bad BY, 3 for a bad KEY, 8 where it would pass its limit.";

const DEC_ABOUT: &str = "Lowers a counter of the replica in a file";

const DEC_EXAMPLE: &str = "\
Example: rds_node dec notes.a stock 3";

const DEC_TEXT: &str = "\
Lowers the counter KEY by BY. To count the other way, use 'inc': BY is never below 0.
Output: {\"dot\":null,\"killed\":0}.
Faults of its own: 27 for a bad BY, 3 for a bad KEY, 8 where it would pass its limit.";

const EDIT_ABOUT: &str = "Edits the replica in a file as lines say";

const EDIT_EXAMPLE: &str = "\
Example: rds_node edit notes.a < lines";

const EDIT_TEXT: &str = "\
Input: lines, each one JSON array of at most 65,536 bytes; empty lines are skipped:
  [\"set\",PATH,VALUE] [\"add\",PATH,VALUE] [\"del\",PATH,VALUE] [\"clear\",PATH]
  [\"inc\",KEY,BY] [\"dec\",KEY,BY]
Edits FILE by one line after the other, and writes once. Output, once that is written: a
line of JSON for each, {\"dot\":[\"a\",1],\"killed\":0} as for 'set'. A refused one is answered
{\"fault\":3,\"name\":\"BadKey\",\"line\":2} and changes nothing; the others stand, status 1.
An empty PATH of \"clear\" takes away all entries of the document.
Faults of its own: 15 for more than 1,073,741,824 bytes of input, 24 for a failed read.";

const GET_ABOUT: &str = "Prints what stands at a path of the replica in a file";

const GET_EXAMPLE: &str = "\
Example: rds_node get notes.a shopping/fruit
         rds_node get --raw notes.a title";

const GET_TEXT: &str = "\
Output: {\"counter\":8,\"reg\":[3],\"set\":[\"red\"]}, or bare values, a line each. Status 3 where
--raw finds nothing, fault 27 where it finds several kinds: then one option says which.";

const SHOW_ABOUT: &str = "Prints the document of the replica in a file";

const SHOW_EXAMPLE: &str = "\
Example: rds_node show notes.a shopping
         rds_node show --pretty notes.a";

const SHOW_TEXT: &str = "\
Output: one line of JSON, the document below PATH, or all of it: {\"maps\":..,\"regs\":..,
\"sets\":..}, each by key, with \"counters\" before them where there is no PATH.
Faults of its own: 3 and 4 for a bad PATH.";

const DUMP_ABOUT: &str = "Writes the lines that give the document of a file again";

const DUMP_EXAMPLE: &str = "\
Example: rds_node dump notes.a > lines
         rds_node edit other.a < lines";

const DUMP_TEXT: &str = "\
Output: the lines that 'edit' reads, which give an empty file the same document: what
stands at PATH and below it, as 'clear' takes it away, or all of it with its counters,
which count once more where they are there. Of a register with several values one line
sets each, so the last stands; a line on standard error says so before it.
Faults of its own: 3 and 4 for a bad PATH.";

const COMPACT_ABOUT: &str = "Writes the file of a replica anew, without records";

const COMPACT_EXAMPLE: &str = "\
Example: rds_node compact notes.a";

const COMPACT_TEXT: &str = "\
A command that changes FILE adds a record to it. This writes FILE anew as one snapshot
with its checksum, which holds the same. Commands do so by themselves where the records
get long, so it need not be called. It is of use before FILE is copied or kept for long,
where it is read often and seldom changed, and for one that an older program wrote
without a checksum. 'status' tells how many bytes the records have.
Output: {\"ok\":true}.";

const PAIR_ABOUT: &str = "Has a session between the replicas in two files";

const PAIR_EXAMPLE: &str = "\
Example: rds_node pair notes.a notes.b";

const PAIR_TEXT: &str = "\
Connects to itself on 127.0.0.1, with FILE as the client and PEER as the server. Each side
gets a delta, what the other has and it lacks, and takes it into what its file holds then,
so edits made meanwhile stay; so is the longer group taken.
Output: {\"taken\":1} where FILE took a delta, with the number of its components; then the
fault of its session, if there was one. Then the same for PEER, and 28 where the two are
forked. Faults of its own: 10, 11 and 19 to 21, see 'help faults'.";

const SYNC_ABOUT: &str = "Has a session of the replica in a file with one that is served";

const SYNC_EXAMPLE: &str = "\
Example: rds_node sync notes.b 127.0.0.1:4000
         rds_node sync notes.b http://127.0.0.1:7780";

const SYNC_TEXT: &str = "\
Calls a peer that waits by 'serve', or a node that runs ('run'). Nothing is enciphered. '-'
is a session over standard input and output, as by ssh, told of on standard error. With a
node all may take ten timeouts, and one more a megabyte. Output: {\"taken\":1}, how many
components FILE took; and the fault, if any: 10 to 24, and 28 of a node ('help faults').";

const SERVE_ABOUT: &str = "Serves the replica in a file to peers";

const SERVE_EXAMPLE: &str = "\
Example: rds_node serve notes.a 127.0.0.1:4000 --sessions 3
         rds_node serve notes.a - < from_peer > to_peer";

const SERVE_TEXT: &str = "\
Waits until a peer calls by 'sync', N times. Nothing is enciphered and nobody is
authenticated. Standard error says where it listens, so port 0, any free one, will do.
ADDR '-' is one session over standard input and output, and told of on standard error.
Output after each session: {\"taken\":1} where a delta was taken, then the fault if any.";

const ASK_ABOUT: &str = "Writes the question of the replica in a file";

const ASK_EXAMPLE: &str = "\
Example: rds_node ask notes.a > question";

const ASK_TEXT: &str = "\
Writes to standard output what a peer has to know to answer: who asks, and the digest of
what FILE has seen. FILE isn't written.
The peer's 'answer' goes with the question into 'take':
  rds_node ask a > q; ssh there rds_node answer b < q > r; rds_node take a q r";

const ANSWER_ABOUT: &str = "Reads a question, and writes the answer of the replica in a file";

const ANSWER_EXAMPLE: &str = "\
Example: rds_node answer notes.b < question > answer";

const ANSWER_TEXT: &str = "\
Reads the question of a replica of the group from standard input, and writes the answer:
who answers, and the least delta that brings the asker all that FILE has, with its
certificate. FILE isn't written.
Faults of its own: 12 to 15 for a question that is broken or none, 19 for one of another
group, 20 for names that have grown apart, 21 where FILE's own replica asks.";

const TAKE_ABOUT: &str = "Takes the answer to its question into a file";

const TAKE_EXAMPLE: &str = "\
Example: rds_node take notes.a question answer
         ssh there rds_node answer b < q | rds_node take notes.a q -";

const TAKE_TEXT: &str = "\
Checks the answer against the question, as a session would, and takes it into FILE. The
question has to be FILE's own, and FILE to hold all that it had then, else ask anew: 10
or 11. QUESTION or ANSWER may be '-'. Output: {\"taken\":1}, the components of the answer,
also those that FILE has; 28 where FILE now and who answered are forked. Faults of its
own: 11 for another question's answer, 17 for a bad certificate, 12 to 15, 19 and 20.";

const MERGE_ABOUT: &str = "Joins all that another file has seen into a file";

const MERGE_EXAMPLE: &str = "\
Example: rds_node merge notes.a stick/notes.b";

const MERGE_TEXT: &str = "\
Joins into FILE all that the file FROM has seen. FROM isn't written, so this is one way:
a session has both.
Output: {\"taken\":1}, with the number of components that FILE lacked.
Faults of its own: 10 where FROM is a copy of the same replica and has more of its own
than FILE, 9 where the two have different entries for one dot, 19 for another group, 20
for names that have grown apart.";

const RUN_ABOUT: &str = "Serves the replica in a file to browsers and programs over HTTP";

const RUN_EXAMPLE: &str = "\
Example: rds_node run notes.a
         rds_node run notes.a --peer 10.0.0.2:7780 --every 60
         curl -d '[\"set\",\"title\",\"Shopping\"]' http://127.0.0.1:7780/edits";

const RUN_TEXT: &str = "\
Serves FILE until it is stopped, and locks it: other commands can only read it. Each edit
is on disk before it is answered. Standard error says where it listens, so port 0, any
free one, will do. Requests, with the commands that print what they are answered:
  GET /                 the page, which shows the document in a browser and edits it
  GET /doc/PATH         show; at /here/PATH each map below PATH is shown empty
  GET /value/PATH       get
  GET /conflicts/PATH   conflicts
  GET /status           status, and how the peers stand
  GET /metrics          what was counted, for Prometheus
  GET /live             watch: a WebSocket, told {\"turn\":N,\"mark\":M,\"paths\":[..]} of changes
  GET /ask              ask
  GET /snapshot         a file of the replica, from which 'init --from' makes the next one
  POST /edits           edit; the body has its lines
  POST /answer          answer; the body is the question
  POST /take            take; the body: the question's length in 4 bytes, question, answer
  POST /grow            grow; the body is one name
  POST /login           a cookie for the token that the body is
Answers on the document have an ETag: If-None-Match and If-Match are heeded (304, 412).
With --peer it meets that node, of another replica, after each change here and every
SECONDS: each takes what it lacks. Peers share one token, and are shown that of the file.
Without options this machine alone may come, by 127.0.0.1 or [::1]; another ADDR is fault
27. With --token-file all but the page and /login ask for the token, 'Authorization:
Bearer TOKEN' or the cookie: 16 to 128 of A-Z a-z 0-9 - . _ ~. Nothing is enciphered.
With --log it prints of whole requests: CLIENT METHOD TARGET STATUS BYTES MICROSECONDS.
Faults of its own: 24 where ADDR can't be used, or FILE is locked or can't be written.";

const STATUS_ABOUT: &str = "Tells whose replica a file holds, and how much there is of it";

const STATUS_EXAMPLE: &str = "\
Example: rds_node status notes.a";

const STATUS_TEXT: &str = "\
Output: one line, {\"group\":\"notes\",\"own\":\"a\",\"names\":[\"a\",\"b\"],\"live\":1,\"dead\":0,
\"counters\":0,\"components\":1,\"bytes\":76,\"snapshot\":100,\"records\":96,
\"mark\":\"3923e6a85fb4142d3ef808a12ecff18d\"}: the group, the replica's own name and the
names of all; how many live entries, dots of dead ones and counters there are, and how
many components in all; how many bytes its snapshot would have if FILE were written anew,
without the 69 of its checksum; how many the snapshot of FILE has, with its checksum, and
how many the records behind it; and the mark of its state.
Files that hold the same have the same mark, and others have it by chance alone.";

const CHECK_ABOUT: &str = "Says whether the certificate of an answer holds, and prints its delta";

const CHECK_EXAMPLE: &str = "\
Example: rds_node check question answer";

const CHECK_TEXT: &str = "\
Says whether the answer's certificate holds for the question, and prints its delta.
QUESTION or ANSWER may be '-'. No file is written. Output: a line for each row, as
  {\"live\":[\"shop\",3],\"path\":\"..\",\"kind\":\"set\",\"value\":..}
  {\"dead\":[\"shop\",1,2],\"was\":\"unseen\"}
  {\"counter\":\"n\",\"replica\":\"shop\",\"plus\":9,\"was\":4}
Faults of its own: 17 where the certificate doesn't hold, 11 for an answer to another
question, 12 to 15 for a broken text.";

const CONFLICTS_ABOUT: &str = "Lists the registers with more than one value";

const CONFLICTS_EXAMPLE: &str = "\
Example: rds_node conflicts notes.a";

const CONFLICTS_TEXT: &str = "\
Output: a line for each register with more than one value below PATH, or anywhere, with
its path. A 'set' there makes it one value again.
Exit status: 0 where there is none, 3 where there are some.
Faults of its own: 3 and 4 for a bad PATH.";

const DIFF_ABOUT: &str = "Lists what one document shows and the other doesn't";

const DIFF_EXAMPLE: &str = "\
Example: rds_node diff notes.a notes.b";

const DIFF_TEXT: &str = "\
Output: a line for each thing that one of the two documents shows and the other doesn't.
Neither file is written.
Exit status: 0 where there is none, 3 where there are some.";

const WATCH_ABOUT: &str = "Prints the changes of a node as they come";

const WATCH_EXAMPLE: &str = "\
Example: rds_node watch http://127.0.0.1:7780 shopping";

const WATCH_TEXT: &str = "\
Follows a node that runs ('run') until it is stopped. Output: a line after each turn in
which the node's document changed, {\"turn\":2,\"mark\":\"3923..\",\"paths\":[\"shopping/fruit\"]}:
the turn, the mark of the state, and the paths of what changed; null for them stands for
any. With PATH only lines with a path that is PATH, lies below it or above it.
Faults of its own: 23 where the node ends, 24 where it is silent for 60 seconds, 27 where
NODE is no address of a node, 3 and 4 for a bad PATH.";

const JOIN_ABOUT: &str = "Joins two snapshots of one group into one";

const JOIN_EXAMPLE: &str = "\
Example: rds_node join < two_snapshots";

const JOIN_TEXT: &str = "\
Input: two lines of hex digits, each a snapshot, without what a file has behind it: its
checksum and records. The second may lack its newline.
Output: one line of hex digits, the snapshot of all that the two have seen, with the own
number of the first and the longer of the two groups' names.
Faults of its own: 12 or 13 for a line that is no snapshot, 14 where something follows a
snapshot or the second line, 15 for a line or an answer that is too long, 19 for another
group, 20 where neither names begin the others, 9 where the two have different entries
for one dot, 24 where the input can't be read.";

const SIM_ABOUT: &str = "Answers lines about a group of replicas in memory";

const SIM_EXAMPLE: &str = "\
Example: rds_node sim < lines";

const SIM_TEXT: &str = "\
Input: lines, each one JSON array of at most 65,536 bytes. W is a replica's name; PATH,
KEY, VALUE and BY are as in 'edit', and K is a whole number:
  [\"roster\",GROUP,NAME,..]                       the group; the first line
  [\"set\",W,PATH,VALUE] [\"add\",..] [\"del\",..]     edit an entry
  [\"clear\",W,PATH] [\"inc\",W,KEY,BY] [\"dec\",W,KEY,BY]
  [\"save\",W] [\"crash\",W]                         keep the memory; go back to that
  [\"ask\",W] [\"answer\",W,K] [\"take\",K]            a digest; a delta for it; take answer K
  [\"grow\",W,NAME] [\"show\",W,PATH]                one more name; the document below PATH
Output: a line of JSON for each. A refused one answers {\"fault\":N,\"name\":\"Name\"}, changes
nothing and makes the exit status 1, as does an input that can't be read: then the line
'fault 24: Device' is the last.";

pub const FILE_HELP: &str = "The file of a replica";

pub const GROUP_HELP: &str =
    "The group's name: 1 to 64 bytes without '/'; the own name where --from is given";

pub const OWN_HELP: &str = "The name of the replica in this file";

pub const NAMES_HELP: &str =
    "The names of all replicas, in order: a to z first, then a to z, 0 to 9 and '-'";

pub const INIT_FROM_HELP: &str =
    "A file of the group, or a node, from which the new one gets its names and all that was seen";

pub const NEW_NAMES_HELP: &str =
    "The names of the new replicas, in order: a to z first, then a to z, 0 to 9 and '-'";

pub const PATH_HELP: &str = "Keys with '/' between them";

pub const VALUE_HELP: &str = "null, true, false, a whole number or a text, as JSON";

pub const TEXT_HELP: &str = "VALUE is the text itself, not JSON";

pub const IF_CHANGED_HELP: &str = "Writes nothing where the value stands there already";

pub const ALL_HELP: &str = "Empties the whole document; there is no PATH then";

pub const KEY_HELP: &str = "The counter's key: 1 to 64 bytes without '/'";

pub const BY_HELP: &str = "By how much, a whole number from 0";

pub const RAW_HELP: &str = "Prints the values alone, one a line";

pub const REG_HELP: &str = "Prints the register's values so";

pub const SET_HELP: &str = "Prints the set's values so";

pub const COUNTER_HELP: &str = "Prints the counter so";

pub const ADDR_HELP: &str =
    "A host and a port, as 127.0.0.1:4000, or '-' for standard input and output";

pub const NODE_ADDR_HELP: &str =
    "A host and a port, http:// and these for a node, or '-' for standard input and output";

pub const SESSIONS_HELP: &str = "How many sessions, a whole number, 0 for no end";

pub const TIMEOUT_HELP: &str =
    "After how many seconds a silent peer is given up, a whole number, 0 for never";

pub const HTTP_HELP: &str = "The address and port that browsers and programs connect to";

pub const PEERS_HELP: &str =
    "The address and port of a node that it meets; may be given again for others";

pub const EVERY_HELP: &str =
    "After how many seconds it meets its peers again, a whole number from 1 to 86400";

pub const TOKEN_FILE_HELP: &str = "The file of a token, without which nobody may come";

pub const NODE_TOKEN_FILE_HELP: &str = "The file of the token that a node asks for";

pub const OPEN_HELP: &str = "Other machines may come, also where there is no token";

pub const LOG_HELP: &str = "Prints a line for each whole request";

pub const PRETTY_HELP: &str = "Prints the JSON on many lines, indented";

pub const PEER_HELP: &str = "The file of the replica that it meets, the server of the two";

pub const QUESTION_HELP: &str = "The file of the question, or '-' for standard input";

pub const ANSWER_HELP: &str = "The file of the answer, or '-' for standard input";

pub const FROM_HELP: &str = "The file that is joined into FILE";

pub const OTHER_HELP: &str = "The file of the other document";

pub const NODE_HELP: &str = "The address of a node, as http://127.0.0.1:7780";
