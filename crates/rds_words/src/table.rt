//! The commands and their words, as a table.
use crate::help::{self, Page};

/// A command as the table has it.
pub struct Described {
    pub name: &'static str,
    pub page: Page,
    pub words: &'static [Word],
}

/// A word of a command.
pub struct Word {
    pub id: &'static str,
    pub help: &'static str,
    pub kind: Kind,
}

/// How a word is given.
#[derive(Clone, Copy)]
pub enum Kind {
    /// It has to be given.
    Required,
    /// It may be left out.
    Optional,
    /// It has to be given, and more of its kind may follow.
    Repeated,
    /// It and more of its kind may be left out.
    Several,
    /// It follows an option, and has a value where it isn't given.
    Defaulted {
        /// The option's name.
        long: &'static str,
        /// What help calls the value.
        value_name: &'static str,
        /// The value where the option isn't given.
        default: &'static str,
    },
    /// It follows an option, and may be left out.
    Valued {
        /// The option's name.
        long: &'static str,
        /// What help calls the value.
        value_name: &'static str,
    },
    /// It follows an option, and more of its kind may, each behind the option again. All may be left out.
    Listed {
        /// The option's name.
        long: &'static str,
        /// What help calls the value.
        value_name: &'static str,
    },
    /// It is an option without a value.
    Flag {
        /// The option's name.
        long: &'static str,
    },
}

const FILE: Word = Word {
    id: "FILE",
    help: help::FILE_HELP,
    kind: Kind::Required,
};

const GROUP: Word = Word {
    id: "GROUP",
    help: help::GROUP_HELP,
    kind: Kind::Required,
};

const OWN: Word = Word {
    id: "OWN",
    help: help::OWN_HELP,
    kind: Kind::Optional,
};

const NAMES: Word = Word {
    id: "NAMES",
    help: help::NAMES_HELP,
    kind: Kind::Several,
};

const INIT_FROM: Word = Word {
    id: "FROM",
    help: help::INIT_FROM_HELP,
    kind: Kind::Valued {
        long: "from",
        value_name: "FILE",
    },
};

const NEW_NAMES: Word = Word {
    id: "NAMES",
    help: help::NEW_NAMES_HELP,
    kind: Kind::Repeated,
};

const PATH: Word = Word {
    id: "PATH",
    help: help::PATH_HELP,
    kind: Kind::Required,
};

const OPTIONAL_PATH: Word = Word {
    id: "PATH",
    help: help::PATH_HELP,
    kind: Kind::Optional,
};

const VALUE: Word = Word {
    id: "VALUE",
    help: help::VALUE_HELP,
    kind: Kind::Required,
};

const KEY: Word = Word {
    id: "KEY",
    help: help::KEY_HELP,
    kind: Kind::Required,
};

const BY: Word = Word {
    id: "BY",
    help: help::BY_HELP,
    kind: Kind::Required,
};

const ADDR: Word = Word {
    id: "ADDR",
    help: help::ADDR_HELP,
    kind: Kind::Required,
};

// The same of `sync`, which can call a node.
const NODE_ADDR: Word = Word {
    id: "ADDR",
    help: help::NODE_ADDR_HELP,
    kind: Kind::Required,
};

const SESSIONS: Word = Word {
    id: "SESSIONS",
    help: help::SESSIONS_HELP,
    kind: Kind::Defaulted {
        long: "sessions",
        value_name: "N",
        default: "1",
    },
};

const TIMEOUT: Word = Word {
    id: "TIMEOUT",
    help: help::TIMEOUT_HELP,
    kind: Kind::Defaulted {
        long: "timeout",
        value_name: "SECONDS",
        default: "60",
    },
};

const HTTP: Word = Word {
    id: "HTTP",
    help: help::HTTP_HELP,
    kind: Kind::Defaulted {
        long: "http",
        value_name: "ADDR",
        default: "127.0.0.1:7780",
    },
};

const PEERS: Word = Word {
    id: "PEERS",
    help: help::PEERS_HELP,
    kind: Kind::Listed {
        long: "peer",
        value_name: "HOST:PORT",
    },
};

const EVERY: Word = Word {
    id: "EVERY",
    help: help::EVERY_HELP,
    kind: Kind::Defaulted {
        long: "every",
        value_name: "SECONDS",
        default: "10",
    },
};

const TOKEN_FILE: Word = Word {
    id: "TOKEN_FILE",
    help: help::TOKEN_FILE_HELP,
    kind: Kind::Valued {
        long: "token-file",
        value_name: "PATH",
    },
};

// The same of `sync` and `watch`, which show it.
const NODE_TOKEN_FILE: Word = Word {
    id: "TOKEN_FILE",
    help: help::NODE_TOKEN_FILE_HELP,
    kind: Kind::Valued {
        long: "token-file",
        value_name: "PATH",
    },
};

const OPEN: Word = Word {
    id: "OPEN",
    help: help::OPEN_HELP,
    kind: Kind::Flag { long: "open" },
};

const LOG: Word = Word {
    id: "LOG",
    help: help::LOG_HELP,
    kind: Kind::Flag { long: "log" },
};

const PRETTY: Word = Word {
    id: "PRETTY",
    help: help::PRETTY_HELP,
    kind: Kind::Flag { long: "pretty" },
};

const QUESTION: Word = Word {
    id: "QUESTION",
    help: help::QUESTION_HELP,
    kind: Kind::Required,
};

const ANSWER: Word = Word {
    id: "ANSWER",
    help: help::ANSWER_HELP,
    kind: Kind::Required,
};

const FROM: Word = Word {
    id: "FROM",
    help: help::FROM_HELP,
    kind: Kind::Required,
};

const OTHER: Word = Word {
    id: "OTHER",
    help: help::OTHER_HELP,
    kind: Kind::Required,
};

const TEXT: Word = Word {
    id: "TEXT",
    help: help::TEXT_HELP,
    kind: Kind::Flag { long: "text" },
};

const IF_CHANGED: Word = Word {
    id: "IF_CHANGED",
    help: help::IF_CHANGED_HELP,
    kind: Kind::Flag { long: "if-changed" },
};

const RAW: Word = Word {
    id: "RAW",
    help: help::RAW_HELP,
    kind: Kind::Flag { long: "raw" },
};

const REG: Word = Word {
    id: "REG",
    help: help::REG_HELP,
    kind: Kind::Flag { long: "reg" },
};

const SET: Word = Word {
    id: "SET",
    help: help::SET_HELP,
    kind: Kind::Flag { long: "set" },
};

const COUNTER: Word = Word {
    id: "COUNTER",
    help: help::COUNTER_HELP,
    kind: Kind::Flag { long: "counter" },
};

const ALL: Word = Word {
    id: "ALL",
    help: help::ALL_HELP,
    kind: Kind::Flag { long: "all" },
};

const PEER: Word = Word {
    id: "PEER",
    help: help::PEER_HELP,
    kind: Kind::Required,
};

const NODE: Word = Word {
    id: "NODE",
    help: help::NODE_HELP,
    kind: Kind::Required,
};

/// The commands, in the order in which help lists them: documents, meeting, serving, looking, machines. The topics of
/// `help` stand last, and in no list.
pub static COMMANDS: [Described; 30] = [
    Described {
        name: "init",
        page: Page::Init,
        words: &[FILE, GROUP, OWN, NAMES, INIT_FROM],
    },
    Described {
        name: "grow",
        page: Page::Grow,
        words: &[FILE, NEW_NAMES],
    },
    Described {
        name: "set",
        page: Page::Set,
        words: &[FILE, PATH, VALUE, TEXT, IF_CHANGED],
    },
    Described {
        name: "add",
        page: Page::Add,
        words: &[FILE, PATH, VALUE, TEXT, IF_CHANGED],
    },
    Described {
        name: "del",
        page: Page::Del,
        words: &[FILE, PATH, VALUE, TEXT],
    },
    Described {
        name: "clear",
        page: Page::Clear,
        words: &[FILE, OPTIONAL_PATH, ALL],
    },
    Described {
        name: "inc",
        page: Page::Inc,
        words: &[FILE, KEY, BY],
    },
    Described {
        name: "dec",
        page: Page::Dec,
        words: &[FILE, KEY, BY],
    },
    Described {
        name: "edit",
        page: Page::Edit,
        words: &[FILE],
    },
    Described {
        name: "get",
        page: Page::Get,
        words: &[FILE, PATH, RAW, REG, SET, COUNTER],
    },
    Described {
        name: "show",
        page: Page::Show,
        words: &[FILE, OPTIONAL_PATH, PRETTY],
    },
    Described {
        name: "dump",
        page: Page::Dump,
        words: &[FILE, OPTIONAL_PATH],
    },
    Described {
        name: "compact",
        page: Page::Compact,
        words: &[FILE],
    },
    Described {
        name: "pair",
        page: Page::Pair,
        words: &[FILE, PEER],
    },
    Described {
        name: "sync",
        page: Page::Sync,
        words: &[FILE, NODE_ADDR, TIMEOUT, NODE_TOKEN_FILE],
    },
    Described {
        name: "serve",
        page: Page::Serve,
        words: &[FILE, ADDR, SESSIONS, TIMEOUT],
    },
    Described {
        name: "ask",
        page: Page::Ask,
        words: &[FILE],
    },
    Described {
        name: "answer",
        page: Page::Answer,
        words: &[FILE],
    },
    Described {
        name: "take",
        page: Page::Take,
        words: &[FILE, QUESTION, ANSWER],
    },
    Described {
        name: "merge",
        page: Page::Merge,
        words: &[FILE, FROM],
    },
    Described {
        name: "run",
        page: Page::Run,
        words: &[FILE, HTTP, PEERS, EVERY, TOKEN_FILE, OPEN, LOG],
    },
    Described {
        name: "status",
        page: Page::Status,
        words: &[FILE],
    },
    Described {
        name: "check",
        page: Page::Check,
        words: &[QUESTION, ANSWER],
    },
    Described {
        name: "conflicts",
        page: Page::Conflicts,
        words: &[FILE, OPTIONAL_PATH],
    },
    Described {
        name: "diff",
        page: Page::Diff,
        words: &[FILE, OTHER],
    },
    Described {
        name: "watch",
        page: Page::Watch,
        words: &[NODE, OPTIONAL_PATH, NODE_TOKEN_FILE],
    },
    Described {
        name: "join",
        page: Page::Join,
        words: &[],
    },
    Described {
        name: "sim",
        page: Page::Sim,
        words: &[],
    },
    Described {
        name: "files",
        page: Page::Files,
        words: &[],
    },
    Described {
        name: "faults",
        page: Page::Faults,
        words: &[],
    },
];
