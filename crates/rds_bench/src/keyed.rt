//! States whose rows have keys of one kind.
ghost use Rattle.std.specs.Prelude.{◌≤◌};

use crate::samples::{items, seen_with};
use rds_dots::Dot;
use rds_gaps::GapSet;
use rds_names::{Entry, Fault, Kind, Path, Scalar};
use rds_state::State;
use std::alloc::Global;

/// Which keys the rows of a sample have. Each row is an element of a set.
#[derive(Clone, Copy, PartialEq, Eq)]
pub enum Keys {
    /// The same in all rows.
    One,
    /// Ten neighbours share three keys.
    Shared,
    /// Five neighbours share the first two of three keys, and the third are the same five in turn.
    Fields,
    /// Half the rows have a key of their own.
    Mixed,
    /// Each row has a new one, in no order.
    New,
    /// Each row has a new one, which only ends in another way than the one before, and is below it.
    Falling,
    /// Each row has a new one, and std's hasher gives all of them one hash.
    Colliding,
}

impl Keys {
    /// The kind of this name, if there is one.
    pub fn named(name: &str) -> Option<Keys> {
        match name {
            "one" => Some(Keys::One),
            "shared" => Some(Keys::Shared),
            "fields" => Some(Keys::Fields),
            "mixed" => Some(Keys::Mixed),
            "new" => Some(Keys::New),
            "falling" => Some(Keys::Falling),
            "colliding" => Some(Keys::Colliding),
            _ => None,
        }
    }
}

/// What all falling keys begin with.
const LONG: &str = "a-key-that-is-as-long-as-a-key-may-be-and-tells-little-of-";

/// What all colliding keys begin with. The last eight bytes are the state of std's hasher after the first sixteen of a
/// text of 32 bytes. It takes their difference times the bytes that follow, which is 0 whatever these are.
const SAME_HASH: &str = "sltgzdusqyrawqsbxl4ePHbk";

/// A path that has a number in it.
#[derive(Clone, Copy)]
struct Numbered {
    front: &'static str,
    number: u64,
    back: &'static str,
}

impl Numbered {
    fn new(front: &'static str, number: u64, back: &'static str) -> Numbered {
        Numbered {
            front,
            number,
            back,
        }
    }

    fn path(self, alloc: Global) -> Result<Path, Fault> {
        let Numbered {
            front,
            number,
            back,
        } = self;
        let text = format!(in alloc; "{front}{number}{back}")?;
        Path::new(alloc, text.as_str())
    }
}

/// The last key of a row of five.
fn field(number: u64) -> &'static str {
    match number % 5 {
        0 => "/name",
        1 => "/mail",
        2 => "/city",
        3 => "/born",
        _ => "/note",
    }
}

/// A path of mixed rows: two new keys in four rows.
fn mixed(number: u64) -> Numbered {
    match number % 4 {
        0 => Numbered::new("users/u", number, "/name"),
        1 => Numbered::new("users/u", number - 1, "/mail"),
        2 => Numbered::new("boards/t", number, "/cards"),
        _ => Numbered::new("lists/l", number % 100, "/items"),
    }
}

/// The path of the row that has this number.
fn path(alloc: Global, keys: Keys, number: u64) -> Result<Path, Fault>
    requires { number ≤ 1000000 }
{
    let numbered = match keys {
        Keys::One => return items(alloc),
        Keys::Shared => Numbered::new("users/user-", number / 10, "/tags"),
        Keys::Fields => Numbered::new("users/user-", number / 5, field(number)),
        Keys::Mixed => mixed(number),
        Keys::New => Numbered::new("key-", number * 659_003 % 1_048_576, ""),
        Keys::Falling => Numbered::new(LONG, 999_999 - number % 1_000_000, ""),
        Keys::Colliding => Numbered::new(SAME_HASH, 10_000_000 + number, ""),
    };
    numbered.path(alloc)
}

/// So many rows of replica 0.
fn rows(alloc: Global, dots: u64, keys: Keys) -> Result<Vec<(Dot, Entry)>, Fault>
    requires { dots ≤ 1000000 }
{
    let mut rows = Vec::new(alloc);
    for seq in 1..dots + 1 {
        let path = path(alloc, keys, seq)?;
        let entry = Entry::new(path, Kind::Elem, Scalar::Int(seq as i64))?;
        rows.push((Dot { replica: 0, seq }, entry))?;
    }
    Ok(rows)
}

/// A state of so many live dots of replica 0, whose rows have such keys.
pub fn state(alloc: Global, dots: u64, keys: Keys) -> Result<State<GapSet>, Fault>
    requires least { 1 ≤ dots }
    requires most { dots ≤ 1000000 }
{
    seen_with(alloc, 1, dots, rows(alloc, dots, keys)?)
}
