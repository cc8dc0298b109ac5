//! Which word is why words are refused, and what is due in its place.
use rds_names::{Key, Name};

/// What a path is.
pub const PATH: &str = "1 to 8 keys with '/' between them, each of 1 to 64 bytes";

/// What is said of a text that is no value.
pub const VALUE: &str =
    "is no value: whole numbers of 64 bits, texts of at most 1024 bytes, true, false and null are";

/// What is said of a text that is no counter's key.
pub const COUNTER_KEY: &str =
    "is no counter's key: counters stand at the root, so it has 1 to 64 bytes and no '/'";

/// What is said of a text that is no amount.
pub const AMOUNT: &str =
    "is no whole number of 64 bits, 0 or more: inc raises by it, and dec lowers";

/// The first of these that is no name.
pub fn bad_name<'a>(names: &[&'a str]) -> Option<&'a str> {
    for name in names {
        if Name::new(name).is_err() {
            return Some(*name);
        }
    }
    None
}

/// The first of these that stands twice.
pub fn stands_twice<'a>(names: &[&'a str]) -> Option<&'a str> {
    for name in names {
        if count(names, name) > 1 {
            return Some(*name);
        }
    }
    None
}

// How often a text stands among these.
fn count(texts: &[&str], wanted: &str) -> usize {
    let mut count: usize = 0;
    for text in texts {
        if *text == wanted {
            count = count.saturating_add(1);
        }
    }
    count
}

/// The first of a path's keys that is none.
pub fn bad_key(path: &str) -> &str {
    for key in path.split('/') {
        if !Key::is_key(key) {
            return key;
        }
    }
    path
}
