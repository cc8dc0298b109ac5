//! Rows that call views, which stand as texts, with a semicolon between two items.
//!
//! - `reg KEY VALUES` and `set KEY VALUES`: what stands under a key.
//! - `map KEY (ITEMS)`: what stands further below.
//! - `counters`, and each key with its sum: at the root alone.
use crate::documents::Documents;
use crate::listing::Listing;
use crate::scalars::scalar_word;
use crate::words::Words;
use rds_dots::DotSet;
use rds_names::{Fault, Key, Scalar};
use rds_tree::{Scalars, View, view};
use std::alloc::Global;

/// No path has more keys.
const MOST_KEYS: u8 = 8;

/// `view STATE PATH` shows what a document has at a path.
pub fn show_view<S: DotSet>(
    documents: &Documents<S>,
    alloc: Global,
    rest: &str,
) -> Result<String, Fault> {
    let mut words = Words::new(rest);
    let state = documents.state(words.word()?)?;
    let path = words.path(alloc)?;
    whole_text(alloc, &view(alloc, state, &path)?)
}

/// The items of a view, with all its maps.
pub fn whole_text(alloc: Global, view: &View) -> Result<String, Fault> {
    view_text(alloc, view, MOST_KEYS)
}

/// The items of a view, with maps down to a depth.
fn view_text(alloc: Global, view: &View, depth: u8) -> Result<String, Fault> {
    let mut listing = Listing::new(alloc);
    list_values(alloc, &mut listing, "reg", view.regs.rows())?;
    list_values(alloc, &mut listing, "set", view.sets.rows())?;
    if depth > 0 {
        for (key, inner) in view.maps.rows() {
            let inner = view_text(alloc, inner, depth - 1)?;
            listing.push(map_text(alloc, key, inner.as_str())?.as_str())?;
        }
    }
    list_sums(alloc, &mut listing, view)?;
    listing.into_text(alloc)
}

fn list_values(
    alloc: Global,
    listing: &mut Listing,
    name: &str,
    rows: &[(Key, Scalars)],
) -> Result<(), Fault> {
    for (key, scalars) in rows {
        listing.push(values_text(alloc, name, key, scalars.rows())?.as_str())?;
    }
    Ok(())
}

fn values_text(alloc: Global, name: &str, key: &Key, scalars: &[Scalar]) -> Result<String, Fault> {
    let key = key.as_str();
    let mut text = format!(in alloc; "{name} {key}")?;
    for scalar in scalars {
        text.push_str(" ")?;
        text.push_str(scalar_word(alloc, scalar)?.as_str())?;
    }
    Ok(text)
}

fn map_text(alloc: Global, key: &Key, inner: &str) -> Result<String, Fault> {
    let key = key.as_str();
    Ok(format!(in alloc; "map {key} ({inner})")?)
}

fn list_sums(alloc: Global, listing: &mut Listing, view: &View) -> Result<(), Fault> {
    if let Some(sums) = &view.counters {
        listing.push(sums_text(alloc, sums.rows())?.as_str())?;
    }
    Ok(())
}

fn sums_text(alloc: Global, rows: &[(Key, i64)]) -> Result<String, Fault> {
    let mut text = String::from_str(alloc, "counters")?;
    for (key, sum) in rows {
        text.push_str(sum_text(alloc, key, *sum)?.as_str())?;
    }
    Ok(text)
}

fn sum_text(alloc: Global, key: &Key, sum: i64) -> Result<String, Fault> {
    let key = key.as_str();
    Ok(format!(in alloc; " {key} {sum}")?)
}
