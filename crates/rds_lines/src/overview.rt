//! Whose replica there is, and how much there is of it.
ghost use Rattle.std.specs.Prelude.{◌≡◌, IfErr, IfOk, length, string_bytes};
ghost use Rattle.std.specs.Option.{option_copied};
ghost use Rattle.serde_json.specs.Data.{string};
ghost use Rattle.serde_json.specs.Written.{compact_text};
ghost use Rattle.rds_names.specs.declared.fault.Fault.TheVariants.{Memory};
ghost use Rattle.rds_state.specs.Mark.{mark_of};
ghost use Rattle.rds_tree.specs.Distinct.{is_last};
ghost use Rattle.rds_tree.specs.Document.{sums_of};
ghost use Rattle.rds_names.specs.Key.{key_cmp};
ghost use Rattle.rds_lines.specs.Overview.{
  AreAmounts,
  IsOverview,
  IsOverviewWith,
  TellsOverview,
  dead_count,
  file_sizes_text,
  amounts_text,
  overview_text,
  own_name,
};

use rds_codec::snapshot_length;
use rds_counts::Counts;
use rds_dots::DotSet;
use rds_json::{show_names, show_text};
use rds_keep::Kept;
use rds_life::Lives;
use rds_names::{Fault, Key};
use rds_output::Reply;
use rds_state::{Mark, Replica};
use std::alloc::Global;

/// How much there is of a replica.
#[derive(Clone, Copy, Debug)]
pub struct Amounts {
    live: u64,
    dead: u64,
    counters: u64,
    components: u128,
    bytes: u128,
}

/// Tells whose replica a file holds and how much there is of it, as `overview_json` does, and how many bytes the file's
/// snapshot has and the records behind it.
pub fn describe<S: DotSet>(
    alloc: Global,
    kept: &Kept<S>,
    snapshot: u64,
    records: u64,
) -> Result<Reply, Fault>
    ensures told { IfOk result (TellsOverview kept.now snapshot records) }
    ensures memory { IfErr result (λ fault. fault ≡ Memory) }
{
    let of_file = file_text(alloc, snapshot, records)?;
    let replica = kept.view_of();
    let text = overview_with(alloc, replica, replica.state().mark(), of_file.as_str())?;
    Ok(Reply::Shown(text))
}

/// Whose replica this is and how much there is of it, as JSON: its live entries, dots of dead ones, counters and
/// components, the bytes of its snapshot in format 2, which is what is written, and the mark of its state, which who
/// keeps it hands in.
pub fn overview_json<S: DotSet>(
    alloc: Global,
    replica: &Replica<S>,
    mark: Mark,
) -> Result<String, Fault>
    requires { mark ≡ mark_of replica.now.state }
    ensures told { IfOk result (λ text. IsOverview replica.now (string_bytes text)) }
    ensures memory { IfErr result (λ fault. fault ≡ Memory) }
{
    overview_with(alloc, replica, mark, "")
}

// The same, with what is reported of its file.
fn overview_with<S: DotSet>(
    alloc: Global,
    replica: &Replica<S>,
    mark: Mark,
    of_file: &str,
) -> Result<String, Fault>
    requires { mark ≡ mark_of replica.now.state }
    ensures told { IfOk result (λ text. IsOverviewWith of_file.now replica.now (string_bytes text)) }
    ensures memory { IfErr result (λ fault. fault ≡ Memory) }
{
    let amounts = amounts_of(alloc, replica)?;
    overview_line(alloc, replica, amounts, mark, of_file)
}

// How much there is of a replica.
fn amounts_of<S: DotSet>(alloc: Global, replica: &Replica<S>) -> Result<Amounts, Fault>
    ensures are { IfOk result (AreAmounts replica.now) }
    ensures memory { IfErr result (λ fault. fault ≡ Memory) }
{
    let state = replica.state();
    let live = state.lives().live_len() as u64;
    Ok(Amounts {
        live,
        dead: dead_count(state.lives()),
        counters: counter_count(state.counts()),
        components: state.components(),
        bytes: snapshot_length(alloc, replica)?,
    })
}

// How many seen dots are dead.
fn dead_count<S: DotSet>(lives: &Lives<S>) -> u64
    ensures { result ≡ dead_count lives.now }
{
    let live = lives.live_len() as u64;
    lives.seen().count().saturating_sub(live)
}

// How many counters there are of which some number is above 0.
fn counter_count(counts: &Counts) -> u64
    ensures { result ≡ length (sums_of counts.now) }
{
    let rows = counts.rows();
    let mut count: u64 = 0;
    let mut last: Option<&Key> = None;
    for row in rows {
        if !is_last(last, &row.key) {
            count += 1;
            last = Some(&row.key);
        }
    }
    count
}

// Whether the key is that of the row before.
fn is_last(last: Option<&Key>, key: &Key) -> bool
    ensures { result ≡ is_last key_cmp (option_copied last.entry) key.now }
{
    match last {
        Some(last) => last.cmp(key).is_eq(),
        None => false,
    }
}

// The line.
fn overview_line<S: DotSet>(
    alloc: Global,
    replica: &Replica<S>,
    amounts: Amounts,
    mark: Mark,
    of_file: &str,
) -> Result<String, Fault>
    ensures text { IfOk result (λ text. string_bytes text
        ≡ overview_text replica.now.roster replica.now.own amounts of_file.now mark) }
    ensures memory { IfErr result (λ fault. fault ≡ Memory) }
{
    let roster = replica.roster();
    let group = show_text(alloc, roster.group().as_str())?;
    let own = show_own(alloc, replica)?;
    let names = show_names(alloc, roster.names())?;
    let whose = format!(in alloc; "{{\"group\":{group},\"own\":{own},\"names\":{names}")?;
    let much = much_text(alloc, amounts)?;
    Ok(format!(in alloc; "{whose}{much}{of_file},\"mark\":\"{mark}\"}}")?)
}

// How much there is, in the line.
fn much_text(alloc: Global, amounts: Amounts) -> Result<String, Fault>
    ensures text { IfOk result (λ text. string_bytes text ≡ amounts_text amounts) }
    ensures memory { IfErr result (λ fault. fault ≡ Memory) }
{
    let Amounts {
        live,
        dead,
        counters,
        components,
        bytes,
    } = amounts;
    Ok(format!(in alloc;
        ",\"live\":{live},\"dead\":{dead},\"counters\":{counters},\"components\":{components},\"bytes\":{bytes}"
    )?)
}

// How many bytes there are in the file, in the line.
fn file_text(alloc: Global, snapshot: u64, records: u64) -> Result<String, Fault>
    ensures text { IfOk result (λ text. string_bytes text ≡ file_sizes_text snapshot records) }
    ensures memory { IfErr result (λ fault. fault ≡ Memory) }
{
    Ok(format!(in alloc; ",\"snapshot\":{snapshot},\"records\":{records}")?)
}

// The replica's own name.
fn show_own<S: DotSet>(alloc: Global, replica: &Replica<S>) -> Result<String, Fault>
    ensures ok { IfOk result
        (λ shown. string_bytes shown ≡ compact_text (string (own_name replica.now.roster replica.now.own))) }
    ensures memory { IfErr result (λ fault. fault ≡ Memory) }
{
    match replica.roster().name_of(replica.own()) {
        Some(name) => show_text(alloc, name.as_str()),
        None => show_text(alloc, ""),
    }
}
