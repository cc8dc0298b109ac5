//! What is read of a journal that a crash left.
ghost use Rattle.std.specs.Prelude.{ℕ, List};
ghost use Rattle.rds_journal.specs.Crashes.{OutlastsAppends, ReadsAppended, ReadsSynced, ReadsWritten};

/// Of a journal that a crash left all records are read that had been synced, whatever stands behind them. Where it is a
/// prefix of what was written, no record is read that wasn't written. The function does nothing: its contract is
/// this law.
pub fn journals_outlast_crashes()
    ensures synced { (synced : List (List ℕ)) (bytes : List ℕ) → ReadsSynced synced bytes }
    ensures written { (written : List (List ℕ)) (bytes : List ℕ) → ReadsWritten written bytes }
{}

/// What an append acknowledged is read for good. Behind it the records are those from before and the new one. And after
/// however many more appends, each at the end of the whole records that are there, and each of them done or broken off
/// by a crash at any moment, these are the first that are read. The function does nothing: its contract is this law.
/// `append` meets its premises by `written`, and by `any_moment` where a crash leaves nothing but the file from before.
pub fn records_outlast_appends()
    ensures appended { (start end : ℕ) (file payload : List ℕ) (payloads : List (List ℕ)) →
        ReadsAppended start file payloads end payload }
    ensures outlast { (start : ℕ) (first : List ℕ) (files : List (List ℕ)) → OutlastsAppends start first files }
{}
