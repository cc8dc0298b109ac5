//! Laws of the texts of sets and of tables, and of reading.
ghost use Rattle.std.specs.Prelude.{◌≡◌, ◌≢◌, ◌↔◌, ℕ, ◌+◌, true, List, [], ◌∷◌, ◌++◌, length, fold, Some, Ok, Err};
ghost use Rattle.rds_names.specs.declared.fault.Fault.{Fault};
ghost use Rattle.rds_names.specs.declared.fault.Fault.TheVariants.{Cut};
ghost use Rattle.rds_names.specs.declared.entry.Entry.{Entry};
ghost use Rattle.rds_dots.specs.declared.dot.Dot.{Dot};
ghost use Rattle.rds_dots.specs.Dots.{Dots};
ghost use Rattle.rds_counts.specs.declared.row.CountRow.{CountRow};
ghost use Rattle.rds_bytes.specs.declared.dots.DotRow.{DotRow};
ghost use Rattle.rds_bytes.specs.Packed.{packed_at, packed_text, HasPackedText};
ghost use Rattle.rds_bytes.specs.Reading.{
  Reader,
  keyed_live_rows_at,
  keyed_counters_at,
  then_at,
  made_at,
  rows_after,
  last,
  least_replica,
  row_head_at,
  row_gaps_at,
  row_by,
  dot_row_at,
};
ghost use Rattle.std.specs.List.{list_all};
ghost use Rattle.rds_names.specs.Roster.{all_differ};
ghost use Rattle.rds_bytes.specs.OneText.{HasOneText};
ghost use Rattle.rds_bytes.specs.RowDots.{dots_of_rows};
ghost use Rattle.rds_bytes.specs.SetRows.{AreRowsOf, IsSpelledByRows, RowsStand};
ghost use Rattle.rds_bytes.specs.Sources.{after_rows, after_counts};
ghost use Rattle.rds_bytes.specs.Spelling.{dots_text, dot_rows_text, keyed_live_rows_text, keyed_counters_text};
ghost use Rattle.rds_bytes.specs.Steady.{IsSteady};
ghost use Rattle.rds_bytes.specs.SteadyReaders.{NamesAreSteady, DotsAreSteady, EntriesAreSteady, CountersAreSteady};
ghost use Rattle.rds_bytes.specs.Table.{AreIn, IsTable, table_of, after_key, used_keys, is_tabled};
ghost use Rattle.rds_bytes.specs.TableTexts.{table_text, number_text, table_at, numbered_at};
ghost use Rattle.rds_bytes.specs.TableValue.{TableValue, meeting};
ghost use Rattle.rds_bytes.specs.Tabled.{IsShortTable, IsKeyOf, AreTabledRows, AreTabledCounts};
ghost use Rattle.rds_bytes.specs.Values.{AreDotsOf, is_key_text};

use crate::list::PartReader;

/// The text of a set of dots in the set's own words. A set has rows, each of which has the dots of one replica: the
/// numbers from 1 to a top without the gaps. Whichever rows in order have the set's dots and no others, its text is
/// theirs. What reading makes of rows in order has their dots and no others. The function does nothing: its contract is
/// the law.
pub fn sets_are_spelled_by_rows()
    ensures spelled { (s : Dots) → AreDotsOf 256 s → IsSpelledByRows s }
    ensures one { (s : Dots) (rows : List DotRow) → AreRowsOf s rows → dots_text s ≡ dot_rows_text rows }
    ensures read { (rows : List DotRow) → RowsStand 256 0 rows → AreRowsOf (dots_of_rows rows) rows }
{}

/// The readers of parts are steady. What is read stays read whatever follows. A fault other than `Cut` stays that
/// fault whatever follows: a part is refused (`Bad`) only where no continuation of its bytes would be read. The function
/// does nothing: its contract is the law.
pub fn readers_are_steady()
    ensures names { NamesAreSteady }
    ensures dots { DotsAreSteady }
    ensures entries { EntriesAreSteady }
    ensures counters { CountersAreSteady }
    ensures packed { IsSteady packed_at }
{}

/// A packed number has one text. The function does nothing: its contract is the law.
pub fn packed_numbers_have_one_text()
    ensures { HasOneText packed_at packed_text HasPackedText }
{}

/// A row of a set of dots is what it begins with, and then its gaps. So it is read a gap at a time, however many it
/// has. The function does nothing: its contract is the law.
pub fn rows_are_read_in_steps()
    ensures { (replicas : ℕ) (before : List DotRow) (bytes : List ℕ) → dot_row_at replicas before bytes
        ≡ made_at row_by (then_at (row_head_at replicas (least_replica (last before)))
        (λ h. row_gaps_at h.top h.gaps)) bytes }
{}

/// Parts that come in pieces, one after the other: one that is whole is taken off, and where they are refused for
/// another fault than `Cut` they are refused so, whatever follows. The function does nothing: its contract is the law.
pub fn parts_are_taken_one_by_one<T: Drop, R: PartReader<T>>()
    ensures taken { (r : R) (before : List T) (n : ℕ) (part : T) (rest after : List ℕ)
        → R.reader r before rest ≡ Ok (part, after) → (more : List ℕ)
        → rows_after (R.reader r) before (n + 1) (rest ++ more)
        ≡ rows_after (R.reader r) (before ++ part ∷ []) n (after ++ more) }
    ensures refused { (r : R) (before : List T) (n : ℕ) (rest : List ℕ) (fault : Fault) → fault ≢ Cut
        → rows_after (R.reader r) before n rest ≡ Err fault → (more : List ℕ)
        → rows_after (R.reader r) before n (rest ++ more) ≡ Err fault }
{}

/// A table is that of keys exactly where their numbers come in turn, each at most as great as the number of keys met
/// before it, and meet all of it. The function does nothing: its contract is the law.
pub fn tables_are_met_in_turn()
    ensures { (table keys : List (List ℕ)) → all_differ table ≡ true → AreIn table keys
        → (table_of keys ≡ table) ↔ (fold (after_key table) (Some 0) keys ≡ Some (length table)) }
{}

/// A table has one text, and so has each of its keys as its number. Rows and counters have one text each over the
/// numbers of a table's keys. The function does nothing: its contract is the law.
pub fn tables_have_one_text()
    ensures table { HasOneText table_at table_text IsShortTable }
    ensures number { (table : List (List ℕ)) → IsShortTable table
        → HasOneText (numbered_at table) (number_text table) (IsKeyOf table) }
    ensures live_rows { (table : List (List ℕ)) → IsShortTable table → (seen : Dots) → AreDotsOf 256 seen
        → HasOneText (keyed_live_rows_at (numbered_at table) seen) (keyed_live_rows_text (number_text table))
        (AreTabledRows table seen) }
    ensures counters { (table : List (List ℕ)) → IsShortTable table → (replicas : ℕ)
        → HasOneText (keyed_counters_at (numbered_at table) replicas) (keyed_counters_text (number_text table))
        (AreTabledCounts table replicas) }
{}

/// The readers of tables, and of keys by their numbers, are steady. So are those of live rows and of counters, for each
/// steady reader of their keys. The function does nothing: its contract is the law.
pub fn tables_are_steady()
    ensures table { IsSteady table_at }
    ensures number { (table : List (List ℕ)) → IsSteady (numbered_at table) }
    ensures live_rows { (key : Reader (List ℕ)) → IsSteady key → (seen : Dots)
        → IsSteady (keyed_live_rows_at key seen) }
    ensures counters { (key : Reader (List ℕ)) → IsSteady key → (replicas : ℕ)
        → IsSteady (keyed_counters_at key replicas) }
{}

/// The table of keys has each of them, once, and has them in the order of first use. The function does nothing: its
/// contract is the law.
pub fn keys_have_a_table()
    ensures table { (keys : List (List ℕ)) → list_all is_key_text keys ≡ true → IsTable (table_of keys) }
    ensures has { (keys : List (List ℕ)) → AreIn (table_of keys) keys }
    ensures tabled { (keys : List (List ℕ)) → is_tabled (table_of keys) keys ≡ true }
{}

/// A table that gave the keys of live rows and of counters has met all of its keys in turn exactly where it has the
/// keys that they use and no others, in the order of first use. The function does nothing: its contract is the law.
pub fn rows_meet_their_table()
    ensures { (t : TableValue) (rows : List (Dot × Entry)) (counts : List CountRow) → all_differ t.keys ≡ true
        → t.met ≡ Some 0 → AreIn t.keys (used_keys rows counts)
        → (is_tabled t.keys (used_keys rows counts) ≡ true)
        ↔ ((after_counts meeting (after_rows meeting t rows) counts).met ≡ Some (length t.keys)) }
{}
