//! Laws of texts in few bytes.
ghost use Rattle.std.specs.Prelude.{ℕ, List};
ghost use Rattle.rds_dots.specs.Dots.{Dots};
ghost use Rattle.rds_bytes.specs.OneText.{HasOneText};
ghost use Rattle.rds_bytes.specs.Reading.{Reader};
ghost use Rattle.rds_bytes.specs.Steady.{IsSteady};
ghost use Rattle.rds_bytes.specs.Tabled.{IsShortTable, IsKeyOf, AreTabledRows, AreTabledCounts};
ghost use Rattle.rds_bytes.specs.Values.{AreDotsOf};
ghost use Rattle.rds_packed.specs.CountTexts.{packed_counters_at, packed_counters_text};
ghost use Rattle.rds_packed.specs.FrontTexts.{packed_table_at, packed_table_text};
ghost use Rattle.rds_packed.specs.PackedReading.{packed_key_at, packed_lives_at};
ghost use Rattle.rds_packed.specs.PackedTexts.{packed_key_text, packed_lives_text};
ghost use Rattle.rds_packed.specs.SeenReading.{packed_dots_at};
ghost use Rattle.rds_packed.specs.SeenTexts.{packed_dots_text, AreFewDotsOf};

use rds_bytes::packed_numbers_have_one_text;

/// A key of a table has one text as its packed number. Live rows of seen dots have one text over the packed numbers of
/// a table's keys. The function does nothing: its contract is the law.
pub fn packed_lives_have_one_text()
    ensures key { (table : List (List ℕ)) → IsShortTable table
        → HasOneText (packed_key_at table) (packed_key_text table) (IsKeyOf table) }
    ensures lives { (table : List (List ℕ)) → IsShortTable table → (seen : Dots) → AreDotsOf 256 seen
        → HasOneText (packed_lives_at (packed_key_at table) seen) (packed_lives_text (packed_key_text table))
        (AreTabledRows table seen) }
{
    packed_numbers_have_one_text();
}

/// The readers of keys by their packed numbers are steady, and so are those of live rows for each steady reader of
/// their keys. The function does nothing: its contract is the law.
pub fn packed_lives_are_steady()
    ensures key { (table : List (List ℕ)) → IsSteady (packed_key_at table) }
    ensures lives { (key : Reader (List ℕ)) → IsSteady key → (seen : Dots) → IsSteady (packed_lives_at key seen) }
{}

/// A set of dots of so many replicas, whose gaps four bytes can count, has one text. The function does nothing: its
/// contract is the law.
pub fn packed_dots_have_one_text()
    ensures { (replicas : ℕ) → HasOneText (packed_dots_at replicas) packed_dots_text (AreFewDotsOf replicas) }
{
    packed_numbers_have_one_text();
}

/// The readers of sets of dots are steady. The function does nothing: its contract is the law.
pub fn packed_dots_are_steady()
    ensures { (replicas : ℕ) → IsSteady (packed_dots_at replicas) }
{}

/// A table of keys that share their fronts has one text. The function does nothing: its contract is the law.
pub fn packed_tables_have_one_text()
    ensures { HasOneText packed_table_at packed_table_text IsShortTable }
{
    packed_numbers_have_one_text();
}

/// The reader of tables of keys that share their fronts is steady. The function does nothing: its contract is the law.
pub fn packed_tables_are_steady()
    ensures { IsSteady packed_table_at }
{}

/// Counters of so many replicas have one text over the packed numbers of a table's keys. The function does nothing: its
/// contract is the law.
pub fn packed_counters_have_one_text()
    ensures { (table : List (List ℕ)) → IsShortTable table → (replicas : ℕ)
        → HasOneText (packed_counters_at (packed_key_at table) replicas) (packed_counters_text (packed_key_text table))
        (AreTabledCounts table replicas) }
{
    packed_numbers_have_one_text();
}

/// The readers of counters are steady for each steady reader of their keys. The function does nothing: its contract is
/// the law.
pub fn packed_counters_are_steady()
    ensures { (key : Reader (List ℕ)) → IsSteady key → (replicas : ℕ) → IsSteady (packed_counters_at key replicas) }
{}
