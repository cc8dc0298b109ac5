//! The law over all lines of `sim`.
ghost use Rattle.rds_lines.specs.SimLaws.{SimShowsUpdates};

/// Whatever lines are answered, as [`run_sim`](crate::run_sim) says: the first that isn't refused names a roster, and
/// the model of all replicas accepts the events that happened by the others, in the order of the lines. What each line
/// `show` is answered that isn't refused is a view of the document of the updates that the replica's memory holds by
/// then, as these follow from the events alone. The function does nothing: its contract is this law.
pub fn sim_shows_updates()
    ensures { SimShowsUpdates }
{}
