//! A file as the journal sees it: what stands in it, and what a crash may leave of it.
ghost use Rattle.std.specs.Prelude.{◌≡◌, ◌≤◌, List, ℕ, Option, length, option_map, take, IfSome, OnErr, OnOk};
ghost use Rattle.rds_journal.specs.Device.{written, Cut, Elapses, OutcomesFollow, HasCause, IsWrittenShort, Only, Torn};

/// A call of a device failed.
#[derive(Clone, Copy, Debug, PartialEq, Eq)]
pub struct DeviceError;

/// A file that is written at places that are named, cut and synced. Of a real one nothing is known: what stands in it
/// is `None`, and of a crash it tells nothing. One in memory knows both.
pub trait Device {
    /// What stands in it, where that is known.
    ghost seen: { Self → Option (List ℕ) };

    /// What a crash at this moment may leave.
    ghost may_leave: { Self → List ℕ → Type 0 };

    /// The moment, as a number that doesn't fall.
    ghost moment: { Self → ℕ };

    /// What a crash at some moment from that one on might have left, during a call or between two.
    ghost left_since: { Self → ℕ → List ℕ → Type 0 };

    /// How often it has failed. One that doesn't count has a full count.
    ghost faults: { Self → ℕ };

    /// Writes all of the bytes, over what is there and past the end. Until a sync a crash may leave any bytes in
    /// their place.
    fn write_at(&mut self, at: u64, bytes: &[u8]) -> Result<(), DeviceError>
        requires { IfSome (seen self.old) (λ file. at ≤ length file) }
        ensures written { OnOk result (seen self.new ≡ option_map (λ file. written file at bytes.now) (seen self.old)) }
        ensures short { OnErr result (IfSome (seen self.old)
            (λ file. IsWrittenShort file at bytes.now (seen self.new))) }
        ensures crash { OutcomesFollow (Torn at (length bytes.now)) (may_leave self.old) (may_leave self.new) }
        ensures time { Elapses (moment self.old) (moment self.new) (left_since self.old) (left_since self.new)
            (may_leave self.new) }
        ensures cause { HasCause (faults self.old) (faults self.new) result };

    /// Cuts the file to a length. Until a sync a crash may leave it longer.
    fn cut(&mut self, end: u64) -> Result<(), DeviceError>
        requires { IfSome (seen self.old) (λ file. end ≤ length file) }
        ensures cut { OnOk result (seen self.new ≡ option_map (take end) (seen self.old)) }
        ensures uncut { OnErr result (seen self.new ≡ seen self.old) }
        ensures crash { OutcomesFollow (Cut end) (may_leave self.old) (may_leave self.new) }
        ensures time { Elapses (moment self.old) (moment self.new) (left_since self.old) (left_since self.new)
            (may_leave self.new) }
        ensures cause { HasCause (faults self.old) (faults self.new) result };

    /// Makes what stands in it last: after it a crash leaves that.
    fn sync(&mut self) -> Result<(), DeviceError>
        ensures durable { OnOk result (IfSome (seen self.old) (λ file. Only file (may_leave self.new))) }
        ensures seen { seen self.new ≡ seen self.old }
        ensures crash { (c : List ℕ) → may_leave self.new c → may_leave self.old c }
        ensures time { Elapses (moment self.old) (moment self.new) (left_since self.old) (left_since self.new)
            (may_leave self.new) }
        ensures cause { HasCause (faults self.old) (faults self.new) result };

    /// This moment is one of those since an earlier one.
    ghost counts_now: { (file : Self) (t : ℕ) (c : List ℕ) → t ≤ moment file → may_leave file c → left_since file t c };

    /// Since this moment there is no other.
    ghost only_now: { (file : Self) (c : List ℕ) → left_since file (moment file) c → may_leave file c };
}
