//! A record at the end of a file.
ghost use Rattle.std.specs.Prelude.{◌≡◌, ℕ, List, length, option_map, take, IfSome, OnErr, OnOk, IsErrOf};
ghost use Rattle.rds_journal.specs.Appending.{appended, IsCutBack, IsEnd, IsUnappended, KeepsFront, LeavesEnd};
ghost use Rattle.rds_journal.specs.Device.{Cut, OutcomesFollow, HasCause, HasRisen, LeavesOnly, Only};

use crate::device::{Device, DeviceError};

/// Why a record wasn't appended.
#[derive(Clone, Copy, Debug, PartialEq, Eq)]
pub enum AppendError {
    /// The record isn't there, and all else is as it was, but for what stands behind the whole records.
    Unwritten,
    /// The record is there. A crash may take it away.
    Unsure,
}

/// Puts a record behind the whole records of a file, which end at `end`, and syncs it. A torn end behind them is cut
/// off first, and that is synced, so that nothing of it can stand behind the record.
pub fn append<D: Device>(
    device: &mut D,
    end: u64,
    is_torn: bool,
    text: &[u8],
) -> Result<(), AppendError>
    requires { IfSome (D.seen device.old) (IsEnd end is_torn) }

    ensures written { OnOk result
        (D.seen device.new ≡ option_map (λ file. appended file end text.now) (D.seen device.old)) }
    ensures durable { OnOk result (IfSome (D.seen device.old)
        (λ file. Only (appended file end text.now) (D.may_leave device.new))) }
    ensures unwritten { IsErrOf result AppendError.Unwritten → IfSome (D.seen device.old)
        (λ file. IsUnappended file end text.now (D.seen device.new)) }
    ensures unsure { IsErrOf result AppendError.Unsure →
        D.seen device.new ≡ option_map (λ file. appended file end text.now) (D.seen device.old) }

    // Whenever a crash comes, it leaves what was there up to the end.
    ensures any_moment { LeavesOnly D.moment D.left_since device.old device.new
        (λ c. (d : List ℕ) × D.may_leave device.old d × KeepsFront end (length text.now) d c) }
    // Where all of the file was on the disk, it leaves a prefix of it, or of what is written behind its end.
    ensures from_rest { IfSome (D.seen device.old) (λ file. Only file (D.may_leave device.old) →
        LeavesOnly D.moment D.left_since device.old device.new (LeavesEnd file end (length text.now))) }

    // It doesn't give up by itself.
    ensures failed { OnErr result (HasRisen (D.faults device.old) (D.faults device.new)) }
{
    let Ok(()) = cut_off(device, end, is_torn) else {
        return Err(AppendError::Unwritten);
    };
    let Ok(()) = device.write_at(end, text) else {
        return Err(AppendError::Unwritten);
    };
    let Ok(()) = device.sync() else {
        return Err(AppendError::Unsure);
    };
    Ok(())
}

// Cuts off a torn end, and syncs that.
fn cut_off<D: Device>(device: &mut D, end: u64, is_torn: bool) -> Result<(), DeviceError>
    requires { IfSome (D.seen device.old) (IsEnd end is_torn) }
    ensures cut { OnOk result (D.seen device.new ≡ option_map (take end) (D.seen device.old)) }
    ensures uncut { OnErr result (IfSome (D.seen device.old) (λ file. IsCutBack file end (D.seen device.new))) }
    ensures durable { OnOk result (IfSome (D.seen device.old)
        (λ file. Only file (D.may_leave device.old) → Only (take end file) (D.may_leave device.new))) }
    ensures crash { OutcomesFollow (Cut end) (D.may_leave device.old) (D.may_leave device.new) }
    ensures any_moment { LeavesOnly D.moment D.left_since device.old device.new
        (λ c. (d : List ℕ) × D.may_leave device.old d × Cut end d c) }
    ensures cause { HasCause (D.faults device.old) (D.faults device.new) result }
{
    if is_torn {
        device.cut(end)?;
        device.sync()?;
    }
    Ok(())
}
