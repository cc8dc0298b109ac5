//! A change of a kept replica that is put behind the others.
ghost use Rattle.std.specs.Prelude.{◌≡◌, ◌≢◌, ◌⊎◌, List, ℕ, length, Err, IfOk, IfErr, IfSome, OnOk};
ghost use Rattle.rds_names.specs.declared.fault.Fault.TheVariants.{Memory, Bad, TooLong, Device, Unsure};
ghost use Rattle.rds_journal.specs.Appending.{IsUnappended, KeepsFront, LeavesEnd};
ghost use Rattle.rds_journal.specs.Device.{HasRisen, LeavesOnly, Only};
ghost use Rattle.rds_journal.specs.Records.{IsPayload, record_text};
ghost use Rattle.rds_keep.specs.Changed.{IsRecordOf, IsSeen, Lasts, with_record};
ghost use Rattle.rds_keep.specs.Changes.{IsChanged, change_text};
ghost use Rattle.rds_keep.specs.Kept.{IsStored};
ghost use Rattle.rds_keep.specs.ReadChanges.{RefusesChange};

use crate::change::{Change, encode_change};
use crate::layout::Layout;
use crate::past::{Past, WasKept};
use rds_bytes::member_length;
use rds_codec::states_have_texts;
use rds_dots::DotSet;
use rds_journal::{AppendError, Device, append, put_record, record_length};
use rds_names::Fault;
use rds_state::Replica;
use std::alloc::Global;
use std::marker::Model;

/// The bytes of the record of a change of a replica of this number. Refuses `TooLong` where its payload is longer than
/// that of a record.
pub fn encode_record<S: DotSet>(
    alloc: Global,
    own: u8,
    change: &Change<'_, S>,
) -> Result<Vec<u8>, Fault>
    ensures text { IfOk result (λ bytes. bytes.items ≡ record_text (change_text own change.now)) }
    ensures payload { IfOk result (λ _. IsPayload (change_text own change.now)) }
    ensures fault { IfErr result (RefusesChange (change_text own change.now)) }
{
    let payload = encode_change(alloc, own, change)?;
    let mut record = Vec::with_capacity(alloc, record_length(payload.len()))?;
    put_record(&mut record, &payload)?;
    Ok(record)
}

/// A change of a kept replica, as the bytes of its record. The replica before it and the one after it are seen by
/// contracts alone.
#[derive(Drop)]
pub struct Changed<S: DotSet> {
    record: Vec<u8>,
    before: Past<WasKept<S>>,
    after: Past<Replica<S>>,
}

impl<S: DotSet> Model for Changed<S> {
    ghost use Rattle.rds_keep.specs.Changed.{ChangedValue, IsRecordOf, coded_changed};
    ghost use Rattle.rds_keep.specs.Kept.{IsKept};

    ghost Value = { ChangedValue };

    ghost coded = { coded_changed };

    ghost view = { λ c. record { before = c.before.value; after = c.after.value; bytes = c.record.items } };

    ghost invariant = { λ c. IsKept c.before.value
        × IsRecordOf (record { before = c.before.value; after = c.after.value; bytes = c.record.items }) };
}

impl<S: DotSet> Changed<S> {
    /// The change that made this replica of the kept one.
    ///
    /// Refuses `TooLong` where it is longer than the payload of a record. It refuses `Bad` where the delta has another
    /// entry for a dot than the replica, which no change of a replica's own has: that couldn't be read again.
    pub fn new(
        alloc: Global,
        before: &WasKept<S>,
        replica: &Replica<S>,
        change: &Change<'_, S>,
    ) -> Result<Changed<S>, Fault>
        requires changed { IsChanged before.now change.now replica.now }
        ensures before { IfOk result (λ changed. changed.before ≡ before.now) }
        ensures after { IfOk result (λ changed. changed.after ≡ replica.now) }
        ensures record { IfOk result IsRecordOf }
        ensures fault { IfErr result (λ e. (e ≡ Memory) ⊎ ((e ≡ TooLong) ⊎ (e ≡ Bad))) }
    {
        if replica
            .state()
            .lives()
            .conflict(change.delta.lives())
            .is_some()
        {
            return Err(Fault::Bad);
        }
        before.stands();
        states_have_texts(change.delta);
        member_length(replica.roster(), replica.own());
        let record = encode_record(alloc, replica.own(), change)?;
        Ok(Changed {
            record,
            before: Past::of(before),
            after: Past::of(replica),
        })
    }

    /// How many bytes the record has.
    pub fn record_length(&self) -> usize
        ensures { result ≡ length self.now.bytes }
    {
        self.record.len()
    }

    /// Puts the record behind the whole ones of a file that holds the replica before the change, and syncs it: only then
    /// is the one after it kept. A torn end is cut off first.
    ///
    /// Refuses `Unsure` where all was written and the last sync failed, and `Device` where another call failed: then the
    /// file is as it was, but for a torn end. It refuses `TooLong` where the file's bytes couldn't be counted, and then
    /// makes no call.
    pub fn append<D: Device>(
        self,
        device: &mut D,
        layout: &Layout,
    ) -> Result<(WasKept<S>, Layout), Fault>
        requires stored { IfSome (D.seen device.old) (λ file. IsStored file self.before layout.now) }
        ensures kept { IfOk result (λ x. x.0 ≡ self.after) }
        ensures layout { IfOk result (λ x. x.1 ≡ with_record layout.now (length self.bytes)) }
        ensures stored { OnOk result (IfSome (D.seen device.old)
            (λ _. IsSeen (D.seen device.new) self.after (with_record layout.now (length self.bytes)))) }
        ensures lasts { OnOk result (IfSome (D.seen device.old)
            (λ _. Lasts (D.seen device.new) (D.may_leave device.new))) }
        ensures unsure { result ≡ Err Unsure → IfSome (D.seen device.old)
            (λ _. IsSeen (D.seen device.new) self.after (with_record layout.now (length self.bytes))) }
        ensures unwritten { result ≡ Err Device → IfSome (D.seen device.old)
            (λ file. IsUnappended file layout.now.whole self.bytes (D.seen device.new)) }
        ensures any_moment { LeavesOnly D.moment D.left_since device.old device.new (λ c. (d : List ℕ)
            × D.may_leave device.old d × KeepsFront layout.now.whole (length self.bytes) d c) }
        ensures from_rest { IfSome (D.seen device.old) (λ file. Only file (D.may_leave device.old) → LeavesOnly D.moment
            D.left_since device.old device.new (LeavesEnd file layout.now.whole (length self.bytes))) }
        ensures failed { IfErr result (λ e. e ≢ TooLong → HasRisen (D.faults device.old) (D.faults device.new)) }
        ensures fault { IfErr result (λ e. (e ≡ TooLong) ⊎ ((e ≡ Device) ⊎ (e ≡ Unsure))) }
    {
        let Changed {
            record,
            before: _,
            after,
        } = self;
        let longer = with_record(layout, record.len())?;
        let is_torn = layout.whole < layout.length;
        match append(device, layout.whole, is_torn, &record) {
            Ok(()) => Ok((WasKept::was(after), longer)),
            Err(AppendError::Unwritten) => Err(Fault::Device),
            Err(AppendError::Unsure) => Err(Fault::Unsure),
        }
    }
}

// The layout of a file with a record of so many bytes behind its whole ones.
fn with_record(layout: &Layout, count: usize) -> Result<Layout, Fault>
    ensures ok { IfOk result (λ longer. longer ≡ with_record layout.now count) }
    ensures err { IfErr result (λ e. e ≡ TooLong) }
{
    match layout.whole.checked_add(count as u64) {
        Some(end) => Ok(Layout {
            format: layout.format,
            snapshot: layout.snapshot,
            whole: end,
            length: end,
        }),
        None => Err(Fault::TooLong),
    }
}
