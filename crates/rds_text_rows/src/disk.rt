//! A file in memory that tears: a call may fail, and may be lost or cut short by a crash until the next sync.
ghost use Rattle.std.specs.Prelude.{◌≡◌, ◌≤◌, ◌∷◌, [], ◌++◌, length, take, Some, IfOk, OnErr, OnOk};
ghost use Rattle.rds_journal.specs.Device.{written, HasRisen};
ghost use Rattle.rds_text_rows.specs.Disks.{Outcome, OutcomeSince, counts_now, only_now};

use rds_journal::{Device, DeviceError};
use std::alloc::{AllocError, Global};

/// A call that was made. A sync also notes what stood in the file.
#[derive(Drop)]
pub enum Call {
    Write(u64, Vec<u8>),
    Shorten(u64),
    Sync(Vec<u8>),
}

/// Which call fails, and how long the file may become. No call has the number 0.
#[derive(Clone, Copy)]
pub struct Plan {
    pub fails_at: u64,
    pub room: u64,
}

/// A file in memory. All of it is on the disk at first.
#[derive(Drop)]
pub struct Disk {
    alloc: Global,
    plan: Plan,
    made: u64,
    failed: u64,
    first: Vec<u8>,
    calls: Vec<Call>,
    bytes: Vec<u8>,
}

impl Disk {
    ghost use Rattle.rds_text_rows.specs.Standing.{disk_bytes};

    /// A file with these bytes.
    pub fn new(alloc: Global, bytes: &[u8], plan: Plan) -> Result<Disk, AllocError>
        ensures { IfOk result (λ disk. disk_bytes disk ≡ bytes.now) }
    {
        Ok(Disk {
            alloc,
            plan,
            made: 0,
            failed: 0,
            first: bytes.to_vec(alloc)?,
            calls: Vec::new(alloc),
            bytes: bytes.to_vec(alloc)?,
        })
    }

    /// What stands in it.
    pub fn bytes(&self) -> &[u8] {
        &self.bytes
    }

    /// How many calls were noted.
    pub fn calls(&self) -> usize {
        self.calls.len()
    }

    /// What a crash leaves that loses all calls since the last sync but for so many first ones, and half of the next.
    pub fn after_crash(&self, kept: usize) -> Result<Vec<u8>, AllocError> {
        let mut file = self.first.to_vec(self.alloc)?;
        for (index, call) in self.calls.iter().enumerate() {
            match call {
                Call::Sync(bytes) => file = bytes.to_vec(self.alloc)?,
                Call::Write(at, bytes) if index < kept => overwrite(&mut file, *at, bytes)?,
                Call::Write(at, bytes) if index == kept => {
                    overwrite(&mut file, *at, &bytes[..bytes.len() / 2])?;
                }
                Call::Shorten(end) if index < kept => file.truncate(*end as usize),
                Call::Shorten(end) if index == kept => {
                    let lost = file.len().saturating_sub(*end as usize) / 2;
                    file.truncate(file.len().saturating_sub(lost));
                }
                _ => {}
            }
        }
        Ok(file)
    }
}

// Puts bytes over what stands there, and past the end.
fn overwrite(file: &mut Vec<u8>, at: u64, bytes: &[u8]) -> Result<(), AllocError> {
    let mut at = at as usize;
    for byte in bytes {
        match file.get_mut(at) {
            Some(old) => *old = *byte,
            None => file.push(*byte)?,
        }
        at = at.saturating_add(1);
    }
    Ok(())
}

impl Device for Disk {
    ghost seen = { λ d. Some d.bytes.items };

    ghost may_leave = { λ d. Outcome (λ c. c ≡ d.first.items) d.calls.items };

    ghost moment = { λ d. length d.calls.items };

    ghost left_since = { λ d. OutcomeSince (λ c. c ≡ d.first.items) d.calls.items };

    ghost faults = { λ d. d.failed };

    ghost counts_now = { λ d t c le now. counts_now (λ f. f ≡ d.first.items) d.calls.items t c le now };

    ghost only_now = { λ d c since. only_now (λ f. f ≡ d.first.items) d.calls.items c since };

    fn write_at(&mut self, at: u64, bytes: &[u8]) -> Result<(), DeviceError> {
        if bytes.is_empty() {
            return Ok(());
        }
        let count = self.plan.count(&mut self.made, at, bytes.len());
        let Ok(()) = put(
            self.alloc,
            &mut self.bytes,
            &mut self.calls,
            at,
            bytes,
            count,
        ) else {
            return Err(fail(&mut self.failed));
        };
        if count < bytes.len() {
            return Err(fail(&mut self.failed));
        }
        Ok(())
    }

    fn cut(&mut self, end: u64) -> Result<(), DeviceError> {
        let fails = self.plan.fails(&mut self.made);
        let Ok(()) = note_cut(&mut self.calls, fails, end) else {
            return Err(fail(&mut self.failed));
        };
        self.bytes.truncate(end as usize);
        Ok(())
    }

    fn sync(&mut self) -> Result<(), DeviceError> {
        let fails = self.plan.fails(&mut self.made);
        let Ok(()) = note_sync(self.alloc, &mut self.calls, fails, &self.bytes) else {
            return Err(fail(&mut self.failed));
        };
        Ok(())
    }
}

impl Plan {
    // Whether the next call fails.
    fn fails(&self, made: &mut u64) -> bool {
        *made = made.saturating_add(1);
        *made == self.fails_at
    }

    // How many bytes the next call writes of so many: half of them where it fails, and what there is room for.
    fn count(&self, made: &mut u64, at: u64, length: usize) -> usize
        ensures { result ≤ length }
    {
        let room = self.room.saturating_sub(at) as usize;
        if self.fails(made) {
            room.min(length / 2)
        } else {
            room.min(length)
        }
    }
}

// One failure more.
fn fail(failed: &mut u64) -> DeviceError
    ensures later { failed.old ≤ failed.new }
    ensures risen { HasRisen failed.old failed.new }
{
    *failed = failed.saturating_add(1);
    DeviceError
}

// Writes the first bytes of those, and notes the whole call.
fn put(
    alloc: Global,
    file: &mut Vec<u8>,
    calls: &mut Vec<Call>,
    at: u64,
    bytes: &[u8],
    count: usize,
) -> Result<(), AllocError>
    requires within { at ≤ length file.old.items }
    requires some { count ≤ length bytes.now }
    ensures written { OnOk result (file.new.items ≡ written file.old.items at (take count bytes.now)) }
    ensures unwritten { OnErr result (file.new.items ≡ file.old.items) }
    ensures noted { OnOk result ((v : _) × (v.items ≡ bytes.now)
        × (calls.new.items ≡ calls.old.items ++ Call.Write at v ∷ [])) }
    ensures unnoted { OnErr result (calls.new.items ≡ calls.old.items) }
{
    let start = at as usize;
    let mut next = file[..start].to_vec(alloc)?;
    next.extend_from_slice(&bytes[..count])?;
    if count < file.len() - start {
        next.extend_from_slice(&file[start + count..])?;
    }
    let all = bytes.to_vec(alloc)?;
    calls.push(Call::Write(at, all))?;
    *file = next;
    Ok(())
}

// Notes a cut, unless it fails.
fn note_cut(calls: &mut Vec<Call>, fails: bool, end: u64) -> Result<(), DeviceError>
    ensures noted { OnOk result (calls.new.items ≡ calls.old.items ++ Call.Shorten end ∷ []) }
    ensures unnoted { OnErr result (calls.new.items ≡ calls.old.items) }
{
    if fails || calls.push(Call::Shorten(end)).is_err() {
        return Err(DeviceError);
    }
    Ok(())
}

// Notes a sync, unless it fails.
fn note_sync(
    alloc: Global,
    calls: &mut Vec<Call>,
    fails: bool,
    file: &[u8],
) -> Result<(), DeviceError>
    ensures noted { OnOk result ((v : _) × (v.items ≡ file.now)
        × (calls.new.items ≡ calls.old.items ++ Call.Sync v ∷ [])) }
    ensures unnoted { OnErr result (calls.new.items ≡ calls.old.items) }
{
    if fails {
        return Err(DeviceError);
    }
    let Ok(bytes) = file.to_vec(alloc) else {
        return Err(DeviceError);
    };
    let Ok(()) = calls.push(Call::Sync(bytes)) else {
        return Err(DeviceError);
    };
    Ok(())
}
