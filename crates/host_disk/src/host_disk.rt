// A disk in memory, whose writes and syncs the host does in its file.
ghost use Rattle.std.specs.Prelude.{◌≡◌, ◌≤◌, ◌+◌, ◌++◌, ◌∷◌, ◌↔◌, [], length, map, take, drop, refl, true, false, IfOk, OnOk, OnErr, IsErr, IsOk, IsTrue};
ghost use Rattle.outside.specs.Disk.{AreWithin, Follows, IsOnly, IsTorn, overwritten};
ghost use Rattle.outside.specs.Faults.{one_more};
ghost use Rattle.host_disk.specs.HostState.{MayBeLeft, Relays};
ghost use Rattle.host_disk.specs.Order.{is_settled, order_of, write_order};
ghost use Rattle.host_disk.specs.Order.Order.{SyncOrder};

use crate::Request;
use outside::{Disk, Failed, Image, Relay};
use std::alloc::{AllocError, Global};
use std::marker::Model;

/// So many bytes from a place on.
#[derive(Clone, Copy)]
pub(crate) struct Range {
    at: u64,
    count: u64,
}

/// A disk whose bytes are in memory. Each write and each sync is a [`Request`], which the host does in its file, in this order.
///
/// What a read gives is what the host's file holds once it did all that was asked for, where the file held the bytes of `new`. After a crash each range that was
/// written since the last sync may hold any bytes, and the others stay. Both are said of a host that has done all that was asked for: before that a crash may leave what
/// it may have left earlier, so what a sync makes safe may be told on only once the disk is settled.
///
/// A write or a sync fails only where no memory was left. Then it asks for nothing, and no more than the count of faults changes. `crash` does nothing here.
///
/// A clause sees it as a `HostState`.
#[derive(Drop)]
pub struct HostDisk {
    bytes: Vec<u8>,
    /// The ranges that were written since the last sync.
    written: Vec<Range>,
    asked: Vec<Request>,
    faults: u64,
}

impl Model for HostDisk {
    ghost use Rattle.std.specs.Prelude.{map};
    ghost use Rattle.host_disk.specs.HostState.{HostState};
    ghost use Rattle.host_disk.specs.Order.{order_of};

    ghost Value = { HostState };

    ghost view = { λ d. record {
      bytes = d.bytes.items;
      written = d.written.items;
      asked = map order_of d.asked.items;
      faults = d.faults;
    } };
}

impl HostDisk {
    /// The disk with these bytes, which a read of the file gave. Until the first sync a crash may leave any others. Nothing is asked for.
    ///
    /// # Errors
    ///
    /// Where no memory was left.
    pub fn new(alloc: Global, bytes: Vec<u8>) -> Result<HostDisk, AllocError>
        ensures { IfOk result (λ d. d ≡ record {
          bytes = bytes.items;
          written = record { at = 0; count = length bytes.items } ∷ [];
          asked = [];
          faults = 0;
        }) }
    {
        let whole = Range {
            at: 0,
            count: bytes.len() as u64,
        };
        Ok(HostDisk {
            bytes,
            written: vec![in alloc; whole]?,
            asked: Vec::new(alloc),
            faults: 0,
        })
    }

    /// What is asked for, in order.
    pub fn asked(&self) -> &[Request]
        ensures { map order_of result.now ≡ self.now.asked }
    {
        &self.asked
    }

    // Counts a call that failed.
    fn failed(&mut self) -> Result<(), Failed>
        ensures failed { IsErr result }
        ensures counted { self.new ≡ record self.old { faults = one_more self.old.faults } }
        ensures grows { self.old.faults ≤ self.new.faults }
    {
        self.faults = self.faults.saturating_add(1);
        Err(Failed)
    }

    // Asks for a write, and puts the bytes.
    fn ask_write(&mut self, at: u64, from: &[u8]) -> Result<(), AllocError>
        requires { at + length from.now ≤ length self.old.bytes }
        ensures relays { OnOk result (Relays (write_order at from.now) self.old self.new) }
        ensures written { OnOk result
            (self.new.written ≡ self.old.written ++ record { at = at; count = length from.now } ∷ []) }
        ensures same { OnOk result (self.new.faults ≡ self.old.faults) }
        ensures failed { OnErr result (self.new ≡ self.old) }
    {
        let request = Request::to_write(*self.bytes.allocator(), at, from)?;
        let range = Range {
            at,
            count: from.len() as u64,
        };
        push_both(&mut self.written, range, &mut self.asked, request)?;
        put(&mut self.bytes, at as usize, from);
        Ok(())
    }
}

// Pushes onto both lists, or onto neither.
fn push_both(
    ranges: &mut Vec<Range>,
    range: Range,
    requests: &mut Vec<Request>,
    request: Request,
) -> Result<(), AllocError>
    ensures range { OnOk result (ranges.new.items ≡ ranges.old.items ++ range ∷ []) }
    ensures request { OnOk result (requests.new.items ≡ requests.old.items ++ request ∷ []) }
    ensures no_range { OnErr result (ranges.new.items ≡ ranges.old.items) }
    ensures no_request { OnErr result (requests.new.items ≡ requests.old.items) }
{
    ranges.reserve(1)?;
    requests.push(request)?;
    match ranges.push(range) {
        Ok(()) => Ok(()),
        Err(_) => unreachable!(),
    }
}

// Puts bytes over those that are there.
fn put(into: &mut Vec<u8>, at: usize, from: &[u8])
    requires { at + length from.now ≤ length into.old.items }
    ensures { into.new.items ≡ overwritten into.old.items at from.now }
{
    into[at..at + from.len()].copy_from_slice(from);
}

impl Disk for HostDisk {
    ghost honest = { true };

    ghost size = { λ d. length d.bytes };

    ghost seen = { λ d. d.bytes };

    ghost image = { MayBeLeft };

    ghost leaves = { λ _ d. MayBeLeft d };

    ghost obeys = { false };

    ghost images = { λ _. record { kept = []; synced = []; torn = [] } };

    ghost faults = { λ d. d.faults };

    fn len(&self) -> u64
        ensures { result ≡ length self.now.bytes }
    {
        self.bytes.len() as u64
    }

    fn read(&mut self, at: u64, into: &mut [u8]) -> Result<(), Failed>
        requires { at + length into.old ≤ length self.old.bytes }
        ensures sure { IsOk result }
        ensures bytes { into.new ≡ take (length into.old) (drop at self.old.bytes) }
        ensures same { self.new ≡ self.old }
    {
        let from = at as usize;
        into.copy_from_slice(&self.bytes[from..from + into.len()]);
        Ok(())
    }

    fn write_at(&mut self, at: u64, from: &[u8]) -> Result<(), Failed>
        requires { at + length from.now ≤ length self.old.bytes }
        ensures relays { OnOk result (Relays (write_order at from.now) self.old self.new) }
        ensures put { OnOk result (self.new.bytes ≡ overwritten self.old.bytes at from.now) }
        ensures written { OnOk result
            (self.new.written ≡ self.old.written ++ record { at = at; count = length from.now } ∷ []) }
        ensures smooth { OnOk result (self.new.faults ≡ self.old.faults) }
        ensures failed { OnErr result (self.new ≡ record self.old { faults = one_more self.old.faults }) }
        ensures images { Follows (IsTorn at (length from.now)) (MayBeLeft self.old) (MayBeLeft self.new) }
        ensures size { length self.new.bytes ≡ length self.old.bytes }
        ensures grows { self.old.faults ≤ self.new.faults }
    {
        match self.ask_write(at, from) {
            Ok(()) => Ok(()),
            Err(_) => self.failed(),
        }
    }

    fn sync(&mut self) -> Result<(), Failed>
        ensures relays { OnOk result (Relays SyncOrder self.old self.new) }
        ensures written { OnOk result (self.new.written ≡ []) }
        ensures durable { OnOk result (IsOnly self.old.bytes (MayBeLeft self.new)) }
        ensures smooth { OnOk result (self.new.faults ≡ self.old.faults) }
        ensures failed { OnErr result (self.new ≡ record self.old { faults = one_more self.old.faults }) }
        ensures images { AreWithin (MayBeLeft self.old) (MayBeLeft self.new) }
        ensures bytes { self.new.bytes ≡ self.old.bytes }
        ensures grows { self.old.faults ≤ self.new.faults }
    {
        if self.asked.push(Request::Sync).is_err() {
            return self.failed();
        }
        self.written.clear();
        Ok(())
    }

    fn crash(&mut self, _wish: Image)
        ensures { self.new ≡ self.old }
    {}

    ghost sees = { λ d h. record { long = refl; same = λ i outside. refl } };

    ghost among = { λ wish d c h left. left };

    ghost long = { λ d c h left. left.long };

    ghost tells = { λ o. refl };

    ghost kept = { λ d o. absurd (Prim.cc) };
}

impl Relay for HostDisk {
    ghost is_settled = { λ d. is_settled d.asked };

    fn is_settled(&self) -> bool
        ensures value { result ≡ is_settled self.now.asked }
        ensures settled { IsTrue result ↔ (self.now.asked ≡ []) }
    {
        self.asked.is_empty()
    }

    fn settle(&mut self)
        ensures { self.new ≡ record self.old { asked = [] } }
    {
        self.asked.clear();
    }
}
