//! The bytes of a store.
ghost use Rattle.std.specs.Prelude.{◌≡◌, ◌≤◌, length, IfOk};

use crate::steps::{ABORTED, ACK, COMMITTED, DONE, NO, Step, YES, answers, disk, doubts};
use dtx_values::Note;
use kv_resource::{KV_BYTES, Kv, KvRefusal};
use outside::{Disk, MemDisk};
use std::alloc::{AllocError, Global};
use std::test::Fail;

/// The open slot of transaction 1 and enlistment 1, which wrote 30 to key 3 and 70 to key 7. Zeros follow.
const TWO: [u8; 36] = [
    1, 1, 2, 0, 1, 0, 0, 0, 1, 0, 0, 0, 3, 0, 0, 0, 30, 0, 0, 0, 0, 0, 0, 0, 7, 0, 0, 0, 70, 0, 0,
    0, 0, 0, 0, 0,
];

/// What is found: who is in doubt, and what key 7 has.
#[derive(Clone, Copy, PartialEq, Eq, Debug)]
struct Found(Option<(u64, u32)>, Option<u64>);

const DOUBT: Result<Found, u64> = Ok(Found(Some((1, 1)), None));

const EMPTY: Result<Found, u64> = Ok(Found(None, None));

/// A place of a store with that slot as its first, other bytes there, and what is found then, or the place of what is bad.
const CHANGES: [(u64, &[u8], Result<Found, u64>); 34] = [
    (1024, &[0], DOUBT),
    (512, &[7], EMPTY),
    (512, &[2], EMPTY),
    (513, &[2], Err(513)),
    (514, &[0], Err(514)),
    (514, &[41], Err(514)),
    (515, &[1], Err(514)),
    (514, &[40], Err(548)),
    (514, &[1], Err(536)),
    (516, &[0], Err(516)),
    (517, &[1], Err(516)),
    (516, &[0, 1], Ok(Found(Some((256, 1)), None))),
    (520, &[0], Err(520)),
    (520, &[15, 39], Ok(Found(Some((1, 9999)), None))),
    (520, &[16, 39], Err(520)),
    (524, &[7], Err(536)),
    (536, &[3], Err(536)),
    (536, &[255, 255, 255, 255], DOUBT),
    (548, &[1], Err(548)),
    (1004, &[1], Err(1004)),
    (1018, &[1], Err(1018)),
    (1019, &[2], Ok(Found(Some((131_073, 1)), None))),
    (1022, &[1], Ok(Found(Some((1_099_511_627_777, 1)), None))),
    (1023, &[1], Ok(Found(None, Some(70)))),
    (1023, &[2], DOUBT),
    (1023, &[255], DOUBT),
    (0, b"X", Err(0)),
    (8, &[1], Err(8)),
    (511, &[1], Err(511)),
    (3072, &[1], Err(3073)),
    (3072, &[2, 1], DOUBT),
    (524_288, &[1], Err(524_289)),
    (524_799, &[1], DOUBT),
    (519, &[1], Err(516)),
];

/// Writes bytes that fit to a disk.
fn overwrite(disk: &mut MemDisk, at: u64, bytes: &[u8])
    ensures { length disk.new.images.kept ≡ length disk.old.images.kept }
{
    let n = bytes.len() as u64;
    if disk.len() == KV_BYTES && n <= KV_BYTES && at <= KV_BYTES - n {
        let _ = disk.write_at(at, bytes);
    }
}

/// A store spelled by hand, with that slot and these bytes.
fn spelled(alloc: Global, at: u64, bytes: &[u8]) -> Result<MemDisk, AllocError>
    ensures { IfOk result (λ d. length d.images.kept ≡ KV_BYTES) }
{
    let mut disk = disk(alloc, &[])?;
    overwrite(&mut disk, 0, b"DTXKV01\n");
    overwrite(&mut disk, 512, &TWO);
    overwrite(&mut disk, at, bytes);
    Ok(disk)
}

/// What is found in the store on a disk, or why that is none.
fn read(alloc: Global, disk: MemDisk) -> Result<Found, KvRefusal>
    requires { KV_BYTES ≤ length disk.images.kept }
{
    match Kv::from_disk(alloc, disk) {
        Ok(store) => Ok(Found(doubts(&store)[0], store.get(7))),
        Err((refusal, _disk)) => Err(refusal),
    }
}

#[test]
fn names_the_first_bad_place(rt: HostRuntime) -> Result<(), Fail> {
    for (at, bytes, want) in CHANGES {
        let want = match want {
            Ok(found) => Ok(found),
            Err(place) => Err(KvRefusal::NotAStore(place)),
        };
        let disk = spelled(rt.alloc(), at, bytes)?;
        assert!(rt; read(rt.alloc(), disk) == want, "at {at}");
    }
    let zeros = disk(rt.alloc(), &[])?;
    assert!(rt; read(rt.alloc(), zeros) == Err(KvRefusal::NotAStore(0)));
    Ok(())
}

/// What a store does whose slot 1,022 is open.
const LAST: [Step; 14] = [
    Step::Put(9, 1, 1, 1, None),
    Step::On(9, 1, Note::Prepare, YES),
    Step::Put(9, 2, 2, 2, None),
    Step::On(9, 2, Note::Prepare, NO),
    Step::On(9, 2, Note::Prepare, DONE),
    Step::Put(9, 3, 33, 3, None),
    Step::On(9, 3, Note::Hand, ABORTED),
    Step::On(9, 3, Note::Commit, ACK),
    Step::On(1, 1, Note::Hand, COMMITTED),
    Step::Has(7, Some(70)),
    Step::On(9, 1, Note::Commit, ACK),
    Step::Has(1, Some(1)),
    Step::Put(9, 4, 4, 4, None),
    Step::On(9, 4, Note::Hand, ABORTED),
];

#[test]
fn has_no_slot_above_the_last(rt: HostRuntime) -> Result<(), Fail> {
    let mut disk = disk(rt.alloc(), &[])?;
    overwrite(&mut disk, 0, b"DTXKV01\n");
    overwrite(&mut disk, 523_776, &TWO);
    match Kv::from_disk(rt.alloc(), disk) {
        Ok(mut store) => {
            for step in LAST {
                let as_wanted = answers(&mut store, step)?;
                assert!(rt; as_wanted, "{step:?}");
            }
        }
        Err(_) => return Err("no store".into()),
    }
    Ok(())
}
