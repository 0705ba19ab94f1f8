// What is asked for, in order.
use crate::{BRIEF, HostDisk, Request};
use outside::{Disk, Relay};
use std::test::Fail;

const BYTES: usize = 2048;

#[test]
fn writes_and_syncs_are_asked_for(rt: HostRuntime) -> Result<(), Fail> {
    let alloc = rt.alloc();
    let mut disk = HostDisk::new(alloc, vec![in alloc; 7; BYTES]?)?;
    assert!(rt; disk.is_settled());

    disk.write_at(3, b"abc")?;
    disk.write_at(8, &[0; BRIEF])?;
    disk.write_at(600, &[0; BRIEF + 1])?;
    disk.sync()?;
    disk.write_at(4, b"x")?;
    let expected = [
        Request::Write(3, Vec::from_slice(alloc, b"abc")?),
        Request::Write(8, vec![in alloc; 0; BRIEF]?),
        Request::Zeros(600, 513),
        Request::Sync,
        Request::Write(4, Vec::from_slice(alloc, b"x")?),
    ];
    assert_eq!(rt; disk.asked(), expected.as_slice());
    assert!(rt; !disk.is_settled());

    disk.settle();
    assert!(rt; disk.is_settled());
    assert_eq!(rt; disk.asked().len(), 0);

    let mut front = [0; 9];
    disk.read(0, &mut front)?;
    assert_eq!(rt; front, [7, 7, 7, 97, 120, 99, 7, 7, 0]);
    Ok(())
}
