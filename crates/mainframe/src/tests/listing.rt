//! Checking listings over memory, and over readers and writers that fail.

use crate::fault::RunFault;
use crate::listing::{check_listing, program_layout};
use std::alloc::Global;
use std::io;
use std::io::{ErrorKind, Read, Write};
use std::test::Fail;

/// Three passes round two channels. The first loop goes back to this step.
const THREE_PASSES: &[u8] =
    b"scan 1\nmeter 4\nset 0 1\nset 1 1\nset 2 1\nclose 1!1\nread\nopen 1!1\nclose 1!2\nread\n\
    open 1!2\nloop 2 3\nclose 1!1\nread\nopen 1!1\nloop 1 2\nloop 0 1\nhalt\n";

/// The same with a word that is none on its sixth line.
const MISSPELLED: &[u8] =
    b"scan 1\nmeter 4\nset 0 1\nset 1 1\nset 2 1\ncloss 1!1\nread\nopen 1!1\nclose 1!2\nread\n\
    open 1!2\nloop 2 3\nclose 1!1\nread\nopen 1!1\nloop 1 2\nloop 0 1\nhalt\n";

/// The same as the newer version lists it, with a counter more.
const THREE_PASSES_NOW: &[u8] =
    b"scan 2\nmeter 4\nset 0 1\nset 1 1\nset 2 1\nset 3 1\nclose 1!1\nread\nopen 1!1\nclose 1!2\nread\n\
    open 1!2\nloop 3 4\nclose 1!1\nread\nopen 1!1\nloop 2 3\nloop 1 2\nloop 0 1\nhalt\n";

/// Whether the listing is answered so, with this verdict and exit status.
fn says(alloc: Global, listing: &[u8], told: &[u8], status: u8) -> bool {
    let mut reader = listing;
    let mut out = Vec::new(alloc);
    let Ok(layout) = program_layout(alloc) else {
        return false;
    };
    let exit = match check_listing(alloc, &mut reader, &mut out, &layout) {
        Ok(checked) => checked.status(),
        Err(_) => return false,
    };
    reader.is_empty() && out.as_slice() == told && exit == status
}

#[test]
fn listings_are_judged(rt: HostRuntime) -> Result<(), Fail> {
    let alloc = rt.alloc();
    assert!(rt; says(alloc, THREE_PASSES, b"ok bound 3 readings 3\n", 0));
    assert!(rt;
        says(
            alloc,
            b"scan 1\nmeter 4\nhalt\n",
            b"ok bound 0 readings 0\n",
            0
        )
    );
    assert!(rt; says(alloc, b"scan 1\nmeter 1\nhalt\n", b"refused 3 NoMeter\n", 3));
    assert!(rt; says(alloc, b"scan 1\n", b"line 2: BadStep\n", 3));
    assert!(rt; says(alloc, MISSPELLED, b"line 6: BadStep\n", 3));
    Ok(())
}

#[test]
fn listings_of_the_newer_version_are_judged(rt: HostRuntime) -> Result<(), Fail> {
    let alloc = rt.alloc();
    assert!(rt; says(alloc, THREE_PASSES_NOW, b"ok bound 3 readings 3\n", 0));
    assert!(rt;
        says(
            alloc,
            b"scan 2\nmeter 4\ntimer arm3 1\nwait arm3\nhalt\n",
            b"ok bound 2 readings 0\n",
            0
        )
    );
    assert!(rt;
        says(
            alloc,
            b"scan 2\nmeter 16\nhalt\n",
            b"refused 3 NoMeter\n",
            3
        )
    );
    assert!(rt;
        says(
            alloc,
            b"scan 1\nmeter 4\nwait arm3\nhalt\n",
            b"line 3: BadStep\n",
            3
        )
    );
    assert!(rt; says(alloc, b"scan 99\nmeter 4\nhalt\n", b"line 1: BadStep\n", 3));
    Ok(())
}

/// Fails at its second read.
#[derive(Drop)]
struct Broken {
    given: bool,
}

impl Read for Broken {
    fn read(&mut self, buf: &mut [u8]) -> io::Result<usize> {
        if self.given || buf.len() < 7 {
            return Err(io::Error::from(ErrorKind::BrokenPipe));
        }
        self.given = true;
        buf[..7].copy_from_slice(b"scan 1\n");
        Ok(7)
    }
}

#[test]
fn a_read_fails_in_a_listing(rt: HostRuntime) -> Result<(), Fail> {
    let mut out = Vec::new(rt.alloc());
    let checked = check_listing(
        rt.alloc(),
        &mut Broken { given: false },
        &mut out,
        &program_layout(rt.alloc())?,
    );
    assert!(rt; matches!(checked, Err(RunFault::Input)));
    assert!(rt; out.is_empty());
    Ok(())
}

/// Takes five bytes, and then none.
#[derive(Drop)]
struct Full {
    taken: Vec<u8>,
}

impl Write for Full {
    fn write(&mut self, buf: &[u8]) -> io::Result<usize> {
        let room = 5 - self.taken.len().min(5);
        let n = buf.len().min(room);
        match self.taken.extend_from_slice(&buf[..n]) {
            Ok(()) => Ok(n),
            Err(_) => Ok(0),
        }
    }

    fn flush(&mut self) -> io::Result<()> {
        Ok(())
    }
}

#[test]
fn a_write_fails_in_an_answer(rt: HostRuntime) -> Result<(), Fail> {
    let mut writer = Full {
        taken: Vec::new(rt.alloc()),
    };
    let checked = check_listing(
        rt.alloc(),
        &mut b"".as_slice(),
        &mut writer,
        &program_layout(rt.alloc())?,
    );
    assert!(rt; matches!(checked, Err(RunFault::Output)));
    assert_eq!(rt; writer.taken.as_slice(), b"line ".as_slice());
    Ok(())
}
