//! Listings that are verified against a cage, and what each refusal is given for.

use std::alloc::Global;
use std::test::Fail;
use sw_code::read_listing;
use sw_verify::{Layout, Refusal, Slot, verify};

/// Twenty channels of group 1 in slot 1, sixteen of none in slot 2, ten of group 1 in slot 3, and a meter in slot 4.
fn cage(alloc: Global) -> Result<Layout, Fail> {
    let mut slots = Vec::new(alloc);
    slots.push(Slot::relays([1; 20].to_vec(alloc)?))?;
    slots.push(Slot::relays([0; 16].to_vec(alloc)?))?;
    slots.push(Slot::relays([1; 10].to_vec(alloc)?))?;
    slots.push(Slot::meter())?;
    Ok(Layout::new(slots))
}

/// The bound and the readings of a listing with nothing closed and room for 100,000 readings, or its refusal.
fn judged(alloc: Global, listing: &[u8]) -> Result<Result<(u128, u128), Refusal>, Fail> {
    let layout = cage(alloc)?;
    let code = read_listing(alloc, listing)?;
    match verify(alloc, code, &layout, &[], 100_000) {
        Ok(verified) => Ok(Ok((verified.bound(), verified.readings()))),
        Err(refusal) => Ok(Err(refusal)),
    }
}

/// Whether a listing is judged so.
fn gives(
    alloc: Global,
    listing: &[u8],
    wanted: Result<(u128, u128), Refusal>,
) -> Result<bool, Fail> {
    Ok(judged(alloc, listing)? == wanted)
}

#[test]
fn verified_counts(rt: HostRuntime) -> Result<(), Fail> {
    let example =
        b"scan 1\nmeter 4\nset 0 1\nset 1 1\nset 2 1\nclose 1!1\nread\nopen 1!1\nclose 1!2\nread\nopen 1!2\n\
          loop 2 3\nclose 1!1\nread\nopen 1!1\nloop 1 2\nloop 0 1\nhalt\n";
    assert!(rt; gives(rt.alloc(), example, Ok((3, 3)))?);
    assert!(rt; gives(rt.alloc(), b"scan 1\nmeter 4\nhalt\n", Ok((0, 0)))?);
    let long =
        b"scan 1\nmeter 4\nset 0 100000\nset 1 100000\nset 2 100000\npause 1\nloop 2 3\nloop 1 2\nloop 0 1\nhalt\n";
    assert!(rt; gives(rt.alloc(), long, Ok((1_000_000_000_000_000, 0)))?);
    let much =
        b"scan 1\nmeter 4\nset 0 100000\nset 1 100000\nset 2 100000\nread\nloop 2 3\nloop 1 2\nloop 0 1\nhalt\n";
    assert!(rt; gives(rt.alloc(), much, Err(Refusal::TooManyReadings))?);
    Ok(())
}

#[test]
fn verified_refusals(rt: HostRuntime) -> Result<(), Fail> {
    let alloc = rt.alloc();
    assert!(rt; gives(alloc, b"scan 1\nmeter 1\nhalt\n", Err(Refusal::NoMeter))?);
    assert!(rt; gives(alloc, b"scan 1\nmeter 4\n", Err(Refusal::BadNesting))?);
    assert!(rt;
        gives(
            alloc,
            b"scan 1\nmeter 4\nset 0 2\nset 0 2\nread\nloop 0 2\nloop 0 1\nhalt\n",
            Err(Refusal::BadNesting)
        )?
    );
    assert!(rt;
        gives(
            alloc,
            b"scan 1\nmeter 4\nset 0 2\nread\nloop 0 0\nhalt\n",
            Err(Refusal::BadJump)
        )?
    );
    let past_its_body =
        b"scan 1\nmeter 4\nset 0 1\nset 1 1\nset 2 1\nclose 1!1\nread\nopen 1!1\nclose 1!2\nread\nopen 1!2\n\
          loop 2 3\nclose 1!1\nread\nopen 1!1\nloop 1 3\nloop 0 1\nhalt\n";
    assert!(rt; gives(alloc, past_its_body, Err(Refusal::BadJump))?);
    assert!(rt;
        gives(
            alloc,
            b"scan 1\nmeter 4\nclose 1!1\nread\nhalt\n",
            Err(Refusal::LeftClosed)
        )?
    );
    assert!(rt;
        gives(
            alloc,
            b"scan 1\nmeter 4\nset 0 2\nclose 2!1\nread\nloop 0 1\nopen 2!1\nhalt\n",
            Err(Refusal::LeftClosed)
        )?
    );
    assert!(rt;
        gives(
            alloc,
            b"scan 1\nmeter 4\nopen 1!1\nread\nhalt\n",
            Err(Refusal::NotClosed)
        )?
    );
    assert!(rt;
        gives(
            alloc,
            b"scan 1\nmeter 4\nclose 1!1\nclose 3!1\nhalt\n",
            Err(Refusal::GroupClash)
        )?
    );
    assert!(rt;
        gives(
            alloc,
            b"scan 1\nmeter 4\nclose 1!21\nhalt\n",
            Err(Refusal::NoChannel)
        )?
    );
    Ok(())
}
