//! Frames and checksums against those that the standard and its guides print.

ghost use Rattle.sw_drivers.specs.Frames.{IsSmall};

use std::test::Fail;
use sw_drivers::{Request, Wrapping, checksum, frame_of};

/// Whether this is the frame of a request to unit 17 over a serial line.
fn is_rtu(request: Request, bytes: &[u8]) -> bool
    requires { IsSmall request }
{
    frame_of(Wrapping::Rtu, 0, 17, request).as_slice() == bytes
}

fn is_tcp(number: u16, unit: u8, request: Request, bytes: &[u8]) -> bool
    requires { IsSmall request }
{
    frame_of(Wrapping::Tcp, number, unit, request).as_slice() == bytes
}

/// Function 2 to unit 2 is the example of the serial line's guide, `123456789` the check value of CRC catalogues.
#[test]
fn checksums_are_those_of_others(rt: HostRuntime) -> Result<(), Fail> {
    assert_eq!(rt; checksum(&[2, 7]), 0x1241);
    assert_eq!(rt; checksum(b"123456789"), 0x4B37);
    assert_eq!(rt; checksum(&[]), 0xFFFF);
    Ok(())
}

/// As pymodbus's ReadCoilsRequest, WriteSingleCoilRequest and WriteMultipleCoilsRequest are framed; the data of the
/// first and of the second are the examples of MODBUS Application Protocol V1.1b3, 6.1 and 6.5.
#[test]
fn frames_are_those_of_others(rt: HostRuntime) -> Result<(), Fail> {
    let read = Request::Read(19, 19);
    let write = Request::Write(172, true);
    let clear = Request::Clear(19, 10);
    let is_rtu = is_rtu(read, &[17, 1, 0, 19, 0, 19, 0x8E, 0x92])
        && is_rtu(write, &[17, 5, 0, 172, 255, 0, 0x4E, 0x8B])
        && is_rtu(clear, &[17, 15, 0, 19, 0, 10, 2, 0, 0, 0x2A, 0x5B]);
    assert!(rt; is_rtu);
    let is_tcp = is_tcp(258, 17, read, &[1, 2, 0, 0, 0, 6, 17, 1, 0, 19, 0, 19])
        && is_tcp(
            1,
            255,
            Request::Write(0, false),
            &[0, 1, 0, 0, 0, 6, 255, 5, 0, 0, 0, 0],
        )
        && is_tcp(
            1,
            1,
            clear,
            &[0, 1, 0, 0, 0, 9, 1, 15, 0, 19, 0, 10, 2, 0, 0],
        );
    assert!(rt; is_tcp);
    Ok(())
}
