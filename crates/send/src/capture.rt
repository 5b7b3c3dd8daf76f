// A capture of the pass for packet readers: classic pcap, highest byte first, link type 147 (USER0). There is no clock: record k, counted from 0, has the
// time of k microseconds.
use crate::files;
use send_text::tell::WrongAt;
use send_text::words::Named;
use std::fs::File;
use std::io;
use std::io::{Cursor, Write};

// Magic, version 2.4, zone and accuracy 0, at most 65,535 bytes a record, link type.
const HEADER: &[u8] =
    b"\xa1\xb2\xc3\xd4\x00\x02\x00\x04\x00\x00\x00\x00\x00\x00\x00\x00\x00\x00\xff\xff\x00\x00\x00\x93";

// The capture, begun anew.
pub fn open(rt: &HostRuntime, named: Named) -> Result<File, WrongAt> {
    let mut file = files::open_over(rt, named)?;
    file.write_all(HEADER).map_err(|e| WrongAt::Capture(e))?;
    Ok(file)
}

// Record k, whole in the capture: seconds and microseconds, the PDU's length as captured and as it was, and the PDU. It is put together in the space and
// written by one call; an answer may be longer than that: what has no room is written behind it.
pub fn keep(capture: &File, k: u64, pdu: &[u8], space: &mut [u8]) -> io::Result<()> {
    let mut file = capture;
    let mut out = Cursor::new(&mut *space);
    let length = pdu.len() as u64;
    for n in [k / 1000000, k % 1000000, length, length] {
        out.write_all(&n.to_be_bytes()[4..])?;
    }
    let front = out.write(pdu)?;
    let end = out.position() as usize;
    file.write_all(space.get(..end).unwrap_or(&[]))?;
    file.write_all(&pdu[front..])
}
