// The list of calls taken apart from the front. A call that is not whole is cut.
use crate::stop::Stop;
use std::array;
use types::{EntityId, LocalEntityConfig, PutRequest, RemoteEntityConfig, TransactionSeqNum};

// What is left of the list.
#[derive(Clone, Copy)]
pub struct Calls<'a>(pub &'a [u8]);

impl<'a> Calls<'a> {
    pub fn len(&self) -> usize {
        self.0.len()
    }

    // The kind of the next call, if there is one.
    pub fn kind(&mut self) -> Option<u8> {
        self.0.split_off_first().copied()
    }

    fn bytes<const N: usize>(&mut self) -> Result<[u8; N], Stop> {
        let (bytes, rest) = self.0.split_first_chunk::<N>().ok_or(Stop::Cut)?;
        self.0 = rest;
        Ok(*bytes)
    }

    fn run(&mut self, n: usize) -> Result<&'a [u8], Stop> {
        self.0.split_off(..n).ok_or(Stop::Cut)
    }

    pub fn byte(&mut self) -> Result<u8, Stop> {
        self.kind().ok_or(Stop::Cut)
    }

    // A number in eight bytes.
    pub fn long(&mut self) -> Result<u64, Stop> {
        Ok(u64::from_be_bytes(self.bytes()?))
    }

    // A length or a place in four bytes.
    pub fn length(&mut self) -> Result<usize, Stop> {
        Ok(u32::from_be_bytes(self.bytes()?) as usize)
    }

    // A name behind two bytes of length.
    pub fn name(&mut self) -> Result<&'a [u8], Stop> {
        let n = u16::from_be_bytes(self.bytes()?);
        self.run(usize::from(n))
    }

    // A delivery behind four bytes of length.
    pub fn delivery(&mut self) -> Result<&'a [u8], Stop> {
        let n = self.length()?;
        self.run(n)
    }

    // An id or a number: width, then eight bytes of value.
    pub fn entity(&mut self) -> Result<EntityId, Stop> {
        Ok(EntityId(self.byte()?, self.long()?))
    }

    pub fn number(&mut self) -> Result<TransactionSeqNum, Stop> {
        Ok(TransactionSeqNum(self.byte()?, self.long()?))
    }

    // 28 bytes.
    fn entry(&mut self) -> Result<RemoteEntityConfig, Stop> {
        let id = self.entity()?;
        let maxpacket = self.long()?;
        let maxsegment = self.long()?;
        let checksum = self.byte()?;
        let flags = self.byte()?;
        let limit = self.byte()?;
        Ok(RemoteEntityConfig {
            id,
            maxpacket,
            maxsegment,
            checksum,
            crc: flags & 1 != 0,
            unacknowledged: flags & 2 != 0,
            closure: flags & 4 != 0,
            limit,
        })
    }

    // 251 bytes: local id 9, actions 16, event flags 1, count 1, eight entries.
    pub fn config(&mut self) -> Result<LocalEntityConfig, Stop> {
        let id = self.entity()?;
        let actions = self.bytes()?;
        let flags = self.byte()?;
        let count = self.byte()?;
        let remotes = array::try_from_fn(|_| self.entry())?;
        Ok(LocalEntityConfig {
            id,
            actions,
            eofsent: flags & 1 != 0,
            finished: flags & 2 != 0,
            remotes,
            count: usize::from(count),
        })
    }

    // 0: not given; 1: no; any other: yes.
    fn choice(&mut self) -> Result<Option<bool>, Stop> {
        let b = self.byte()?;
        if b == 0 {
            return Ok(None);
        }
        Ok(Some(b != 1))
    }

    // 11 bytes: destination, mode, closure.
    pub fn request(&mut self) -> Result<PutRequest, Stop> {
        Ok(PutRequest {
            destination: self.entity()?,
            unacknowledged: self.choice()?,
            closure: self.choice()?,
        })
    }
}
