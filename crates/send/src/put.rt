// What the words of the command line ask of a put.
use send_text::words::{FILE, LONGEST, Words};
use types::{
    EntityId, LocalEntityConfig, PutRequest, Refusal, RemoteEntityConfig, State, TransactionSeqNum,
};

// One remote entity, and every fault cancels.
fn config(w: Words) -> LocalEntityConfig {
    let remote = RemoteEntityConfig {
        id: EntityId(w.idwidth, w.to),
        maxpacket: w.packet,
        maxsegment: w.segment,
        checksum: w.checksum,
        crc: w.crc,
        unacknowledged: w.unacknowledged,
        closure: w.closure,
        limit: w.limit.unwrap_or(1),
    };
    LocalEntityConfig {
        id: EntityId(w.idwidth, w.from),
        actions: [1; 16],
        eofsent: true,
        finished: true,
        remotes: [remote; 8],
        count: 1,
    }
}

fn request(w: Words) -> PutRequest {
    PutRequest {
        destination: EntityId(w.idwidth, w.to),
        unacknowledged: None,
        closure: None,
    }
}

// A new handler with one put: a file of so many bytes, whose name goes for both names that are not given; for the destination's the source's goes first.
pub fn put(rt: &HostRuntime, w: Words, size: usize) -> Result<State, Refusal> {
    let from = w.source.unwrap_or(FILE);
    let to = w.dest.unwrap_or(from);
    let mut from_word = [0u8; LONGEST];
    let mut to_word = [0u8; LONGEST];
    let source = from.read(rt, &mut from_word);
    let dest = to.read(rt, &mut to_word);
    let mut state = source::new(TransactionSeqNum(w.seqwidth, w.number));
    source::put(&mut state, config(w), request(w), source, dest, size as u64)?;
    Ok(state)
}
