// What vectors are made of beside bytes and numbers: the length of a run or a list, a header.
ghost use Rattle.std.specs.Prelude.{◌<◌};

use stream::Stream;
use types::{EntityId, Head, TransactionSeqNum};

pub fn length(v: &mut Stream) -> usize
    ensures { result < 65536 }
{
    (v.number(2) % 65536) as usize
}

// A header takes 27 bytes.
pub fn head(v: &mut Stream) -> Head {
    let flags = v.byte();
    let idw = v.byte();
    let source = v.number(8);
    let seqw = v.byte();
    let number = v.number(8);
    let destination = v.number(8);
    Head {
        unacknowledged: flags & 1 != 0,
        crc: flags & 2 != 0,
        large: flags & 4 != 0,
        source: EntityId(idw, source),
        number: TransactionSeqNum(seqw, number),
        destination: EntityId(idw, destination),
    }
}
