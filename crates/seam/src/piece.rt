// The steps of a burst that are made in place: a data PDU of the first pass or of a repair, with as many bytes as a PDU may carry and more to follow. It moves the start of what
// is left, the checksum of the first pass and the report, and is never refused: any other step is left to `tsendrivaty_step`.
ghost use Rattle.std.specs.Prelude.{◌≡◌, true, ◌+◌, ◌≤◌, length};
ghost use Rattle.basis.specs.Laid.{in_front};
ghost use Rattle.seam.specs.Pieces.{request_due, serves, has_more, has_room, is_piece, piece_bytes, piece_report, advanced, piece_held};

use crate::taken::head_taken;
use pdu_write::file_data::FileData;
use seam_rules::memory::{Handler, Report, Transaction};
use types::{FileParams, FinishedParams, SegmentRequest, TransactionStep};

// The request that the next step serves: the oldest, else what is left of the first pass.
#[tactic(auto, unfolding(crate::specs::Pieces::request_due, rules::specs::Queues::oldest))]
fn request_due(h: &Handler) -> SegmentRequest
    ensures { result ≡ request_due h.now }
{
    if h.queue.count > 0 {
        h.queue.places[0]
    } else {
        SegmentRequest {
            start: h.file.progress,
            end: h.transaction.size,
        }
    }
}

// Whether requests are served in this state at all.
#[tactic(auto, unfolding(crate::specs::Pieces::serves))]
fn serves(h: &Handler) -> bool
    ensures { result ≡ serves h.now }
{
    h.marks.owed == 0 && (h.queue.count > 0 || h.step == TransactionStep::SendingFileData as u8)
}

// A piece of `segment` bytes of this request is not its last, and all of it is in the file.
#[tactic(auto, unfolding(crate::specs::Pieces::has_more))]
fn has_more(segment: u64, q: SegmentRequest, size: u64) -> bool
    ensures { result ≡ has_more segment q size }
{
    q.end <= size && q.start < q.end && segment < q.end - q.start
}

// Whether there is room for a PDU with `segment` bytes.
fn has_room(t: &Transaction, room: usize) -> bool
    ensures { result ≡ has_room t.now room }
{
    let n = pdu_write::file_data::file_data_length(head_taken(t), 0);
    n <= room && t.segment as usize <= room - n
}

#[tactic(auto, unfolding(crate::specs::Pieces::is_piece))]
pub fn is_piece(h: &Handler, lent: usize, room: usize) -> bool
    ensures { result ≡ is_piece h.now lent room }
{
    serves(h)
        && lent as u64 == h.transaction.size
        && has_more(h.transaction.segment, request_due(h), h.transaction.size)
        && has_room(&h.transaction, room)
}

// Its PDU in front of out; its length.
pub fn put_piece(h: &Handler, file: &[u8], out: &mut [u8]) -> usize
    requires { is_piece h.now (length file.now) (length out.old) ≡ true }
    ensures value { result ≡ length (piece_bytes h.now file.now) }
    ensures out_after { out.new ≡ in_front (piece_bytes h.now file.now) out.old }
{
    let head = head_taken(&h.transaction);
    let q = request_due(h);
    let a = q.start as usize;
    let e = a + h.transaction.segment as usize;
    let body = FileData {
        offset: q.start,
        bytes: &file[a..e],
    };
    pdu_write::body::put(out, head, body)
}

// No events.
#[tactic(auto, unfolding(crate::specs::Pieces::piece_report))]
fn piece_report(t: &Transaction, n: usize) -> Report
    ensures { result ≡ piece_report t.now n }
{
    Report {
        length: n as u64,
        source: t.source,
        number: t.number,
        ..crate::events::no_report()
    }
}

// The first pass past a piece: only the bytes of the piece are read.
fn advanced(t: &Transaction, f: FileParams, file: &[u8]) -> FileParams
    requires { f.progress + t.now.segment ≤ length file.now }
    ensures { result ≡ advanced t.now file.now f }
{
    let a = f.progress as usize;
    let e = a + t.segment as usize;
    FileParams {
        progress: f.progress + t.segment,
        sum: checksum::sum_on(t.checksum, f.sum, f.progress, &file[a..e]),
    }
}

// The memory after it: the request's start moves past the bytes sent.
pub fn move_piece(h: &mut Handler, file: &[u8], n: usize)
    requires { (has_more h.old.transaction.segment (request_due h.old) h.old.transaction.size ≡ true) × (length file.now ≡ h.old.transaction.size) }
    ensures { h.new ≡ piece_held h.old file.now n }
{
    h.report = piece_report(&h.transaction, n);
    if h.queue.count > 0 {
        h.queue.places[0].start += h.transaction.segment;
    } else {
        h.file = advanced(&h.transaction, h.file, file);
    }
}
