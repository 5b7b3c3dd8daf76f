// Frames: two bytes of length, highest first, before each PDU.
ghost use Rattle.std.specs.Prelude.{◌<◌, length, IfSome};

// Frames that stand end to end.
#[derive(Clone, Copy)]
pub struct Frames<'a>(pub &'a [u8]);

impl<'a> Frames<'a> {
    // The PDU of the first frame, and the frames behind it; none where there is none, or it is cut short.
    pub fn first(self) -> Option<(&'a [u8], Frames<'a>)>
        ensures { IfSome result (λ p. length p.1.0.now < length self.entry.0.now) }
    {
        let (n, rest) = self.0.split_first_chunk::<2>()?;
        let (pdu, behind) = rest.split_at_checked(usize::from(u16::from_be_bytes(*n)))?;
        Some((pdu, Frames(behind)))
    }

    // How many there are; none where the last one is cut short.
    pub fn count(self) -> Option<usize> {
        let mut rest = self;
        let mut n = 0usize;
        while !rest.0.is_empty() {
            let (_, behind) = rest.first()?;
            n = n.saturating_add(1);
            rest = behind;
        }
        Some(n)
    }
}
