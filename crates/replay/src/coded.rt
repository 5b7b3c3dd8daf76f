// A list of calls as the stream has it: behind a zero stands the count of zeros that it stands for.
use stream::Stream;

// A coded list written out over zeros, as far as there is room; answers its length, which may be more.
pub fn spread(coded: &[u8], out: &mut [u8]) -> usize {
    let mut rest = Stream(coded);
    let mut k: usize = 0;
    while !rest.is_empty() {
        let b = rest.byte();
        if b == 0 {
            k = k.saturating_add(usize::from(rest.byte()));
        } else if let Some(place) = out.get_mut(k) {
            *place = b;
            k += 1;
        }
    }
    k
}
