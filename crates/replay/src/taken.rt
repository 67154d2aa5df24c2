// What a dump is read by: its bytes, taken one after another. Past the end stand zeros.

// The bytes that are left.
#[derive(Drop)]
pub(crate) struct Source<'a> {
    pub left: &'a [u8],
}

impl Source<'_> {
    pub(crate) fn byte(&mut self) -> u8 {
        match self.left.split_first() {
            Some((b, left)) => {
                self.left = left;
                *b
            }
            None => 0,
        }
    }

    pub(crate) fn flag(&mut self) -> bool {
        self.byte() != 0
    }

    // A count in one byte.
    pub(crate) fn count(&mut self) -> usize {
        usize::from(self.byte())
    }

    pub(crate) fn two(&mut self) -> u16 {
        u16::from_le_bytes([self.byte(), self.byte()])
    }

    pub(crate) fn four(&mut self) -> [u8; 4] {
        [self.byte(), self.byte(), self.byte(), self.byte()]
    }
}

// What is restored from a dump: it takes the place of what was there. Any bytes give some record.
pub(crate) trait Restore {
    fn restore(&mut self, source: &mut Source);
}

// All elements, one after another.
impl<T: Restore, const N: usize> Restore for [T; N] {
    fn restore(&mut self, source: &mut Source) {
        for x in self {
            x.restore(source);
        }
    }
}
