// The bit reader (document 01, "The image"): the record of the image bytes and the next bit's place.
ghost use Rattle.std.specs.Prelude.{◌≤◌, ◌≡◌, length};
ghost use Rattle.bitreader.specs.Window.{window, seen};

// How many bytes of an image are looked at, at most.
const WINDOW: usize = 32768;

// The bytes of an image that are looked at, and the place of the next bit.
#[derive(Clone, Copy)]
pub struct BitReader<'a> {
    pub image: &'a [u8],
    pub at: usize,
    ghost narrow: { length image.now ≤ window },
}

impl<'a> BitReader<'a> {
    // The reader of an image, at its first bit.
    pub fn new(image: &'a [u8]) -> BitReader<'a>
        ensures first { result.at ≡ 0 }
        ensures bytes { result.image.now ≡ seen image.now }
    {
        let image = if image.len() < WINDOW {
            image
        } else {
            &image[..WINDOW]
        };
        BitReader { image, at: 0 }
    }

    // The place of the next bit.
    pub fn place(&self) -> usize
        ensures { result ≡ self.now.at }
    {
        self.at
    }

    // The reader put back to a place.
    pub fn back_to(&mut self, place: usize)
        ensures { (self.new.at ≡ place) × (self.new.image ≡ self.old.image) }
    {
        self.at = place;
    }
}
