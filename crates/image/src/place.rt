// The image place, and the bytes in it.
ghost use Rattle.std.specs.Prelude.{◌≡◌, true};
ghost use Rattle.admission.specs.FirstFault.{sound};

// A place for an image: the empty image, or bytes that admission has found without a fault.
#[derive(Clone, Copy)]
pub struct Image<'a> {
    pub(crate) bytes: &'a [u8],
    ghost sound: { sound bytes.now ≡ true },
}

impl<'a> Image<'a> {
    // The image's bytes.
    pub fn bytes(&self) -> &'a [u8]
        ensures { result.now ≡ self.now.bytes.now }
    {
        self.bytes
    }
}
