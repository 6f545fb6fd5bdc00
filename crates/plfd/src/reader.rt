//! The reader: a cursor that keeps the bytes and the place reached.
ghost use Rattle.std.specs.Prelude.{◌≡◌, ◌≤◌, length};

#[derive(Debug, Drop)]
pub struct Reader<'a> {
    pub(crate) bytes: &'a [u8],
    pub(crate) place: usize,
    ghost within: { place ≤ length bytes.now },
}

impl<'a> Reader<'a> {
    /// A reader at the first of the bytes.
    pub fn new(bytes: &'a [u8]) -> Reader<'a>
        ensures bytes { result.bytes.now ≡ bytes.now }
        ensures place { result.place ≡ 0 }
    {
        Reader { bytes, place: 0 }
    }
}

impl Reader<'_> {
    ghost use Rattle.plfd.specs.Cursor.{ahead};

    /// The offset of the next byte.
    pub fn place(&self) -> usize
        ensures value { result ≡ self.now.place }
    {
        self.place
    }

    /// The bytes that are still ahead.
    pub fn ahead(&self) -> &[u8]
        ensures value { result.now ≡ ahead self.now }
    {
        &self.bytes[self.place..]
    }

    /// How many bytes are ahead.
    pub fn left(&self) -> usize
        ensures value { result ≡ length (ahead self.now) }
    {
        self.ahead().len()
    }
}
