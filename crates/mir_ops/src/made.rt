//! What an operator or a cast makes: a number or a truth value, which stays in registers until its bytes are
//! stored.

ghost use Rattle.std.specs.Prelude.{◌≡◌, IfSome};
ghost use Rattle.std.specs.Int.{from_bool};
ghost use Rattle.numbers.specs.Bytes.{low_digits};
ghost use Rattle.mir_ops.specs.Made.{bytes_in, made_bytes};

/// How many bytes a number has that fits a register.
#[derive(Clone, Copy)]
pub(crate) enum Size {
    One,
    Two,
    Four,
    Eight,
}

/// What an operator or a cast makes. A number is in two's complement if it's signed.
#[derive(Clone, Copy)]
pub enum Made {
    /// A number of 1 byte: the lowest byte of a word.
    Word1(u64),
    /// A number of 2 bytes: the lowest ones of a word.
    Word2(u64),
    /// A number of 4 bytes: the lowest ones of a word.
    Word4(u64),
    /// A number of 8 bytes.
    Word8(u64),
    /// A number of 16 bytes.
    WideWord(u128),
    /// A truth value.
    Truth(bool),
}

impl Size {
    /// The size of a number of so many bytes, where that is 1, 2, 4 or 8.
    #[inline(always)]
    pub(crate) fn of(bytes: usize) -> Option<Size>
        ensures { IfSome result (λ size. bytes ≡ bytes_in size) }
    {
        match bytes {
            1 => Some(Size::One),
            2 => Some(Size::Two),
            4 => Some(Size::Four),
            8 => Some(Size::Eight),
            _ => None,
        }
    }
}

/// The number that the lowest bytes of a word are, as many as a size is.
#[inline(always)]
pub(crate) fn word_of(size: Size, word: u64) -> Made
    ensures { made_bytes result ≡ low_digits (bytes_in size) word }
{
    match size {
        Size::One => Made::Word1(word),
        Size::Two => Made::Word2(word),
        Size::Four => Made::Word4(word),
        Size::Eight => Made::Word8(word),
    }
}

/// The lowest byte of a word.
#[inline(always)]
pub fn bytes1(word: u64) -> [u8; 1]
    ensures { result ≡ low_digits 1 word }
{
    [(word % 0x100) as u8]
}

/// The lowest two bytes of a word, the lowest first.
#[inline(always)]
pub fn bytes2(word: u64) -> [u8; 2]
    ensures { result ≡ low_digits 2 word }
{
    ((word % 0x1_0000) as u16).to_le_bytes()
}

/// The lowest four bytes of a word, the lowest first.
#[inline(always)]
pub fn bytes4(word: u64) -> [u8; 4]
    ensures { result ≡ low_digits 4 word }
{
    ((word % 0x1_0000_0000) as u32).to_le_bytes()
}

/// The bytes of a word, the lowest first.
#[inline(always)]
pub fn bytes8(word: u64) -> [u8; 8]
    ensures { result ≡ low_digits 8 word }
{
    word.to_le_bytes()
}

/// The bytes of a number of 16 bytes, the lowest first.
#[inline(always)]
pub fn bytes16(word: u128) -> [u8; 16]
    ensures { result ≡ low_digits 16 word }
{
    word.to_le_bytes()
}

/// The byte of a truth value.
#[inline(always)]
pub fn byte_of(truth: bool) -> [u8; 1]
    ensures { result ≡ low_digits 1 (from_bool truth) }
{
    [truth as u8]
}
