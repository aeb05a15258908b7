//! Addresses in the memory of a run.

ghost use Rattle.std.specs.Prelude.{◌≡◌, ◌^◌, ◌<◌};
ghost use Rattle.std.specs.Option.{SomeIff};
ghost use Rattle.std.specs.Int.{w64, to_le_bytes};
ghost use Rattle.mir.specs.Addresses.{address_of, usize_of, moved};

/// A place on the stack or on the heap, or a number that is the address of neither.
#[derive(Clone, Copy, PartialEq, Eq, Debug)]
pub enum Address {
    Stack(u64),
    Heap(u64),
    Invalid(u64),
}

/// A range of bytes: the address of the first one, and how many there are.
#[derive(Clone, Copy, PartialEq, Eq, Debug)]
pub struct Interval {
    pub addr: Address,
    pub size: u64,
}

/// How many bytes a cell has, and which number divides its address.
#[derive(Clone, Copy, PartialEq, Eq, Debug)]
pub struct CellSize {
    pub size: u64,
    pub align: u64,
}

impl Address {
    /// The address that a `usize` of the target stands for.
    pub fn from_usize(it: u64) -> Address
        ensures { result ≡ address_of it }
    {
        if it > 0x1000_0000_0000_0000 {
            Address::Stack(it - 0x1000_0000_0000_0000)
        } else if it > 0x800_0000_0000_0000 {
            Address::Heap(it - 0x800_0000_0000_0000)
        } else {
            Address::Invalid(it)
        }
    }

    /// The `usize` of the target that stands for the address.
    pub fn to_usize(&self) -> u64
        requires { usize_of self.now < 2 ^ 64 }
        ensures { result ≡ usize_of self.now }
    {
        match *self {
            Address::Stack(place) => place + 0x1000_0000_0000_0000,
            Address::Heap(place) => place + 0x800_0000_0000_0000,
            Address::Invalid(number) => number,
        }
    }

    /// That `usize` in bytes, the lowest first.
    pub fn to_bytes(&self) -> [u8; 8]
        requires { usize_of self.now < 2 ^ 64 }
        ensures { result ≡ to_le_bytes w64 (usize_of self.now) }
    {
        self.to_usize().to_le_bytes()
    }

    /// The address `by` bytes further on, where a `usize` stands for it.
    pub fn offset(&self, by: u64) -> Option<Address>
        ensures { SomeIff result (usize_of (moved self.now by) < 2 ^ 64) (moved self.now by) }
    {
        match *self {
            Address::Stack(place) => {
                let sum = place.checked_add(by)?;
                sum.checked_add(0x1000_0000_0000_0000)?;
                Some(Address::Stack(sum))
            }
            Address::Heap(place) => {
                let sum = place.checked_add(by)?;
                sum.checked_add(0x800_0000_0000_0000)?;
                Some(Address::Heap(sum))
            }
            Address::Invalid(number) => {
                let sum = number.checked_add(by)?;
                Some(Address::Invalid(sum))
            }
        }
    }
}
