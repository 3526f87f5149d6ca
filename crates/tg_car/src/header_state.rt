//! The header of a CAR, looked at byte by byte: it is refused at the first byte after which no header goes on.
ghost use Rattle.std.specs.Prelude.{◌≡◌, ℕ, ◌+◌, ◌-◌, ◌≤◌, ◌<◌, ◌↔◌, List, [], ◌∷◌, ◌++◌, IsTrue, MatchBool};
ghost use Rattle.std.specs.Prelude.{MatchOption};
ghost use Rattle.tg_car.specs.CarText.{HeaderText};
ghost use Rattle.tg_car.specs.Fronts.{IsInHeader};
ghost use Rattle.tg_car.specs.HeaderState.{FollowsHeader, GoesOn, CanBe, IsMapSize};
ghost use Rattle.tg_car.specs.declared.header_state.Roots.{Roots};

// The bytes of the map before the array of roots, and those behind it.
const FRONT: [u8; 7] = [0xa2, 0x65, b'r', b'o', b'o', b't', b's'];

const BACK: [u8; 9] = [0x67, b'v', b'e', b'r', b's', b'i', b'o', b'n', 1];

/// Roots that are still to come: how many, and how many bytes their texts have together.
#[derive(Clone, Copy)]
pub(crate) struct Roots {
    count: u8,
    bytes: u16,
}

/// What of a header is to come. It is a few numbers, whatever the header's length.
#[derive(Clone, Copy)]
pub(crate) enum HeaderState {
    /// The whole header.
    Length,
    /// The second byte of the length, whose first byte was this one, and the map.
    SecondByte { first: u8 },
    /// The map of `size` bytes but for its first `at`.
    Front { at: u8, size: u16 },
    /// The map of `size` bytes from the head of the array on.
    ArrayHead { size: u16 },
    /// The same behind the first byte of a head of two.
    ArrayCount { size: u16 },
    /// The roots, and the end of the map.
    Root { roots: Roots },
    /// The same behind the first byte of the first root.
    Tag { roots: Roots },
    /// The same from the head of the first root's byte string on.
    StringHead { roots: Roots },
    /// The same behind the first byte of a head of two.
    StringSize { roots: Roots },
    /// A byte string of `size` bytes that begins with zero, these roots, and the end of the map.
    Zero { size: u8, roots: Roots },
    /// So many bytes of a root, these roots, and the end of the map.
    Bytes { left: u8, roots: Roots },
    /// The end of the map but for its first `at` bytes.
    Back { at: u8 },
}

impl Roots {
    /// Whether any roots are so many and have so many bytes together. A root has 5 to 204 bytes, and none has 27.
    fn can_be(self) -> bool
        ensures { IsTrue result ↔ CanBe self.count self.bytes }
    {
        let count = u16::from(self.count);
        match count {
            0 => self.bytes == 0,
            1 => 5 <= self.bytes && self.bytes <= 204 && self.bytes != 27,
            _ => 5 * count <= self.bytes && self.bytes <= 204 * count,
        }
    }

    /// The roots behind the first one, which has `size` bytes, or none where no roots go on so.
    fn behind(self, size: u16) -> Option<Roots>
        ensures { MatchOption result (CanBe (self.count - 1) (self.bytes - size) → size ≤ self.bytes → 0 < self.count
            → ⊥)
            (λ rest. CanBe rest.count rest.bytes × (rest.count + 1 ≡ self.count) × (rest.bytes + size ≡ self.bytes)) }
    {
        let rest = Roots {
            count: self.count.checked_sub(1)?,
            bytes: self.bytes.checked_sub(size)?,
        };
        rest.can_be().then_some(rest)
    }
}

impl HeaderState {
    /// Before the first byte.
    pub(crate) fn new() -> HeaderState
        ensures { FollowsHeader result [] }
    {
        HeaderState::Length
    }

    /// The state behind one more byte, or none where no header goes on so.
    pub(crate) fn step(self, byte: u8) -> Option<HeaderState>
        ensures { (bytes : List ℕ) → FollowsHeader self bytes
            → MatchOption result ((roots : List (List ℕ)) (more : List ℕ) → HeaderText roots (bytes ++ byte ∷ more) → ⊥)
            (λ next. FollowsHeader next (bytes ++ byte ∷ [])) }
    {
        self.next(byte)
    }

    /// Whether the header is whole.
    pub(crate) fn is_whole(&self) -> bool
        ensures { (bytes : List ℕ) → FollowsHeader self.now bytes
            → MatchBool result ((roots : List (List ℕ)) × HeaderText roots bytes) (IsInHeader bytes) }
    {
        match self {
            HeaderState::Back { at } => *at == 9,
            _ => false,
        }
    }

    /// The state behind one more byte, by what may follow in each.
    fn next(self, byte: u8) -> Option<HeaderState>
        ensures { GoesOn self byte result }
    {
        match self {
            HeaderState::Length => first_byte(byte),
            HeaderState::SecondByte { first } => second_byte(first, byte),
            HeaderState::Front { at, size } => front(at, size, byte),
            HeaderState::ArrayHead { size } => array_head(size, byte),
            HeaderState::ArrayCount { size } => array_count(size, byte),
            HeaderState::Root { roots } => root(roots, byte),
            HeaderState::Tag { roots } => {
                (byte == 0x2a).then_some(HeaderState::StringHead { roots })
            }
            HeaderState::StringHead { roots } => string_head(roots, byte),
            HeaderState::StringSize { roots } => string_size(roots, byte),
            HeaderState::Zero { size, roots } => zero(size, roots, byte),
            HeaderState::Bytes { left, roots } => root_byte(left, roots, byte),
            HeaderState::Back { at } => back(at, byte),
        }
    }
}

/// The state behind the first byte of the length.
fn first_byte(byte: u8) -> Option<HeaderState>
    ensures { GoesOn HeaderState.Length byte result }
{
    if byte >= 128 {
        return Some(HeaderState::SecondByte { first: byte });
    }
    map_of(u16::from(byte))
}

/// The state behind the second and last byte of the length.
fn second_byte(first: u8, byte: u8) -> Option<HeaderState>
    ensures { GoesOn (HeaderState.SecondByte first) byte result }
{
    if byte == 0 || byte >= 128 {
        return None;
    }
    map_of(u16::from(first % 128) + 128 * u16::from(byte))
}

/// The state before a map of `size` bytes, or none where no map has so many.
fn map_of(size: u16) -> Option<HeaderState>
    ensures { MatchOption result (IsMapSize size → ⊥) (λ state. (state ≡ HeaderState.Front 0 size) × IsMapSize size) }
{
    (size == 17 || (22 <= size && size <= 13074)).then_some(HeaderState::Front { at: 0, size })
}

/// The state behind a byte of the map before the array of roots.
fn front(at: u8, size: u16, byte: u8) -> Option<HeaderState>
    ensures { GoesOn (HeaderState.Front at size) byte result }
{
    if *FRONT.get(usize::from(at))? != byte {
        return None;
    }
    match at {
        6 => Some(HeaderState::ArrayHead { size }),
        _ => Some(HeaderState::Front { at: at + 1, size }),
    }
}

/// The state behind the head of the array or its first byte.
fn array_head(size: u16, byte: u8) -> Option<HeaderState>
    ensures { GoesOn (HeaderState.ArrayHead size) byte result }
{
    match byte {
        0x80..=0x97 => roots_of(byte - 0x80, size.checked_sub(17)?),
        0x98 => (138 <= size).then_some(HeaderState::ArrayCount { size }),
        _ => None,
    }
}

/// The state behind the second byte of the array's head, which counts the roots.
fn array_count(size: u16, byte: u8) -> Option<HeaderState>
    ensures { GoesOn (HeaderState.ArrayCount size) byte result }
{
    match byte {
        24..=64 => roots_of(byte, size.checked_sub(18)?),
        _ => None,
    }
}

/// The state before so many roots of so many bytes, or none where no roots are so.
fn roots_of(count: u8, bytes: u16) -> Option<HeaderState>
    ensures { MatchOption result (CanBe count bytes → ⊥)
        (λ state. (state ≡ HeaderState.Root (record { count = count; bytes = bytes })) × CanBe count bytes) }
{
    let roots = Roots { count, bytes };
    roots.can_be().then_some(HeaderState::Root { roots })
}

/// The state behind the first byte of a root, or of the end of the map where no roots are left.
fn root(roots: Roots, byte: u8) -> Option<HeaderState>
    ensures { GoesOn (HeaderState.Root roots) byte result }
{
    if roots.count == 0 {
        return back(0, byte);
    }
    (byte == 0xd8).then_some(HeaderState::Tag { roots })
}

/// The state behind the head of a root's byte string or its first byte.
fn string_head(roots: Roots, byte: u8) -> Option<HeaderState>
    ensures { GoesOn (HeaderState.StringHead roots) byte result }
{
    match byte {
        0x42..=0x57 => string_of(byte - 0x40, 3, roots),
        0x58 => (5 * u16::from(roots.count) + 23 <= roots.bytes).then_some(HeaderState::StringSize {
            roots,
        }),
        _ => None,
    }
}

/// The state behind the second byte of the head of a byte string, which counts its bytes.
fn string_size(roots: Roots, byte: u8) -> Option<HeaderState>
    ensures { GoesOn (HeaderState.StringSize roots) byte result }
{
    match byte {
        24..=200 => string_of(byte, 4, roots),
        _ => None,
    }
}

/// The state before a byte string of `size` bytes, which stand behind `head` bytes of the first of these roots.
fn string_of(size: u8, head: u16, roots: Roots) -> Option<HeaderState>
    requires { head ≤ 4 }
    ensures { MatchOption result (CanBe (roots.count - 1) (roots.bytes - (size + head)) → size + head ≤ roots.bytes
        → 0 < roots.count → ⊥)
        (λ state. (rest : Roots) × (state ≡ HeaderState.Zero size rest) × CanBe rest.count rest.bytes
        × (rest.count + 1 ≡ roots.count) × (rest.bytes + (size + head) ≡ roots.bytes)) }
{
    let roots = roots.behind(u16::from(size) + head)?;
    Some(HeaderState::Zero { size, roots })
}

/// The state behind the first byte of a root's byte string of `size` bytes, which is zero.
fn zero(size: u8, roots: Roots, byte: u8) -> Option<HeaderState>
    ensures { GoesOn (HeaderState.Zero size roots) byte result }
{
    if byte != 0 {
        return None;
    }
    let left = size.checked_sub(1)?;
    Some(HeaderState::Bytes { left, roots })
}

/// The state behind a further byte of a root, of which so many were left.
fn root_byte(left: u8, roots: Roots, byte: u8) -> Option<HeaderState>
    ensures { GoesOn (HeaderState.Bytes left roots) byte result }
{
    match left {
        0 | 1 => Some(HeaderState::Root { roots }),
        _ => Some(HeaderState::Bytes {
            left: left - 1,
            roots,
        }),
    }
}

/// The state behind a byte of the end of the map.
fn back(at: u8, byte: u8) -> Option<HeaderState>
    ensures { GoesOn (HeaderState.Back at) byte result }
{
    if *BACK.get(usize::from(at))? != byte {
        return None;
    }
    Some(HeaderState::Back { at: at + 1 })
}
