// Why a call is refused: the numbers of document 01, "When a call says no", and of document 02. A number is never reused.

ghost use Rattle.std.specs.Prelude.{◌≡◌};
ghost use Rattle.util.specs.View.{number_of};

#[derive(Clone, Copy, Debug, PartialEq, Eq)]
pub enum Refusal {
    // An alignment is 0 or no power of two.
    AlignNotPowerOfTwo = 1,
    // The rounding word is 0.
    RoundingWordZero = 2,
    // A phase is not below its alignment.
    PhaseNotBelowAlign = 3,
    // A type's size is not a multiple of its alignment.
    SizeNotMultipleOfAlign = 4,
    // The packing is no power of two.
    PackingNotPowerOfTwo = 5,
    // An alignment or the packing is above 2^29, while a member is added.
    AlignAboveMax = 6,
    // A member comes after a trailing part.
    MemberAfterTrailing = 7,
    // Rounding up passes the greatest number.
    RoundingPassesMax = 8,
    // A member's size, offset or base passes the greatest number.
    MemberPassesMax = 9,
    // A cast with element size 0.
    CastElemSizeZero = 10,
    // Address plus length passes the greatest number.
    AddressPassesMax = 11,
    // A cast is not aligned.
    CastNotAligned = 12,
    // A cast has too few bytes.
    CastTooSmall = 13,
    // There is no exact count, the layout is fixed, or its element size is 0.
    NoExactCount = 14,
    // There is no size at this count.
    NoSize = 15,
    // The room is below the size at count 0.
    NoRoom = 16,
    // An advance passes the greatest number.
    AdvancePassesMax = 17,
    // The converted count passes the greatest number.
    ConvertedCountPassesMax = 19,
    // A record has not its length, 48 bytes or 32 of a short one, or a list no multiple of that.
    RecordLength = 20,
    // A record's kind is above the greatest.
    Kind = 21,
    // A fixed record has a later word that is not 0.
    FixedRecord = 22,
    // A scalar code is above the greatest.
    ScalarCode = 23,
    // A lent slice has another length than there are members.
    SliceLength = 24,
    // No conversion: the source alignment is lower.
    SourceAlignLower = 25,
    // No conversion: two fixed sizes differ.
    FixedSizesDiffer = 26,
    // No conversion: trailing goes to fixed.
    TrailingToFixed = 27,
    // No conversion: a fixed source has no exact count.
    SourceNoExactCount = 28,
    // No conversion: a trailing target has element size 0.
    TargetElemSizeZero = 29,
    // No conversion: the source element is the smaller.
    SourceElemSmaller = 30,
    // No conversion: the source element is no whole multiple of the target's.
    ElemNoMultiple = 31,
    // No conversion: no shift lines the sizes up.
    NoShift = 32,
    // A description's bytes run out.
    DescriptionCut = 33,
    // A description's tag is unknown, or a power in it is above the greatest.
    TagOrPower = 34,
    // More parts of a description are open than may be.
    NestingTooDeep = 35,
    // The element of an array or a slice is trailing.
    ElemTrailing = 36,
    // An array's size passes the greatest number.
    ArrayPassesMax = 37,
    // Bytes are left over behind a description.
    BytesLeftOver = 38,
    // Not even count 0 has a size.
    NoSizeAtZero = 39,
    // The rounding word of a record needs more bits than a short one has.
    WordAboveShort = 40,
    // The output of a move is too short.
    OutputShort = 41,
    // A short record's spare bytes are not zero, or its power is above the greatest.
    SpareOrPower = 42,
    // A number of a record or of a description does not fit the width.
    NumberPassesWidth = 43,
    // A struct's member count is above that of one byte.
    CountAboveByte = 44,
    // The output of a rewriting is too short.
    RewriteShort = 45,
    // The base of a layout's normal form passes the greatest number.
    FormBasePassesMax = 46,
    // The length of the lists is above the greatest.
    ListsTooLong = 47,
    // The buffer cannot hold all cases.
    CasesShort = 48,
    // An alignment and a packing are both asked for.
    AlignAndPacked = 49,
    // A packed composition takes a member with an alignment modifier.
    AlignModifierInPacked = 50,
    // There are no counts.
    NoCounts = 51,
    // The end of the elements is above the size.
    EndAboveSize = 52,
    // A sum over counts passes the greatest number.
    SumPassesMax = 53,
}

impl Refusal {
    // Its number.
    pub fn number(self) -> u64
        ensures { result ≡ number_of self }
    {
        self as u64
    }
}

// A refusal about a list, and its place there. It is made by its fields where one is refused: a function of the two would say
// no more.
#[derive(Clone, Copy, Debug, PartialEq, Eq)]
pub struct RefusedAt<P> {
    pub refusal: Refusal,
    pub place: P,
}

// A place among bytes, as a number of 64 bits.
impl From<RefusedAt<usize>> for RefusedAt<u64> {
    ghost from_gives = { λ at stop. stop ≡ at };

    #[inline(always)]
    fn from(at: RefusedAt<usize>) -> RefusedAt<u64> {
        RefusedAt {
            refusal: at.refusal,
            place: at.place as u64,
        }
    }
}
