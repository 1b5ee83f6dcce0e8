// What everyone uses: the refusals. Lists, sets as numbers, tests in an order, and "since" are definitions in specs/ with their laws in proofs/.
#![tactic(auto)]

ghost use Rattle.std.specs.Prelude.{◌≡◌};
ghost use Rattle.basics.specs.Refusals.{refusal_number};

// Why a call is refused, each with its number in document 01, "Refusal numbers", or document 02.
#[derive(Clone, Copy, PartialEq, Eq)]
pub enum Refusal {
    TooShort = 1,
    BarredMti = 2,
    BadNode = 3,
    BadContent = 4,
    OtherSource = 5,
    NoRoom = 6,
    OutOfBounds = 7,
    NoSuchPort = 8,
    NotInitialized = 9,
    NoSuchSlot = 10,
    NotAProducer = 11,
    NotAdvertised = 12,
    TooManyReplies = 13,
    NoBlock = 14,
    NoReport = 15,
    NotListed = 16,
    NotBegun = 17,
    PayloadTooLong = 18,
    WrongLength = 19,
    ThirdSender = 20,
    OtherHeader = 29,
}

impl From<Refusal> for u8 {
    ghost from_gives = { λ r n. n ≡ refusal_number r };

    fn from(refusal: Refusal) -> u8 {
        refusal as u8
    }
}
