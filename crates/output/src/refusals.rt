// Why a call is refused: the numbers of documents 01 and 02.
ghost use Rattle.std.specs.Prelude.{◌≡◌};
ghost use Rattle.output.specs.Refusals.{number, number_of};
ghost use Rattle.output.specs.declared.refusals.Unwritten.TheVariants.{Refused};

// 3 carries the length that is needed besides: of a call that writes, `Unwritten` tells it.
#[derive(Clone, Copy, Debug, PartialEq, Eq)]
pub enum Refusal {
    NotAPackage = 1,
    BadStart = 2,
    OutputTooShort = 3,
    NotAPartName = 4,
    Reserved = 5,
    BadSuffix = 6,
    BadType = 7,
    BadRelationshipField = 8,
    BadTarget = 9,
    Taken = 10,
    Derivable = 11,
    PiecesDisagree = 12,
    NotHeld = 13,
    NoMediaType = 14,
    Full = 15,
    UnreadableLine = 16,
    BadPieceCount = 17,
    WrongForm = 18,
    MalformedStream = 19,
    TooDeep = 20,
}

impl Refusal {
    pub fn number(self) -> u8
        ensures { result ≡ number self }
    {
        self as u8
    }
}

// Why a call writes nothing: its output has not so many bytes, or it is refused for another reason.
#[derive(Clone, Copy, Debug, PartialEq, Eq)]
pub enum Unwritten {
    TooShort(usize),
    Refused(Refusal),
}

impl From<Refusal> for Unwritten {
    ghost from_gives = { λ r u. u ≡ Refused r };

    fn from(r: Refusal) -> Unwritten {
        Unwritten::Refused(r)
    }
}

// The number of a judgement, 0 where it refuses nothing.
pub fn number_of(judged: Result<(), Refusal>) -> u8
    ensures { result ≡ number_of judged }
{
    match judged {
        Ok(()) => 0,
        Err(r) => r.number(),
    }
}
