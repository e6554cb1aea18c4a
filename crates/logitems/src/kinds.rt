// The kinds of item: one byte, then a body whose length the kind fixes.
ghost use Rattle.std.specs.Prelude.{◌≡◌};
ghost use Rattle.logitems.specs.Kinds.{body_length, byte_of, Decodes};

#[derive(Clone, Copy, PartialEq, Eq)]
pub enum Kind {
    Start,
    Open,
    Sample,
    Enter,
    Withdraw,
    Ask,
    // Opens a day of several periods.
    Capture,
    // An edition of the report rules.
    Edition,
}

// A byte that stands for no kind.
#[derive(Clone, Copy)]
pub struct UnknownKind(pub u8);

impl TryFrom<u8> for Kind {
    type Error = UnknownKind;

    ghost try_from_gives = { Decodes };

    fn try_from(byte: u8) -> Result<Self, UnknownKind> {
        match byte {
            1 => Ok(Kind::Start),
            2 => Ok(Kind::Open),
            3 => Ok(Kind::Sample),
            4 => Ok(Kind::Enter),
            5 => Ok(Kind::Withdraw),
            6 => Ok(Kind::Ask),
            7 => Ok(Kind::Capture),
            8 => Ok(Kind::Edition),
            _ => Err(UnknownKind(byte)),
        }
    }
}

// Order, taps and slots.
const START_BODY: usize = 4;

const DAY_BODY: usize = 2;

const SAMPLE_BODY: usize = 3;

// The day, and how many periods count.
const CAPTURE_BODY: usize = 3;

const EDITION_BODY: usize = 1;

const NO_BODY: usize = 0;

impl Kind {
    // How many bytes follow it.
    pub fn body_length(self) -> usize
        ensures { result ≡ body_length (byte_of self) }
    {
        match self {
            Kind::Start => START_BODY,
            Kind::Open | Kind::Withdraw => DAY_BODY,
            Kind::Sample => SAMPLE_BODY,
            Kind::Capture => CAPTURE_BODY,
            Kind::Edition => EDITION_BODY,
            Kind::Enter | Kind::Ask => NO_BODY,
        }
    }
}

// How many bytes follow a byte, whatever it is: none after one that stands for no kind.
pub fn body_length(kind: u8) -> usize
    ensures { result ≡ body_length kind }
{
    match Kind::try_from(kind) {
        Ok(kind) => kind.body_length(),
        Err(_) => NO_BODY,
    }
}
