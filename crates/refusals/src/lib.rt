// The refusals: one for each number that a call gives for what it does not do, and those that all calls share.

#![tactic(auto)]

ghost use Rattle.std.specs.Prelude.{◌≡◌};
ghost use Rattle.answers.specs.Calls.{refusal as refusal_of};
ghost use Rattle.refusals.specs.Numbers.{number_of, number_in};

// Why a call refuses, by the names that the header has.
#[derive(Clone, Copy, PartialEq, Eq, Debug)]
pub enum Refusal {
    Code,
    InputLength,
    OutputLength,
    LastSix,
    Stuck,
    Limit,
    Unsent,
    Parity,
    Broken,
    Places,
    NoStart,
    NoTail,
    NoBchWord,
    LastTwo,
    OtherParity,
    Sample,
    NoneNear,
    Reach,
    Edition,
    TooLong,
    BlockCheck,
    BlockNumber,
    BlockCount,
}

impl Refusal {
    // The number that C gets.
    pub fn number(self) -> u8
        ensures { result ≡ number_of self }
    {
        match self {
            Refusal::Code => 1,
            Refusal::InputLength => 2,
            Refusal::OutputLength => 3,
            Refusal::LastSix => 4,
            Refusal::Stuck => 5,
            Refusal::Limit => 6,
            Refusal::Unsent => 7,
            Refusal::Parity => 8,
            Refusal::Broken => 9,
            Refusal::Places => 10,
            Refusal::NoStart => 11,
            Refusal::NoTail => 12,
            Refusal::NoBchWord => 13,
            Refusal::LastTwo => 14,
            Refusal::OtherParity => 15,
            Refusal::Sample => 16,
            Refusal::NoneNear => 17,
            Refusal::Reach => 18,
            Refusal::Edition => 19,
            Refusal::TooLong => 20,
            Refusal::BlockCheck => 21,
            Refusal::BlockNumber => 22,
            Refusal::BlockCount => 23,
        }
    }
}

// The number of a call that gives nothing else: 0 where it is done.
pub fn number(done: Result<(), Refusal>) -> u8
    ensures { result ≡ number_in done }
{
    match done {
        Ok(()) => 0,
        Err(refusal) => refusal.number(),
    }
}

// Admits a call whose code is offered and whose input and output are as long as they must be; refused in this order.
pub fn admit(
    offered: bool,
    input: usize,
    long: usize,
    output: usize,
    room: usize,
) -> Result<(), Refusal>
    ensures { number_in result ≡ refusal_of offered input long output room }
{
    if !offered {
        return Err(Refusal::Code);
    }
    if input != long {
        return Err(Refusal::InputLength);
    }
    if output != room {
        return Err(Refusal::OutputLength);
    }
    Ok(())
}
