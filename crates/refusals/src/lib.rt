// Why a call declines: the numbers of documents 01 and 02, by name. 12 is not given.
#![tactic(auto)]

ghost use Rattle.std.specs.Prelude.{◌≡◌};
ghost use Rattle.refusals.specs.Numbers.{number, number_of};

#[derive(Clone, Copy, Debug, PartialEq, Eq)]
pub enum Refusal {
    BadPorts,
    BadOffset,
    SlotStale,
    SlotEarly,
    BadLimit,
    BadBlockLen,
    OutTooShort,
    BadLen,
    BadType,
    BadCheck,
    BadGrantField,
    BadLedger,
    BadTrace,
    BadOperator,
    QueuesFull,
    BadQueues,
    BadCapture,
}

impl Refusal {
    pub fn number(self) -> u8
        ensures { result ≡ number self }
    {
        match self {
            Refusal::BadPorts => 1,
            Refusal::BadOffset => 2,
            Refusal::SlotStale => 3,
            Refusal::SlotEarly => 4,
            Refusal::BadLimit => 5,
            Refusal::BadBlockLen => 6,
            Refusal::OutTooShort => 7,
            Refusal::BadLen => 8,
            Refusal::BadType => 9,
            Refusal::BadCheck => 10,
            Refusal::BadGrantField => 11,
            Refusal::BadLedger => 13,
            Refusal::BadTrace => 14,
            Refusal::BadOperator => 15,
            Refusal::QueuesFull => 16,
            Refusal::BadQueues => 17,
            Refusal::BadCapture => 18,
        }
    }
}

// What C is told of how a call ended.
pub fn number_of<T: Copy>(done: Result<T, Refusal>) -> u8
    ensures { result ≡ number_of done }
{
    match done {
        Ok(_) => 0,
        Err(why) => why.number(),
    }
}
