//! The words of the calls: phases, answers, jobs, refusals and outcomes, with their numbers.
#![tactic(auto)]

ghost use Rattle.std.specs.Prelude.{◌≡◌};
ghost use Rattle.words.specs.Numbers.{answer_byte, job_number, refusal_number};

/// What a controller is doing.
#[derive(Clone, Copy, Debug, PartialEq, Eq)]
pub enum Phase {
    Waiting,
    Listening,
    Running,
}

/// The single byte that answers a host.
#[derive(Clone, Copy, Debug, PartialEq, Eq)]
pub enum Answer {
    Done = 0x00,
    HeaderError = 0x51,
    ChecksumError = 0x52,
    PacketZeroError = 0x53,
    PacketSizeError = 0x54,
    InvalidParams = 0xC5,
    IncorrectCommand = 0xC6,
    Version = 0xA0,
}

impl From<Answer> for u8 {
    ghost from_gives = { λ a n. n ≡ answer_byte a };

    fn from(answer: Answer) -> u8 {
        answer as u8
    }
}

/// What was at work when the supply went.
#[derive(Clone, Copy, Debug, PartialEq, Eq)]
pub enum Job {
    Copy = 1,
    MarkErase = 2,
    DownloadErase = 3,
    HostCommand = 4,
}

impl From<Job> for u8 {
    ghost from_gives = { λ j n. n ≡ job_number j };

    fn from(job: Job) -> u8 {
        job as u8
    }
}

/// Why a call is refused. A lost supply comes with the first place of the change that it stopped, and with the job.
#[derive(Clone, Copy, Debug, PartialEq, Eq)]
pub enum Refusal {
    BadLayout,
    SupplyLost { place: usize, job: Job },
    PastEnd,
    WrongSize,
    MarkNotErased,
    NotListening,
    MalformedInput,
}

impl Refusal {
    /// A refusal is more than its number, so this is no conversion.
    pub fn number(self) -> u8
        ensures { result ≡ refusal_number self }
    {
        match self {
            Refusal::BadLayout => 1,
            Refusal::SupplyLost { .. } => 2,
            Refusal::PastEnd => 3,
            Refusal::WrongSize => 4,
            Refusal::MarkNotErased => 5,
            Refusal::NotListening => 6,
            Refusal::MalformedInput => 7,
        }
    }
}

/// What a restart is given: the pin's level, and the password and the status word that an application may have left.
#[derive(Clone, Copy, Debug, PartialEq, Eq)]
pub struct Inputs {
    pub pin_high: bool,
    pub password: u16,
    pub status: u8,
}

/// A call of a controller: an event of its bus, or a restart.
#[derive(Clone, Copy, Debug, PartialEq, Eq)]
pub enum Call<E> {
    Tell(E),
    Restart(Inputs),
}

/// What a call that is not refused gives: what the bus says to an event, or the phase that a restart chose.
#[derive(Clone, Copy, Debug, PartialEq, Eq)]
pub enum Success<R> {
    Said(R),
    Chose(Phase),
}

/// How a call came out.
pub type Outcome<R> = Result<Success<R>, Refusal>;

/// What the bus of frames says to a byte: an answer, or nothing yet.
pub type Reply = Option<Answer>;

/// A call, and how it came out once it has been made.
#[derive(Clone, Copy, Debug, PartialEq, Eq)]
pub struct Turn<E, R> {
    pub call: Call<E>,
    pub outcome: Option<Outcome<R>>,
}
