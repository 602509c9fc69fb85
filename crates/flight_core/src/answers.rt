//! What clients are revealed.

use arrayvec::ArrayVec;
use flat_machine::Reply;

/// What a client gets.
#[derive(Drop)]
pub struct Answer {
    pub client: u8,
    pub reply: Reply,
}

// The places of an array that are not used hold this.
impl Default for Answer {
    fn default() -> Answer {
        Answer {
            client: 0,
            reply: Reply::Done,
        }
    }
}

/// At most one for each client.
pub type Answers = ArrayVec<Answer, 16>;

/// What a client that asks is revealed.
#[derive(Drop)]
pub enum Revealed {
    Answered(Reply),
    /// It waits for the flight of this number.
    Waits(u64),
    /// It waits already.
    Busy,
}

/// What comes of a flight that is done.
#[derive(Drop)]
pub enum Landed {
    /// Nobody waits for this number.
    NoFlight,
    /// The owner's answer first, and then those of others in ascending numbers.
    Answered(Answers),
}
