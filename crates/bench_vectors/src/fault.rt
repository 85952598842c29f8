// Why a line has no answer.
use std::io;

// The line is no vector, or the system fails.
#[derive(Drop)]
pub enum Fault {
    NotVector,
    System(io::Error),
}

impl From<io::Error> for Fault {
    fn from(error: io::Error) -> Fault {
        Fault::System(error)
    }
}
