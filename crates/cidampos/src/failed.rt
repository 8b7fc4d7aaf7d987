// Why the program ends with status 1.
use std::alloc::AllocError;
use std::io;

// A refusal is the last line of standard output, and a call that is no command gets a line on standard error; the others end `main`.
#[derive(Debug, Drop)]
pub enum Failed {
    Refused { number: u8, value: usize },
    Usage,
    Io,
    Memory,
}

impl From<lexis::refusal::Refusal> for Failed {
    fn from(refusal: lexis::refusal::Refusal) -> Failed {
        Failed::Refused {
            number: refusal.number(),
            value: refusal.value(),
        }
    }
}

impl From<judge::refusal::Refusal> for Failed {
    fn from(refusal: judge::refusal::Refusal) -> Failed {
        Failed::Refused {
            number: refusal.number(),
            value: usize::from(refusal.value()),
        }
    }
}

impl From<io::Error> for Failed {
    fn from(_error: io::Error) -> Failed {
        Failed::Io
    }
}

impl From<AllocError> for Failed {
    fn from(_error: AllocError) -> Failed {
        Failed::Memory
    }
}
