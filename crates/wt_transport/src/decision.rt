//! What a call that moves bytes on a half of a stream comes to.
ghost use Rattle.std.specs.Prelude.{◌≡◌};
ghost use Rattle.wt_transport.specs.Deciding.{exact_read_of, read_of, taken, write_all_of, write_of};

use wt_turn::poll::Poll;
use wt_turn::stream_error::{StreamReadError, StreamReadExactError, StreamWriteError, WriteAll};

/// What a call that moves bytes on a half comes to, of which its answer is made.
#[derive(Debug, Drop)]
pub enum Decision<E> {
    /// The call fails.
    Refused(E),
    /// The call is to be made again later.
    Wait,
    /// This many bytes are moved.
    Take(usize),
}

impl<E> Decision<E> {
    /// How many bytes are moved.
    pub fn taken(&self) -> usize
        ensures { result ≡ taken self.now }
    {
        match self {
            Decision::Take(count) => *count,
            _ => 0,
        }
    }
}

impl Decision<StreamWriteError> {
    /// What a write answers.
    pub fn into_write(self) -> Poll<Result<usize, StreamWriteError>>
        ensures { result ≡ write_of self }
    {
        match self {
            Decision::Refused(error) => Poll::Ready(Err(error)),
            Decision::Wait => Poll::Pending,
            Decision::Take(count) => Poll::Ready(Ok(count)),
        }
    }

    /// What a write of all of so many bytes answers.
    pub fn into_write_all(self, size: usize) -> Result<WriteAll, StreamWriteError>
        ensures { result ≡ write_all_of size self }
    {
        match self {
            Decision::Refused(error) => Err(error),
            Decision::Wait => Ok(WriteAll::Count(0)),
            Decision::Take(count) => {
                if count < size {
                    Ok(WriteAll::Count(count))
                } else {
                    Ok(WriteAll::Done)
                }
            }
        }
    }
}

impl Decision<StreamReadError> {
    /// What a read of at most so many bytes answers.
    pub fn into_read(self, size: usize) -> Poll<Result<Option<usize>, StreamReadError>>
        ensures { result ≡ read_of size self }
    {
        match self {
            Decision::Refused(error) => Poll::Ready(Err(error)),
            Decision::Wait => Poll::Pending,
            Decision::Take(count) => {
                // Some bytes were asked for, and none is left before the end.
                if count == 0 && size > 0 {
                    Poll::Ready(Ok(None))
                } else {
                    Poll::Ready(Ok(Some(count)))
                }
            }
        }
    }

    /// What a read of exactly so many bytes answers.
    pub fn into_read_exact(self, size: usize) -> Poll<Result<(), StreamReadExactError>>
        ensures { result ≡ exact_read_of size self }
    {
        match self {
            Decision::Refused(error) => Poll::Ready(Err(StreamReadExactError::Read(error))),
            Decision::Wait => Poll::Pending,
            Decision::Take(count) => {
                if count < size {
                    Poll::Ready(Err(StreamReadExactError::FinishedEarly(count)))
                } else {
                    Poll::Ready(Ok(()))
                }
            }
        }
    }
}
