// Why a line is not answered as a request.
ghost use Rattle.std.specs.Prelude.{◌≡◌};
ghost use Rattle.probe_text.specs.Errors.{of_hex};
ghost use Rattle.probe_text.specs.declared.error.ProbeError.TheVariants.{OutOfMemory};

use hex::FromHexError;
use std::alloc::{AllocError, AllocFailed};

#[derive(Clone, Copy, Debug, PartialEq, Eq)]
pub enum ProbeError {
    // No request, or a field of it is out of its range: the answer is `?`.
    Malformed,
    OutOfMemory,
}

impl From<AllocError> for ProbeError {
    ghost from_gives = { λ _ e. e ≡ OutOfMemory };

    fn from(_e: AllocError) -> ProbeError {
        ProbeError::OutOfMemory
    }
}

impl<T: Drop> From<AllocFailed<T>> for ProbeError {
    ghost from_gives = { λ _ e. e ≡ OutOfMemory };

    fn from(_e: AllocFailed<T>) -> ProbeError {
        ProbeError::OutOfMemory
    }
}

impl From<FromHexError> for ProbeError {
    ghost from_gives = { λ e result. result ≡ of_hex e };

    fn from(e: FromHexError) -> ProbeError {
        match e {
            FromHexError::OutOfMemory => ProbeError::OutOfMemory,
            _ => ProbeError::Malformed,
        }
    }
}
