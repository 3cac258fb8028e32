//! Scripts, and what their runs end with, as text. The digests are those of `SumHasher`, but for
//! `HASHED` and `WHOLE`, where they are those of `Sha256`.

mod boundary;
mod hashed;
mod hostile;
mod refused;
mod whole;
mod worked;

pub(crate) use boundary::BOUNDARY;
pub(crate) use hashed::HASHED;
pub(crate) use hostile::{REPEATED, STOPPED};
pub(crate) use refused::REFUSED;
pub(crate) use whole::WHOLE;
pub(crate) use worked::WORKED;
