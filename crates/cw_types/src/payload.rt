//! What blocks carry.

ghost use Rattle.std.specs.Prelude.{◌≡◌, ◌↔◌, ◌<◌, ◌≤◌, ◌++◌, [], IsErr, IfOk, IfErr, IfSome};
ghost use Rattle.std.specs.Prelude.{length};
ghost use Rattle.cw_types.specs.Payload.{bytes_of_form};
ghost use Rattle.cw_types.specs.Reading.{payload_at};
ghost use Rattle.cw_base.specs.Ends.{IsEnd};
ghost use Rattle.cw_base.specs.Reading.{Gives};

use bytes::Bytes;
use cw_base::{CodecError, Items, NoMemory, Reader};
use std::alloc::Global;
use std::fmt;
use std::marker::Model;

/// What a block carries: at most 1,048,576 bytes.
///
/// One that was read, or copied, shares its bytes with its copies, and one that was read of shared
/// bytes keeps a part of them. One that was made of a `Vec` keeps that `Vec`, so that making it
/// takes no memory; its bytes are copied once for each copy, and from then on shared.
#[derive(Drop)]
pub struct Payload {
    form: Form,
}

// How a payload holds its bytes.
#[derive(Drop)]
enum Form {
    // It alone has them.
    Owned(Items<u8>),
    // It has them together with its copies.
    Shared(Bytes),
}

impl Model for Payload {
    ghost use Rattle.std.specs.Prelude.{List, ℕ, ◌≤◌, length};

    ghost Value = { List ℕ };

    ghost use Rattle.cw_types.specs.Payload.{bytes_of_form};

    ghost view = { λ p. bytes_of_form p.form };

    ghost invariant = { λ p. length (bytes_of_form p.form) ≤ 1048576 };
}

impl Payload {
    /// The most bytes of a payload.
    pub const MAX: usize = 1_048_576;

    /// A payload of these bytes; hands them back where there are too many. Takes no memory.
    pub fn new(bytes: Vec<u8>) -> Result<Payload, Vec<u8>>
        ensures ok { IfOk result (λ payload. payload ≡ bytes.items) }
        ensures err { IfErr result (λ back. back ≡ bytes) }
        ensures exact { IsErr result ↔ (1048576 < length bytes.items) }
    {
        if bytes.len() > Payload::MAX {
            return Err(bytes);
        }
        Ok(Payload {
            form: Form::Owned(Items::from_vec(bytes)),
        })
    }

    /// The payload without bytes. Takes no memory.
    pub fn empty(_alloc: Global) -> Payload
        ensures { result ≡ [] }
    {
        Payload {
            form: Form::Shared(Bytes::new()),
        }
    }

    /// Its bytes.
    pub fn bytes(&self) -> &[u8]
        ensures value { result.now ≡ self.now }
        ensures bound { length self.now ≤ 1048576 }
    {
        self.form.bytes()
    }

    /// An equal payload, which shares the bytes where this one does. Else it takes memory for them,
    /// and its own copies share them.
    pub fn copy(&self, alloc: Global) -> Result<Payload, NoMemory>
        ensures { IfOk result (λ copy. copy ≡ self.now) }
    {
        Ok(Payload {
            form: Form::Shared(self.form.shared(alloc)?),
        })
    }
}

impl Form {
    fn bytes(&self) -> &[u8]
        ensures { result.now ≡ bytes_of_form self.now }
    {
        match self {
            Form::Owned(bytes) => bytes.as_slice(),
            Form::Shared(bytes) => bytes.as_slice(),
        }
    }

    // The bytes to share.
    fn shared(&self, alloc: Global) -> Result<Bytes, NoMemory>
        ensures { IfOk result (λ shared. shared ≡ bytes_of_form self.now) }
    {
        match self {
            Form::Owned(bytes) => Ok(Bytes::copy_from_slice(alloc, bytes.as_slice())?),
            Form::Shared(bytes) => Ok(bytes.slice(..)?),
        }
    }
}

impl PartialEq for Payload {
    ghost use Rattle.std.specs.Prelude.{◌==◌};
    ghost use Rattle.std.specs.Cmp.Lexicographic.{pointwise};
    ghost use Rattle.std.specs.Cmp.Rules.{comparing};
    ghost use Rattle.std.proofs.Common.{rules};

    ghost eq = { λ a b. pointwise ◌==◌ a b };

    ghost laws = { Prim.search (comparing, rules) };

    fn eq(&self, other: &Payload) -> bool {
        self.bytes() == other.bytes()
    }
}

impl Eq for Payload {
    ghost use Rattle.std.specs.Cmp.Rules.{comparing};
    ghost use Rattle.std.proofs.Common.{rules};

    ghost laws = { Prim.search (comparing, rules) };
}

// Payloads with the same bytes show alike, whoever has the bytes.
impl fmt::Debug for Payload {
    fn fmt<W: fmt::Write>(&self, f: &mut fmt::Formatter<W>) -> fmt::Result {
        f.debug_struct("Payload")
            .field("bytes", &self.bytes())
            .finish()
    }
}

// A payload behind the number of its bytes. Where the reader stands in a shared text, it keeps a
// part of that text; else it takes memory for a copy.
#[tactic(auto, using(cw_base::proofs::Ends::end_of_end), unfolding(crate::specs::Reading::payload_at))]
pub(crate) fn read_payload(
    alloc: Global,
    text: Option<&Bytes>,
    reader: &mut Reader,
) -> Result<Payload, CodecError>
    requires { IfSome text (λ text. IsEnd text.now reader.old) }
    ensures value { Gives (λ payload. payload) result reader.new (payload_at reader.old) }
    ensures place { IsEnd reader.old reader.new }
{
    let count = reader.varint()? as usize;
    if count > Payload::MAX {
        return Err(CodecError::TooLong);
    }
    let bytes = match reader.take(count) {
        Ok(bytes) => bytes,
        Err(error) => return Err(error),
    };
    Ok(Payload {
        form: Form::Shared(shared_bytes(alloc, text, bytes, reader.rest())?),
    })
}

// Bytes to share: the part of a text that they are, where these are left behind them, or a copy.
#[tactic(auto, using(crate::proofs::Parts::fits_before, crate::proofs::Parts::part_of_end))]
fn shared_bytes(
    alloc: Global,
    text: Option<&Bytes>,
    bytes: &[u8],
    left: &[u8],
) -> Result<Bytes, NoMemory>
    requires { IfSome text (λ text. IsEnd text.now (bytes.now ++ left.now)) }
    ensures { IfOk result (λ shared. shared ≡ bytes.now) }
{
    match text {
        None => Ok(Bytes::copy_from_slice(alloc, bytes)?),
        Some(text) => {
            let end = text.len() - left.len();
            Ok(text.slice(end - bytes.len()..end)?)
        }
    }
}
