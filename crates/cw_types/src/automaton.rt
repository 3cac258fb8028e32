//! What proposes payloads and decides on them.

ghost use Rattle.std.specs.Prelude.{◌≡◌, Bool, Option, IfOk, true, ⊤};
ghost use Rattle.cw_types.specs.declared.handoff.Handoff.TheVariants.{Wait};
ghost use Rattle.cw_types.specs.declared.round.Round.{Round as RoundValue};

use crate::handoff::Handoff;
use crate::round::Round;
use cw_base::NoMemory;
use std::alloc::Global;

/// Proposes payloads, and says which of those that others propose may be voted for. It answers at
/// once, with what it knows.
///
/// Nothing here asks for it: it is for code around other engines. A member asks its
/// [`Application`](crate::Application) alone.
pub trait Automaton {
    /// Where a payload is proposed.
    type Context: Drop;
    /// What a payload is known by.
    type Digest: Drop;

    /// What may be proposed there.
    ghost proposes: { Self → Self.Context → Option Self.Digest → Type 0 };

    /// Whether the payload may be voted for there.
    ghost verifies: { Self → Self.Context → Self.Digest → Bool };

    /// A payload to propose there; none where there is nothing to propose.
    fn propose(
        &mut self,
        alloc: Global,
        context: Self::Context,
    ) -> Result<Option<Self::Digest>, NoMemory>
        ensures { IfOk result (λ payload. proposes self.old context payload) };

    /// Whether the payload may be voted for there.
    fn verify(&mut self, context: Self::Context, payload: Self::Digest) -> bool
        ensures { result ≡ verifies self.old context payload };
}

/// An automaton that is asked again before a payload is certified: a payload that was notarized may
/// still be held back. Nothing here asks for it.
pub trait CertifiableAutomaton: Automaton {
    /// Where nothing is made ready ahead: everywhere, unless an automaton says otherwise.
    ghost waits: { Self → Self.Context → Type 0 } = { λ automaton context. ⊤ };

    /// What is surely certified: each payload, unless an automaton says otherwise.
    ghost certifies: { Self → RoundValue → Self.Digest
        → Type 0 } = { λ automaton round payload. ⊤ };

    /// Makes a payload ready ahead, for where it will be proposed.
    fn prepare(&mut self, _context: Self::Context) -> Handoff<Self::Digest>
        ensures { waits self.old _context → result ≡ Wait }
    {
        Handoff::Wait
    }

    /// Whether the payload that was notarized in that round may be certified.
    fn certify(&mut self, _round: Round, _payload: Self::Digest) -> bool
        ensures { certifies self.old _round _payload → result ≡ true }
    {
        true
    }
}
