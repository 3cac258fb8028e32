//! Where the first certificate of each vote stands.

ghost use Rattle.std.specs.Prelude.{◌≡◌, ◌++◌, ◌∷◌, [], List, OnErr, OnOk, length};
ghost use Rattle.cw_rules.specs.Notes.{has_cert};
ghost use Rattle.cw_types.specs.declared.note.Note.{Note as NoteValue};
ghost use Rattle.marshal.specs.Certs.{HasCerts};

use crate::maps::{put_first, take_last};
use cw_base::NoMemory;
use cw_types::{Note, Vote};
use note_scans::VoteKey;
use std::alloc::Global;
use std::collections::BTreeMap;

/// The place of the first certificate of each vote.
#[derive(Drop)]
pub(crate) struct Certs {
    pub(crate) first: BTreeMap<VoteKey, u64>,
}

impl Certs {
    /// That of no notes.
    pub(crate) fn new(alloc: Global) -> Certs
        ensures { HasCerts result.first.entries [] }
    {
        Certs {
            first: BTreeMap::new(alloc),
        }
    }

    /// A note goes to the end. Where memory is short nothing changes.
    pub(crate) fn put(&mut self, note: &Note, place: u64) -> Result<(), NoMemory>
        ensures ok { (notes : List NoteValue) → HasCerts self.old.first.entries notes
            → place ≡ length notes
            → OnOk result (HasCerts self.new.first.entries (notes ++ note.now ∷ [])) }
        ensures err { OnErr result (self.new.first.entries ≡ self.old.first.entries) }
    {
        match note {
            Note::Cert(cert) => {
                put_first(&mut self.first, VoteKey::new(&cert.vote), place)?;
                Ok(())
            }
            _ => Ok(()),
        }
    }

    /// Lets the last note go.
    pub(crate) fn take(&mut self, note: &Note, place: u64)
        ensures { (notes : List NoteValue)
            → HasCerts self.old.first.entries (notes ++ note.now ∷ []) → place ≡ length notes
            → HasCerts self.new.first.entries notes }
    {
        if let Note::Cert(cert) = note {
            take_last(&mut self.first, &VoteKey::new(&cert.vote), place);
        }
    }

    /// Whether a certificate of the vote is noted.
    pub(crate) fn has(&self, vote: &Vote) -> bool
        ensures { (notes : List NoteValue) → HasCerts self.now.first.entries notes
            → result ≡ has_cert notes vote.now }
    {
        self.first.contains_key(&VoteKey::new(vote))
    }
}
