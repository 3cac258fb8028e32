//! Laws on the notes of members, and on every world that a script reaches.

ghost use Rattle.std.specs.Prelude.{Bool, IsTrue, List, None, Some, [], false, filter_map, is_none};
ghost use Rattle.std.specs.Prelude.{length, map, slice_get, true, ℕ, ◌%◌, ◌*◌, ◌++◌, ◌<◌, ◌↔◌, ◌≡◌};
ghost use Rattle.std.specs.Prelude.{◌≢◌, ◌≤◌, ◌⊎◌};
ghost use Rattle.std.specs.List.{AllByRecursion, range_with_len};
ghost use Rattle.cw_types.specs.declared.commitment.Commitment.{Commitment};
ghost use Rattle.cw_types.specs.declared.event.Event.{Event};
ghost use Rattle.cw_types.specs.declared.event.Handed.{Handed};
ghost use Rattle.cw_types.specs.declared.message.Message.{Message};
ghost use Rattle.cw_types.specs.declared.note.Note.{Note};
ghost use Rattle.cw_types.specs.declared.vote.Cert.{Cert};
ghost use Rattle.cw_types.specs.declared.vote.Proposal.{Proposal};
ghost use Rattle.cw_types.specs.declared.vote.Vote.{Vote};
ghost use Rattle.cw_types.specs.Epochs.{Epochs, is_last, is_within, leader, members_in, single};
ghost use Rattle.cw_types.specs.Epochs.{size};
ghost use Rattle.cw_rules.specs.Accepted.{Came, State, Whole, accepted, first_some, is_valid};
ghost use Rattle.cw_rules.specs.Chains.{Clashes, Ends, outcome};
ghost use Rattle.cw_rules.specs.Fits.{block_fits};
ghost use Rattle.cw_rules.specs.Held.{at_height, first_chunks, held, next, pending, chunk_under};
ghost use Rattle.cw_rules.specs.Held.{shown};
ghost use Rattle.cw_rules.specs.Held.{whole_of};
ghost use Rattle.cw_rules.specs.Keeps.{AreAlong, IsCertifiedIn, IsGreatest, IsRising, IsSound};
ghost use Rattle.cw_rules.specs.Keeps.{Keeps, KeepsBy, Meaning};
ghost use Rattle.cw_rules.specs.Notes.{epoch_of, has_vote};
ghost use Rattle.cw_rules.specs.Owed.{epoch_owed, is_known, notarize_owed, owed};
ghost use Rattle.cw_rules.specs.Reached.{AllAnchored, AllNamed, GoesDown, In, IsClash, IsCluster};
ghost use Rattle.cw_rules.specs.Reached.{IsChainUpTo, IsMemberKept, IsReported, OnlyGrows, Reaches};
ghost use Rattle.cw_rules.specs.Reached.{ReachesClear, members_of};
ghost use Rattle.cw_rules.specs.Report.{handed_in, report_of};
ghost use Rattle.cw_rules.specs.Rules.{Chunk, Rules, among, chunks, commit, genesis_commitment};
ghost use Rattle.cw_rules.specs.Rules.{is_under};
ghost use Rattle.cw_rules.specs.declared.travel.Travel.{Travel};
ghost use Rattle.cw_rules.specs.declared.travel.Travel.TheVariants.{Chunked, Uncut};
ghost use Rattle.cw_coding.specs.Totals.{total_of};
ghost use Rattle.cw_rules.specs.Stands.{AreKept, AreLawful, Descends, EachAfter, Members, Stands};
ghost use Rattle.cw_rules.specs.Sends.{finalization_at, own_chunk};
ghost use Rattle.cw_rules.specs.Step.{Member, Wanted, deliveries, delivery, found, left_to_hand};
ghost use Rattle.cw_rules.specs.Step.{marks, settle, step_notes, taken_came, with_given};
ghost use Rattle.cw_rules.specs.Step.{with_handed, with_notes};
ghost use Rattle.cw_rules.specs.Telling.{FitsLine, TellsBlocks};
ghost use Rattle.cw_rules.specs.World.{Line, World, happens, opening, signed};
ghost use Rattle.cw_rules.specs.Coding.{AreApart, AreByteChunks, IsCoder, IsCodeword};
ghost use Rattle.cw_types.specs.Block.{Block};

use cw_types::{Commitment, Event, Handed, Message, Note, Proposal, Vote};

/// Among members of whom at most f of each epoch are faulty, and the others honest, what stands is
/// one chain in each epoch. What it means that the block of a proposal fits is left open, so a
/// payload may be any commitment.
pub fn chain_laws()
    // no two different votes to notarize of one epoch and view stand
    ensures one_notarized { (x : Epochs) (fits : List Note → Proposal → Bool) (members : Members)
        → AreLawful x fits members
        → (p q : Proposal) → Stands x members (Vote.Notarize p) → Stands x members (Vote.Notarize q)
        → p.epoch ≡ q.epoch → p.view ≡ q.view → p ≡ q }
    // a vote to finalize and one to nullify its view never both stand
    ensures not_both { (x : Epochs) (fits : List Note → Proposal → Bool) (members : Members)
        → AreLawful x fits members
        → (p : Proposal) → Stands x members (Vote.Finalize p)
        → Stands x members (Vote.Nullify p.epoch p.view) → ⊥ }
    // what stands notarized in a later view of the epoch than a finalized proposal descends from it
    ensures descent { (x : Epochs) (fits : List Note → Proposal → Bool) (members : Members)
        → AreLawful x fits members
        → (p q : Proposal) → Stands x members (Vote.Finalize p) → Stands x members (Vote.Notarize q)
        → p.epoch ≡ q.epoch → p.view < q.view → Descends x members q p }
{}

/// What a member's notes keep, from step to step, whatever it means to back a vote.
pub fn member_laws()
    // each note of a step rests on the notes before it, by what votes mean when it is written
    ensures step { (r : Rules) (m : List Note → Meaning) (id : ℕ)
        → IsRising r → AreAlong r m id
        → (s : State) (e : Event) → AllByRecursion (IsSound (m s.notes)) s.came.ballots
        → EachAfter (KeepsBy r m) s.notes (step_notes r id s e) }
    // notes that do are an honest member's
    ensures kept { (r : Rules) (m : Meaning) (x : Epochs) (members : Members)
        → ((v : Vote) → IsTrue (m.holds v) → Stands x members v)
        → (notes : List Note) → EachAfter (Keeps r m) [] notes
        → AreKept x (block_fits r) members notes }
{}

/// What it means that an epoch is owed.
pub fn owed_laws()
    // it is the greatest above the member's whose beginning is reached
    ensures greatest { (r : Rules) (s : State) (span : ℕ) → r.epochs.span ≡ Some span → 0 < span
        → (note : Note) → epoch_owed r s ≡ Some note → IsGreatest r s.notes span note }
    // where none is owed none above the member's is reached
    ensures none { (r : Rules) (s : State) (span : ℕ) → r.epochs.span ≡ Some span → 0 < span
        → epoch_owed r s ≡ None
        → (epoch : ℕ) → epoch_of s.notes < epoch → at_height r s.notes (epoch * span) ≡ None }
{}

/// A cluster of n members is a case: one epoch without end.
pub fn single_laws()
    // its members are those below n
    ensures members { (n epoch : ℕ) → members_in (single n) epoch ≡ range_with_len 0 n }
    // so it has n's quorums
    ensures size { (n epoch : ℕ) → size (single n) epoch ≡ n }
    // they lead in turn
    ensures leader { (n epoch view : ℕ) → 0 < n → leader (single n) epoch view ≡ view % n }
    // no height is the last, and each is within the epoch
    ensures no_end { (n epoch height : ℕ)
        → (is_last (single n) epoch height ≡ false) × (is_within (single n) epoch height ≡ true) }
    // no epoch is ever owed
    ensures no_epoch { (r : Rules) (s : State) → r.epochs.span ≡ None → epoch_owed r s ≡ None }
{}

/// In every world that a script reaches, with at most f faulty members of each epoch, what stands
/// is one chain in each epoch, whatever is delivered, lost, repeated, cut or forged.
pub fn cluster_laws()
    // each such world is lawful: each honest member's notes rest on those before them
    ensures lawful { (r : Rules) (script : List Line) (w : World)
        → IsCluster r script → Reaches r script w
        → AreLawful r.epochs (block_fits r) (members_of w) }
    // no two different votes to notarize of one epoch and view stand
    ensures one_notarized { (r : Rules) (script : List Line) (w : World)
        → IsCluster r script → Reaches r script w
        → (p q : Proposal) → Stands r.epochs (members_of w) (Vote.Notarize p)
        → Stands r.epochs (members_of w) (Vote.Notarize q) → p.epoch ≡ q.epoch → p.view ≡ q.view
        → p ≡ q }
    // a vote to finalize and one to nullify its view never both stand
    ensures not_both { (r : Rules) (script : List Line) (w : World)
        → IsCluster r script → Reaches r script w
        → (p : Proposal) → Stands r.epochs (members_of w) (Vote.Finalize p)
        → Stands r.epochs (members_of w) (Vote.Nullify p.epoch p.view) → ⊥ }
    // what stands notarized in a later view of the epoch than a finalized proposal descends from it
    ensures descent { (r : Rules) (script : List Line) (w : World)
        → IsCluster r script → Reaches r script w
        → (p q : Proposal) → Stands r.epochs (members_of w) (Vote.Finalize p)
        → Stands r.epochs (members_of w) (Vote.Notarize q) → p.epoch ≡ q.epoch → p.view < q.view
        → Descends r.epochs (members_of w) q p }
    // a finalized proposal, and each from which it descends, was certified by an honest member that
    // noted its block
    ensures certified { (r : Rules) (script : List Line) (w : World)
        → IsCluster r script → Reaches r script w
        → (p q : Proposal) → Stands r.epochs (members_of w) (Vote.Finalize p)
        → Descends r.epochs (members_of w) p q → IsCertifiedIn (members_of w) q }
    // the vote of each valid certificate stands, whether anybody noted or received it or not
    ensures valid { (r : Rules) (script : List Line) (w : World)
        → IsCluster r script → Reaches r script w
        → (s : Cert) → IsTrue (is_valid r (signed w) s) → Stands r.epochs (members_of w) s.vote }
    // each honest member keeps what it must: its notes rest on those before them, what came was
    // signed, what it sent is noted
    ensures kept { (r : Rules) (script : List Line) (w : World)
        → IsCluster r script → Reaches r script w
        → (i : ℕ) (m : Member) → slice_get w.members i ≡ Some (Some m) → IsMemberKept r w i m }
    // each block that an honest member noted has the digest that its commitment names
    ensures named { (r : Rules) (script : List Line) (w : World)
        → IsCluster r script → Reaches r script w → AllNamed r w }
{}

/// What a line does to the members.
pub fn line_laws()
    // it changes its own member alone, whose notes only grow
    ensures grows { (r : Rules) (w : World) (line : Line) (i : ℕ) (m : Member)
        → slice_get w.members i ≡ Some (Some m) → OnlyGrows r w line i m }
    // who is faulty stays so, and who is honest
    ensures flags { (r : Rules) (w : World) (line : Line)
        → map is_none (happens r w line).members ≡ map is_none w.members }
{}

/// In every world that a script reaches without a clash, the epochs follow one another. With two
/// blocks of one digest these laws would fail, since then one commitment may be that of two blocks.
pub fn epoch_laws()
    // a note that enters an epoch names the payload of a proposal of the epoch before that stands
    // finalized
    ensures anchored { (r : Rules) (script : List Line) (w : World)
        → IsCluster r script → ReachesClear r script w → AllAnchored r.epochs (members_of w) }
    // all notes of honest members that enter one epoch have one commitment
    ensures one_entry { (r : Rules) (script : List Line) (w : World)
        → IsCluster r script → ReachesClear r script w
        → (i j : ℕ) (notes others : List Note)
        → slice_get (members_of w) i ≡ Some (Some notes)
        → slice_get (members_of w) j ≡ Some (Some others)
        → (epoch : ℕ) (c d : Commitment) → In (Note.Epoch epoch c) notes
        → In (Note.Epoch epoch d) others → c ≡ d }
    // a step of a descent from what an honest member certified goes to the height below, or keeps
    // the payload at the epoch's last height
    ensures goes_down { (r : Rules) (script : List Line) (w : World)
        → IsCluster r script → ReachesClear r script w
        → (q p : Proposal) → IsCertifiedIn (members_of w) q
        → Stands r.epochs (members_of w) (Vote.Notarize p)
        → p.epoch ≡ q.epoch → p.view ≡ q.parent → GoesDown r w q p }
{}

/// Where a script ends without a clash, all that is handed out is one chain: the blocks below one
/// that is handed out are a chain from genesis, and each handed block that isn't higher is one of
/// them.
pub fn one_chain()
    ensures { (r : Rules) (script : List Line) (w : World)
        → IsCluster r script → outcome r (opening r script) script ≡ Ends w
        → (x : Handed) → In x (handed_in r script) → IsChainUpTo r w (handed_in r script) x }
{}

/// The report of a script that ends without a clash: its chain is one from genesis, and each block
/// that any entry hands out is the link of its height. Something is handed out, since each honest
/// member starts with genesis.
pub fn report_laws()
    ensures { (r : Rules) (script : List Line) (w : World)
        → IsCluster r script → 0 < r.backlog → outcome r (opening r script) script ≡ Ends w
        → IsReported r w (handed_in r script) (report_of r script w).chain }
{}

/// What a clash shows.
pub fn clash_laws()
    // in a world that the script reaches, two different blocks of one digest, each genesis or noted
    // by an honest member
    ensures blocks { (r : Rules) (script : List Line) (earlier later : List ℕ)
        → outcome r (opening r script) script ≡ Clashes earlier later
        → (w : World) × Reaches r script w × IsClash r w earlier later }
    // two different texts, where what the script brings in can be written
    ensures texts { (r : Rules) (script : List Line) (earlier later : List ℕ)
        → TellsBlocks r → IsCluster r script → AllByRecursion FitsLine script
        → outcome r (opening r script) script ≡ Clashes earlier later → earlier ≢ later }
{}

/// The bounds in the definitions never run out.
pub fn bound_laws()
    // after a settling nothing is owed
    ensures settles { (r : Rules) (id : ℕ) (s : State)
        → owed r id (with_notes s (settle r id (marks s) s)) ≡ None }
    // after the notes of a step nothing more is owed
    ensures settled { (r : Rules) (id : ℕ) (s : State) (e : Event)
        → owed r id (with_notes s (step_notes r id s e)) ≡ None }
    // after its deliveries as many blocks are pending as may be, or the next height isn't reached
    ensures delivered { (r : Rules) (s : State)
        → (r.backlog ≤ length (pending (with_handed s (deliveries r s))))
        ⊎ (at_height r s.notes (next (with_handed s (deliveries r s))) ≡ None) }
    // with each delivery less is left to hand out
    ensures falls { (r : Rules) (s : State) (h : Handed) → delivery r s ≡ Some h
        → left_to_hand r (with_given s h.height) < left_to_hand r s }
    // what stands at a height is held
    ensures held { (r : Rules) (notes : List Note) (height : ℕ) (c : Commitment)
        → at_height r notes height ≡ Some c → (b : Block) × (held r notes c ≡ Some b) }
    // and is of that height
    ensures of_height { (r : Rules) (notes : List Note) (height : ℕ) (c : Commitment)
        → at_height r notes height ≡ Some c
        → (b : Block) → held r notes c ≡ Some b → b.height ≡ height }
{}

/// What a store of blocks answers, by its notes alone: neither how blocks travel nor the members of
/// the epochs nor the application make a difference, nor does what came.
pub fn store_laws()
    // what stands at a height
    ensures height { (r : Rules) (t : Travel) (x : Epochs) (backlog : ℕ)
        (accepts : Block → Block → Bool)
        → (notes : List Note) (height : ℕ)
        → at_height (among r t x backlog accepts) notes height ≡ at_height r notes height }
    // the first finalization of a height
    ensures finalization { (r : Rules) (t : Travel) (x : Epochs) (backlog : ℕ)
        (accepts : Block → Block → Bool)
        → (notes : List Note) (height : ℕ)
        → first_some (finalization_at (among r t x backlog accepts) notes height) notes
        ≡ first_some (finalization_at r notes height) notes }
    // what a ticket waits for
    ensures found { (r : Rules) (t : Travel) (x : Epochs) (backlog : ℕ)
        (accepts : Block → Block → Bool)
        → (notes : List Note) (w : Wanted)
        → found (among r t x backlog accepts) notes w ≡ found r notes w }
    // what is handed out, with one backlog
    ensures handed { (r : Rules) (t : Travel) (x : Epochs) (accepts : Block → Block → Bool)
        → (notes : List Note) (came others : Came) (given : List ℕ)
        → deliveries (among r t x r.backlog accepts)
        (record { notes = notes; came = came; given = given })
        ≡ deliveries r (record { notes = notes; came = others; given = given }) }
{}

/// What chunks show, by what the rules ask of the codewords below them.
pub fn coding_laws()
    // the chunks of a commitment that a member accepts stay at different places
    ensures apart { (r : Rules) (signed : ℕ → Vote → Bool) (came : Came) (e : Event)
        → ((c : Commitment) → AreApart (filter_map (chunk_under c) came.parts))
        → (c : Commitment)
        → AreApart (filter_map (chunk_under c) (taken_came r signed came e).parts) }
    // where no whole block came, a commitment is shown as exactly the block of whose codeword its
    // first k chunks are rows
    ensures shown { (r : Rules) → r.travel ≡ Chunked → IsCoder r
        → (came : Came) (c : Commitment) (b : Block) → 0 < c.config.minimum
        → total_of c.config ≤ 65535
        → ((d : Commitment) → AreApart (filter_map (chunk_under d) came.parts))
        → AreByteChunks (first_chunks came c)
        → first_some (whole_of r c) came.parts ≡ None
        → (shown r came c ≡ Some b) ↔ IsCodeword r c (first_chunks came c) b }
    // each chunk that a block is cut in stands under its commitment
    ensures cut { (r : Rules) → r.travel ≡ Chunked → IsCoder r
        → (b : Block) → AllByRecursion (λ x. IsTrue (is_under r (commit r b) x)) (chunks r b) }
{}

/// Where blocks travel whole, chunks count for nothing: what is shown came whole, and a member
/// votes for no block that it never saw.
pub fn uncut_laws()
    // a chunk that comes changes nothing
    ensures untaken { (r : Rules) → r.travel ≡ Uncut
        → (signed : ℕ → Vote → Bool) (came : Came) (c : Commitment) (x : Chunk)
        → accepted r signed came (Message.Shard c x) ≡ came }
    // and none is passed on
    ensures unpassed { (r : Rules) → r.travel ≡ Uncut
        → (id epoch : ℕ) (came : Came) (e : Event) → own_chunk r id epoch came e ≡ [] }
    // what is shown came whole, and is committed to so
    ensures shown { (r : Rules) → r.travel ≡ Uncut
        → (came : Came) (c : Commitment) (b : Block) → shown r came c ≡ Some b
        → In (Whole b) came.parts × (commit r b ≡ c) }
    // genesis' commitment is shown as nothing
    ensures genesis { (r : Rules) → r.travel ≡ Uncut
        → (came : Came) → shown r came (genesis_commitment r) ≡ None }
    // the payload of a vote to notarize that is owed is shown or held
    ensures seen { (r : Rules) → r.travel ≡ Uncut
        → (id : ℕ) (s : State) (p : Proposal) (note : Note) → notarize_owed r id s p ≡ Some note
        → IsTrue (is_known r s p.payload) }
{}
