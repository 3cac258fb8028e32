//! What a light client may believe.

ghost use Rattle.std.specs.Prelude.{◌≡◌, ℕ, List};
ghost use Rattle.std.specs.List.{AllByRecursion};
ghost use Rattle.cw_base.specs.declared.hash.Digest32.{Digest32};
ghost use Rattle.cw_types.specs.Block.{Block};
ghost use Rattle.cw_types.specs.Values.{IsBlock};
ghost use Rattle.cw_types.specs.declared.vote.Cert.{Cert};
ghost use Rattle.cw_rules.specs.Chains.{Ends, outcome};
ghost use Rattle.cw_rules.specs.Reached.{In, IsCluster, Reaches};
ghost use Rattle.cw_rules.specs.Report.{report_of};
ghost use Rattle.cw_rules.specs.Rules.{Rules};
ghost use Rattle.cw_rules.specs.Telling.{FitsLine, TellsBlocks};
ghost use Rattle.cw_rules.specs.World.{Line, World, opening, signed};
ghost use Rattle.cw_light.specs.Believing.{AreWritten, IsBelieved};
ghost use Rattle.cw_light.specs.Checking.{light_answer};

use crate::check::Answer;

/// Where a script ends without a clash, and votes are told by what was signed so far at any moment
/// of its run, yes means that the last block of the path is the link of its height of the one chain
/// that is reported at the end, if that goes so high; or else two different strings have one
/// digest: the bytes of a block of the path, and those of a block that an honest member noted.
///
/// It holds whatever was delivered, lost, repeated, cut or forged, with at most f faulty members of
/// each epoch, and whoever puts the certificate and the path together. The blocks of the path can
/// be written, as each can that a program holds: `block_fits` of cw_types.
pub fn light_laws()
    // where the bytes of a block tell it, as `coded_tells` of cw_rules_coded says of a real
    // cluster's, and what the script brings in can be written
    ensures told { (r : Rules) (script : List Line) (now end : World) → TellsBlocks r
        → IsCluster r script → AllByRecursion FitsLine script
        → Reaches r script now → outcome r (opening r script) script ≡ Ends end
        → (s : Cert) (path : List Block) (height : ℕ) (d : Digest32)
        → ((b : Block) → In b path → IsBlock b) → light_answer r (signed now) s path
        ≡ Answer.Yes height d
        → IsBelieved r end (report_of r script end).chain path height d }
    // or whatever it brings in, where each block that an honest member noted can be written
    ensures written { (r : Rules) (script : List Line) (now end : World)
        → IsCluster r script → Reaches r script now → outcome r (opening r script) script ≡ Ends end
        → (s : Cert) (path : List Block) (height : ℕ) (d : Digest32) → AreWritten r end path
        → light_answer r (signed now) s path ≡ Answer.Yes height d
        → IsBelieved r end (report_of r script end).chain path height d }
{}
