//! Laws of hosts around members' processes: of one answered line, of the file, and of all hosts of
//! a cluster together.

ghost use Rattle.std.specs.Prelude.{◌≡◌, ◌∷◌, ◌++◌, ◌⊎◌, List, None, Ok, Some, [], codes, map, ℕ};
ghost use Rattle.cw_base.specs.declared.hash.Digest32.{Digest32};
ghost use Rattle.cw_rules.specs.Coding.{AreBytes};
ghost use Rattle.cw_rules.specs.Reached.{IsCluster};
ghost use Rattle.cw_rules.specs.Rules.{Rules};
ghost use Rattle.cw_rules.specs.Step.{Member};
ghost use Rattle.cw_rules.specs.World.{Line};
ghost use Rattle.cw_rules.specs.declared.travel.Travel.{Travel};
ghost use Rattle.cw_types.specs.declared.note.Note.{Note};
ghost use Rattle.marshal.specs.Frames.{FindsAllOrNone, frame_bytes, read_frames};
ghost use Rattle.node.specs.Lives.{Turn, after_turns};
ghost use Rattle.node_disk.specs.Disk.{DeviceCall};
ghost use Rattle.node_disk.specs.Frames.{Finds};
ghost use Rattle.node_disk.specs.Images.{IsImage, Moment};
ghost use Rattle.node_disk.specs.Log.{HasSettled, start_calls};
ghost use Rattle.node_disk.specs.Made.{last_moment};
ghost use Rattle.member_session.specs.Serving.{Prepared, Serving, serving_rules};
ghost use Rattle.member_session.specs.Talk.{answered, done, session_after, started};
ghost use Rattle.member_session.specs.Told.{gate_of, turn_calls, turn_notes, turn_text};
ghost use Rattle.member_session.specs.declared.session.Session.{Session};
ghost use Rattle.member_session.specs.declared.session.Session.TheVariants as stage;
ghost use Rattle.member_runs.specs.Files.{AreWritable, MayBeLeft, MayCrashTo, shared};
ghost use Rattle.member_runs.specs.Hosts.{AllMay, HostCluster, HostEvent, RunAs, OneChainOrClash};
ghost use Rattle.member_runs.specs.Hosts.{hosts_after_all, new_hosts, cluster_rules, silence};
ghost use Rattle.member_runs.specs.Turns.{FindsTurns, IsFromBytes, turn_in, turn_of, turns_calls};
ghost use Rattle.member_runs.specs.Turns.{turns_in};

/// What a line makes of a member at work, in the words of the rules.
pub fn answer_laws()
    // an event is a step of the member, by what its line vouches for, and is answered by that
    ensures turn { (hash : List ℕ → Digest32) (travel : Travel) (s : Serving) (text : List ℕ)
        (t : Turn)
        → turn_in text ≡ Some t
        → answered hash travel (stage.Running s) text ≡ done (stage.Running (record s {
          member = (turn_of (serving_rules hash travel s) s.id s.member t).member;
        })) (turn_text (serving_rules hash travel s) s.id s.member t) }
    // a message that it brings was read from bytes, and a floor is a finalization
    ensures from_bytes { (text : List ℕ) (t : Turn) → turn_in text ≡ Some t
        → IsFromBytes t.event }
    // any other line changes nothing
    ensures no_turn { (hash : List ℕ → Digest32) (travel : Travel) (s : Serving) (text : List ℕ)
        → turn_in text ≡ None
        → (answered hash travel (stage.Running s) text).session ≡ stage.Running s }
    // so lines leave the member behind their turns
    ensures lines { (hash : List ℕ → Digest32) (travel : Travel) (s : Serving)
        (texts : List (List ℕ))
        → session_after hash travel (stage.Running s) texts ≡ stage.Running (record s {
          member =
              after_turns (serving_rules hash travel s) s.id s.member (turns_in texts);
        }) }
    // and `start`, behind lines that prepare it, starts the member on the file
    ensures start { (hash : List ℕ → Digest32) (travel : Travel) (session : Session Serving)
        (opening : List (List ℕ)) (o : Prepared) (frames : List (List Note))
        → session_after hash travel session opening ≡ stage.Opening o
        → read_frames o.file ≡ Ok frames
        → session_after hash travel session (opening ++ codes "start" ∷ [])
        ≡ stage.Running (started hash travel o frames) }
{}

/// What the device calls that answers tell make of a file, made in order by a host, wherever it
/// stops. Several answers may share their syncs.
pub fn file_laws()
    // a stop in the calls of one event leaves a file on which a start finds all of its notes or none
    ensures one { (r : Rules) (id : ℕ) (m : Member) (t : Turn) (file left : Moment)
        → HasSettled (map frame_bytes m.frames) (gate_of m.frames) file
        → AreWritable (after_turns r id m (t ∷ [])).frames
        → MayBeLeft file (turn_calls r id m t) left
        → (image : List ℕ) → IsImage left image
        → FindsAllOrNone m.frames (turn_notes r id m t) image }
    // a stop in the shared calls of several leaves one on which it finds those of the first of them,
    // all of each, and none of the others
    ensures stopped { (r : Rules) (id : ℕ) (m : Member) (turns : List Turn) (file left : Moment)
        → HasSettled (map frame_bytes m.frames) (gate_of m.frames) file
        → AreWritable (after_turns r id m turns).frames
        → MayBeLeft file (shared (turns_calls r id m turns)) left
        → (image : List ℕ) → IsImage left image → FindsTurns r id m turns image }
    // once the calls are made the file is at rest with all
    ensures settled { (r : Rules) (id : ℕ) (m : Member) (turns : List Turn) (file : Moment)
        → HasSettled (map frame_bytes m.frames) (gate_of m.frames) file
        → AreWritable (after_turns r id m turns).frames
        → HasSettled (map frame_bytes (after_turns r id m turns).frames)
        (gate_of (after_turns r id m turns).frames)
        (last_moment file (shared (turns_calls r id m turns))) }
    // a stop in the calls of a start leaves what was left before, or what holds the same frames
    ensures start_stopped { (frames : List (List ℕ)) (file : Moment) → Finds frames file.seen
        → (image : List ℕ) → MayCrashTo file (start_calls file.seen) image
        → IsImage file image ⊎ Finds frames image }
    // and once they are made the file is at rest with them
    ensures started { (frames : List (List Note)) (file : Moment) → AreBytes file.seen
        → Finds (map frame_bytes frames) file.seen
        → HasSettled (map frame_bytes frames) (gate_of frames)
        (last_moment file (start_calls file.seen)) }
    // whatever image a crash leaves, a file that holds it for good may be left
    ensures crashed { (file : Moment) (calls : List DeviceCall) (image : List ℕ)
        → MayCrashTo file calls image → AreBytes image
        → MayBeLeft file calls (record { seen = image; synced = image; ranges = [] }) }
{}

/// Whatever hosts of a cluster do that may be done, over any number of processes that end and start
/// again: they deliver any bytes, in any order, and vouch for what was signed. At most f members of
/// each epoch are faulty, of which nothing is asked.
pub fn host_laws()
    // it is a run of the rules
    ensures run { (c : HostCluster) (events : List HostEvent)
        → IsCluster (cluster_rules c) (silence c.faulty) → AllMay c (new_hosts c) events
        → (script : List Line) × RunAs c (hosts_after_all c (new_hosts c) events) script }
    // so all that they hand out is one chain, unless that run comes to two blocks of one digest
    ensures chain { (c : HostCluster) (events : List HostEvent)
        → IsCluster (cluster_rules c) (silence c.faulty) → AllMay c (new_hosts c) events
        → (script : List Line) × RunAs c (hosts_after_all c (new_hosts c) events) script
        × OneChainOrClash (cluster_rules c) script (hosts_after_all c (new_hosts c) events).handed }
{}
