//! What holds of all folders and question files: they have one trace, and one list of questions, at most, and a command over
//! them one text. These functions do nothing: each is called for what it ensures.
ghost use Rattle.std.specs.Prelude.{◌≡◌, ◌∷◌, [], ℕ, List, flat_map, map};
ghost use Rattle.type_table.specs.SameTrace.{AreBoth};
ghost use Rattle.ht_outside.specs.Files.{Files};
ghost use Rattle.trace_types.specs.declared.host.HostEvents.{HostEvents};
ghost use Rattle.host_merge.specs.Merge.{with_own_time};
ghost use Rattle.host_sync.specs.Laws.{IsOneAnswer};
ghost use Rattle.host_sync.specs.Synced.{Synced};
ghost use Rattle.history_core.specs.declared.question.Question.{Question};
ghost use Rattle.command_words.specs.declared.command.PlainCommand.{PlainCommand};
ghost use Rattle.hosttrace.specs.Clusters.{AreSyncedTraces, IsGoodCluster, IsSameHost};
ghost use Rattle.hosttrace.specs.Means.{IsGood, IsOutput};
ghost use Rattle.hosttrace.specs.Questions.{AreQuestions, IsFirstBadQuestion};
ghost use Rattle.hosttrace.specs.Refusals.{ClusterRefuses, Refuses};
ghost use Rattle.hosttrace.specs.declared.status.Refusal.{Refusal};

/// Folders and a drift have at most one list of hosts and one merge of them, whatever places the types of traces are kept at. Where
/// they have one they are good and aren't refused; the merge of one folder alone is its host's own list.
pub fn one_cluster()
    ensures found { (files : Files) (dirs : List (List ℕ)) (drift rate : ℕ) (found others : List HostEvents) (s z : Synced) → AreSyncedTraces files dirs drift found s → AreSyncedTraces files dirs rate others z → AreBoth IsSameHost found others }
    ensures synced { (files : Files) (dirs : List (List ℕ)) (drift : ℕ) (found others : List HostEvents) (s z : Synced) → AreSyncedTraces files dirs drift found s → AreSyncedTraces files dirs drift others z → IsOneAnswer found s z }
    ensures refused { (files : Files) (dirs : List (List ℕ)) (drift : ℕ) (found : List HostEvents) (s : Synced) (refusal : Refusal) → AreSyncedTraces files dirs drift found s → ¬ (ClusterRefuses files dirs refusal) }
    ensures good { (files : Files) (dirs : List (List ℕ)) (drift : ℕ) (found : List HostEvents) (s : Synced) → AreSyncedTraces files dirs drift found s → IsGoodCluster files dirs }
    ensures alone { (files : Files) (dir : List ℕ) (drift : ℕ) (found : List HostEvents) (s : Synced) → AreSyncedTraces files (dir ∷ []) drift found s → s.merged ≡ flat_map (λ host. map with_own_time host.events.items) found }
{}

/// A text spells at most one list of questions. One that spells a list has no bad line, and any other has one first bad line.
pub fn one_asking()
    ensures questions { (bytes : List ℕ) (qs rs : List Question) → AreQuestions bytes qs → AreQuestions bytes rs → qs ≡ rs }
    ensures refused { (bytes : List ℕ) (qs : List Question) (line : ℕ) → AreQuestions bytes qs → ¬ (IsFirstBadQuestion bytes line) }
    ensures one_line { (bytes : List ℕ) (a b : ℕ) → IsFirstBadQuestion bytes a → IsFirstBadQuestion bytes b → a ≡ b }
{}

/// A command has at most one text over given files. Where it has one, the files are good for it, and nothing refuses them.
pub fn one_text()
    ensures text { (command : PlainCommand) (files : Files) (a b : List ℕ) → IsOutput command files a → IsOutput command files b → a ≡ b }
    ensures good { (command : PlainCommand) (files : Files) (text : List ℕ) → IsOutput command files text → IsGood command files }
    ensures refused { (command : PlainCommand) (files : Files) (text : List ℕ) (refusal : Refusal) → IsOutput command files text → ¬ (Refuses command files refusal) }
{}

/// A command has at most one refusal over given files.
pub fn one_refusal()
    ensures { (command : PlainCommand) (files : Files) (a b : Refusal) → Refuses command files a → Refuses command files b → a ≡ b }
{}
