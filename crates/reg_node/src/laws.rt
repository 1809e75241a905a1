//! Laws of nodes, of their logs, of chapters, of messages, and of records as text. Each is a function that does
//! nothing: its contract is the law.
ghost use Rattle.std.specs.Prelude.{ℕ, ◌≡◌, ◌≢◌, ◌==◌, ◌+◌, ◌<◌, ◌≤◌, ◌^◌, List, [], Some, length, slice_get, take};
ghost use Rattle.std.specs.Prelude.{true, ◌++◌};
ghost use Rattle.std.specs.List.{list_all, sum_by};
ghost use Rattle.reg_base.specs.declared.limits.TheConstants.{MOST_EVENTS};
ghost use Rattle.reg_base.specs.Order.{In};
ghost use Rattle.reg_base.specs.Memory.{memory};
ghost use Rattle.reg_base.specs.Shape.{Extent};
ghost use Rattle.reg_base.specs.declared.memory.Op.{Op};
ghost use Rattle.reg_frames.specs.declared.puts.Put.{Put};
ghost use Rattle.reg_front.specs.Fronts.{KeepsLaws};
ghost use Rattle.reg_front.specs.declared.named.Front.{Front};
ghost use Rattle.reg_front.specs.declared.starts.Start.{Start};
ghost use Rattle.reg_process.specs.Process.{State, next_of, peer_at};
ghost use Rattle.reg_process.specs.declared.events.Event.{Event};
ghost use Rattle.reg_process.specs.declared.steps.Step.{Step};
ghost use Rattle.reg_world.specs.Laws.{IsQuiescent};
ghost use Rattle.reg_world.specs.World.{whole};
ghost use Rattle.reg_node.specs.ChapterLaws.{AreTold};
ghost use Rattle.reg_node.specs.Chapters.{IsOver, Standing, Tale};
ghost use Rattle.reg_node.specs.Headless.{IsHeadless};
ghost use Rattle.reg_node.specs.LogFaults.{IsNoLog};
ghost use Rattle.reg_node.specs.LogTexts.{IsJournal, Journal, SpellsLog, begun_with, entry_line, grown_by, log_text};
ghost use Rattle.reg_node.specs.declared.transcripts.logs.LogId.{LogId};
ghost use Rattle.reg_records.specs.declared.entries.LogEntry.{LogEntry};
ghost use Rattle.reg_records.specs.Merges.{HasOrder};
ghost use Rattle.reg_node.specs.Clusters.{Happened, Member, logs_of};
ghost use Rattle.reg_node.specs.Crashes.{AreOfSteps, IsGiven};
ghost use Rattle.reg_node.specs.Logs.{AreSteps, Outgoing, first_state, outputs_of, state_after};
ghost use Rattle.reg_node.specs.Opening.{IsFirstNoStep};
ghost use Rattle.reg_node.specs.Openings.{opening_of};
ghost use Rattle.reg_node.specs.declared.faults.LoggedFault.{LoggedFault};
ghost use Rattle.reg_node.specs.declared.faults.LoggedFault.TheVariants.{Unspelled};
ghost use Rattle.reg_node.specs.Logged.{IsSpelled, IsSpelledOn, LoggedHandsOut, LoggedState, Writes, WritesNothing};
ghost use Rattle.reg_node.specs.Messages.{SpellsMessage};
ghost use Rattle.reg_node.specs.declared.messages.Message.{Message};
ghost use Rattle.reg_node.specs.Nodes.{Lives, NodeState, Past, past_given};
ghost use Rattle.reg_text.specs.Parts.{Lacks};
ghost use Rattle.reg_node.specs.RecordLines.{Account, IsAccount, SpellsAccount, account_text};

/// What a node handed out since it was opened went out of the entries since then: the k-th of it of the k-th of them,
/// which is durable.
pub fn only_durable_goes_out()
    ensures { (start : Op → ℕ → Start) (first : State) (past : Past) (n : NodeState) (k : ℕ) (output : Outgoing)
        → Lives start first past n → slice_get past.given k ≡ Some output
        → (past.opened + k < n.durable)
        × (slice_get (outputs_of start first past.log) (past.opened + k) ≡ Some output) }
{}

/// A crash leaves the first entries of a log, those that the node was told are durable and maybe more. They are steps,
/// so a node can be opened with them. All that was handed out before the crash went out of their steps. And each body
/// that was handed out has a number below the next one after these steps: a process that accepted it, and those before
/// it, says no count that is too high.
pub fn crash_keeps()
    ensures steps { (start : Op → ℕ → Start) (first : State) (past : Past) (n : NodeState) (kept : ℕ)
        → Lives start first past n → AreSteps start first (take kept past.log) }
    ensures given { (start : Op → ℕ → Start) (first : State) (past : Past) (n : NodeState) (kept : ℕ)
        → Lives start first past n → n.durable ≤ kept
        → AreOfSteps start first (take kept past.log) past.opened past.given }
    ensures bodies { (start : Op → ℕ → Start) (first : State) (past : Past) (n : NodeState) (kept to number : ℕ)
        → Lives start first past n → n.durable ≤ kept → IsGiven past.given to number
        → number < next_of (peer_at (state_after start first (take kept past.log)) to) }
{}

/// The nodes of a cluster make one run, however they crash. Let a network hand on only what the nodes handed out, which
/// it may lose, repeat and reorder, and let each node crash at any time and be opened again with the first entries of
/// its log. Of those that it was told are durable it may lose some that put no frame: a read that is answered at once
/// puts none. Then the logs have an order of all their entries that is a run, while they have no more entries together
/// than a run can have. So `merge` leaves nothing of them out. And each frame that was ever handed out, before crashes
/// too, goes out of an entry that the log of its node still has.
pub fn crashes_leave_one_run()
    ensures one_run { (start : Op → ℕ → Start) (shape : Extent) (k : ℕ) (cluster : List Member)
        → Happened start shape k cluster → sum_by length (logs_of cluster) ≤ MOST_EVENTS
        → HasOrder start shape (logs_of cluster) }
    ensures handed { (start : Op → ℕ → Start) (shape : Extent) (k : ℕ) (cluster : List Member)
        → Happened start shape k cluster → (p : ℕ) (m : Member) (output : Outgoing) (frame : Put)
        → slice_get cluster p ≡ Some m → In output m.handed → In frame output.frames
        → In output (outputs_of start (first_state shape p) m.past.log) }
{}

/// Where an entry is told with which no node is opened, the entries are no steps of its process. So, memory and the
/// limit aside, a node is opened exactly with the logs of its process.
pub fn fault_is_no_log()
    ensures { (start : Op → ℕ → Start) (first : State) (log : List LogEntry) (place : ℕ)
        → IsFirstNoStep start first log place → ¬ AreSteps start first log }
{}

/// A node's log stays the log of what it did: what it writes spells one more entry. After a refusal, but for want of an
/// entry's text, and after what it hands out, the log is as it was.
pub fn log_stays_spelled()
    ensures written { (start : Op → ℕ → Start) (first : State) (j : Journal) (past : Past) (old new : LoggedState)
        (e : Step) (bytes : List ℕ)
        → IsSpelled start first j past old → Writes start old e bytes new → IsSpelledOn start first j past bytes new }
    ensures refused { (start : Op → ℕ → Start) (first : State) (j : Journal) (past : Past) (old new : LoggedState)
        (e : Step) (fault : LoggedFault)
        → IsSpelled start first j past old → WritesNothing start old e fault new → fault ≢ Unspelled
        → IsSpelled start first j past new }
    ensures handed { (start : Op → ℕ → Start) (first : State) (j : Journal) (past : Past) (old new : LoggedState)
        (output : Outgoing)
        → IsSpelled start first j past old → LoggedHandsOut old output new
        → IsSpelled start first j (past_given past (Some output)) new }
{}

/// Each record within the limits has a text, which spells it.
pub fn each_record_has_a_text()
    ensures { (a : Account) → IsAccount a → SpellsAccount (account_text a) a }
{}

/// A log has a text, which spells it. It does so too with bytes behind it that have no line feed: a first part of a
/// line that a crash tore, or zeros.
pub fn what_a_crash_leaves_spells_the_log()
    ensures { (j : Journal) (tail : List ℕ) → Lacks 10 tail → SpellsLog (log_text j ++ tail) j tail }
{}

/// What a crash leaves of a log before its head is whole spells no log: no step was made that it tells of. And it is
/// found: a first part of the text of a log with no entries, which lacks some of it, with zeros behind it or none.
pub fn a_headless_log_never_began()
    ensures none { (id : LogId) (bytes : List ℕ) → id.cluster < 2 ^ 64 → id.process < 2 ^ 64 → id.chapter < 2 ^ 64
        → IsHeadless id bytes → IsNoLog bytes }
    ensures found { (id : LogId) (front : Front) (shape : Extent) (names : List (List ℕ)) (part left zeros : List ℕ)
        → IsJournal (begun_with id front shape names) → log_text (begun_with id front shape names) ≡ part ++ left
        → left ≢ [] → list_all (λ b. b == 0) zeros ≡ true → IsHeadless id (part ++ zeros) }
{}

/// With a further entry the text of a log grows by the line of the entry.
pub fn a_log_grows_by_lines()
    ensures { (j : Journal) (entry : LogEntry) → log_text (grown_by j entry) ≡ log_text j ++ entry_line j entry }
{}

/// Where what the processes of a run told says that their chapter is over, at whatever times they told it and if none
/// calls from then on: in the end no process has queued more bodies for another than it told, each has accepted all of
/// them, and all copies are equal.
pub fn over_stays_over()
    ensures put { (start : Op → ℕ → Start) (n registers : ℕ) (events : List Event) (time : ℕ → ℕ) (told : Tale)
        → AreTold start n registers events time told → IsOver told → (p q : ℕ) (s : Standing) → p < n → q < n → p ≢ q
        → slice_get told p ≡ Some (Some s)
        → next_of (peer_at ((whole start n registers events).nodes p).state q) ≤ s.put }
    ensures accepted { (start : Op → ℕ → Start) (n registers : ℕ) (events : List Event) (time : ℕ → ℕ) (told : Tale)
        → AreTold start n registers events time told → IsOver told → (p q : ℕ) → p < n → q < n → p ≢ q
        → (peer_at ((whole start n registers events).nodes q).state p).expected
        ≡ next_of (peer_at ((whole start n registers events).nodes p).state q) }
    ensures equal { (start : Op → ℕ → Start) (n registers : ℕ) (events : List Event) (time : ℕ → ℕ) (told : Tale)
        → KeepsLaws start → AreTold start n registers events time told → IsOver told
        → IsQuiescent n (whole start n registers events).nodes }
{}

/// What a chapter writes first, one after another over a memory of zeros, gives the values with which the chapter
/// before it ended.
pub fn an_opening_restores()
    ensures { (values : List ℕ) → memory (length values) (opening_of values) ≡ values }
{}

/// Bytes are one message at most.
pub fn a_message_is_read_in_one_way()
    ensures { (bytes : List ℕ) (m n : Message) → SpellsMessage bytes m → SpellsMessage bytes n → m ≡ n }
{}
