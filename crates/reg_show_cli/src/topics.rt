//! The commands, as help tells of them: the words of each stand here, and nowhere else.
ghost use Rattle.std.specs.Prelude.{◌≡◌, IfSome, Some};
ghost use Rattle.reg_show_cli.specs.declared.topics.Topic.{Topic as AnyTopic};
ghost use Rattle.reg_show_cli.specs.Topics.{topic_lines, topic_name};

/// A command, with which one can ask for help.
#[derive(Clone, Copy, Debug, PartialEq, Eq)]
pub enum Topic {
    Replay,
    Check,
    Play,
    Schedule,
    Outcomes,
    Find,
    Trace,
    Draw,
    Page,
    Data,
    Rest,
    Why,
    Verify,
    Merge,
    Story,
    Judge,
}

/// All of them, in the order in which help tells of them.
pub const TOPICS: [Topic; 16] = [
    Topic::Replay,
    Topic::Check,
    Topic::Play,
    Topic::Schedule,
    Topic::Outcomes,
    Topic::Find,
    Topic::Trace,
    Topic::Draw,
    Topic::Page,
    Topic::Data,
    Topic::Rest,
    Topic::Why,
    Topic::Verify,
    Topic::Merge,
    Topic::Story,
    Topic::Judge,
];

/// What help tells of `replay`.
pub const REPLAY: &str =
    "  awshow replay                 reads a schedule, prints the report of its run
";

/// What help tells of `check`.
pub const CHECK: &str =
    "  awshow check                  reads a report, prints whether its order, and its points if it has some, are right
";

/// What help tells of `play`.
pub const PLAY: &str =
    "  awshow play                   reads a workload, prints the report of the play that its seed gives
  awshow play --fair            the same of its fair play
";

/// What help tells of `schedule`.
pub const SCHEDULE: &str =
    "  awshow schedule               reads a workload, prints the schedule of its play
  awshow schedule --seed S      the same of its play by the seed S
  awshow schedule --fair        the same of its fair play
  awshow schedule --short       any of the three up to the last answer, without what no answer needs
";

/// What help tells of `outcomes`.
pub const OUTCOMES: &str =
    "  awshow outcomes [--plays N]   reads a workload, prints what N plays of it answer, counted
                  [--seed S]    the same from the seed S on
  awshow outcomes --all         reads a workload, prints all that it may answer, and what it never does
  awshow outcomes --all K       reads a workload, prints the schedule of a run that answers the K-th of these
";

/// What help tells of `find`.
pub const FIND: &str =
    "  awshow find serial            reads a report, prints it with a serial order of its history, or that it has none
  awshow find points            the same with a point order: each operation between its call and its answer
";

/// What help tells of `trace`.
pub const TRACE: &str =
    "  awshow trace [--whole]        reads a schedule or a workload, prints what happens, event by event;
                                of a workload's play in short, but with --whole all of it
";

/// What help tells of `draw`.
pub const DRAW: &str =
    "  awshow draw [--whole]         reads a schedule or a workload, prints the space-time diagram of the run as SVG;
                                of a workload's play in short, but with --whole all of it
  awshow draw --large [--whole] the same, large enough for a projector
";

/// What help tells of `page`.
pub const PAGE: &str =
    "  awshow page [--whole]         reads a schedule or a workload, prints a page that steps through the run;
                                of a workload's play in short, but with --whole all of it
";

/// What help tells of `data`.
pub const DATA: &str =
    "  awshow data                   reads a schedule or a workload, prints the run as JSON
";

/// What help tells of `rest`.
pub const REST: &str =
    "  awshow rest                   reads a schedule or a workload, prints the schedule with the events that bring the
                                run to rest
";

/// What help tells of `why`.
pub const WHY: &str =
    "  awshow why                    reads a schedule, a workload, a report or a record, prints what is wrong with it,
                                and where
";

/// What help tells of `verify`.
pub const VERIFY: &str =
    "  awshow verify                 reads a record of processes that ran apart, prints the report of their run
";

/// What help tells of `merge`.
pub const MERGE: &str =
    "  awshow merge                  reads the steps of processes that ran apart, as a record in any order that keeps
                                each process's own, prints them as a record in an order that is a run
";

/// What help tells of `story`.
pub const STORY: &str =
    "  awshow story                  reads the reports of chapters, one behind another, prints whether they are one story
";

/// What help tells of `judge`.
pub const JUDGE: &str =
    "  awshow judge                  reads a history, as JSON lines, EDN or a report, prints whether it is linearizable,
                                key by key or register by register
  awshow judge --first VALUE    the same of JSON lines or EDN, of registers with this first value, as JSON has it
  awshow judge --report         prints a report of the history in place of a yes, with the points that were found
";

impl Topic {
    /// The command of this name, None where it is none.
    pub(crate) fn named(word: &str) -> Option<Topic>
        ensures read { IfSome result (λ topic. topic_name topic ≡ word.now) }
        ensures whole { (topic : AnyTopic) → topic_name topic ≡ word.now → result ≡ Some topic }
    {
        match word {
            "replay" => Some(Topic::Replay),
            "check" => Some(Topic::Check),
            "play" => Some(Topic::Play),
            "schedule" => Some(Topic::Schedule),
            "outcomes" => Some(Topic::Outcomes),
            "find" => Some(Topic::Find),
            "trace" => Some(Topic::Trace),
            "draw" => Some(Topic::Draw),
            "page" => Some(Topic::Page),
            "data" => Some(Topic::Data),
            "rest" => Some(Topic::Rest),
            "why" => Some(Topic::Why),
            "verify" => Some(Topic::Verify),
            "merge" => Some(Topic::Merge),
            "story" => Some(Topic::Story),
            "judge" => Some(Topic::Judge),
            _ => None,
        }
    }

    /// What help tells of it.
    pub(crate) fn lines(self) -> &'static str
        ensures { result.now ≡ topic_lines self }
    {
        match self {
            Topic::Replay => REPLAY,
            Topic::Check => CHECK,
            Topic::Play => PLAY,
            Topic::Schedule => SCHEDULE,
            Topic::Outcomes => OUTCOMES,
            Topic::Find => FIND,
            Topic::Trace => TRACE,
            Topic::Draw => DRAW,
            Topic::Page => PAGE,
            Topic::Data => DATA,
            Topic::Rest => REST,
            Topic::Why => WHY,
            Topic::Verify => VERIFY,
            Topic::Merge => MERGE,
            Topic::Story => STORY,
            Topic::Judge => JUDGE,
        }
    }
}
