//! Histories of EDN judged: what is told of some that are worked out by hand, some of them in lines of JSON too.
use crate::histories_judged::{FAILED_TOLD, Row, STALE_TOLD, UNEQUAL_TOLD, gives};

/// The history of `STALE`, with keywords in the place of strings, as Jepsen writes one entry a line.
const STALE: &str = "\
{:process 0, :type :invoke, :f :write, :key :x, :value 1, :time 123, :index 0}
{:process 0, :type :ok, :f :write, :key :x, :value 1, :time 150, :index 1}
{:process 1, :type :invoke, :f :write, :key :x, :value 2, :time 160, :index 2}
{:process 2, :type :invoke, :f :read, :key :x, :value nil, :time 170, :index 3}
{:process 2, :type :ok, :f :read, :key :x, :value 2, :time 180, :index 4}
{:process 2, :type :invoke, :f :read, :key :x, :value nil, :time 190, :index 5}
{:process 2, :type :ok, :f :read, :key :x, :value 1, :time 200, :index 6}
{:process 1, :type :ok, :f :write, :key :x, :value 2, :time 210, :index 7}
{:process 2, :type :invoke, :f :read, :key :x, :value nil, :time 220, :index 8}
{:process 2, :type :ok, :f :read, :key :x, :value 2, :time 230, :index 9}
";

/// The same in a vector, of records with tags, with independent keys, the first entry after other lines.
const STALE_IN_VECTOR: &str =
    "[#jepsen.history.Op{:process 0 :type :invoke :f :write :value [\"x\" 1]}
#jepsen.history.Op{:process 0 :type :ok :f :write :value [\"x\" 1]}
#jepsen.history.Op{:process 1 :type :invoke :f :write :value [\"x\" 2]}
#jepsen.history.Op{:process 2 :type :invoke :f :read :value [\"x\" nil]}
#jepsen.history.Op{:process 2 :type :ok :f :read :value [\"x\" 2]}
#jepsen.history.Op{:process 2 :type :invoke :f :read :value [\"x\" nil]}
#jepsen.history.Op{:process 2 :type :ok :f :read :value [\"x\" 1]}
#jepsen.history.Op{:process 1 :type :ok :f :write :value [\"x\" 2]}
#jepsen.history.Op{:process 2 :type :invoke :f :read :value [\"x\" nil]}
#jepsen.history.Op{:process 2 :type :ok :f :read :value [\"x\" 2]}]
";

/// What else may stand in entries and between them, and which entries are passed over.
const ASIDE: &str = r#"; what a nemesis does, and other notes, are no calls
{:process :nemesis, :type :invoke, :f :read, :value {:n1 #{:n2 :n3}}}
{:process :nemesis, :type :ok, :f :kill}
{:process :logger, :type :info, :f :start-partition, :value nil}, {:process "log", :type :info}
{:value 5, :f :write, :type :invoke, :process 0, :key "x"
 :exception {:via [{:type "clojure.lang.ExceptionInfo", :message "a \"b\" \\ \n { ; ["}]},
 :ext (1 2.5 -3 4N 1/2 ##Inf true false \a \{ \newline foo/bar ::k [[] {} #{}] #inst "2026-11-29" #uuid "0")}
{:process 0 :type :ok :f :write :key "x" :value 5} ; done
{:process 1 :type :invoke :f :read :key "x"}{:process 1 :type :ok :f :read :key "x" :value 5 :error [:timeout "x"]}
"#;

const ASIDE_TOLD: &str = "yes
key \"x\": linearizable
first value: 0
point order: yes
serial order: yes
";

/// Nobody wrote, and the register had another value than 0.
const UNEQUAL: &str = "\
{:process 0, :type :invoke, :f :cas, :key \"x\", :value [0 1]}
{:process 0, :type :fail, :f :cas, :key \"x\", :value [0 1], :error :unequal}
";

/// The same at an independent key.
const UNEQUAL_KEYED: &str = "\
{:process 0, :type :invoke, :f :cas, :value [:x [0 1]]}
{:process 0, :type :fail, :f :cas, :value [:x [0 1]], :error :unequal}
";

/// It fails, and nobody knows why.
const FAILED: &str = "\
{:process 0, :type :invoke, :f :cas, :value [:x [0 1]]}
{:process 0, :type :fail, :f :cas, :value [:x [0 1]], :error :timeout}
";

const NOTHING_TOLD: &str = "yes
first value: 0
point order: yes
serial order: yes
";

const NOT_AN_ENTRY: &str =
    "refused: line 1: wanted an entry, a map of EDN whose keys are keywords\n";

const NO_PAIR: &str = "refused: line 1: wanted brackets in pairs\n";

const NO_END: &str = "refused: line 1: wanted the end of what is begun\n";

const NO_FORM: &str = "refused: line 1: wanted a form of EDN, and no #_\n";

const ROWS: [Row; 8] = [
    ("judge", STALE, (1, STALE_TOLD, "")),
    ("judge", STALE_IN_VECTOR, (1, STALE_TOLD, "")),
    ("judge", ASIDE, (0, ASIDE_TOLD, "")),
    ("judge", UNEQUAL, (1, UNEQUAL_TOLD, "")),
    ("judge", UNEQUAL_KEYED, (1, UNEQUAL_TOLD, "")),
    ("judge", FAILED, (0, FAILED_TOLD, "")),
    ("judge", " \n,[ ]", (0, NOTHING_TOLD, "")),
    ("judge", "; nothing", (0, NOTHING_TOLD, "")),
];

/// Texts that are refused, and the line that is told of each.
const REFUSED: &[(&str, &str)] = &[
    ("#{}", NOT_AN_ENTRY),
    ("[[]]", NOT_AN_ENTRY),
    ("[5]", NOT_AN_ENTRY),
    ("[]{:f :read}", NOT_AN_ENTRY),
    ("[{5 6}]", NOT_AN_ENTRY),
    ("{:f}", NOT_AN_ENTRY),
    ("{:f :read)", NO_PAIR),
    ("{:f [1 2}", NO_PAIR),
    ("{:f :read", NO_END),
    ("[", NO_END),
    ("[{:f \"re", NO_END),
    ("#_{:f :read}", NO_FORM),
    ("[{:f :re\\ad}]", NO_FORM),
    ("[{:f \"re\\qd\"}]", NOT_AN_ENTRY),
    (
        "\n{:type :invoke}",
        "refused: line 2: wanted process, an integer or a string\n",
    ),
    (
        "{:process 0 :type :begin}",
        "refused: line 1: wanted type, one of invoke, ok, fail and info\n",
    ),
    (
        "{:process 0 :type :info :f :kill}",
        "refused: line 1: wanted f, one of read, write, swap and cas\n",
    ),
    (
        "{:process 0 :type :invoke :f :write :key 1.5 :value 1}",
        "refused: line 1: wanted key, an integer, a string or null\n",
    ),
    (
        "{:process 0 :type :invoke :f :write :key :x :value [:y 1]}",
        "refused: line 1: wanted value, an integer, a string or null\n",
    ),
    (
        "{:process 0 :type :invoke :f :write :value {:x 1}}",
        "refused: line 1: wanted value, an integer, a string or null\n",
    ),
    (
        "{:process 0 :type :invoke :f :cas :value [1 nil]}",
        "refused: line 1: wanted value, what is written\n",
    ),
    (
        "{:process 0 :type :invoke :f :cas :value (1 2 3)}",
        "refused: line 1: wanted value, the expected value and the new one\n",
    ),
    (
        "[{:process 0 :type :ok :f :read\n :value 1}]",
        "refused: line 2: the process has no call under way\n",
    ),
];

#[test]
fn histories_of_edn_are_judged(rt: HostRuntime) {
    for row in &ROWS {
        assert!(rt; gives(&rt, row), "{} < {}", row.0, row.1);
    }
}

#[test]
fn texts_that_are_no_histories_of_edn_are_refused(rt: HostRuntime) {
    for (text, line) in REFUSED {
        let row = ("judge", *text, (1, "", *line));
        assert!(rt; gives(&rt, &row), "judge < {text}");
    }
}
