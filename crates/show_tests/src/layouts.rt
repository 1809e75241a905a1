//! Documents read with no heap but the reader's own, as a page has it, beside the kit's reader of documents: both tell
//! the same workload, or the same fault.
use reg_commands::{guess_workload, lay_out};
use reg_inputs::{Workload, WorkloadFault};
use std::alloc::Global;
use std::test::Fail;

/// Documents that say a workload, with its layout, as worked by hand.
const SAID: &[(&str, &str)] = &[
    (
        "front = \"linear\"\nregisters = [\"x\"]\nscripts = [[\"write x 5\"], [\"read x\"]]\n",
        "budget = 100000
front = \"linear\"
loss = 0
registers = [\"x\"]
repeat = 0
scripts = [[\"write x 5\"], [\"read x\"]]
seed = 0
",
    ),
    (
        "# one\n\nscripts=[['read x',],] # two\nregisters = [\n  'x', # three\n]\nfront = 'local-read'",
        "budget = 100000
front = \"local-read\"
loss = 0
registers = [\"x\"]
repeat = 0
scripts = [[\"read x\"]]
seed = 0
",
    ),
    (
        "front = \"\"\"local-write\"\"\"\r\nregisters = [\"x\", \"y\"]\r\nscripts = [[]]\r\nbudget = 0x10\r\n",
        "budget = 16
front = \"local-write\"
loss = 0
registers = [\"x\", \"y\"]
repeat = 0
scripts = [[]]
seed = 0
",
    ),
    (
        "'front' = '''\nlinear'''\n\"seed\" = +1_000\nloss = 0o17\nrepeat = 0b11\nregisters = ['x']\nscripts = [[]]\n",
        "budget = 100000
front = \"linear\"
loss = 15
registers = [\"x\"]
repeat = 3
scripts = [[]]
seed = 1000
",
    ),
];

/// Documents that say none, with the first fault of each, as worked by hand; and texts that are no documents.
const REFUSED: &[(&str, &str)] = &[
    ("", "missing front"),
    ("title = \"front\"\n", "unknown key"),
    ("a.b = 1\n", "unknown key"),
    ("[table]\nfront = 1\n", "unknown key"),
    (
        "[[tables]]\nx = [1, 2.5, \"a\", [true]]\n[[tables]]\nx = { a = 1, \"b\" = [2], }\n",
        "unknown key",
    ),
    (
        "task = \"\"\"\nlong \"x\" \\\"\"\" text\"\"\"\nend = '''\n'a' ''b''\n'''\n",
        "unknown key",
    ),
    (
        "d = 1979-05-27T07:32:00Z\nt = 07:32\nj = nan\ne = 1e3\nf = -1.5\n",
        "unknown key",
    ),
    ("front = \"linear\"\nseed = 0\n", "missing registers"),
    (
        "front = \"linear\"\nregisters = [\"x\"]\n",
        "missing scripts",
    ),
    ("front = 5\n", "kind front"),
    ("front = { a = 1 }\n", "kind front"),
    ("front.x = \"linear\"\n", "kind front"),
    ("[front]\n", "kind front"),
    ("front = \"other\"\n", "range front"),
    ("front = \"linear\"\nregisters = \"x\"\n", "kind registers"),
    ("front = \"linear\"\nregisters = [1]\n", "kind registers"),
    (
        "front = \"linear\"\nregisters = [\"X\"]\n",
        "range registers",
    ),
    (
        "front = \"linear\"\nregisters = [\"x\"]\nscripts = [[1]]\n",
        "kind scripts",
    ),
    (
        "front = \"linear\"\nregisters = [\"x\"]\nscripts = []\n",
        "range scripts",
    ),
    (
        "front = \"linear\"\nregisters = [\"x\"]\nscripts = [[], [\"read y\"]]\n",
        "script 1 0",
    ),
    (
        "front = \"linear\"\nregisters = [\"x\"]\nscripts = [[]]\nseed = 1.0\n",
        "kind seed",
    ),
    (
        "front = \"linear\"\nregisters = [\"x\"]\nscripts = [[]]\nloss = -1\n",
        "range loss",
    ),
    (
        "front = \"linear\"\nregisters = [\"x\"]\nscripts = [[]]\nrepeat = 101\n",
        "range repeat",
    ),
    (
        "front = \"linear\"\nregisters = [\"x\"]\nscripts = [[]]\nbudget = 0\n",
        "range budget",
    ),
    ("processes 2\n", "toml"),
    ("front\n", "toml"),
    ("front = \n", "toml"),
    ("front = \"linear\n", "toml"),
    ("front = \"linear\" seed = 1\n", "toml"),
    ("front = \"linear\"\nfront = \"linear\"\n", "toml"),
    ("seed = 05\n", "toml"),
    ("seed = 1_\n", "toml"),
    ("seed = 9223372036854775808\n", "toml"),
    ("seed = tru\n", "toml"),
    ("registers = [\"x\" \"y\"]\n", "toml"),
    ("registers = [\"x\",, \"y\"]\n", "toml"),
    ("scripts = [[\"read x\"]\n", "toml"),
    ("other = { a = 1\n", "toml"),
    ("[unclosed\n", "toml"),
    ("seed = 1\r\rloss = 2\n", "toml"),
    ("front = \"line\rar\"\n", "toml"),
    ("title = \"line\rar\"\n", "toml"),
];

/// What is told of a document: the layout of its workload, or its fault.
fn told(global: Global, read: Result<Workload, WorkloadFault>) -> Result<String, Fail> {
    match read {
        Ok(work) => Ok(String::from_utf8(lay_out(global, &work)?)?),
        Err(fault) => Ok(format!(in global; "{fault}")?),
    }
}

/// Whether both readers tell just this of a document.
fn both_tell(global: Global, text: &str, wanted: &str) -> Result<bool, Fail> {
    let said = told(global, Workload::from_toml(global, text))?;
    let guessed = told(global, guess_workload(global, text))?;
    Ok(said.as_str() == wanted && guessed.as_str() == wanted)
}

#[test]
fn a_workload_is_read_as_the_document_says_it(rt: HostRuntime) -> Result<(), Fail> {
    for (text, layout) in SAID {
        assert!(rt; both_tell(rt.alloc(), text, layout)?, "{text}");
    }
    Ok(())
}

#[test]
fn a_document_that_says_none_is_told_by_its_first_fault(rt: HostRuntime) -> Result<(), Fail> {
    for (text, fault) in REFUSED {
        assert!(rt; both_tell(rt.alloc(), text, fault)?, "{text}");
    }
    Ok(())
}
