//! What is told of workloads: what an accepted one is, and where one is wrong that has a mistake.
use crate::why::Row;

/// A workload in its layout that is accepted.
const ACCEPTED: [Row; 1] = [(
    "budget = 10\nfront = \"local-write\"\nloss = 0\nregisters = [\"x\"]\nrepeat = 0\nscripts = [[\"write x 5\", \"read x\"], [\"read x\"]]\nseed = 0\n",
    "a workload: 2 processes, 1 register, local-write, 3 operations\n",
)];

/// What is told of it.
pub(crate) fn accepted() -> &'static [Row] {
    &ACCEPTED
}

/// Texts that are refused, and what is told of each, worked out by hand.
const REFUSED: [Row; 25] = [
    (
        "{\"process\": 0, \"type\": \"invoke\", \"f\": \"read\", \"key\": \"x\"}\n",
        "toml\n1 | {\"process\": 0, \"type\": \"invoke\", \"f\": \"read\", \"key\": \"x\"}\n  | ^\ninvalid key, expected letters, numbers, `-`, `_` or a quoted key\na history in lines of JSON is judged by awshow judge\n",
    ),
    (
        "front = \"local-write\"\nregisters = [\"x\"\nscripts = [[\"write x 5\", \"read x\"], [\"read x\"]]\n",
        "toml\n3 | scripts = [[\"write x 5\", \"read x\"], [\"read x\"]]\n  | ^\nmissing comma between array elements, expected `,` or `]`\nan array of line 2 is still open here\n",
    ),
    (
        "front = \"local-write\"\nregister = [\"x\"]\nscripts = [[\"write x 5\", \"read x\"], [\"read x\"]]\n",
        "unknown key\n2 | register = [\"x\"]\n  | ^\n\"register\": did you mean registers?\n",
    ),
    (
        "front = \"local-write\"\nregisters = [\"x\"]\nscripts = [[\"write x 5\", \"read x\"], [\"read x\"]]\nloops = 3\n",
        "unknown key\n4 | loops = 3\n  | ^\n\"loops\": did you mean loss?\n",
    ),
    (
        "front = \"local-write\"\nregisters = [\"x\"]\nscripts = [[\"write x 5\", \"read x\"], [\"read x\"]]\nname = 3\n",
        "unknown key\n4 | name = 3\n  | ^\nexpected front, registers, scripts, seed, loss, repeat or budget, found \"name\"\n",
    ),
    (
        "",
        "missing front\nfront is a string, and no line has it: linear, local-read or local-write\n",
    ),
    (
        "front = \"linear\"\nregisters = [\"x\"]\n",
        "missing scripts\nscripts is an array of arrays of strings, one for each process, and no line has it\n",
    ),
    (
        "front = \"local-write\"\nregisters = \"x\"\nscripts = [[\"write x 5\", \"read x\"], [\"read x\"]]\n",
        "kind registers\n2 | registers = \"x\"\n  | ^\nregisters is an array of strings, and this is of the kind string\n",
    ),
    (
        "front = \"local-write\"\nregisters = [\"x\", 1]\nscripts = [[\"write x 5\", \"read x\"], [\"read x\"]]\n",
        "kind registers\n2 | registers = [\"x\", 1]\n  | ^\nregisters is an array of strings: item 1 is of the kind integer\n",
    ),
    (
        "front = \"local-write\"\nregisters = [\"x\"]\nscripts = [[\"write x 5\", \"read x\"], \"read x\"]\n",
        "kind scripts\n3 | scripts = [[\"write x 5\", \"read x\"], \"read x\"]\n  | ^\nscripts is an array of arrays of strings, one for each process: script 1 is of the kind string\n",
    ),
    (
        "front = \"local-write\"\nregisters = [\"x\"]\nscripts = [[\"write x 5\", \"read x\"], [\"read x\"]]\nseed = \"7\"\n",
        "kind seed\n4 | seed = \"7\"\n  | ^\nseed is an integer, and this is of the kind string\n",
    ),
    (
        "front = \"local-wriet\"\nregisters = [\"x\"]\nscripts = [[\"write x 5\", \"read x\"], [\"read x\"]]\n",
        "range front\n1 | front = \"local-wriet\"\n  | ^\n\"local-wriet\": did you mean local-write?\n",
    ),
    (
        "front = \"local-write\"\nregisters = [\"x\", \"y2\"]\nscripts = [[\"write x 5\", \"read x\"], [\"read x\"]]\n",
        "range registers\n2 | registers = [\"x\", \"y2\"]\n  |                   ^\n\"y2\": a register's name is 1 to 16 letters a to z\n",
    ),
    (
        "front = \"local-write\"\nregisters = [\"x\", \"x\"]\nscripts = [[\"write x 5\", \"read x\"], [\"read x\"]]\n",
        "range registers\n2 | registers = [\"x\", \"x\"]\n  |                   ^\n\"x\" stands before: each register has a name of its own\n",
    ),
    (
        "front = \"linear\"\nregisters = [\"x\"]\nscripts = []\n",
        "range scripts\n3 | scripts = []\n  | ^\na workload has 1 to 64 scripts, and here are 0\n",
    ),
    (
        "front = \"local-write\"\nregisters = [\"x\"]\nscripts = [[\"write x 5\", \"read x\"], [\"read x\"]]\nloss = 101\n",
        "range loss\n4 | loss = 101\n  | ^\n101 is out of range: loss is from 0 to 100\n",
    ),
    (
        "front = \"local-write\"\nregisters = [\"x\"]\nscripts = [[\"write x 5\", \"read x\"], [\"read x\"]]\nbudget = 0\n",
        "range budget\n4 | budget = 0\n  | ^\n0 is out of range: budget is from 1 to 1048576\n",
    ),
    (
        "front = \"local-write\"\nregisters = [\"x\"]\nscripts = [[\"write x 5\", \"read x\"], [\"read x\"]]\nseed = -1\n",
        "range seed\n4 | seed = -1\n  | ^\n-1 is out of range: seed is from 0 to 9223372036854775807\n",
    ),
    (
        "front = \"local-write\"\nregisters = [\"x\"]\nscripts = [[\"write x 5\", \"raed x\"], [\"read x\"]]\n",
        "script 0 1\n3 | scripts = [[\"write x 5\", \"raed x\"], [\"read x\"]]\n  |                           ^\n\"raed\": did you mean read?\n",
    ),
    (
        "front = \"local-write\"\nregisters = [\"x\"]\nscripts = [[\"write x 5\", \"read x\"], [\"read y\"]]\n",
        "script 1 0\n3 | scripts = [[\"write x 5\", \"read x\"], [\"read y\"]]\n  |                                            ^\nno register \"y\": the register is x\n",
    ),
    (
        "proceses 2\nregisters x\nfront linear\n",
        "toml\n1 | proceses 2\n  |          ^\nkey with no value, expected `=`\na schedule begins with processes and a number, as in processes 2\n",
    ),
    (
        "front = \"linear\"\nregisters = []\nscripts = [[]]\n",
        "range registers\n2 | registers = []\n  | ^\na workload has 1 to 4096 registers, and here are 0\n",
    ),
    (
        "front = \"linear\"\nregisters = [\"x\"]\nscripts = [[\"read x\", 3]]\n",
        "kind scripts\n3 | scripts = [[\"read x\", 3]]\n  | ^\nscripts is an array of arrays of strings, one for each process: of script 0: item 1 is of the kind integer\n",
    ),
    (
        "front = \"linear\"\nregisters = [\"x\", # it's [one]\n  \"y2\"]\nscripts = [[]]\n",
        "range registers\n3 |   \"y2\"]\n  |   ^\n\"y2\": a register's name is 1 to 16 letters a to z\n",
    ),
    (
        "awerg report 2\nfront linear\n",
        "toml\n1 | awerg report 2\n  |       ^\nkey with no value, expected `=`\na report begins with awreg report 2\n",
    ),
];

/// Workloads that stand in no layout.
const IN_NO_LAYOUT: [Row; 2] = [
    (
        "front = \"local-write\"\nregisters = [\"x\"]\nscripts = [[\"write x 5\", \"read x\"], [\"read x\"]]\n",
        "a workload: 2 processes, 1 register, local-write, 3 operations\n",
    ),
    (
        "front = \"local-write\"\nregisters = [\"x\"]\nscripts = [[\"write x 5\", \"read x\"], [\"read x\"]]\nbudget = 10\n",
        "a workload: 2 processes, 1 register, local-write, 3 operations\n",
    ),
];

/// Texts that are no documents, and documents that say no workload.
const BROKEN: &[&str] = &[
    "front = \"linear\"\nfront = \"linear\"\n",
    "front.x = 1\nfront = 1\n",
    "front = 1\nfront.x = 1\n",
    "front = 1\n[front]\n",
    "[[registers]]\nregisters = 1\n",
    "front = \"a\\qb\"\n",
    "front = \"\\uD800\"\n",
    "front = \"\"\"\na \\\n b\"\"\"\nseed = \"\"\"a\"\"\"\"\"\"\n",
    "front = 'a\n",
    "# a\u{1}b\nfront = 1\n",
    "seed = [[1, 2], {a = 1, \"b\" = [2]}, ]\nx = {a = 1 b = 2}\n",
    "seed = {a}\n",
    "seed = [1,, 2]\n",
    "seed = 1__0\n",
    "seed = 0xg\n",
    "seed = -9223372036854775809\n",
    "seed = 1.\n",
    "seed = 1e+\n",
    "seed = 1979-13-27\n",
    "seed = 25:00\n",
    "seed = 1 # one\nloss = 1 2\n",
    "[a\n",
    "[[a]\n",
    "[a] b\n",
    "a..b = 1\n",
    "loss = 0x65\nfront = 'linear'\nregisters = ['x']\nscripts = [[]]\n",
    "repeat = -1_0\nfront = 'linear'\nregisters = ['x']\nscripts = [[]]\n",
    "seed = 1e2\nfront = 'linear'\nregisters = ['x']\nscripts = [[]]\n",
    "front = 'linear'\nregisters = {a = \"]\", b = [1, 2]}\nscripts = [[]]\n",
    "front = 'linear'\n\"registers\" = ['x', '''Y''']\nscripts = [[]]\n",
    "front = 'linear'\nregisters = ['x']\n[[scripts]]\n",
    "front = 'linear'\nregisters = ['x']\nscripts = [['read x'], # [\n ['raed x']]\n",
];

/// What is told of texts that are refused.
pub(crate) fn refused() -> &'static [Row] {
    &REFUSED
}

/// What is told of workloads that stand in no layout.
pub(crate) fn in_no_layout() -> &'static [Row] {
    &IN_NO_LAYOUT
}

/// Texts that are no documents, and documents that say no workload.
pub(crate) fn broken() -> &'static [&'static str] {
    BROKEN
}
