//! What is told of schedules: what an accepted one is, and where one is wrong that has a mistake.
use crate::why::Row;

/// Schedules that are accepted.
const ACCEPTED: [Row; 4] = [
    (
        "processes 2\nregisters x z\nfront linear\ncall 0 write x 1\ntake 0 1 0\n",
        "a schedule: 2 processes, 2 registers, linear, 2 events, all accepted\n",
    ),
    (
        "# one\n\nprocesses 1\nregisters x\nfront local-read\ntick 0",
        "a schedule: 1 process, 1 register, local-read, 1 event, all accepted\n",
    ),
    (
        "processes 64\nregisters a\nfront local-write\n",
        "a schedule: 64 processes, 1 register, local-write, 0 events, all accepted\n",
    ),
    (
        "processes 1\nregisters registers\nfront linear\ncall 0 read registers\n",
        "a schedule: 1 process, 1 register, linear, 1 event, all accepted\n",
    ),
];

/// What is told of accepted schedules.
pub(crate) fn accepted() -> &'static [Row] {
    &ACCEPTED
}

/// Wrong words.
const WORDS: [Row; 14] = [
    (
        "processes 2\nregisters x z\nfront linear\ncal 0 write x 1\n",
        "line 4: form\n4 | cal 0 write x 1\n  | ^\n\"cal\": did you mean call?\n",
    ),
    (
        "processes 2\nregisters x z\nfront linear\ncall 0 wirte x 1\n",
        "line 4: form\n4 | call 0 wirte x 1\n  |        ^\n\"wirte\": did you mean write?\n",
    ),
    (
        "processes 2\nregisters x z\nfront linear\ncall 0 delete x\n",
        "line 4: form\n4 | call 0 delete x\n  |        ^\nexpected read, write, swap or cas, found \"delete\"\n",
    ),
    (
        "processes 2\nregisters x z\nfront linear\nTick 0\n",
        "line 4: form\n4 | Tick 0\n  | ^\n\"Tick\": did you mean tick?\n",
    ),
    (
        "processes 2\nregisters x z\nfront linear\nsend 0 1 0\n",
        "line 4: form\n4 | send 0 1 0\n  | ^\nexpected call, take or tick, found \"send\"\n",
    ),
    (
        "processes 2\nregister x\nfront linear\n",
        "line 2: form\n2 | register x\n  | ^\n\"register\": did you mean registers?\n",
    ),
    (
        "processes 2\nfront linear\nregisters x\n",
        "line 2: form\n2 | front linear\n  | ^\nexpected registers, found \"front\"\n",
    ),
    (
        "processes 2\nregisters x\nfront Linear\n",
        "line 3: form\n3 | front Linear\n  |       ^\n\"Linear\": did you mean linear?\n",
    ),
    (
        "processes 2\nregisters x\nfront local-reads\n",
        "line 3: name\n3 | front local-reads\n  |       ^\n\"local-reads\": did you mean local-read?\n",
    ),
    (
        "processes 2\nregisters x\nfront casual\n",
        "line 3: name\n3 | front casual\n  |       ^\nexpected linear, local-read or local-write, found \"casual\"\n",
    ),
    (
        "processes 2\nregisters x\nfront local read\n",
        "line 3: form\n3 | front local read\n  |       ^\nexpected linear, local-read or local-write, found \"local\"\n",
    ),
    (
        "processes 2\nregisters x z\nfront linear\ncall 0 rode x\n",
        "line 4: form\n4 | call 0 rode x\n  |        ^\nexpected read, write, swap or cas, found \"rode\"\n",
    ),
    (
        "processes 2\nregisters x z\nfront linear\ncall 300 reed x\n",
        "line 4: form\n4 | call 300 reed x\n  |          ^\n\"reed\": did you mean read?\n",
    ),
    (
        "processes 2\nregisters x z\nfront linear\ncall 0\n",
        "line 4: form\n4 | call 0\n  |       ^\nexpected read, write, swap or cas, found the end of the line\n",
    ),
];

/// What is told of words.
pub(crate) fn words() -> &'static [Row] {
    &WORDS
}

/// Wrong spaces, ends of lines and comments.
const SPACES: [Row; 16] = [
    (
        "processes 2\nregisters x z\nfront linear\ncall  0 write x 1\n",
        "line 4: form\n4 | call  0 write x 1\n  |      ^\nexpected one space, found 2 spaces\n",
    ),
    (
        "processes 2\nregisters x z\nfront linear\ncall 0\twrite x 1\n",
        "line 4: form\n4 | call 0\twrite x 1\n  |       ^\nexpected one space, found a tab\n",
    ),
    (
        "processes 2\nregisters x z\nfront linear\n\ttick 0\n",
        "line 4: form\n4 | \ttick 0\n  | ^\nexpected call, take or tick, found a tab\n",
    ),
    (
        "processes 2\nregisters x z\nfront linear\n tick 0\n",
        "line 4: form\n4 |  tick 0\n  | ^\nexpected call, take or tick, found a space\n",
    ),
    (
        "processes 2\nregisters x z\nfront linear\ntick 0 \n",
        "line 4: form\n4 | tick 0 \n  |       ^\nexpected the end of the line, found a space\n",
    ),
    (
        "processes 2\nregisters x z\nfront linear\ntick\n",
        "line 4: form\n4 | tick\n  |     ^\na process is missing\n",
    ),
    (
        "processes 2\nregisters x z\nfront linear\ntick \n",
        "line 4: form\n4 | tick \n  |      ^\nexpected a number from 0 to 255, found the end of the line\n",
    ),
    (
        "processes 2\nregisters x z\nfront linear\ntick\u{a0}0\n",
        "line 4: form\n4 | tick\u{a0}0\n  |     ^\nexpected one space, found a no-break space\n",
    ),
    (
        "processes 2\r\nregisters x z\r\nfront linear\r\ntick 0\r\n",
        "line 1: form\n1 | processes 2\n  |            ^\nthis line ends in a carriage return: save the text with line feeds alone\n",
    ),
    (
        "processes 2\nregisters x z\nfront linear\ncall 0 read x\r\n",
        "line 4: name\n4 | call 0 read x\n  |              ^\nthis line ends in a carriage return: save the text with line feeds alone\n",
    ),
    (
        "processes 2\nregisters x z\nfront linear\n\r\ntick 0\n",
        "line 4: form\n4 | \n  | ^\nthis line ends in a carriage return: save the text with line feeds alone\n",
    ),
    (
        "\u{feff}processes 2\nregisters x z\nfront linear\n",
        "line 1: form\n1 | processes 2\n  | ^\na byte order mark stands before the first line: save the text without one\n",
    ),
    (
        "processes 2\nregisters x z\nfront linear\ntick 0 # again\n",
        "line 4: form\n4 | tick 0 # again\n  |        ^\na comment stands on a line of its own\n",
    ),
    (
        "processes 2\nregisters x z\nfront linear\n// again\n",
        "line 4: form\n4 | // again\n  | ^\nexpected call, take or tick, found \"//\"\n",
    ),
    (
        "processes 2\nregisters x z\nfront linear\ncall 0 write x\t5\n",
        "line 4: form\n4 | call 0 write x\t5\n  |               ^\nexpected one space, found a tab\n",
    ),
    (
        "processes 2\nregisters x z\nfront linear\ntick 0\t\n",
        "line 4: form\n4 | tick 0\t\n  |       ^\nexpected the end of the line, found a tab\n",
    ),
];

/// What is told of spaces, ends of lines and comments.
pub(crate) fn spaces() -> &'static [Row] {
    &SPACES
}

/// Wrong numbers, and those that are missing or too many.
const NUMBERS: [Row; 16] = [
    (
        "processes 2\nregisters x z\nfront linear\ntick 300\n",
        "line 4: range\n4 | tick 300\n  |      ^\n300 is out of range: a process is a number from 0 to 255\n",
    ),
    (
        "processes 2\nregisters x z\nfront linear\ntick 01\n",
        "line 4: form\n4 | tick 01\n  |      ^\n\"01\": a number doesn't begin with a needless 0\n",
    ),
    (
        "processes 2\nregisters x z\nfront linear\ntick -1\n",
        "line 4: form\n4 | tick -1\n  |      ^\nexpected a number from 0 to 255, found \"-1\"\n",
    ),
    (
        "processes 2\nregisters x z\nfront linear\ntake 0 1 0x2\n",
        "line 4: form\n4 | take 0 1 0x2\n  |          ^\nexpected a number from 0 to 4294967295, found \"0x2\"\n",
    ),
    (
        "processes 2\nregisters x z\nfront linear\ntake 0 1\n",
        "line 4: form\n4 | take 0 1\n  |         ^\nthe place of a frame is missing\n",
    ),
    (
        "processes 2\nregisters x z\nfront linear\ntake 0 1 4294967296\n",
        "line 4: range\n4 | take 0 1 4294967296\n  |          ^\n4294967296 is out of range: the place of a frame is a number from 0 to 4294967295\n",
    ),
    (
        "processes 2\nregisters x z\nfront linear\ncall 0 write x\n",
        "line 4: form\n4 | call 0 write x\n  |               ^\na value is missing\n",
    ),
    (
        "processes 2\nregisters x z\nfront linear\ncall 0 read x 1\n",
        "line 4: form\n4 | call 0 read x 1\n  |               ^\na read takes no value\n",
    ),
    (
        "processes 2\nregisters x z\nfront linear\ncall 0 write x 18446744073709551616\n",
        "line 4: range\n4 | call 0 write x 18446744073709551616\n  |                ^\n18446744073709551616 is out of range: a value is a number from 0 to 18446744073709551615\n",
    ),
    (
        "processes 0\nregisters x\nfront linear\n",
        "line 1: range\n1 | processes 0\n  |           ^\n0 is out of range: the number of processes is from 1 to 64\n",
    ),
    (
        "processes 65\nregisters x\nfront linear\n",
        "line 1: range\n1 | processes 65\n  |           ^\n65 is out of range: the number of processes is from 1 to 64\n",
    ),
    (
        "processes two\nregisters x\nfront linear\n",
        "line 1: form\n1 | processes two\n  |           ^\nexpected a number from 1 to 64, found \"two\"\n",
    ),
    (
        "processes 2\nregisters x z\nfront linear\ntick 999999999999999999999999999999999999999999999999999999999999999999999999999999999999999999999999999999999999999999999999\n",
        "line 4: range\n4 | tick 9999999999999999999999999999999999999999999999999999999999999999999999999999999999999999999\n  |      ^\n999999999999999999999999999999999999999999999999999999999999999999999999999999999999999999999999 is out of range: a process is a number from 0 to 255\n",
    ),
    (
        "processes 2\nregisters x z\nfront linear\ncall\n",
        "line 4: form\n4 | call\n  |     ^\na process is missing\n",
    ),
    (
        "processes 2\nregisters x z\nfront linear\ncall 0 cas x 1\n",
        "line 4: form\n4 | call 0 cas x 1\n  |               ^\na value is missing\n",
    ),
    (
        "processes 2\nregisters x z\nfront linear\ntake 0 1 0 5\n",
        "line 4: form\n4 | take 0 1 0 5\n  |            ^\nexpected the end of the line, found \"5\"\n",
    ),
];

/// What is told of numbers.
pub(crate) fn numbers() -> &'static [Row] {
    &NUMBERS
}

/// Wrong names of registers, and a text that ends behind them.
const NAMES: [Row; 13] = [
    (
        "processes 2\nregisters x z\nfront linear\ncall 1 read y\n",
        "line 4: name\n4 | call 1 read y\n  |             ^\nno register \"y\": the registers are x, z\n",
    ),
    (
        "processes 1\nregisters x\nfront linear\ncall 0 swap y 2\n",
        "line 4: name\n4 | call 0 swap y 2\n  |             ^\nno register \"y\": the register is x\n",
    ),
    (
        "processes 1\nregisters x, y\nfront linear\n",
        "line 2: name\n2 | registers x, y\n  |           ^\n\"x,\": a register's name is 1 to 16 letters a to z\n",
    ),
    (
        "processes 1\nregisters x y x\nfront linear\n",
        "line 2: name\n2 | registers x y x\n  |               ^\n\"x\" stands before: each register has a name of its own\n",
    ),
    (
        "processes 1\nregisters registers x1\nfront linear\n",
        "line 2: name\n2 | registers registers x1\n  |                     ^\n\"x1\": a register's name is 1 to 16 letters a to z\n",
    ),
    (
        "processes 1\nregisters registers x registers\nfront linear\n",
        "line 2: name\n2 | registers registers x registers\n  |                       ^\n\"registers\" stands before: each register has a name of its own\n",
    ),
    (
        "processes 1\nregisters x1\nfront linear\n",
        "line 2: name\n2 | registers x1\n  |           ^\n\"x1\": a register's name is 1 to 16 letters a to z\n",
    ),
    (
        "processes 1\nregisters\nfront linear\n",
        "line 2: form\n2 | registers\n  |          ^\na name is missing\n",
    ),
    (
        "processes 1\nregisters x  y\nfront linear\n",
        "line 2: form\n2 | registers x  y\n  |             ^\nexpected one space, found 2 spaces\n",
    ),
    (
        "processes 1\nregisters x é\nfront linear\n",
        "line 2: form\n2 | registers x é\n  |             ^\nexpected a name, found \"é\", which is not ASCII\n",
    ),
    (
        "processes 1\nregisters x\n",
        "line 3: end\nthe text ends before a line that it needs: front and one of linear, local-read and local-write\n",
    ),
    (
        "processes 1\nregisters a b c d e f g h i j k l\nfront linear\ncall 0 read y\n",
        "line 4: name\n4 | call 0 read y\n  |             ^\nno register \"y\": the registers are a, b, c, d, e, f, g, h, i, j and 2 more\n",
    ),
    (
        "processes 1\nregisters aaaaaaaaaaaaaaaa bbbbbbbbbbbbbbbb cccccccccccccccc dddddddddddddddd eeeeeeeeeeeeeeee ffffffffffffffff x1\nfront linear\n",
        "line 2: name\n2 | cccccccc dddddddddddddddd eeeeeeeeeeeeeeee ffffffffffffffff x1\n  |                                                             ^\n\"x1\": a register's name is 1 to 16 letters a to z\n",
    ),
];

/// What is told of names of registers.
pub(crate) fn names() -> &'static [Row] {
    &NAMES
}
