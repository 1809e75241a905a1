//! What is told of reports: what an accepted one is, and where one is wrong that has a mistake.
use crate::why::Row;

/// Reports that are accepted.
const ACCEPTED: [Row; 2] = [
    (
        "awreg report 2\nfront linear\nprocesses 2\nregisters 1\nx\nhistory 4\n       0  p0    #0       call    write x 5\n       2  p0    #0       answer  done\n       3  p1    #0       call    read x\n       5  p1    #0       answer  value 5\norder 2\np0 #0\np1 #0\npoints 2\np0 #0 at 1\np1 #0 at 4\nend\n",
        "a report: 2 processes, 1 register, linear, 4 entries; serial yes; points yes\n",
    ),
    (
        "awreg report 2\nfront linear\nprocesses 2\nregisters 1\nx\nhistory 4\n       0  p0    #0       call    write x 5\n       2  p0    #0       answer  done\n       3  p1    #0       call    read x\n       5  p1    #0       answer  value 5\norder 2\np0 #0\np1 #0\nend\n",
        "a report: 2 processes, 1 register, linear, 4 entries; serial yes; no points, so real time is not judged: awshow find points looks for some\n",
    ),
];

/// What is told of accepted reports.
pub(crate) fn accepted() -> &'static [Row] {
    &ACCEPTED
}

/// Lines of a wrong form.
const LINES: [Row; 6] = [
    (
        "awreg report 4\nfront linear\nprocesses 2\nregisters 1\nx\nhistory 4\n       0  p0    #0       call    write x 5\n       2  p0    #0       answer  done\n       3  p1    #0       call    read x\n       5  p1    #0       answer  value 5\norder 2\np0 #0\np1 #0\npoints 2\np0 #0 at 1\np1 #0 at 4\nend\n",
        "line 1: form\n1 | awreg report 4\n  |              ^\nexpected 1, 2 or 3, found \"4\"\n",
    ),
    (
        "awreg report 2\nfront linear\nprocesses 2\nregisters 1\nx\nhistroy 4\n       0  p0    #0       call    write x 5\n       2  p0    #0       answer  done\n       3  p1    #0       call    read x\n       5  p1    #0       answer  value 5\norder 2\np0 #0\np1 #0\npoints 2\np0 #0 at 1\np1 #0 at 4\nend\n",
        "line 6: form\n6 | histroy 4\n  | ^\n\"histroy\": did you mean history?\n",
    ),
    (
        "awreg report 2\nfront linear\nprocesses 2\nregisters 1\nx\nhistory 4\n       0  p0    #0       call    write x 5\n      2  p0    #0       answer  done\n       3  p1    #0       call    read x\n       5  p1    #0       answer  value 5\norder 2\np0 #0\np1 #0\npoints 2\np0 #0 at 1\np1 #0 at 4\nend\n",
        "line 8: form\n8 |       2  p0    #0       answer  done\n  | ^\nexpected an event at the right of 8 places, found 6 spaces\n",
    ),
    (
        "awreg report 2\nfront linear\nprocesses 2\nregisters 1\nx\nhistory 4\n       0  p0    #0       call    write x 5\n       2  p0    #0       answer  done\n       3  p1    #0       call read x\n       5  p1    #0       answer  value 5\norder 2\np0 #0\np1 #0\npoints 2\np0 #0 at 1\np1 #0 at 4\nend\n",
        "line 9: form\n9 |        3  p1    #0       call read x\n  |                              ^\nexpected four spaces, found a space\n",
    ),
    (
        "awreg report 2\nfront linear\nprocesses 2\nregisters 1\nx\nhistory 4\n       0  p0    #0       call    write x 5\n       2  p0    #0       answer  done\n       3  p1    #0       call    read x\n       5  p1    #0       answer  valeu 5\norder 2\np0 #0\np1 #0\npoints 2\np0 #0 at 1\np1 #0 at 4\nend\n",
        "line 10: form\n10 |        5  p1    #0       answer  valeu 5\n   |                                  ^\n\"valeu\": did you mean value?\n",
    ),
    (
        "awreg report 1\nfront linear\nprocesses 1\nregisters registers x1\nhistory 0\norder 0\nend\n",
        "line 4: name\n4 | registers registers x1\n  |                     ^\n\"x1\": a register's name is 1 to 16 letters a to z\n",
    ),
];

/// What is told of the form of lines.
pub(crate) fn lines() -> &'static [Row] {
    &LINES
}

/// Entries that are out of place, and wrong ends.
const PLACES: [Row; 9] = [
    (
        "awreg report 2\nfront linear\nprocesses 2\nregisters 1\nx\nhistory 4\n       0  p0    #0       call    write x 5\n       2  p0    #0       answer  done\n       3  p1    #0       call    read y\n       5  p1    #0       answer  value 5\norder 2\np0 #0\np1 #0\npoints 2\np0 #0 at 1\np1 #0 at 4\nend\n",
        "line 9: name\n9 |        3  p1    #0       call    read y\n  |                                       ^\nno register \"y\": the register is x\n",
    ),
    (
        "awreg report 2\nfront linear\nprocesses 2\nregisters 1\nx\nhistory 4\n       0  p0    #0       call    write x 5\n       2  p0    #0       answer  done\n       2  p1    #0       call    read x\n       5  p1    #0       answer  value 5\norder 2\np0 #0\np1 #0\npoints 2\np0 #0 at 1\np1 #0 at 4\nend\n",
        "line 9: place\n9 |        2  p1    #0       call    read x\n  | ^\nevent 2 doesn't come after event 2, of the line before\n",
    ),
    (
        "awreg report 2\nfront linear\nprocesses 2\nregisters 1\nx\nhistory 4\n       0  p0    #0       call    write x 5\n       2  p0    #0       answer  done\n       3  p1    #1       call    read x\n       5  p1    #0       answer  value 5\norder 2\np0 #0\np1 #0\npoints 2\np0 #0 at 1\np1 #0 at 4\nend\n",
        "line 9: place\n9 |        3  p1    #1       call    read x\n  | ^\nthe next operation of process 1 is #0\n",
    ),
    (
        "awreg report 2\nfront linear\nprocesses 2\nregisters 1\nx\nhistory 4\n       0  p0    #0       call    write x 5\n       2  p0    #0       answer  value 0\n       3  p1    #0       call    read x\n       5  p1    #0       answer  value 5\norder 2\np0 #0\np1 #0\npoints 2\np0 #0 at 1\np1 #0 at 4\nend\n",
        "line 8: place\n8 |        2  p0    #0       answer  value 0\n  | ^\na write is answered by done\n",
    ),
    (
        "awreg report 2\nfront linear\nprocesses 2\nregisters 1\nx\nhistory 4\n       0  p0    #0       call    write x 5\n       2  p0    #0       answer  done\n       3  p1    #0       call    read x\n       5  p0    #0       answer  value 5\norder 2\np0 #0\np1 #0\npoints 2\np0 #0 at 1\np1 #0 at 4\nend\n",
        "line 10: place\n10 |        5  p0    #0       answer  value 5\n   | ^\nprocess 0 runs no operation\n",
    ),
    (
        "awreg report 2\nfront linear\nprocesses 2\nregisters 1\nx\nhistory 4\n       0  p0    #0       call    write x 5\n       2  p0    #0       answer  done\n       3  p1    #0       call    read x\n       5  p2    #0       answer  value 5\norder 2\np0 #0\np1 #0\npoints 2\np0 #0 at 1\np1 #0 at 4\nend\n",
        "line 10: place\n10 |        5  p2    #0       answer  value 5\n   | ^\nthere is no process 2: the report has processes 0 to 1\n",
    ),
    (
        "awreg report 2\nfront linear\nprocesses 2\nregisters 1\nx\nhistory 4\n       0  p0    #0       call    write x 5\n       2  p0    #0       answer  done\n       3  p1    #0       call    read x\n       5  p1    #0       answer  value 5\norder 2\np0 #0\np1 0\npoints 2\np0 #0 at 1\np1 #0 at 4\nend\n",
        "line 13: form\n13 | p1 0\n   |    ^\nexpected # and a number, as in p0 #0, found \"0\"\n",
    ),
    (
        "awreg report 2\nfront linear\nprocesses 2\nregisters 1\nx\nhistory 4\n       0  p0    #0       call    write x 5\n       2  p0    #0       answer  done\n       3  p1    #0       call    read x\n       5  p1    #0       answer  value 5\norder 2\np0 #0\np1 #0\npoints 2\np0 #0 at 1\np1 #0 at 4\n",
        "line 17: end\nthe text ends before a line that it needs: end\n",
    ),
    (
        "awreg report 2\nfront linear\nprocesses 2\nregisters 1\nx\nhistory 4\n       0  p0    #0       call    write x 5\n       2  p0    #0       answer  done\n       3  p1    #0       call    read x\n       5  p1    #0       answer  value 5\norder 2\np0 #0\np1 #0\npoints 2\np0 #0 at 1\np1 #0 at 4\nend\n\n",
        "line 18: end\n18 | \n   | ^\na report ends with the line end: no line stands after it\n",
    ),
];

/// What is told of the places of entries, and of ends.
pub(crate) fn places() -> &'static [Row] {
    &PLACES
}

/// Orders and points that are none, and wrong counts.
const ORDERS: [Row; 12] = [
    (
        "awreg report 2\nfront linear\nprocesses 2\nregisters 1\nx\nhistory 4\n       0  p0    #0       call    write x 5\n       2  p0    #0       answer  done\n       3  p1    #0       call    read x\n       5  p1    #0       answer  value 7\norder 2\np0 #0\np1 #0\npoints 2\np0 #0 at 1\np1 #0 at 4\nend\n",
        "serial no: answer at 1\n13 | p1 #0\n   | ^\np1 #0 is read x: memory answers value 5 there, and the report says value 7 on line 10\n",
    ),
    (
        "awreg report 2\nfront linear\nprocesses 2\nregisters 1\nx\nhistory 4\n       0  p0    #0       call    write x 5\n       2  p0    #0       answer  done\n       3  p1    #0       call    read x\n       5  p1    #0       answer  value 5\norder 2\np1 #0\np0 #0\npoints 2\np0 #0 at 1\np1 #0 at 4\nend\n",
        "serial no: answer at 0\n12 | p1 #0\n   | ^\np1 #0 is read x: memory answers value 0 there, and the report says value 5 on line 10\n",
    ),
    (
        "awreg report 2\nfront linear\nprocesses 2\nregisters 1\nx\nhistory 4\n       0  p0    #0       call    write x 5\n       2  p0    #0       answer  done\n       3  p1    #0       call    read x\n       5  p1    #0       answer  value 5\norder 2\np0 #0\np1 #3\npoints 2\np0 #0 at 1\np1 #0 at 4\nend\n",
        "serial no: unknown\n13 | p1 #3\n   | ^\nthe history has no call of p1 #3\n",
    ),
    (
        "awreg report 2\nfront linear\nprocesses 2\nregisters 1\nx\nhistory 4\n       0  p0    #0       call    write x 5\n       2  p0    #0       answer  done\n       3  p1    #0       call    read x\n       5  p1    #0       answer  value 5\norder 2\np0 #0\np0 #0\npoints 2\np0 #0 at 1\np1 #0 at 4\nend\n",
        "serial no: twice\n13 | p0 #0\n   | ^\np0 #0 stands on line 12 too\n",
    ),
    (
        "awreg report 2\nfront linear\nprocesses 2\nregisters 1\nx\nhistory 4\n       0  p0    #0       call    write x 5\n       2  p0    #0       answer  done\n       3  p1    #0       call    read x\n       5  p1    #0       answer  value 5\norder 1\np0 #0\npoints 2\np0 #0 at 1\np1 #0 at 4\nend\n",
        "serial no: missing\n10 |        5  p1    #0       answer  value 5\n   | ^\np1 #0 is answered here, and doesn't stand in the order\n",
    ),
    (
        "awreg report 2\nfront linear\nprocesses 2\nregisters 1\nx\nhistory 2\n       0  p0    #0       call    write x 5\n       2  p0    #0       answer  done\norder 0\nend\n",
        "serial no: missing\n8 |        2  p0    #0       answer  done\n  | ^\np0 #0 is answered here, and the order is empty: awshow find looks for one\n",
    ),
    (
        "awreg report 2\nfront linear\nprocesses 2\nregisters 1\nx\nhistory 4\n       0  p0    #0       call    write x 5\n       2  p0    #0       answer  done\n       3  p1    #0       call    read x\n       5  p1    #0       answer  value 5\norder 2\np0 #0\np1 #0\npoints 2\np0 #0 at 1\np1 #0 at 2\nend\n",
        "points no: outside at 1\n16 | p1 #0 at 2\n   | ^\np1 #0 is called at event 3 and answered at event 5: its point is not between them\n",
    ),
    (
        "awreg report 2\nfront linear\nprocesses 2\nregisters 1\nx\nhistory 4\n       0  p0    #0       call    write x 5\n       1  p1    #0       call    read x\n       4  p0    #0       answer  done\n       5  p1    #0       answer  value 5\norder 2\np0 #0\np1 #0\npoints 2\np0 #0 at 3\np1 #0 at 2\nend\n",
        "points no: falling at 1\n16 | p1 #0 at 2\n   | ^\nthe point before it is at event 3: points never fall\n",
    ),
    (
        "awreg report 2\nfront linear\nprocesses 2\nregisters 1\nx\nhistory 3\n       0  p0    #0       call    write x 5\n       2  p0    #0       answer  done\n       3  p1    #0       call    read x\n       5  p1    #0       answer  value 5\norder 2\np0 #0\np1 #0\npoints 2\np0 #0 at 1\np1 #0 at 4\nend\n",
        "line 10: form\n10 |        5  p1    #0       answer  value 5\n   | ^\nexpected order, found 7 spaces\nmore lines of the history stand here than its count says\n",
    ),
    (
        "awreg report 2\nfront linear\nprocesses 2\nregisters 1\nx\nhistory 5\n       0  p0    #0       call    write x 5\n       2  p0    #0       answer  done\n       3  p1    #0       call    read x\n       5  p1    #0       answer  value 5\norder 2\np0 #0\np1 #0\npoints 2\np0 #0 at 1\np1 #0 at 4\nend\n",
        "line 11: form\n11 | order 2\n   | ^\nexpected an event at the right of 8 places, found \"order\"\nfewer lines of the history stand here than its count says\n",
    ),
    (
        "awreg report 2\nfront linear\nprocesses 2\nregisters 1\nx\nhistory 4\n       0  p0    #0       call    write x 5\n       2  p0    #0       answer  done\n       3  p1    #0       call    read x\n       5  p1    #0       answer  value 5\norder 1\np0 #0\np1 #0\npoints 2\np0 #0 at 1\np1 #0 at 4\nend\n",
        "line 13: form\n13 | p1 #0\n   | ^\nexpected points or end, found \"p1\"\nmore lines of the order stand here than its count says\n",
    ),
    (
        "awreg report 2\nfront linear\nprocesses 2\nregisters 1\nx\nhistory 4\n       0  p0    #0       call    write x 5\n       2  p0    #0       answer  done\n       3  p1    #0       call    read x\n       5  p1    #0       answer  value 5\norder 2\np0 #0\np1 #0\npoints 3\np0 #0 at 1\np1 #0 at 4\nend\n",
        "line 17: form\n17 | end\n   | ^\nexpected p and a process, as in p0 #0, found \"end\"\nfewer points stand here than their count says\n",
    ),
];

/// What is told of orders, points and counts.
pub(crate) fn orders() -> &'static [Row] {
    &ORDERS
}

/// Further entries that are out of place, and a number of an older report.
const ENTRIES: [Row; 6] = [
    (
        "awreg report 2\nfront linear\nprocesses 2\nregisters 1\nx\nhistory 2\n       0  p0    #0       call    write x 5\n       1  p0    #1       call    read x\norder 0\nend\n",
        "line 8: place\n8 |        1  p0    #1       call    read x\n  | ^\np0 #0, called at event 0, is not answered yet\n",
    ),
    (
        "awreg report 2\nfront linear\nprocesses 2\nregisters 1\nx\nhistory 3\n       0  p0    #0       call    write x 5\n       2  p0    #0       answer  done\n       3  p0    #2       call    read x\norder 0\nend\n",
        "line 9: place\n9 |        3  p0    #2       call    read x\n  | ^\nthe next operation of process 0 is #1\n",
    ),
    (
        "awreg report 2\nfront linear\nprocesses 2\nregisters 1\nx\nhistory 2\n       0  p0    #0       call    write x 5\n       2  p0    #1       answer  done\norder 0\nend\n",
        "line 8: place\n8 |        2  p0    #1       answer  done\n  | ^\nprocess 0 runs p0 #0\n",
    ),
    (
        "awreg report 2\nfront linear\nprocesses 2\nregisters 1\nx\nhistory 2\n       4  p0    #0       call    write x 5\n       3  p0    #0       answer  done\norder 0\nend\n",
        "line 8: place\n8 |        3  p0    #0       answer  done\n  | ^\nevent 3 doesn't come after event 4, of the line before\n",
    ),
    (
        "awreg report 2\nfront linear\nprocesses 2\nregisters 1\nx\nhistory 2\n       0  p0    #0       call    read x\n       2  p0    #0       answer  done\norder 0\nend\n",
        "line 8: place\n8 |        2  p0    #0       answer  done\n  | ^\na read and a swap are answered by a value\n",
    ),
    (
        "awreg report 1\nfront linear\nprocesses 17\n",
        "line 3: range\n3 | processes 17\n  |           ^\n17 is out of range: the number of processes is from 1 to 16\n",
    ),
];

/// What is told of calls and answers.
pub(crate) fn entries() -> &'static [Row] {
    &ENTRIES
}

/// Further orders and points that are none, and wrong counts.
const LISTS: [Row; 5] = [
    (
        "awreg report 2\nfront linear\nprocesses 2\nregisters 1\nx\nhistory 1\n       0  p0    #0       call    read x\norder 1\np0 #0\nend\n",
        "serial no: unknown\n9 | p0 #0\n  | ^\np0 #0 is a read that is not answered\n",
    ),
    (
        "awreg report 2\nfront linear\nprocesses 2\nregisters 1\nx\nhistory 4\n       0  p0    #0       call    write x 5\n       2  p0    #0       answer  done\n       3  p0    #1       call    write x 6\n       4  p0    #1       answer  done\norder 2\np0 #1\np0 #0\nend\n",
        "serial no: own order\n13 | p0 #0\n   | ^\np0 #0 stands after p0 #1, which its process called later\n",
    ),
    (
        "awreg report 2\nfront linear\nprocesses 2\nregisters 1\nx\nhistory 1\n       2  p0    #0       call    write x 5\norder 1\np0 #0\npoints 1\np0 #0 at 1\nend\n",
        "points no: outside at 0\n11 | p0 #0 at 1\n   | ^\np0 #0 is called at event 2 and not answered: its point is not between them\n",
    ),
    (
        "awreg report 2\nfront linear\nprocesses 2\nregisters 1\nx\nhistory 4\n       0  p0    #0       call    write x 5\n       2  p0    #0       answer  done\n       3  p1    #0       call    read x\n       5  p1    #0       answer  value 5\norder 3\np0 #0\np1 #0\npoints 2\np0 #0 at 1\np1 #0 at 4\nend\n",
        "line 14: form\n14 | points 2\n   |  ^\nexpected a number from 0 to 63, found \"oints\"\nfewer lines of the order stand here than its count says\n",
    ),
    (
        "awreg report 2\nfront linear\nprocesses 2\nregisters 1\nx\nhistory 4\n       0  p0    #0       call    write x 5\n       2  p0    #0       answer  done\n       3  p1    #0       call    read x\n       5  p1    #0       answer  value 5\norder 2\np0 #0\np1 #0\npoints 1\np0 #0 at 1\np1 #0 at 4\nend\n",
        "line 16: form\n16 | p1 #0 at 4\n   | ^\nexpected end, found \"p1\"\nmore points stand here than their count says\n",
    ),
];

/// What is told of lists of operations and of points.
pub(crate) fn lists() -> &'static [Row] {
    &LISTS
}
