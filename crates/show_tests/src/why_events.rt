//! What is told of the events of schedules that a world refuses.
use crate::why::Row;

/// Events that are refused, and lines behind a comment.
const EVENTS: [Row; 11] = [
    (
        "processes 2\nregisters x z\nfront linear\ncall 0 write x 1\ntake 0 1 0\ntake 0 1 3\n",
        "event 2: no frame\n6 | take 0 1 3\n  |          ^\nthe wire from 0 to 1 has 1 frame, 0\n",
    ),
    (
        "processes 2\nregisters x z\nfront linear\ntake 0 1 0\n",
        "event 0: no frame\n4 | take 0 1 0\n  |          ^\nthe wire from 0 to 1 has no frame yet\n",
    ),
    (
        "processes 2\nregisters x z\nfront linear\ncall 0 write x 1\ntake 0 1 0\ntake 1 0 2\n",
        "event 2: no frame\n6 | take 1 0 2\n  |          ^\nthe wire from 1 to 0 has 2 frames, 0 and 1\n",
    ),
    (
        "processes 2\nregisters x z\nfront linear\ncall 0 write x 1\ntick 0\ntick 0\ntake 0 1 3\n",
        "event 3: no frame\n7 | take 0 1 3\n  |          ^\nthe wire from 0 to 1 has 3 frames, 0 to 2\n",
    ),
    (
        "processes 2\nregisters x z\nfront linear\ntake 1 1 0\n",
        "event 0: no frame\n4 | take 1 1 0\n  |          ^\nno wire goes from a process to itself\n",
    ),
    (
        "processes 2\nregisters x z\nfront linear\ncall 1 write x 1\n# then\ncall 1 read x\n",
        "event 1: busy\n6 | call 1 read x\n  |      ^\nprocess 1 runs p1 #0, called at event 0\n",
    ),
    (
        "processes 2\nregisters x z\nfront linear\ntick 2\n",
        "event 0: no process\n4 | tick 2\n  |      ^\nthere is no process 2: the processes are 0 to 1\n",
    ),
    (
        "processes 2\nregisters x z\nfront linear\ntake 0 2 0\n",
        "event 0: no process\n4 | take 0 2 0\n  |        ^\nthere is no process 2: the processes are 0 to 1\n",
    ),
    (
        "processes 1\nregisters x\nfront local-write\ncall 1 read x\n",
        "event 0: no process\n4 | call 1 read x\n  |      ^\nthere is no process 1: the process is 0\n",
    ),
    (
        "# A write whose frame is lost.\nprocesses 2\nregisters x\nfront linear\ncal 0 write x 5\n",
        "line 5: form\n5 | cal 0 write x 5\n  | ^\n\"cal\": did you mean call?\n",
    ),
    (
        "# A write whose frame is lost.\nprocesses 2\nregisters x\nfront linear\ncall 0 write x 5\ntake 1 0 0\n",
        "event 1: no frame\n6 | take 1 0 0\n  |          ^\nthe wire from 1 to 0 has no frame yet\n",
    ),
];

/// What is told of events.
pub(crate) fn events() -> &'static [Row] {
    &EVENTS
}
