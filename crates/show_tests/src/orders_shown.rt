//! Orders of a report's history, by the command that finds them: texts worked out by hand, and refusals.
use crate::given::{Task, tells};
use reg_outcomes::OrderKind;

/// A serial order of a report's history is found.
const SERIAL: Task = Task::Order {
    kind: OrderKind::Serial,
};

/// A point order of a report's history is found.
const POINTS: Task = Task::Order {
    kind: OrderKind::Points,
};

/// A write of process 0 is answered before process 1 reads, which still answers 0. The report's own order is none.
pub(crate) const STALE: &str = "awreg report 1
front local-read
processes 2
registers x
history 4
       0  p0    #0       call    write x 5
       4  p0    #0       answer  done
       5  p1    #0       call    read x
       5  p1    #0       answer  value 0
order 0
end
";

#[test]
fn a_stale_read(rt: HostRuntime) {
    let found = "awreg report 2
front local-read
processes 2
registers 1
x
history 4
       0  p0    #0       call    write x 5
       4  p0    #0       answer  done
       5  p1    #0       call    read x
       5  p1    #0       answer  value 0
order 2
p1 #0
p0 #0
end
";
    assert!(rt; tells(rt.alloc(), SERIAL, STALE, (0, found, "")));
    assert!(rt; tells(rt.alloc(), POINTS, STALE, (1, "no point order\n", "")));
}

/// Process 0 reads its own two writes, and process 1 the first of them after the second.
#[test]
fn no_order(rt: HostRuntime) {
    let text = "awreg report 1
front other
processes 2
registers x
history 8
       0  p0    #0       call    write x 1
       1  p0    #0       answer  done
       2  p0    #1       call    write x 2
       3  p0    #1       answer  done
       4  p1    #0       call    read x
       5  p1    #0       answer  value 2
       6  p1    #1       call    read x
       7  p1    #1       answer  value 1
order 0
end
";
    let told = (1, "no serial order\n", "");
    assert!(rt; tells(rt.alloc(), SERIAL, text, told));
}

/// An unfinished write that a read saw has a point, and an unfinished read has none.
#[test]
fn points(rt: HostRuntime) {
    let text = "awreg report 2
front other
processes 3
registers 1
x
history 4
       0  p0    #0       call    write x 5
       1  p1    #0       call    read x
       2  p1    #0       answer  value 5
       3  p2    #0       call    read x
order 1
p2 #0
points 0
end
";
    let found = "awreg report 2
front other
processes 3
registers 1
x
history 4
       0  p0    #0       call    write x 5
       1  p1    #0       call    read x
       2  p1    #0       answer  value 5
       3  p2    #0       call    read x
order 2
p0 #0
p1 #0
points 2
p0 #0 at 0
p1 #0 at 1
end
";
    assert!(rt; tells(rt.alloc(), POINTS, text, (0, found, "")));
}

#[test]
fn no_report(rt: HostRuntime) {
    let told = (1, "", "line 1: form\n");
    assert!(rt; tells(rt.alloc(), SERIAL, "order 0\n", told));
}
