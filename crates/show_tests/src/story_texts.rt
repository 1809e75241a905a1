//! Reports of chapters, which are one story or not.

/// A report of `linear` over registers x and y: its head, and what stands behind it.
macro_rules! report_of {
    (processes $processes:literal; $rest:literal) => {
        concat!(
            "awreg report 2\nfront linear\nprocesses ", $processes, "\nregisters 2\nx\ny\n", $rest
        )
    };
}

/// It ends with 7 in x and 6 in y.
pub const FIRST: &str = report_of!(processes 1; "history 6
       0  p0    #0       call    write x 5
       0  p0    #0       answer  done
       1  p0    #1       call    write y 6
       1  p0    #1       answer  done
       2  p0    #2       call    write x 7
       2  p0    #2       answer  done
order 3
p0 #0
p0 #1
p0 #2
points 3
p0 #0 at 0
p0 #1 at 1
p0 #2 at 2
end
");

/// It goes on there, and ends with 8 in x and 6 in y.
pub const SECOND: &str = report_of!(processes 1; "history 6
       0  p0    #0       call    write x 7
       0  p0    #0       answer  done
       1  p0    #1       call    write y 6
       1  p0    #1       answer  done
       2  p0    #2       call    write x 8
       2  p0    #2       answer  done
order 3
p0 #0
p0 #1
p0 #2
points 3
p0 #0 at 0
p0 #1 at 1
p0 #2 at 2
end
");

/// It goes on there, and has nothing else.
pub const THIRD: &str = report_of!(processes 1; "history 4
       0  p0    #0       call    write x 8
       0  p0    #0       answer  done
       1  p0    #1       call    write y 6
       1  p0    #1       answer  done
order 2
p0 #0
p0 #1
points 2
p0 #0 at 0
p0 #1 at 1
end
");

/// It ended while it was opened behind the first one.
pub const BEGUN: &str = report_of!(processes 1; "history 2
       0  p0    #0       call    write x 7
       0  p0    #0       answer  done
order 1
p0 #0
points 1
p0 #0 at 0
end
");

/// It has no operation.
pub const NOTHING: &str = report_of!(processes 1; "history 0
order 0
points 0
end
");

/// It begins with another value of x.
pub const OTHER_VALUE: &str = report_of!(processes 1; "history 4
       0  p0    #0       call    write x 5
       0  p0    #0       answer  done
       1  p0    #1       call    write y 6
       1  p0    #1       answer  done
order 2
p0 #0
p0 #1
points 2
p0 #0 at 0
p0 #1 at 1
end
");

/// It writes x where y is to be written.
pub const OTHER_WRITE: &str = report_of!(processes 1; "history 4
       0  p0    #0       call    write x 7
       0  p0    #0       answer  done
       1  p0    #1       call    write x 6
       1  p0    #1       answer  done
order 2
p0 #0
p0 #1
points 2
p0 #0 at 0
p0 #1 at 1
end
");

/// It ends with 0 in x and 6 in y.
pub const ZEROED: &str = report_of!(processes 1; "history 6
       0  p0    #0       call    write x 5
       0  p0    #0       answer  done
       1  p0    #1       call    write x 0
       1  p0    #1       answer  done
       2  p0    #2       call    write y 6
       2  p0    #2       answer  done
order 3
p0 #0
p0 #1
p0 #2
points 3
p0 #0 at 0
p0 #1 at 1
p0 #2 at 2
end
");

/// It goes on there.
pub const ONLY_Y: &str = report_of!(processes 1; "history 2
       0  p0    #0       call    write y 6
       0  p0    #0       answer  done
order 1
p0 #0
points 1
p0 #0 at 0
end
");

/// The second one of another front end.
pub const OTHER_FRONT: &str = "awreg report 2
front local-read
processes 1
registers 2
x
y
history 6
       0  p0    #0       call    write x 7
       0  p0    #0       answer  done
       1  p0    #1       call    write y 6
       1  p0    #1       answer  done
       2  p0    #2       call    write x 8
       2  p0    #2       answer  done
order 3
p0 #0
p0 #1
p0 #2
points 3
p0 #0 at 0
p0 #1 at 1
p0 #2 at 2
end
";

/// The second one of two processes.
pub const OTHER_COUNT: &str = report_of!(processes 2; "history 6
       0  p0    #0       call    write x 7
       0  p0    #0       answer  done
       1  p0    #1       call    write y 6
       1  p0    #1       answer  done
       2  p0    #2       call    write x 8
       2  p0    #2       answer  done
order 3
p0 #0
p0 #1
p0 #2
points 3
p0 #0 at 0
p0 #1 at 1
p0 #2 at 2
end
");

/// The second one of registers of other names.
pub const OTHER_NAMES: &str = "awreg report 2
front linear
processes 1
registers 2
x
z
history 6
       0  p0    #0       call    write x 7
       0  p0    #0       answer  done
       1  p0    #1       call    write z 6
       1  p0    #1       answer  done
       2  p0    #2       call    write x 8
       2  p0    #2       answer  done
order 3
p0 #0
p0 #1
p0 #2
points 3
p0 #0 at 0
p0 #1 at 1
p0 #2 at 2
end
";

/// It is none that `check` accepts.
pub const OUT_OF_ORDER: &str = report_of!(processes 1; "history 4
       0  p0    #0       call    write x 7
       0  p0    #0       answer  done
       1  p0    #1       call    write y 6
       1  p0    #1       answer  done
order 2
p0 #1
p0 #0
points 2
p0 #0 at 0
p0 #1 at 1
end
");

/// The point of its first operation is outside.
pub const OUTSIDE: &str = report_of!(processes 1; "history 4
       0  p0    #0       call    write x 7
       0  p0    #0       answer  done
       1  p0    #1       call    write y 6
       1  p0    #1       answer  done
order 2
p0 #0
p0 #1
points 2
p0 #0 at 1
p0 #1 at 1
end
");

/// Of two processes; it ends with 5 in x.
pub const OF_TWO: &str = report_of!(processes 2; "history 2
       0  p0    #0       call    write x 5
       0  p0    #0       answer  done
order 1
p0 #0
end
");

/// Behind it, with an operation of the second process before the opening.
pub const BEFORE: &str = report_of!(processes 2; "history 4
       0  p0    #0       call    write x 5
       1  p0    #0       answer  done
       2  p1    #0       call    write y 1
       3  p1    #0       answer  done
order 2
p1 #0
p0 #0
end
");

/// Behind it: the write of the opening was called, and has no answer.
pub const CALLED: &str = report_of!(processes 2; "history 1
       0  p0    #0       call    write x 5
order 0
end
");
