//! Reports that several tests read or compare with, in each version.

/// A report of version 1: one process writes 5 and reads it.
pub(crate) const ONE_PROCESS: &str = "awreg report 1
front linear
processes 1
registers x
history 4
       0  p0    #0       call    write x 5
       0  p0    #0       answer  done
       1  p0    #1       call    read x
       1  p0    #1       answer  value 5
order 2
p0 #0
p0 #1
points 2
p0 #0 at 0
p0 #1 at 1
end
";

/// `ONE_PROCESS`, in version 2.
pub(crate) const ONE_PROCESS_NOW: &str = "awreg report 2
front linear
processes 1
registers 1
x
history 4
       0  p0    #0       call    write x 5
       0  p0    #0       answer  done
       1  p0    #1       call    read x
       1  p0    #1       answer  value 5
order 2
p0 #0
p0 #1
points 2
p0 #0 at 0
p0 #1 at 1
end
";

/// A report of version 3: a compare-and-swap is done, and the next one finds its value.
pub(crate) const COMPARED: &str = "awreg report 3
front linear
processes 1
registers 1
x
history 4
       0  p0    #0       call    cas x 0 5
       0  p0    #0       answer  done
       1  p0    #1       call    cas x 0 6
       1  p0    #1       answer  unequal
order 2
p0 #0
p0 #1
points 2
p0 #0 at 0
p0 #1 at 1
end
";

/// A report of version 1: a read misses a write that was answered before its call.
pub(crate) const NO_POINTS: &str = "awreg report 1
front local-read
processes 3
registers x
history 4
       0  p0    #0       call    write x 5
       4  p0    #0       answer  done
       5  p1    #0       call    read x
       5  p1    #0       answer  value 0
order 2
p1 #0
p0 #0
end
";

/// `NO_POINTS`, in version 2.
pub(crate) const NO_POINTS_NOW: &str = "awreg report 2
front local-read
processes 3
registers 1
x
history 4
       0  p0    #0       call    write x 5
       4  p0    #0       answer  done
       5  p1    #0       call    read x
       5  p1    #0       answer  value 0
order 2
p1 #0
p0 #0
end
";
