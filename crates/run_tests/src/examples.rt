//! Examples that stand in no other table, with what the tutorial says of them. The texts are those of the folder
//! `examples`.
use crate::commands::{Given, gives};
use crate::demands::demand;
use reg_commands::Command;

/// An example, the command that reads it, and what it gives.
struct Example {
    command: Command,
    text: &'static str,
    given: Given<'static>,
}

const EXAMPLES: &[Example] = &[
    // Two swaps as a lock.
    Example {
        command: Command::Replay,
        text: "# A lock taken by swaps: the one that answers 0 has it, and the other knows that it is taken.
processes 2
registers lock
front linear
call 0 swap lock 1
call 1 swap lock 1
# process 1 takes the cast of process 0, and delivers it
take 0 1 0
# process 0 takes the cast of process 1, and delivers both: its own swap answers 0
take 1 0 0
# process 1 takes the acknowledgement of process 0, and delivers its own swap, which answers 1
take 0 1 2
",
        given: Given::Accepted(
            "awreg report 2
front linear
processes 2
registers 1
lock
history 4
       0  p0    #0       call    swap lock 1
       1  p1    #0       call    swap lock 1
       3  p0    #0       answer  value 0
       4  p1    #0       answer  value 1
order 2
p0 #0
p1 #0
points 2
p0 #0 at 2
p1 #0 at 3
end
",
        ),
    },
    // Points that fall, of a read that missed a write.
    Example {
        command: Command::Check,
        text: "awreg report 1
front linear
processes 2
registers x
history 4
       0  p0    #0       call    write x 5
       2  p0    #0       answer  done
       3  p1    #0       call    read x
       4  p1    #0       answer  value 0
order 2
p1 #0
p0 #0
points 2
p1 #0 at 3
p0 #0 at 2
end
",
        given: Given::Denied(
            "serial yes
points no: falling at 1
",
        ),
    },
    // A read that misses the write of its own process.
    Example {
        command: Command::Check,
        text: "awreg report 1
front local-write
processes 2
registers x
history 4
       0  p0    #0       call    write x 5
       0  p0    #0       answer  done
       1  p0    #1       call    read x
       3  p0    #1       answer  value 0
order 2
p0 #1
p0 #0
end
",
        given: Given::Denied(
            "serial no: own order
",
        ),
    },
    // A fair play of a workload.
    Example {
        command: Command::Play { fair: true },
        text: "# Writes that are answered at once, and reads that wait for the own ones. One frame of five is lost, and one of five
# can be taken again: each seed gives another run, and each run is sequentially consistent.
front = \"local-write\"
registers = [\"x\"]
scripts = [[\"write x 5\", \"read x\"], [\"read x\"]]
seed = 0
loss = 20
repeat = 20
",
        given: Given::Accepted(
            "awreg report 2
front local-write
processes 2
registers 1
x
history 6
       0  p0    #0       call    write x 5
       0  p0    #0       answer  done
       1  p1    #0       call    read x
       1  p1    #0       answer  value 0
       4  p0    #1       call    read x
       5  p0    #1       answer  value 5
order 3
p1 #0
p0 #0
p0 #1
end
",
        ),
    },
];

#[test]
fn each_example_is_answered_as_the_tutorial_says(rt: HostRuntime) {
    for example in EXAMPLES {
        let parts = (example.text, "");
        let right = gives(rt.alloc(), example.command, parts, example.given);
        demand(&rt, &example.text, right);
    }
}
