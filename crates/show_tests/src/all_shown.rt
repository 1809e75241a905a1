//! All outcomes of a workload, by the command that prints them: a text worked out by hand, and a refusal.
use crate::given::{Task, tells};

// One of the two has the lock, and which one has it is the one whose turn is first.
#[test]
fn a_lock_by_swaps(rt: HostRuntime) {
    let text =
        "registers = [\"lock\"]\nscripts = [[\"swap lock 1\"], [\"swap lock 1\"]]\nfront = \"linear\"\n";
    let shown = "operations 2
stages 5
outcomes 2
p0 #0 value 0  p1 #0 value 1  turns 0 1
p0 #0 value 1  p1 #0 value 0  turns 1 0
never 2
p0 #0 value 0  p1 #0 value 0
p0 #0 value 1  p1 #0 value 1
";
    assert!(rt; tells(rt.alloc(), Task::AllOutcomes, text, (0, shown, "")));
}

// The word stands without a value, so that the text is no document.
#[test]
fn no_workload(rt: HostRuntime) {
    let told = (1, "", "toml\n");
    assert!(rt; tells(rt.alloc(), Task::AllOutcomes, "registers", told));
}
