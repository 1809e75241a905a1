//! Plays and tables by a seed that is given, in place of the workload's.
use crate::litmus::table;
use crate::values::scheduled;
use reg_show::Player;
use std::alloc::Global;

/// A workload that says no seed, so that it is 0.
const WORK: &str = "front = \"local-read\"
registers = [\"x\", \"y\"]
scripts = [[\"write x 1\", \"read y\"], [\"write y 1\", \"read x\"]]
loss = 20
repeat = 20
";

/// The schedule of the play of a workload, by this seed or by the document's own. Empty where it is refused.
fn schedule(alloc: Global, seed: Option<u32>, text: &str) -> String {
    let seed = match seed {
        Some(seed) => Some(seed as u64),
        None => None,
    };
    let (status, output, errors) = scheduled(alloc, Player::Seeded { seed }, text.as_bytes());
    match String::from_utf8(output) {
        Ok(schedule) if status == 0 && errors.is_empty() => schedule,
        _ => String::new(alloc),
    }
}

/// Whether what a given seed makes is what the same seed makes where the document says it, and not what the document's
/// own makes.
fn is_as_said(given: &str, said: &str, own: &str) -> bool {
    !given.is_empty() && given == said && given != own
}

/// Whether the schedule by a seed is that of the document that says it, and another than that by the document's own.
fn plays_by(alloc: Global, seed: u32, said: &str) -> bool {
    let by_given = schedule(alloc, Some(seed), WORK);
    let by_said = schedule(alloc, None, said);
    let by_own = schedule(alloc, None, WORK);
    is_as_said(by_given.as_str(), by_said.as_str(), by_own.as_str())
}

/// Whether the table from a seed on is that of the document that says it, and another than that from the document's own
/// on.
fn counts_from(alloc: Global, seed: u32, said: &str) -> bool {
    let by_given = table(alloc, 20, Some(seed), WORK);
    let by_said = table(alloc, 20, None, said);
    let by_own = table(alloc, 20, None, WORK);
    is_as_said(by_given.as_str(), by_said.as_str(), by_own.as_str())
}

/// Whether schedule and table by this seed are those of the document that says it.
fn is_taken(alloc: Global, seed: u32) -> bool {
    match format!(in alloc; "{WORK}seed = {seed}\n") {
        Ok(said) => plays_by(alloc, seed, said.as_str()) && counts_from(alloc, seed, said.as_str()),
        Err(_) => false,
    }
}

#[test]
fn a_seed_that_is_given_is_as_one_in_the_document(rt: HostRuntime) {
    for seed in [1u32, 62, u32::MAX] {
        assert!(rt; is_taken(rt.alloc(), seed), "{seed}");
    }
}
