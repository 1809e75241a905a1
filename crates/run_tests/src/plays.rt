//! Plays of a small workload: how they end, and the words of seeds.
use crate::demands::demand_same;
use reg_front::LocalWrite;
use reg_workload::{Play, SeedWords, Words, Workload, play_fair, play_seeded};
use std::alloc::{AllocError, Global};

/// A write and a read at process 0, and a read at process 1.
pub(crate) const SMALL: &str =
    "front = \"local-write\"\nregisters = [\"x\"]\nscripts = [[\"write x 5\", \"read x\"], [\"read x\"]]\n";

/// The lines with which one frame of five is lost, and one of five can be taken again.
pub(crate) const LOSSY: &str = "loss = 20\nrepeat = 20\n";

/// The document of the small workload, with these lines more.
pub(crate) fn small_with(alloc: Global, lines: &str) -> Result<String, AllocError> {
    format!(in alloc; "{SMALL}{lines}")
}

/// The workload of a document in two parts, with this budget. None where it isn't one, or memory is refused.
pub(crate) fn work_of(alloc: Global, head: &str, lines: &str, budget: u32) -> Option<Workload> {
    let text = format!(in alloc; "{head}{lines}budget = {budget}\n").ok()?;
    Workload::from_toml(alloc, text.as_str()).ok()
}

/// A source of words of a user's own, which gives 0 each time.
#[derive(Drop)]
struct Noughts {}

impl Words for Noughts {
    ghost next_word = { λ s. (0, s) };

    fn word(&mut self) -> u32 {
        0
    }
}

/// Where a play takes its events from.
#[derive(Clone, Copy, Debug)]
enum Source {
    Turns,
    Noughts,
    Seed(u64),
}

/// Lines of a workload beside those of the small one, where its play takes its events from, whether it is finished, and
/// after how many events. Where a play of noughts can call, it does, and else it takes the first frame that it can.
const ENDS: &[(&str, Source, bool, u32)] = &[
    ("", Source::Turns, true, 7),
    ("", Source::Noughts, true, 7),
    ("budget = 7\n", Source::Turns, true, 7),
    ("budget = 3\n", Source::Turns, false, 3),
    ("budget = 3\n", Source::Noughts, false, 3),
    ("budget = 2\n", Source::Seed(0), false, 2),
];

/// Whether a play is finished, and after how many events. None where memory is refused.
fn end_of(made: Result<Play<LocalWrite>, AllocError>) -> Option<(bool, u32)> {
    match made {
        Ok(play) => Some((play.finished, play.world.events())),
        Err(_) => None,
    }
}

/// How the play of a workload ends.
fn end_of_work(alloc: Global, work: &Workload, source: Source) -> Option<(bool, u32)> {
    match source {
        Source::Turns => end_of(play_fair(alloc, work)),
        Source::Noughts => end_of(play_seeded(alloc, work, Noughts {})),
        Source::Seed(seed) => end_of(play_seeded(alloc, work, SeedWords::new(seed))),
    }
}

/// How the play of the small workload with these lines more ends.
fn end_of_small(alloc: Global, lines: &str, source: Source) -> Option<(bool, u32)> {
    let text = small_with(alloc, lines).ok()?;
    match Workload::from_toml(alloc, text.as_str()) {
        Ok(work) => end_of_work(alloc, &work, source),
        Err(_) => None,
    }
}

#[test]
fn plays_end_as_worked_by_hand(rt: HostRuntime) {
    for (lines, source, finished, events) in ENDS {
        let end = end_of_small(rt.alloc(), lines, *source);
        demand_same(&rt, &(lines, source), &end, &Some((*finished, *events)));
    }
}

/// Seeds, and the first words of each, as another program gives them.
const WORDS: &[(u64, [u32; 4])] = &[
    (0, [298_703_107, 4_236_525_527, 336_081_875, 1_056_616_254]),
    (1, [866_585_574, 2_109_535_214, 3_403_630_417, 296_513_984]),
    (2, [663_514_024, 4_050_668_357, 535_747_897, 1_254_972_678]),
    (
        7,
        [2_442_223_337, 414_063_806, 2_743_600_285, 3_524_868_804],
    ),
    (
        9,
        [3_429_093_174, 673_120_095, 3_444_530_991, 1_995_233_291],
    ),
    (
        4_294_967_296,
        [2_453_921_566, 4_255_440_720, 3_139_794_758, 1_567_179_675],
    ),
    (
        9_223_372_036_854_775_807,
        [3_391_299_319, 3_225_704_766, 1_847_434_698, 1_449_080_491],
    ),
];

/// The first words of a seed.
fn words_of(seed: u64) -> [u32; 4] {
    let mut source = SeedWords::new(seed);
    [source.word(), source.word(), source.word(), source.word()]
}

#[test]
fn seeds_have_their_words(rt: HostRuntime) {
    for (seed, words) in WORDS {
        demand_same(&rt, seed, &words_of(*seed), words);
    }
}
