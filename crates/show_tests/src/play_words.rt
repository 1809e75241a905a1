//! Lines of the commands of `awshow` that have flags of players and plays, and what each asks for.
use reg_show_cli::{Asked, Player};

/// Lines of `schedule`, and what each asks for.
pub(crate) const SCHEDULES: [(&str, Option<Asked<'static>>); 27] = [
    (
        "schedule",
        Some(Asked::Schedule {
            player: Player::Seeded { seed: None },
        }),
    ),
    (
        "schedule --seed 0",
        Some(Asked::Schedule {
            player: Player::Seeded { seed: Some(0) },
        }),
    ),
    (
        "schedule --seed 89",
        Some(Asked::Schedule {
            player: Player::Seeded { seed: Some(89) },
        }),
    ),
    (
        "schedule --seed 9223372036854775807",
        Some(Asked::Schedule {
            player: Player::Seeded {
                seed: Some(9_223_372_036_854_775_807),
            },
        }),
    ),
    ("schedule --seed 9223372036854775808", None),
    ("schedule --seed 18446744073709551616", None),
    ("schedule --seed 01", None),
    ("schedule --seed -1", None),
    ("schedule --seed", None),
    ("schedule --seed=5", None),
    ("schedule --seed 5 5", None),
    ("schedule --seed 5 --seed 5", None),
    ("schedule --fair --seed 5", None),
    ("schedule --seed 5 --fair", None),
    ("schedule --plays 5", None),
    (
        "schedule --fair",
        Some(Asked::Schedule {
            player: Player::Fair,
        }),
    ),
    (
        "schedule --short",
        Some(Asked::ShortSchedule {
            player: Player::Seeded { seed: None },
        }),
    ),
    (
        "schedule --fair --short",
        Some(Asked::ShortSchedule {
            player: Player::Fair,
        }),
    ),
    (
        "schedule --short --fair",
        Some(Asked::ShortSchedule {
            player: Player::Fair,
        }),
    ),
    (
        "schedule --seed 89 --short",
        Some(Asked::ShortSchedule {
            player: Player::Seeded { seed: Some(89) },
        }),
    ),
    (
        "schedule --short --seed 89",
        Some(Asked::ShortSchedule {
            player: Player::Seeded { seed: Some(89) },
        }),
    ),
    ("schedule --short --short", None),
    ("schedule --seed --short", None),
    ("schedule --short --seed 9223372036854775808", None),
    ("schedule --fair --short --seed 5", None),
    ("schedule schedule", None),
    ("schedule --fair --fair", None),
];

/// Lines of `outcomes`, and what each asks for.
pub(crate) const OUTCOMES: [(&str, Option<Asked<'static>>); 29] = [
    (
        "outcomes",
        Some(Asked::Outcomes {
            plays: 1_000,
            seed: None,
        }),
    ),
    (
        "outcomes --plays 1",
        Some(Asked::Outcomes {
            plays: 1,
            seed: None,
        }),
    ),
    (
        "outcomes --plays 1000000",
        Some(Asked::Outcomes {
            plays: 1_000_000,
            seed: None,
        }),
    ),
    (
        "outcomes --seed 7",
        Some(Asked::Outcomes {
            plays: 1_000,
            seed: Some(7),
        }),
    ),
    (
        "outcomes --plays 9 --seed 7",
        Some(Asked::Outcomes {
            plays: 9,
            seed: Some(7),
        }),
    ),
    (
        "outcomes --seed 7 --plays 9",
        Some(Asked::Outcomes {
            plays: 9,
            seed: Some(7),
        }),
    ),
    ("outcomes --seed 9223372036854775808", None),
    ("outcomes --seed 7 --plays 0", None),
    ("outcomes --plays 0 --seed 7", None),
    ("outcomes --plays 9 --seed", None),
    ("outcomes --plays 9 --plays 9", None),
    ("outcomes --all --seed 7", None),
    ("outcomes --all 3 --seed 7", None),
    ("outcomes --fair", None),
    ("outcomes --all", Some(Asked::AllOutcomes)),
    ("outcomes --all 1", Some(Asked::Outcome { number: 1 })),
    (
        "outcomes --all 4294967295",
        Some(Asked::Outcome {
            number: 4_294_967_295,
        }),
    ),
    ("outcomes --all 0", None),
    ("outcomes --all 4294967296", None),
    ("outcomes --all 3 3", None),
    ("outcomes --plays --all", None),
    ("outcomes --plays", None),
    ("outcomes --plays 0", None),
    ("outcomes --plays 01", None),
    ("outcomes --plays 1000001", None),
    ("outcomes --plays=5", None),
    ("outcomes 5", None),
    ("outcomes --plays 5 --", None),
    ("--plays 5 outcomes", None),
];
