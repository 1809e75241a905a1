//! Which looks at a link make its station tick.
use reg_live::Beat;

/// The first frame that isn't acknowledged, whether mail waits, and whether the station ticks, at looks one after
/// another: an answer and mail put off a tick.
const ANSWERED: &[(Option<u64>, bool, bool)] = &[
    (None, false, false),
    (Some(7), false, false),
    (Some(7), true, false),
    (Some(7), false, true),
    (Some(8), false, false),
    (Some(8), false, true),
    (None, false, false),
];

#[test]
fn an_answer_and_mail_put_off_a_tick(rt: HostRuntime) {
    let mut beat = Beat::new();
    for (first, mail, ticks) in ANSWERED {
        assert!(rt; beat.look(*first, *mail) == *ticks, "{first:?} {mail}");
    }
}

/// The looks that make the first ticks, behind the one that sees the frame first.
const LOOKS: [u32; 9] = [1, 3, 7, 15, 31, 63, 127, 227, 327];

/// How many looks there are in an hour, 10 milliseconds apart.
const HOUR: u32 = 360_000;

/// A peer that has stopped costs some one tick a second in the end.
#[test]
fn ticks_come_later_and_later(rt: HostRuntime) {
    let mut beat = Beat::new();
    let mut ticks = u32::from(beat.look(Some(7), false));
    for look in 1..HOUR {
        let is_tick = beat.look(Some(7), false);
        ticks = ticks.wrapping_add(u32::from(is_tick));
        assert!(rt; look > 327 || is_tick == LOOKS.contains(&look), "{look}");
    }
    assert!(rt; ticks == 9 + 3_596, "{ticks}");
}

/// What comes ends a silence of 127 looks or more, and no shorter one. Then looks are counted anew.
#[test]
fn what_comes_ends_a_long_silence(rt: HostRuntime) {
    let mut beat = Beat::new();
    let mut is_tick = beat.look(Some(7), false);
    for look in 1..=126 {
        beat.hear();
        is_tick = beat.look(Some(7), false);
        assert!(rt;
            is_tick == LOOKS.contains(&look) && !beat.is_long(),
            "{look}"
        );
    }
    is_tick = beat.look(Some(7), false);
    assert_eq!(rt; (is_tick, beat.is_long()), (true, true));
    beat.hear();
    assert_eq!(rt; (beat.is_long(), beat.look(Some(7), false)), (false, true));
}
