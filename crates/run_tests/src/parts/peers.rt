//! When a node greets a peer that is silent, and when it ticks, as worked by hand.
use crate::demands::{demand, shape_of};
use crate::parts::nodes::{CALL_WRITE, TAKE_ACK};
use reg_base::Op;
use reg_frames::Frame;
use reg_front::{FrontEnd, Linear, LocalWrite};
use reg_node::{Look, MeetingNode, Peers, Step};
use std::process::Abort;

/// What happens to a node of two, and to what it knows of the other one.
#[derive(Clone, Copy, Debug)]
enum Deed {
    /// It hears how many of its bodies the other one accepted.
    Greeted,
    Make(Step),
    /// It makes so many writes, none of which waits for another.
    Write(u64),
    /// Something came from the other one, at which it isn't to tick.
    Came,
    /// The other one acknowledges so many bodies, and it is to tick or isn't.
    Got {
        count: u64,
        ticks: bool,
    },
    /// Looks at a process: those at which it is to be greeted, and those at which the node is to tick.
    Looks {
        peer: u8,
        count: u32,
        greets: &'static [u32],
        ticks: &'static [u32],
    },
}

const TAKE_GOT: Step = Step::Take {
    from: 1,
    frame: Frame::Got { count: 1 },
};

macro_rules! looks {
    ($peer:expr, $count:expr, $greets:expr, $ticks:expr) => {
        Deed::Looks {
            peer: $peer,
            count: $count,
            greets: &$greets,
            ticks: &$ticks,
        }
    };
}

macro_rules! got {
    ($count:expr, $ticks:expr) => {
        Deed::Got {
            count: $count,
            ticks: $ticks,
        }
    };
}

/// Who wasn't heard is greeted. Then a frame makes the node tick, until the other one is silent for long. It begins
/// anew with the next frame.
const PAUSES: &[Deed] = &[
    looks!(1, 500, [1, 3, 7, 15, 31, 63, 127, 227, 327, 427], []),
    Deed::Greeted,
    looks!(1, 500, [], []),
    Deed::Make(CALL_WRITE),
    looks!(1, 500, [128, 228, 328, 428], [2, 4, 8, 16, 32, 64]),
    Deed::Make(TAKE_GOT),
    Deed::Make(TAKE_ACK),
    Deed::Make(CALL_WRITE),
    looks!(1, 500, [128, 228, 328, 428], [2, 4, 8, 16, 32, 64]),
    looks!(0, 500, [], []),
    looks!(2, 500, [], []),
    looks!(255, 500, [], []),
];

/// What comes counts anew who was silent for long, and nobody else.
const ANEW: &[Deed] = &[
    Deed::Greeted,
    Deed::Make(CALL_WRITE),
    looks!(1, 500, [128, 228, 328, 428], [2, 4, 8, 16, 32, 64]),
    Deed::Came,
    looks!(1, 126, [], [1, 3, 7, 15, 31, 63]),
    Deed::Came,
    looks!(1, 1, [1], []),
    Deed::Make(TAKE_GOT),
    looks!(1, 500, [], []),
];

/// What was dropped behind a frame that was lost is put again as fast as it is acknowledged, 16 at a time: until a tick
/// puts all again that is left.
const DROPPED: &[Deed] = &[
    Deed::Greeted,
    Deed::Write(50),
    looks!(1, 2, [], [2]),
    got!(15, false),
    got!(16, true),
    got!(16, false),
    got!(32, true),
    Deed::Write(10),
    got!(48, true),
    got!(60, false),
    looks!(1, 500, [], []),
];

/// A peer that acknowledges more than was put again takes frames as they come.
const IN_STEP: &[Deed] = &[
    Deed::Greeted,
    Deed::Write(50),
    looks!(1, 2, [], [2]),
    got!(17, false),
    got!(32, false),
    looks!(1, 2, [], [2]),
    looks!(1, 1, [], []),
    got!(47, false),
    got!(48, true),
    got!(49, false),
];

/// Whether the looks find this.
fn find<F: FrontEnd>(
    peers: &mut Peers,
    node: &MeetingNode<F>,
    peer: u8,
    count: u32,
    due: (&[u32], &[u32]),
) -> bool {
    for at in 1..=count {
        let greets = due.0.contains(&at);
        let ticks = due.1.contains(&at);
        if peers.look(node, peer) != (Look { greets, ticks }) {
            return false;
        }
    }
    true
}

/// Whether so many writes are made, each at once.
fn writes<F: FrontEnd>(node: &mut MeetingNode<F>, count: u64) -> bool {
    (0..count).all(|value| {
        let op = Op::Write { register: 0, value };
        node.step(&Step::Call { op }).is_ok()
    })
}

/// Whether the deed goes as it says.
fn goes<F: FrontEnd>(node: &mut MeetingNode<F>, peers: &mut Peers, deed: &Deed) -> bool {
    match deed {
        Deed::Greeted => node.hear(1, 0).is_ok(),
        Deed::Make(step) => node.step(step).is_ok(),
        Deed::Write(count) => writes(node, *count),
        Deed::Came => !peers.hear(node, 1),
        Deed::Got { count, ticks } => {
            let frame = Frame::Got { count: *count };
            node.step(&Step::Take { from: 1, frame }).is_ok() && peers.hear(node, 1) == *ticks
        }
        Deed::Looks {
            peer,
            count,
            greets,
            ticks,
        } => find(peers, node, *peer, *count, (greets, ticks)),
    }
}

fn follow<F: FrontEnd>(rt: &(impl Abort + AllocGlobal), deeds: &[Deed]) {
    let node = MeetingNode::<F>::open(rt.alloc(), shape_of(rt, 2), 0, &[]);
    let (mut node, peers) = (node.expect(rt, "a node"), Peers::new(rt.alloc(), 2));
    let mut peers = peers.expect(rt, "memory");
    for deed in deeds {
        demand(rt, deed, goes(&mut node, &mut peers, deed));
    }
}

#[test]
fn pauses_grow(rt: HostRuntime) {
    follow::<Linear>(&rt, PAUSES);
}

#[test]
fn who_was_silent_for_long_is_looked_at_anew_once_something_came(rt: HostRuntime) {
    follow::<Linear>(&rt, ANEW);
}

#[test]
fn what_was_dropped_behind_a_lost_frame_is_put_again_as_it_is_acknowledged(rt: HostRuntime) {
    follow::<LocalWrite>(&rt, DROPPED);
    follow::<LocalWrite>(&rt, IN_STEP);
}

#[test]
fn a_peer_is_silent_for_long_after_127_looks(rt: HostRuntime) {
    let node = MeetingNode::<Linear>::open(rt.alloc(), shape_of(&rt, 3), 0, &[]);
    let node = node.expect(&rt, "a node");
    let mut peers = Peers::new(rt.alloc(), 3).expect(&rt, "memory");
    for look in 1..=127 {
        peers.look(&node, 1);
        assert!(rt; peers.is_long(1) == (look == 127), "{look}");
    }
    assert_eq!(rt; (peers.is_long(2), peers.is_long(3)), (false, false));
    assert_eq!(rt; (peers.hear(&node, 2), peers.is_long(1)), (false, true));
    assert_eq!(rt; (peers.hear(&node, 3), peers.is_long(1)), (false, true));
    assert_eq!(rt; (peers.hear(&node, 1), peers.is_long(1)), (false, false));
}

#[test]
fn a_node_has_heard_from_whom_it_heard(rt: HostRuntime) {
    let node = MeetingNode::<Linear>::open(rt.alloc(), shape_of(&rt, 3), 0, &[]);
    let mut node = node.expect(&rt, "a node");
    assert_eq!(rt;
        (node.has_heard(1), node.has_heard(2), node.has_heard(3)),
        (false, false, false)
    );
    let heard = node.hear(2, 0);
    assert_eq!(rt;
        (heard.is_ok(), node.has_heard(1), node.has_heard(2)),
        (true, false, true)
    );
}
