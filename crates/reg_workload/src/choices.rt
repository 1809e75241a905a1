//! What can happen next in a seeded play. Between turns it is kept as bits, and a turn looks again only at what its
//! choice touched: a wire that is taken from, and what the process of the event can do. So it costs as many looks as
//! there are processes, and not their square.
ghost use Rattle.std.specs.Prelude.{◌≡◌, ◌<◌, ◌≤◌, ◌≢◌, ◌+◌, ◌%◌, ◌^◌, ◌∷◌, ℕ, [], Some, true, false, length};
ghost use Rattle.std.specs.Prelude.{count_ones, IfOk, MatchResult, slice_get};
ghost use Rattle.std.specs.Int.{bit_at};
ghost use Rattle.reg_base.specs.declared.limits.TheConstants.{MOST_PROCESSES};
ghost use Rattle.reg_workload.specs.Listed.{bit_of, may_take, takes_at, AreBits, Lists, ListsWire, AreListed};
ghost use Rattle.reg_workload.specs.Listed.{AreOthersListed, IsWithin};
ghost use Rattle.reg_workload.specs.Seeded.{take_choice, take_choices, choices_of};

use crate::playing::{Player, WIDTH};
use reg_front::FrontEnd;
use reg_world::WireStore;
use std::alloc::Allocator;

/// What can happen next.
#[derive(Clone, Copy)]
pub(crate) enum Choice {
    /// The process calls its next operation.
    Call { process: u8 },
    /// The next frame of this wire is taken, or lost.
    Take { from: u8, to: u8, number: u32 },
    /// The process puts frames again.
    Tick { process: u8 },
}

/// What can happen next, with a bit for each process.
#[derive(Drop)]
pub(crate) struct Chances {
    /// The processes that can call.
    calls: u64,
    /// By sender, the receivers of frames that can be taken.
    takes: [u64; WIDTH],
    /// The processes that can put frames again.
    ticks: u64,
}

/// These bits, with the one at a place set or not.
fn with_bit(bits: u64, place: u8, is_set: bool) -> u64
    requires { place < MOST_PROCESSES }
    ensures few { (n : ℕ) → place < n → bits < 2 ^ n → result < 2 ^ n }
    ensures here { bit_at result place ≡ bit_of is_set }
    ensures others { (i : ℕ) → i < MOST_PROCESSES → i ≢ place → bit_at result i ≡ bit_at bits i }
{
    let bit = 1u64 << u32::from(place);
    if is_set { bits | bit } else { bits & !bit }
}

/// The place of the set bit that `count` set bits are before; where there is none, how many more `count` is than there
/// are set bits.
fn nth_bit(bits: u64, count: u32) -> Result<u8, u32>
    ensures set { IfOk result (λ place. bit_at bits place ≡ 1) }
    ensures count { MatchResult result (λ place. count ≡ count_ones (bits % 2 ^ place))
        (λ left. count ≡ count_ones bits + left) }
{
    let all = bits.count_ones();
    if all <= count {
        return Err(count - all);
    }
    let mut left = count;
    for place in 0..64u32 {
        let here = (bits >> place & 1) as u32;
        if left < here {
            return Ok(place as u8);
        }
        left -= here;
    }
    unreachable!()
}

/// The receivers of frames that can be taken from a process. Those that are known are not looked at again.
fn takes_from<F: FrontEnd, A: Allocator + Copy, W: WireStore<A>>(
    player: &Player<'_, F, A, W>,
    from: u8,
    known: u64,
) -> u64
    requires going { player.now.made.failed ≡ false }
    requires from { from < player.now.made.processes }
    requires few { player.now.made.processes ≤ MOST_PROCESSES }
    requires few_known { known < 2 ^ player.now.made.processes }
    requires known { (to : ℕ) → to < player.now.made.processes → bit_at known to ≡ 1
        → may_take F.start player.now from to ≡ true }
    ensures { AreBits player.now.made.processes (may_take F.start player.now from) result }
{
    let mut takes = known;
    let seen = with_bit(known, from, true);
    for to in 0..player.processes() {
        let bit = seen >> u32::from(to) & 1;
        if bit == 0 {
            takes = with_bit(takes, to, player.frame(from, to).is_some());
        }
    }
    takes
}

/// The take of the next frame of a wire.
fn next_take<F: FrontEnd, A: Allocator + Copy, W: WireStore<A>>(
    player: &Player<'_, F, A, W>,
    from: u8,
    to: u8,
) -> Choice
    requires going { player.now.made.failed ≡ false }
    requires from { from < player.now.made.processes }
    requires to { to < player.now.made.processes }
    requires some { may_take F.start player.now from to ≡ true }
    ensures { take_choice F.start player.now from to ≡ result ∷ [] }
{
    let Some(number) = player.frame(from, to) else {
        unreachable!()
    };
    Choice::Take { from, to, number }
}

impl Chances {
    /// What can happen next.
    pub(crate) fn new<F: FrontEnd, A: Allocator + Copy, W: WireStore<A>>(
        player: &Player<'_, F, A, W>,
    ) -> Chances
        requires { player.now.made.failed ≡ false }
        ensures { AreListed F.start player.now result }
    {
        let mut chances = Chances {
            calls: 0,
            takes: [0; WIDTH],
            ticks: 0,
        };
        for process in 0..player.processes() {
            chances.list(player, process);
        }
        chances
    }

    /// Lists anew what a process can do, and which of its frames can be taken. A frame that could be taken still can.
    fn list<F: FrontEnd, A: Allocator + Copy, W: WireStore<A>>(
        &mut self,
        player: &Player<'_, F, A, W>,
        process: u8,
    )
        requires going { player.now.made.failed ≡ false }
        requires process { process < player.now.made.processes }
        requires few { player.now.made.processes ≤ MOST_PROCESSES }
        requires few_takes { takes_at self.old process < 2 ^ player.now.made.processes }
        requires known { (to : ℕ) → to < player.now.made.processes → bit_at (takes_at self.old process) to ≡ 1
            → may_take F.start player.now process to ≡ true }
        ensures { Lists F.start player.now process self.old self.new }
    {
        self.calls = with_bit(self.calls, process, player.may_call(process));
        self.ticks = with_bit(self.ticks, process, player.is_pending(process));
        let place = usize::from(process);
        self.takes[place] = takes_from(player, process, self.takes[place]);
    }

    /// Lists anew whether a frame of this wire can be taken.
    fn list_wire<F: FrontEnd, A: Allocator + Copy, W: WireStore<A>>(
        &mut self,
        player: &Player<'_, F, A, W>,
        from: u8,
        to: u8,
    )
        requires going { player.now.made.failed ≡ false }
        requires from { from < player.now.made.processes }
        requires to { to < player.now.made.processes }
        requires few { player.now.made.processes ≤ MOST_PROCESSES }
        ensures { ListsWire F.start player.now from to self.old self.new }
    {
        let place = usize::from(from);
        let is_some = player.frame(from, to).is_some();
        self.takes[place] = with_bit(self.takes[place], to, is_some);
    }

    /// Lists anew what a choice that was made has touched.
    pub(crate) fn list_again<F: FrontEnd, A: Allocator + Copy, W: WireStore<A>>(
        &mut self,
        player: &Player<'_, F, A, W>,
        choice: Choice,
    )
        requires going { player.now.made.failed ≡ false }
        requires within { IsWithin player.now.made.processes choice }
        requires others { AreOthersListed F.start player.now choice self.old }
        ensures { AreListed F.start player.now self.new }
    {
        match choice {
            Choice::Call { process } => self.list(player, process),
            Choice::Take {
                from,
                to,
                number: _,
            } => {
                self.list_wire(player, from, to);
                self.list(player, to);
            }
            Choice::Tick { process } => self.list(player, process),
        }
    }

    /// How many choices there are.
    pub(crate) fn count<F: FrontEnd, A: Allocator + Copy, W: WireStore<A>>(
        &self,
        player: &Player<'_, F, A, W>,
    ) -> u32
        requires { AreListed F.start player.now self.now }
        ensures { result ≡ length (choices_of F.start player.now) }
    {
        let mut total = self.calls.count_ones() + self.ticks.count_ones();
        for from in 0..player.processes() {
            total += self.takes[usize::from(from)].count_ones();
        }
        total
    }

    /// The take at this place of all takes, or how far after them it is.
    fn nth_take<F: FrontEnd, A: Allocator + Copy, W: WireStore<A>>(
        &self,
        player: &Player<'_, F, A, W>,
        place: u32,
    ) -> Result<Choice, u32>
        requires going { player.now.made.failed ≡ false }
        requires listed { AreListed F.start player.now self.now }
        ensures { MatchResult result
            (λ c. slice_get (take_choices F.start player.now player.now.made.processes) place ≡ Some c)
            (λ left. place ≡ length (take_choices F.start player.now player.now.made.processes) + left) }
    {
        let mut left = place;
        for from in 0..player.processes() {
            match nth_bit(self.takes[usize::from(from)], left) {
                Ok(to) => return Ok(next_take(player, from, to)),
                Err(rest) => left = rest,
            }
        }
        Err(left)
    }

    /// The choice at this place of all that can happen next: the calls by process, the takes by sender and then by
    /// receiver, and the ticks by process.
    pub(crate) fn nth<F: FrontEnd, A: Allocator + Copy, W: WireStore<A>>(
        &self,
        player: &Player<'_, F, A, W>,
        place: u32,
    ) -> Option<Choice>
        requires going { player.now.made.failed ≡ false }
        requires listed { AreListed F.start player.now self.now }
        ensures { result ≡ slice_get (choices_of F.start player.now) place }
    {
        let after_calls = match nth_bit(self.calls, place) {
            Ok(process) => return Some(Choice::Call { process }),
            Err(left) => left,
        };
        let after_takes = match self.nth_take(player, after_calls) {
            Ok(choice) => return Some(choice),
            Err(left) => left,
        };
        match nth_bit(self.ticks, after_takes) {
            Ok(process) => Some(Choice::Tick { process }),
            Err(_) => None,
        }
    }
}
